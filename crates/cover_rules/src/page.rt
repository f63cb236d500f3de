//! Where a page stands in the cache.
ghost use Rattle.std.specs.Prelude.{◌≡◌, ◌&&◌, ◌==◌, ◌-◌, IfOk, IfSome, length};
ghost use Rattle.std.specs.List.{list_all};
ghost use Rattle.sp_base.specs.Paths.{mangled_seg};
ghost use Rattle.cover_rules.specs.Names as name;
ghost use Rattle.cover_rules.specs.Pages as spec;

use crate::has_name;
use crate::laws::the_key_of_a_path_is_a_page_key;
use crate::names::has_mangled_name;
use sp_base::{
    Mem, NoMemory, Path, PathFault, TextBuf, a_path_has_bytes, mangled_parts,
    mangling_and_unmangling, segments_and_their_spelling,
};
use std::alloc::Global;

/// Where a page stands in the cache: a file in a folder, both mangled.
#[derive(Drop)]
pub struct PageKey {
    pub folder: Path,
    pub file: TextBuf,
}

impl PageKey {
    pub fn duplicate(&self, alloc: Global) -> Mem<PageKey>
        ensures { IfOk result (λ key. key ≡ self.now) }
    {
        Ok(PageKey {
            folder: self.folder.duplicate(alloc)?,
            file: self.file.duplicate(alloc)?,
        })
    }

    /// The text of the page's path.
    pub fn text(&self, alloc: Global) -> Mem<TextBuf>
        ensures { IfOk result (λ text. text ≡ spec.page_text self.now) }
    {
        segments_and_their_spelling();
        let folder = self.folder.spelling();
        let file = self.file.text();
        let length = folder.len().saturating_add(file.len()).saturating_add(1);
        let mut text = String::with_capacity(alloc, length)?;
        text.push_str(folder)?;
        text.push_str("/")?;
        text.push_str(file)?;
        Ok(TextBuf::from(text))
    }
}

/// The key of the page at a path. There is none exactly where the path is the root, the last segment has no dot, or begins or ends
/// with one, another segment has a dot, or the file name of a segment is too long.
pub fn page_key(alloc: Global, path: &Path) -> Mem<Option<PageKey>>
    ensures key { IfOk result (λ key. key ≡ spec.page_key_of path.now) }
    ensures page { IfOk result (λ found. IfSome found spec.IsPageKey) }
{
    the_key_of_a_path_is_a_page_key();
    a_path_has_bytes(path);
    let _depth = path.depth();
    found_key(alloc, path)
}

fn found_key(alloc: Global, path: &Path) -> Mem<Option<PageKey>>
    ensures { IfOk result (λ key. key ≡ spec.page_key_of path.now) }
{
    mangling_and_unmangling();
    if path.depth() == 0 {
        return Ok(None);
    }
    match path.mangled(alloc) {
        Ok(path) => key_at(alloc, &path),
        Err(fault) => match fault {
            PathFault::NoMemory => Err(NoMemory),
            _ => Ok(None),
        },
    }
}

// The key at a mangled path.
fn key_at(alloc: Global, path: &Path) -> Mem<Option<PageKey>>
    ensures { IfOk result (λ key. key ≡ spec.key_at path.now) }
{
    let file = path.name();
    if !is_file(file) {
        return Ok(None);
    }
    if !have_names(path) {
        return Ok(None);
    }
    let folder = path.parent(alloc)?;
    if has_dot(folder.spelling()) {
        return Ok(None);
    }
    let file = TextBuf::of(alloc, file)?;
    Ok(Some(PageKey { folder, file }))
}

fn has_dot(text: &str) -> bool
    ensures { result ≡ spec.has_dot text.now }
{
    text.as_bytes().iter().any(|b| *b == b'.')
}

// Whether the folder of a page may have a segment, which isn't mangled yet.
pub(crate) fn is_folder_segment(seg: &str) -> bool
    ensures { result ≡ spec.is_folder_segment (mangled_seg seg.now) }
{
    let (mark, rest) = mangled_parts(seg);
    has_mangled_name(seg) && !(has_dot(mark) || has_dot(rest))
}

fn is_file(seg: &str) -> bool
    ensures { result ≡ spec.is_file seg.now }
{
    has_dot(seg) && (!seg.starts_with('.') && !seg.ends_with('.'))
}

// Whether each segment of a path has a file name.
fn have_names(path: &Path) -> bool
    ensures { result ≡ list_all name.has_file_name path.now }
{
    match path.relative() {
        Some(rest) => rest.split('/').all(|piece| has_name(piece)),
        None => true,
    }
}
