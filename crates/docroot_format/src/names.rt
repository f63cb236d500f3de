//! The names of the files of the docroot.
ghost use Rattle.std.specs.Prelude.{◌≡◌, ◌≤◌, ◌++◌, ◌∷◌, [], IfOk, IsTrue, OnOk, length, string_bytes};
ghost use Rattle.sp_base.specs.Paths.{mangled_seg, mangled_segs, most_segments};
ghost use Rattle.sp_outside.specs.Files.{IsName};
ghost use Rattle.cover_rules.specs.Names as file;
ghost use Rattle.docroot_format.specs.Names as spec;

use percent_encoding::percent_encode_byte;
use sp_base::{Mem, Path, TextBuf, mangled_parts};
use std::alloc::Global;

/// The file that counts the sessions.
pub const EPOCH_NAME: &str = ".epoch";

// What the name of a .stat file ends in.
const STAT: &str = ".stat";

fn is_plain(b: u8) -> bool
    ensures { result ≡ file.is_plain_name_byte b }
{
    b.is_ascii_alphanumeric() || (b == b'.' || (b == b'_' || b == b'-'))
}

// Adds what a byte is in a file's name.
#[tactic(auto, unfolding(percent_encoding::specs::Percent::percent_encode_byte))]
fn push_byte(name: &mut String, b: u8) -> Mem<()>
    ensures { OnOk result (string_bytes name.new ≡ string_bytes name.old ++ file.file_byte b) }
{
    if is_plain(b) {
        name.push(b as char)?;
    } else {
        name.push_str(percent_encode_byte(b))?;
    }
    Ok(())
}

// Adds a segment's file name.
#[tactic(auto, using(crate::proofs::NameLemmas::byte_more), unfolding(cover_rules::specs::Names::file_name))]
fn push_segment(name: &mut String, seg: &str) -> Mem<()>
    ensures { OnOk result (string_bytes name.new ≡ string_bytes name.old ++ file.file_name seg.now) }
{
    for b in seg.as_bytes() {
        push_byte(name, *b)?;
    }
    Ok(())
}

// Adds a mangled segment's file name, and a slash.
fn push_piece(name: &mut String, seg: &str) -> Mem<()>
    ensures { OnOk result (string_bytes name.new ≡ string_bytes name.old ++ (file.file_name seg.now ++ 47 ∷ [])) }
{
    push_segment(name, seg)?;
    name.push_str("/")?;
    Ok(())
}

fn folder_name(alloc: Global, folder: &Path) -> Mem<String>
    ensures name { IfOk result (λ name. string_bytes name ≡ spec.folder_name folder.now) }
    ensures deep { length folder.now ≤ most_segments }
{
    // That a path has at most 64 segments is a clause of its depth.
    let _depth = folder.depth();
    let mut name = String::new(alloc);
    let Some(segments) = folder.relative() else {
        return Ok(name);
    };
    for seg in segments.split('/') {
        push_piece(&mut name, seg)?;
    }
    Ok(name)
}

/// The name of the file of a page's body, from the page's mangled folder and file.
#[tactic(auto, using(crate::proofs::NameSizes::body_fits))]
pub fn body_name(alloc: Global, folder: &Path, file: &str) -> Mem<TextBuf>
    ensures name { IfOk result (λ name. name ≡ spec.body_name folder.now file.now) }
    ensures fits { IfOk result (λ name. IsTrue (spec.is_place folder.now file.now) → IsName name) }
{
    let mut name = folder_name(alloc, folder)?;
    push_segment(&mut name, file)?;
    Ok(TextBuf::from(name))
}

/// The name of the file of a page's head.
#[tactic(auto, using(crate::proofs::NameSizes::head_fits))]
pub fn head_name(alloc: Global, folder: &Path, file: &str) -> Mem<TextBuf>
    ensures name { IfOk result (λ name. name ≡ spec.head_name folder.now file.now) }
    ensures fits { IfOk result (λ name. IsTrue (spec.is_place folder.now file.now) → IsName name) }
{
    let mut name = folder_name(alloc, folder)?;
    push_segment(&mut name, file)?;
    name.push_str("%h")?;
    Ok(TextBuf::from(name))
}

// Adds the file name of a segment, which is mangled, and a slash.
fn push_mangled(name: &mut String, seg: &str) -> Mem<()>
    ensures { OnOk result (string_bytes name.new ≡ string_bytes name.old ++ (file.file_name (mangled_seg seg.now) ++ 47 ∷ [])) }
{
    let (mark, rest) = mangled_parts(seg);
    push_segment(name, mark)?;
    push_piece(name, rest)?;
    Ok(())
}

// The file names of a folder's segments, which are mangled, a slash after each. Where neither escapes nor mangling make it longer there is room for `.stat` after them.
fn mangled_folder_name(alloc: Global, folder: &Path) -> Mem<String>
    ensures name { IfOk result (λ name. string_bytes name ≡ spec.folder_name (mangled_segs folder.now)) }
    ensures deep { length folder.now ≤ most_segments }
{
    // That a path has at most 64 segments is a clause of its depth.
    let _depth = folder.depth();
    let length = folder.spelling().len().saturating_add(STAT.len());
    let mut name = String::with_capacity(alloc, length)?;
    let Some(segments) = folder.relative() else {
        return Ok(name);
    };
    for seg in segments.split('/') {
        push_mangled(&mut name, seg)?;
    }
    Ok(name)
}

/// The name of the file of a folder's stamp, which is of the folder's mangled segments.
#[tactic(auto, using(crate::proofs::NameSizes::stat_fits))]
pub fn stat_name(alloc: Global, folder: &Path) -> Mem<TextBuf>
    ensures name { IfOk result (λ name. name ≡ spec.stat_name folder.now) }
    ensures fits { IfOk result (λ name. IsTrue (spec.have_names (mangled_segs folder.now)) → IsName name) }
{
    let mut name = mangled_folder_name(alloc, folder)?;
    name.push_str(STAT)?;
    Ok(TextBuf::from(name))
}
