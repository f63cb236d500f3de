//! What the names of the files begin with that a flush takes away.
ghost use Rattle.std.specs.Prelude.{◌≡◌, ◌++◌, ◌∷◌, [], IfNone, IfOk, IfSome, codes, if◌then◌else◌, List, ℕ};
ghost use Rattle.sp_base.specs.Paths.{mangled_segs};
ghost use Rattle.sp_base.specs.Texts.{Segments};
ghost use Rattle.cover_rules.specs.declared.invalidation.Invalidation.{Invalidation};
ghost use Rattle.cover_rules.specs.Coverage.{takes_below};
ghost use Rattle.docroot_format.specs.Deletions as spec;
ghost use Rattle.docroot_format.specs.Names.{folder_name};
ghost use Rattle.invalidation.specs.Walks.{AreNamesApart};

use cover_rules::{Action, Invalidation};
use docroot_format::stat_name;
use sp_base::{Mem, NameList, Path, TextBuf};
use std::alloc::Global;

/// No name begins with two of the prefixes of a flush.
pub(crate) fn prefixes_are_apart()
    ensures { (inv : Invalidation) → AreNamesApart (spec.deleted_prefixes inv) }
{}

/// The prefixes of the names of the files that a flush takes away, but for those of the page at exactly the handle.
pub(crate) fn deleted_prefixes(alloc: Global, inv: &Invalidation) -> Mem<NameList>
    ensures { IfOk result (λ prefixes. prefixes ≡ spec.deleted_prefixes inv.now) }
{
    let folder = folder_prefix(alloc, &inv.handle)?;
    let mut prefixes = rendering_prefixes(alloc, folder.text())?;
    prefixes.push(joined(alloc, folder.text(), below_handle(inv.action))?)?;
    Ok(prefixes)
}

// Those of a handle's renderings, from the name of its folder.
fn rendering_prefixes(alloc: Global, folder: &str) -> Mem<NameList>
    ensures { IfOk result (λ prefixes. (handle : Segments) → folder_name handle ≡ folder.now → prefixes ≡ spec.rendering_prefixes handle) }
{
    let mut prefixes = NameList::new(alloc);
    match without_slash(folder) {
        Some(handle) => {
            prefixes.push(joined(alloc, handle, ".")?)?;
            Ok(prefixes)
        }
        None => Ok(prefixes),
    }
}

// What follows the name of the handle's folder in the names of the pages below it.
fn below_handle(action: Action) -> &'static str
    ensures { result.now ≡ (if takes_below action then [] else codes "_jcr_content/") }
{
    match action {
        Action::Activate => "_jcr_content/",
        Action::Deactivate | Action::Delete => "",
    }
}

fn joined(alloc: Global, text: &str, more: &str) -> Mem<TextBuf>
    ensures { IfOk result (λ joined. joined ≡ text.now ++ more.now) }
{
    let mut joined = String::new(alloc);
    joined.push_str(text)?;
    joined.push_str(more)?;
    Ok(TextBuf::from(joined))
}

// What the names of the files in a folder begin with, and so that of its .stat file.
fn folder_prefix(alloc: Global, folder: &Path) -> Mem<TextBuf>
    ensures { IfOk result (λ prefix. prefix ≡ folder_name (mangled_segs folder.now)) }
{
    let name = stat_name(alloc, folder)?;
    match before(name.text(), ".stat") {
        Some(prefix) => TextBuf::of(alloc, prefix),
        None => unreachable!(),
    }
}

fn before<'a>(text: &'a str, ending: &str) -> Option<&'a str>
    ensures some { IfSome result (λ front. text.now ≡ front.now ++ ending.now) }
    ensures none { IfNone result ((front : List ℕ) → text.now ≡ front ++ ending.now → ⊥) }
{
    text.strip_suffix(ending)
}

fn without_slash(text: &str) -> Option<&str>
    ensures some { IfSome result (λ front. text.now ≡ front.now ++ 47 ∷ []) }
    ensures none { IfNone result ((front : List ℕ) → text.now ≡ front ++ 47 ∷ [] → ⊥) }
{
    before(text, "/")
}
