//! Handles as they stand in URLs.
ghost use Rattle.std.specs.Prelude.{◌≡◌, ◌<◌, ◌++◌, ◌∷◌, [], IfOk, OnOk, get_or, length};
ghost use Rattle.sp_base.specs.Paths.{mangled_seg, mangled_segs, text_of};

use crate::transcript::push;
use sp_base::{Mem, Path, mangled_parts};
use std::alloc::Global;

fn push_mangled(out: &mut Vec<u8>, seg: &str) -> Mem<()>
    ensures { OnOk result (out.new.items ≡ out.old.items ++ 47 ∷ mangled_seg seg.now) }
{
    let (namespace_mark, rest) = mangled_parts(seg);
    push(out, b"/")?;
    push(out, namespace_mark.as_bytes())?;
    push(out, rest.as_bytes())
}

// The segment at a place, after a slash.
fn push_segment(out: &mut Vec<u8>, path: &Path, place: usize) -> Mem<()>
    requires { place < length path.now }
    ensures { OnOk result (out.new.items ≡ out.old.items ++ 47 ∷ mangled_seg (get_or path.now place [])) }
{
    match path.seg(place) {
        Some(seg) => push_mangled(out, seg),
        None => unreachable!(),
    }
}

/// The text of a path as it stands in URLs. It may be longer than that of any path.
pub fn mangled_text(alloc: Global, path: &Path) -> Mem<Vec<u8>>
    ensures { IfOk result (λ text. text.items ≡ text_of (mangled_segs path.now)) }
{
    let mut text = Vec::new(alloc);
    for place in 0..path.depth() {
        push_segment(&mut text, path, place)?;
    }
    if !text.is_empty() {
        return Ok(text);
    }
    push(&mut text, b"/")?;
    Ok(text)
}
