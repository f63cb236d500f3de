//! The texts of heads and of the epoch.
ghost use Rattle.std.specs.Prelude.{◌≡◌, IfOk};
ghost use Rattle.docroot_format.specs.Texts as spec;

use cover_rules::Stamp;
use sp_base::{Mem, TextBuf};
use std::alloc::Global;

/// The head of a page: its stamp, the length of its body, and the body's media type.
pub fn head_text(alloc: Global, stamp: Stamp, size: usize, kind: &str) -> Mem<TextBuf>
    ensures { IfOk result (λ text. text ≡ spec.head_text stamp size kind.now) }
{
    let Stamp { epoch, count } = stamp;
    let text = format!(in alloc; "page 1 {epoch} {count} {size} {kind}\n")?;
    Ok(TextBuf::from(text))
}

/// The number of a session.
pub fn epoch_text(alloc: Global, epoch: u64) -> Mem<TextBuf>
    ensures { IfOk result (λ text. text ≡ spec.epoch_text epoch) }
{
    let text = format!(in alloc; "epoch 1 {epoch}\n")?;
    Ok(TextBuf::from(text))
}
