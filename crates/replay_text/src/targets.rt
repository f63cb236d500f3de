//! Targets, peers and handles: visible bytes of ASCII.
ghost use Rattle.std.specs.Prelude.{◌≡◌, ◌≢◌, ℕ, List, IfOk, IfSome, IfNone, IsTrue};
ghost use Rattle.std.specs.List.{list_all};
ghost use Rattle.sp_base.specs.Bytes.{is_visible_ascii};
ghost use Rattle.replay_text.specs.EventLines.{is_visible_text};

use sp_base::{Mem, TextBuf};
use std::alloc::Global;
use std::str;

fn all_visible(text: &[u8]) -> bool
    ensures { result ≡ list_all is_visible_ascii text.now }
{
    text.iter().all(|b| *b >= b'!' && *b <= b'~')
}

fn is_visible(text: &[u8]) -> bool
    ensures { result ≡ is_visible_text text.now }
{
    !text.is_empty() && all_visible(text)
}

fn visible_text(alloc: Global, bytes: &[u8]) -> Mem<TextBuf>
    requires { IsTrue (list_all is_visible_ascii bytes.now) }
    ensures { IfOk result (λ t. t ≡ bytes.now) }
{
    match str::from_utf8(bytes) {
        Ok(text) => TextBuf::of(alloc, text),
        Err(_) => unreachable!(),
    }
}

// The text, where it is one of visible bytes: a target, a peer or a handle.
pub fn as_visible_text(alloc: Global, text: &[u8]) -> Mem<Option<TextBuf>>
    ensures some { IfOk result (λ o. IfSome o (λ t. IsTrue (is_visible_text t) × (text.now ≡ t))) }
    ensures none { IfOk result (λ o. IfNone o ((t : List ℕ) → IsTrue (is_visible_text t) → text.now ≢ t)) }
{
    if is_visible(text) {
        Ok(Some(visible_text(alloc, text)?))
    } else {
        Ok(None)
    }
}
