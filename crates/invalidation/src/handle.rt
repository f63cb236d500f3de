//! The path of the content that an invalidation is about.
ghost use Rattle.std.specs.Prelude.{◌≡◌, ◌≢◌, IfOk, IfErr, Ok, Err, codes};
ghost use Rattle.percent_encoding.specs.Percent.{percent_decode as decoding};
ghost use Rattle.invalidation.specs.Invalidations as spec;

use crate::InvFault;
use http_header::HeaderName;
use percent_encoding::{DecodeError, percent_decode};
use sp_base::{Mem, NoMemory, Path, Req};
use std::alloc::Global;

/// The path that the first `CQ-Handle` field spells.
pub fn read_handle(alloc: Global, req: &Req) -> Result<Path, InvFault>
    ensures ok { IfOk result (λ handle. spec.requested_handle req.now ≡ Ok handle) }
    ensures err { IfErr result (λ e. e ≢ InvFault.NoMemory → spec.requested_handle req.now ≡ Err e) }
{
    let Some(value) = req.field(&HeaderName::from_static("cq-handle")) else {
        return Err(InvFault::NoHandle);
    };
    match spelled_handle(alloc, value)? {
        Some(handle) => Ok(handle),
        None => Err(InvFault::BadHandle),
    }
}

// The path that a field's value spells, where it spells one.
fn spelled_handle(alloc: Global, value: &[u8]) -> Mem<Option<Path>>
    ensures { IfOk result (λ o. o ≡ spec.handle_in (decoding value.now)) }
{
    match percent_decode(value).decode_utf8(alloc) {
        Ok(text) => unmangled_path(alloc, &text),
        Err(DecodeError::Utf8(_)) => Ok(None),
        Err(DecodeError::OutOfMemory) => Err(NoMemory),
    }
}

// The path that a text spells, with its namespace prefixes as they stand in the repository.
fn unmangled_path(alloc: Global, text: &str) -> Mem<Option<Path>>
    ensures { IfOk result (λ o. o ≡ spec.unmangled_path_in text.now) }
{
    match Path::read_or_none(alloc, text)? {
        Some(path) => Ok(Some(path.unmangled(alloc)?)),
        None => Ok(None),
    }
}
