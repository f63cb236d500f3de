//! Reads a source whole, and writes a text to a sink.
ghost use Rattle.std.specs.Prelude.{◌≡◌, ◌≤◌, ◌<◌, ◌+◌, ◌^◌, ℕ, IfOk, OnOk, OnErr, length, take};
ghost use Rattle.sp_outside.specs.Told.{held_after, before_taking, IsAtEnd};
ghost use Rattle.sp_outside.specs.Causes.{HasSinkCause};
ghost use Rattle.sling_dispatch.specs.Streams.{HasTaken};
ghost use Rattle.sling_dispatch.specs.InnerEndings.{HasReadCause};
ghost use Rattle.sling_dispatch.specs.declared.streams.ReadFault.TheVariants.{NoMemory};

use sp_outside::{Sink, SinkFault, Source};
use std::alloc::{AllocError, Global};

// How many bytes are read at once.
const READ_BYTES: usize = 4_096;

/// Why a source wasn't read.
#[derive(Clone, Copy, PartialEq, Eq, Debug, Drop)]
pub enum ReadFault {
    Failed,
    NoMemory,
}

impl From<AllocError> for ReadFault {
    ghost from_gives = { λ _ e. e ≡ NoMemory };

    fn from(_fault: AllocError) -> ReadFault {
        ReadFault::NoMemory
    }
}

// Reads a source to its end, or to one byte past a limit.
pub fn read_whole<S: Source>(
    alloc: Global,
    source: &mut S,
    limit: usize,
) -> Result<Vec<u8>, ReadFault>
    requires { limit < 2 ^ 32 }
    ensures read { IfOk result (λ text. S.left source.old ≡ before_taking text.items (S.left source.new)) }
    ensures most { IfOk result (λ text. length text.items ≤ limit + 1) }
    ensures end { IfOk result (λ text. length text.items ≤ limit → IsAtEnd (S.left source.new)) }
    ensures taken { HasTaken (limit + 1) (S.left source.old) (S.left source.new) }
    ensures cause { HasReadCause (S.faults source.old) (S.faults source.new) result }
{
    let mut text = Vec::new(alloc);
    let mut buffer = [0u8; READ_BYTES];
    while text.len() <= limit {
        let room = (limit + 1 - text.len()).min(READ_BYTES);
        let part = &mut buffer[..room];
        let n = match source.read(part) {
            Ok(n) => n,
            Err(_) => return Err(ReadFault::Failed),
        };
        if n == 0 {
            return Ok(text);
        }
        text.extend_from_slice(&buffer[..n])?;
    }
    Ok(text)
}

// Writes all of the bytes. After a fault a prefix of them was written.
pub fn write_all<K: Sink>(sink: &mut K, bytes: &[u8]) -> Result<(), SinkFault>
    ensures ok { OnOk result (K.held sink.new ≡ held_after (K.held sink.old) bytes.now) }
    ensures err { OnErr result ((n : ℕ) × (K.held sink.new ≡ held_after (K.held sink.old) (take n bytes.now))) }
    ensures cause { HasSinkCause (K.faults sink.old) (K.faults sink.new) result }
{
    let mut at = 0;
    while at < bytes.len() {
        at += sink.write(&bytes[at..])?;
    }
    Ok(())
}
