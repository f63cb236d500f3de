//! Bytes that are sent on a connection.
ghost use Rattle.std.specs.Prelude.{◌≡◌, ◌++◌, IfOk, length, nat_eq};
ghost use Rattle.std.specs.Cmp.Lexicographic.{pointwise};

use sp_base::{ByteBuf, Mem, NoMemory};
use std::alloc::Global;
use std::marker::Model;

/// Bytes in two parts that are sent one after the other, so that a body stays where it is held and is not copied behind its head.
#[derive(Drop)]
pub struct SentBytes {
    head: ByteBuf,
    body: ByteBuf,
}

impl Model for SentBytes {
    ghost use Rattle.std.specs.Prelude.{◌++◌, List, ℕ};

    ghost Value = { List ℕ };

    ghost view = { λ s. s.head ++ s.body };
}

/// The two parts of bytes that are sent.
#[derive(Clone, Copy, Drop)]
pub struct SentParts<'a> {
    pub head: &'a [u8],
    pub body: &'a [u8],
}

impl SentBytes {
    /// A body behind its head.
    pub fn of_parts(head: ByteBuf, body: ByteBuf) -> SentBytes
        ensures { result ≡ head ++ body }
    {
        SentBytes { head, body }
    }

    /// Bytes in one part.
    pub fn whole(alloc: Global, bytes: ByteBuf) -> SentBytes
        ensures { result ≡ bytes }
    {
        SentBytes {
            head: bytes,
            body: ByteBuf::from(Vec::new(alloc)),
        }
    }

    /// The parts, one before the other.
    pub fn parts(&self) -> SentParts<'_>
        ensures { result.head.now ++ result.body.now ≡ self.now }
    {
        SentParts {
            head: self.head.bytes(),
            body: self.body.bytes(),
        }
    }

    /// A copy in one part.
    pub fn joined(&self, alloc: Global) -> Mem<ByteBuf>
        ensures { IfOk result (λ bytes. bytes ≡ self.now) }
    {
        let head = self.head.bytes();
        let body = self.body.bytes();
        let mut bytes = Vec::with_capacity(alloc, head.len().saturating_add(body.len()))?;
        bytes.extend_from_slice(head)?;
        bytes.extend_from_slice(body)?;
        Ok(ByteBuf::from(bytes))
    }

    /// How many bytes they are. Out of memory where no number of 64 bits tells it.
    pub fn size(&self) -> Mem<u64>
        ensures { IfOk result (λ size. size ≡ length self.now) }
    {
        let head = self.head.bytes().len() as u64;
        let body = self.body.bytes().len() as u64;
        head.checked_add(body).ok_or(NoMemory)
    }

    /// Whether they are these bytes.
    pub fn is(&self, bytes: &[u8]) -> bool
        ensures { result ≡ pointwise nat_eq self.now bytes.now }
    {
        match bytes.strip_prefix(self.head.bytes()) {
            Some(rest) => self.body.bytes() == rest,
            None => false,
        }
    }
}
