//! Bytes that contracts see as a list of numbers.
ghost use Rattle.std.specs.Prelude.{◌≡◌, IfOk, IfErr};
ghost use Rattle.sp_base.specs.Bytes as spec;
ghost use Rattle.sp_base.specs.HeldBytes.{held_bytes};

use crate::{Mem, NoMemory, TextBuf};
use std::alloc::{AllocError, Global};
use std::marker::Model;
use std::mem::replace;
use std::rc::Rc;

/// Owned bytes, which may have several owners: a share is the same bytes without a copy.
#[derive(Drop)]
pub struct ByteBuf {
    held: HeldBytes,
}

// How bytes are held: by one owner, or by each that shares them.
#[derive(Drop)]
enum HeldBytes {
    Alone(Vec<u8>),
    Shared(Rc<Vec<u8>>),
}

impl Model for ByteBuf {
    ghost use Rattle.std.specs.Prelude.{List, ℕ};
    ghost use Rattle.sp_base.specs.HeldBytes.{held_bytes};

    ghost Value = { List ℕ };

    ghost view = { λ b. held_bytes b.held };
}

impl ByteBuf {
    /// A copy of bytes.
    pub fn of(alloc: Global, bytes: &[u8]) -> Mem<ByteBuf>
        ensures { IfOk result (λ b. b ≡ bytes.now) }
    {
        Ok(ByteBuf::from(Vec::from_slice(alloc, bytes)?))
    }

    pub fn bytes(&self) -> &[u8]
        ensures { result.now ≡ self.now }
    {
        match &self.held {
            HeldBytes::Alone(bytes) => bytes.as_slice(),
            HeldBytes::Shared(bytes) => bytes.as_ref().as_slice(),
        }
    }

    /// The same bytes once more, without a copy. The first share takes memory, but not for the bytes.
    pub fn share(&mut self, alloc: Global) -> Mem<ByteBuf>
        ensures ok { IfOk result (λ b. b ≡ self.old) }
        ensures same { self.new ≡ self.old }
    {
        let held = replace(&mut self.held, HeldBytes::Alone(Vec::new(alloc)));
        match shared(alloc, held) {
            Ok(bytes) => {
                let more: Result<Rc<Vec<u8>>, AllocError> = bytes.clone();
                self.held = HeldBytes::Shared(bytes);
                Ok(ByteBuf {
                    held: HeldBytes::Shared(more?),
                })
            }
            Err(held) => {
                self.held = held;
                Err(NoMemory)
            }
        }
    }
}

// Bytes that may be shared; out of memory they are as they were.
fn shared(alloc: Global, held: HeldBytes) -> Result<Rc<Vec<u8>>, HeldBytes>
    ensures ok { IfOk result (λ bytes. bytes.value.items ≡ held_bytes held) }
    ensures err { IfErr result (λ same. held_bytes same ≡ held_bytes held) }
{
    match held {
        HeldBytes::Shared(bytes) => Ok(bytes),
        HeldBytes::Alone(bytes) => match Rc::new(alloc, bytes) {
            Ok(bytes) => Ok(bytes),
            Err(refused) => Err(HeldBytes::Alone(refused.value)),
        },
    }
}

impl From<Vec<u8>> for ByteBuf {
    ghost from_gives = { λ bytes b. b ≡ bytes.items };

    fn from(bytes: Vec<u8>) -> ByteBuf {
        ByteBuf {
            held: HeldBytes::Alone(bytes),
        }
    }
}

impl From<TextBuf> for ByteBuf {
    ghost from_gives = { λ text b. b ≡ text };

    fn from(text: TextBuf) -> ByteBuf {
        ByteBuf {
            held: HeldBytes::Alone(text.into_bytes()),
        }
    }
}

/// Whether a text begins with this byte.
#[tactic(auto, unfolding(crate::specs::Bytes::begins_with_byte))]
pub fn begins_with_byte(c: u8, text: &[u8]) -> bool
    ensures { result ≡ spec.begins_with_byte c text.now }
{
    match text {
        [] => false,
        [d, ..] => *d == c,
    }
}
