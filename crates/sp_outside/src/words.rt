//! The words of a command line.
ghost use Rattle.std.specs.Prelude.{◌≡◌, List, Option, Some, None, IfOk, IfSome, slice_get};
ghost use Rattle.sp_base.specs.Texts.{Text};

use sp_base::{ByteBuf, Items, Mem, NoMemory};
use std::alloc::Global;
use std::env::{Env, FillError};
use std::marker::Model;

pub type CommandWords = Items<ByteBuf>;

/// The words of a command line, after the program's own name. A word is any bytes.
pub trait Words {
    /// The words, where the command line tells them.
    ghost told: { Self → Option (List Text) };

    /// The word at a place, or None where there are no more.
    fn word(&self, alloc: Global, place: usize) -> Mem<Option<ByteBuf>>
        ensures { IfOk result (λ o. IfSome (told self.now) (λ words. o ≡ slice_get words place)) };
}

/// Words in memory.
#[derive(Drop)]
pub struct MemWords {
    words: CommandWords,
}

impl Model for MemWords {
    ghost use Rattle.std.specs.Prelude.{List};
    ghost use Rattle.sp_base.specs.Texts.{Text};

    ghost Value = { List Text };

    ghost view = { λ w. w.words };
}

impl MemWords {
    pub fn new(words: CommandWords) -> MemWords
        ensures { result ≡ words }
    {
        MemWords { words }
    }
}

impl Words for MemWords {
    ghost told = { λ w. Some w };

    fn word(&self, alloc: Global, place: usize) -> Mem<Option<ByteBuf>>
        ensures { IfOk result (λ o. o ≡ slice_get self.now place) }
    {
        match self.words.get(place) {
            Some(word) => Ok(Some(ByteBuf::of(alloc, word.bytes())?)),
            None => Ok(None),
        }
    }
}

// The powers of two that bound the sizes of the buffer for a word, tried one after the other.
const LEAST_BITS: u32 = 8;

const MOST_BITS: u32 = 40;

/// The words that the program was started with. It tells nothing.
#[derive(Drop)]
pub struct RealWords<R: Env + Drop> {
    env: R,
}

impl<R: Env + Drop> RealWords<R> {
    pub fn new(env: R) -> RealWords<R> {
        RealWords { env }
    }
}

impl<R: Env + Drop> Words for RealWords<R> {
    ghost told = { λ _. None };

    fn word(&self, alloc: Global, place: usize) -> Mem<Option<ByteBuf>> {
        // The first word is the program's name.
        let Some(place) = place.checked_add(1) else {
            return Ok(None);
        };
        for bits in LEAST_BITS..MOST_BITS {
            let mut buffer = vec![in alloc; 0u8; 1usize << bits]?;
            match self.env.arg(place, &mut buffer) {
                Ok(n) => {
                    buffer.truncate(n);
                    return Ok(Some(ByteBuf::from(buffer)));
                }
                Err(FillError::NotPresent) => return Ok(None),
                Err(FillError::TooLong) => {}
            }
        }
        Err(NoMemory)
    }
}
