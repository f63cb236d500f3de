//! Words of any bytes and lengths.
use sp_outside::{RealWords, Words};
use std::alloc::Global;
use std::env::{Env, FillError};

// A program with three words after its name, of which one isn't UTF-8 and one is longer than the first buffer.
#[derive(Clone, Copy, Drop)]
struct Arguments;

const LONG_WORD: &[u8] = &[b'w'; 700];

impl Env for Arguments {
    fn arg(&self, i: usize, buf: &mut [u8]) -> Result<usize, FillError> {
        let word: &[u8] = match i {
            0 => b"\xff",
            1 => b"replay",
            2 => b"a\xff",
            3 => LONG_WORD,
            _ => return Err(FillError::NotPresent),
        };
        if word.len() > buf.len() {
            return Err(FillError::TooLong);
        }
        buf[..word.len()].copy_from_slice(word);
        Ok(word.len())
    }

    fn var(&self, _name: &str, _buf: &mut [u8]) -> Result<usize, FillError> {
        Err(FillError::NotPresent)
    }

    fn var_at(&self, _i: usize, _buf: &mut [u8]) -> Result<usize, FillError> {
        Err(FillError::NotPresent)
    }
}

// A place, and the word there.
const WORDS: &[(usize, Option<&[u8]>)] = &[
    (0, Some(b"replay")),
    (1, Some(b"a\xff")),
    (2, Some(LONG_WORD)),
    (3, None),
    (usize::MAX, None),
];

fn is_word(alloc: Global, place: usize, wanted: Option<&[u8]>) -> bool {
    let words = RealWords::new(Arguments);
    match (words.word(alloc, place), wanted) {
        (Ok(Some(word)), Some(wanted)) => word.bytes() == wanted,
        (Ok(None), None) => true,
        _ => false,
    }
}

#[test]
fn gives_words_of_any_bytes(rt: HostRuntime) {
    for (place, wanted) in WORDS {
        assert!(rt; is_word(rt.alloc(), *place, *wanted));
    }
}
