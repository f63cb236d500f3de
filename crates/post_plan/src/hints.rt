//! The type that a hint names.
ghost use Rattle.std.specs.Prelude.{◌≡◌};
ghost use Rattle.post_plan.specs.Hints as spec;

use sp_base::{Hint, HintedType};

fn is_text_word(word: &[u8]) -> bool
    ensures { result ≡ spec.is_text_word word.now }
{
    word == b"String".as_slice()
        || (word == b"Date".as_slice()
            || (word == b"Name".as_slice()
                || (word == b"Path".as_slice() || word == b"URI".as_slice())))
}

fn hinted_type(word: &[u8]) -> Option<HintedType>
    ensures { result ≡ spec.hinted_type word.now }
{
    if is_text_word(word) {
        Some(HintedType::Text)
    } else if word == b"Long".as_slice() {
        Some(HintedType::Long)
    } else if word == b"Boolean".as_slice() {
        Some(HintedType::Truth)
    } else {
        None
    }
}

fn hint_by(many: bool, hinted: Option<HintedType>) -> Option<Hint>
    ensures { result ≡ spec.hint_by many hinted }
{
    match hinted {
        Some(hinted) => Some(Hint { hinted, many }),
        None => None,
    }
}

/// The hint that a word names.
pub fn hint_of(word: &str) -> Option<Hint>
    ensures { result ≡ spec.hint_of word.now }
{
    let bytes = word.as_bytes();
    if bytes.ends_with(b"[]") {
        hint_by(true, hinted_type(&bytes[..bytes.len() - 2]))
    } else {
        hint_by(false, hinted_type(bytes))
    }
}
