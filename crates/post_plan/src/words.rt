//! Parameters by their names.
ghost use Rattle.std.specs.Prelude.{◌≡◌, IfOk, option_copied};
ghost use Rattle.post_plan.specs.Parameters as spec;

use crate::LentWords;
use sp_base::{Mem, TextBuf};
use std::alloc::Global;

/// The word of the first parameter of this name.
pub fn first_word<'a>(name: &str, pairs: &'a [(TextBuf, TextBuf)]) -> Option<&'a str>
    ensures { option_copied result ≡ spec.first_word name.now pairs.now }
{
    let mut rest = pairs;
    while let [(other, word), more @ ..] = rest {
        if other.text() == name {
            return Some(word.text());
        }
        rest = more;
    }
    None
}

/// Whether a name is that of a parameter that steers the operation.
pub fn is_control(name: &str) -> bool
    ensures { result ≡ spec.is_control name.now }
{
    name.as_bytes().starts_with(b":") || name == "_charset_"
}

/// Whether a name is marked as content.
pub fn is_marked(name: &str) -> bool
    ensures { result ≡ spec.is_marked name.now }
{
    name.as_bytes().starts_with(b"./")
}

/// Whether any name is marked as content.
pub fn any_marked(pairs: &[(TextBuf, TextBuf)]) -> bool
    ensures { result ≡ spec.any_marked pairs.now }
{
    let mut rest = pairs;
    while let [(name, _), more @ ..] = rest {
        if is_marked(name.text()) {
            return true;
        }
        rest = more;
    }
    false
}

/// How the names of content are told in a form: by their marks, where any name is marked.
#[derive(Clone, Copy, Drop)]
pub struct ContentNames {
    pub marked: bool,
}

/// Whether a name is that of a content parameter.
pub fn is_content(names: ContentNames, name: &str) -> bool
    ensures { result ≡ spec.is_content names.marked name.now }
{
    if is_control(name) {
        return false;
    }
    let bytes = name.as_bytes();
    !names.marked || (is_marked(name) || (bytes.starts_with(b"../") || bytes.starts_with(b"/")))
}

/// All words of the parameters of this name.
pub fn words_of<'a>(
    alloc: Global,
    name: &str,
    pairs: &'a [(TextBuf, TextBuf)],
) -> Mem<LentWords<'a>>
    ensures { IfOk result (λ words. words ≡ spec.words_of name.now pairs.now) }
{
    let mut words = LentWords::new(alloc);
    for (named, word) in pairs {
        if named.text() == name {
            words.push(word.text())?;
        }
    }
    Ok(words)
}
