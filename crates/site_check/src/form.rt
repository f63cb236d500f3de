//! What the words of the command line ask for.

use sp_base::ByteBuf;

/// What the words ask for.
#[derive(Drop)]
pub enum CheckForm<'a> {
    Help,
    Version,
    /// To check the content and the farm in the files of these names.
    Check(&'a str, &'a str),
}

/// The form of the words, where they have one.
pub fn form_of<'a>(words: &'a [ByteBuf]) -> Option<CheckForm<'a>> {
    match words {
        [word] => question(word.bytes()),
        [content, any] => files(content.bytes(), any.bytes()),
        _ => None,
    }
}

fn question<'a>(word: &[u8]) -> Option<CheckForm<'a>> {
    if word == b"--help".as_slice() {
        Some(CheckForm::Help)
    } else if word == b"--version".as_slice() {
        Some(CheckForm::Version)
    } else {
        None
    }
}

fn files<'a>(content: &'a [u8], any: &'a [u8]) -> Option<CheckForm<'a>> {
    match (std::str::from_utf8(content), std::str::from_utf8(any)) {
        (Ok(content), Ok(any)) => Some(CheckForm::Check(content, any)),
        _ => None,
    }
}
