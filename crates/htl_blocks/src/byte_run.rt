//! Runs of bytes at the beginning of a text.

ghost use Rattle.std.specs.Prelude.{◌≡◌, ◌≤◌, length};
ghost use Rattle.std.specs.List.{position};
ghost use Rattle.sp_base.specs.Bytes.{is_digit};
ghost use Rattle.htl_syntax.specs.Tokens as tokens;
ghost use Rattle.htl_blocks.specs.Markup as spec;

/// What belongs together.
#[derive(Clone, Copy, Drop)]
pub enum ByteRun {
    /// The name of a tag.
    Name,
    /// The name of an attribute.
    Key,
    /// What stands before a mark.
    Quoted(u8),
    Blanks,
}

pub fn is_blank(c: u8) -> bool
    ensures { result ≡ tokens.is_blank c }
{
    c == b' ' || (c == b'\t' || (c == b'\n' || c == b'\r'))
}

pub fn is_quote(c: u8) -> bool
    ensures { result ≡ tokens.is_quote c }
{
    c == b'\'' || c == b'"'
}

fn is_digit(c: u8) -> bool
    ensures { result ≡ is_digit c }
{
    c >= b'0' && c <= b'9'
}

pub fn is_letter(c: u8) -> bool
    ensures { result ≡ tokens.is_letter c }
{
    (c >= b'A' && c <= b'Z') || (c >= b'a' && c <= b'z')
}

pub fn is_first(c: u8) -> bool
    ensures { result ≡ tokens.is_first c }
{
    is_letter(c) || c == b'_'
}

pub fn is_word(c: u8) -> bool
    ensures { result ≡ tokens.is_word_byte c }
{
    is_first(c) || is_digit(c)
}

fn is_name_byte(c: u8) -> bool
    ensures { result ≡ spec.is_name_byte c }
{
    is_letter(c) || (is_digit(c) || c == b'-')
}

fn ends_key(c: u8) -> bool
    ensures { result ≡ spec.ends_key c }
{
    is_blank(c) || (is_quote(c) || (c == b'=' || (c == b'>' || c == b'/')))
}

fn ends(run: ByteRun, c: u8) -> bool
    ensures { result ≡ spec.ends_run run c }
{
    match run {
        ByteRun::Name => !is_name_byte(c),
        ByteRun::Key => ends_key(c),
        ByteRun::Quoted(mark) => c == mark,
        ByteRun::Blanks => !is_blank(c),
    }
}

fn first_end(run: ByteRun, text: &[u8]) -> Option<usize>
    ensures { result ≡ position (spec.ends_run run) text.now }
{
    text.iter().position(|c| ends(run, *c))
}

/// How many of the first bytes belong to a run.
#[tactic(auto, unfolding(crate::specs::Markup::run_bytes))]
pub fn run_bytes(run: ByteRun, text: &[u8]) -> usize
    ensures value { result ≡ spec.run_bytes run text.now }
    ensures within { result ≤ length text.now }
{
    match first_end(run, text) {
        Some(place) => place,
        None => text.len(),
    }
}
