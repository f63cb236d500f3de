//! The lines of a body.
ghost use Rattle.std.specs.Prelude.{◌≡◌, ◌∷◌, ◌++◌, [], option_copied, IfSome, IfNone};
ghost use Rattle.form_input.specs.Lines.{lines, lines_left};

use memchr::memmem;

pub const LINE_END: &[u8] = b"\r\n";

/// The first line, and the text after its line end where it has one.
pub fn next_line(text: &[u8]) -> (&[u8], Option<&[u8]>)
    ensures lines { lines text.now ≡ result.0.now ∷ lines_left (option_copied result.1) }
    ensures alone { lines result.0.now ≡ result.0.now ∷ [] }
    ensures ended { IfSome result.1 (λ rest. text.now ≡ result.0.now ++ 13 ∷ 10 ∷ rest.now) }
    ensures last { IfNone result.1 (result.0.now ≡ text.now) }
{
    match memmem::find(text, LINE_END) {
        Some(at) => (&text[..at], Some(&text[at + LINE_END.len()..])),
        None => (text, None),
    }
}
