//! The boundary lines of a multipart body.
ghost use Rattle.std.specs.Prelude.{◌≡◌, ◌<◌, ◌≤◌, [], Some, length, option_copied, IfSome, IfNone};
ghost use Rattle.form_input.specs.Multipart.{form_after, line_form, is_plain_line, is_closing_line};
ghost use Rattle.form_input.specs.Boundaries.{IsMark, prefix_of, sections_left};

use crate::lines::{LINE_END, next_line};
use crate::parameters::all_blank;

/// What a line of a multipart body is.
#[derive(Clone, Copy, Drop)]
pub enum LineForm {
    /// Begins a part.
    Opening,
    /// Ends the last part.
    Closing,
    Plain,
}

fn form_after(rest: &[u8]) -> LineForm
    ensures { result ≡ form_after rest.now }
{
    if all_blank(rest) {
        return LineForm::Opening;
    }
    match rest.strip_prefix(b"--") {
        Some(blanks) => {
            if all_blank(blanks) {
                LineForm::Closing
            } else {
                LineForm::Plain
            }
        }
        None => LineForm::Plain,
    }
}

fn line_form(dash: &[u8], line: &[u8]) -> LineForm
    ensures { result ≡ line_form dash.now line.now }
{
    match line.strip_prefix(dash) {
        Some(rest) => form_after(rest),
        None => LineForm::Plain,
    }
}

/// A boundary line of a body.
#[derive(Clone, Copy, Drop)]
pub struct BoundaryLine<'a> {
    /// Where it begins in the body.
    pub place: usize,
    pub closing: bool,
    /// The text before it, without its last line end, where there are lines.
    pub before: Option<&'a [u8]>,
    /// What follows its line end.
    pub after: Option<&'a [u8]>,
}

/// The first boundary line of a text at the end of a body of `end` bytes.
pub fn next_mark<'a>(dash: &[u8], end: usize, text: &'a [u8]) -> Option<BoundaryLine<'a>>
    requires { length text.now ≤ end }
    ensures some { IfSome result (λ m. IsMark dash.now end text.now m) }
    ensures shorter { IfSome result (λ m. IfSome m.after (λ rest. length rest.now < length text.now)) }
    ensures none { IfNone result ((sections_left dash.now end (Some text.now)).later ≡ []) }
{
    let mut rest = text;
    loop {
        let (line, after) = next_line(rest);
        let form = line_form(dash, line);
        if !is_plain(form) {
            return Some(BoundaryLine {
                place: end - rest.len(),
                closing: is_closing(form),
                before: before(text, rest.len()),
                after,
            });
        }
        match after {
            Some(more) => rest = more,
            None => return None,
        }
    }
}

fn is_plain(form: LineForm) -> bool
    ensures { result ≡ is_plain_line form }
{
    match form {
        LineForm::Opening => false,
        LineForm::Closing => false,
        LineForm::Plain => true,
    }
}

fn is_closing(form: LineForm) -> bool
    ensures { result ≡ is_closing_line form }
{
    match form {
        LineForm::Opening => false,
        LineForm::Closing => true,
        LineForm::Plain => false,
    }
}

// The lines before the last bytes, without their last line end.
fn before(text: &[u8], left: usize) -> Option<&[u8]>
    requires { left ≤ length text.now }
    ensures { option_copied result ≡ prefix_of text.now left }
{
    let passed = text.len() - left;
    if passed < LINE_END.len() {
        None
    } else {
        Some(&text[..passed - LINE_END.len()])
    }
}
