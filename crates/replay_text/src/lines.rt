//! Lines of bytes.
ghost use Rattle.std.specs.Prelude.{◌≡◌, ◌++◌, ◌∷◌, ◌↔◌, IsTrue, IfSome, IfNone};
ghost use Rattle.replay_text.specs.Lines.{newlines};
ghost use Rattle.replay_text.specs.Reading.{FirstLine, LacksLine};

// The first line, and the text after its newline.
pub fn first_line(text: &[u8]) -> Option<(&[u8], &[u8])>
    ensures some { IfSome result (λ p. FirstLine text.now p.0.now p.1.now) }
    ensures none { IfNone result (newlines text.now ≡ 0) }
{
    for (i, b) in text.iter().enumerate() {
        if *b == b'\n' {
            return Some((&text[..i], &text[i + 1..]));
        }
    }
    None
}

pub fn same(a: &[u8], b: &[u8]) -> bool
    ensures { IsTrue result ↔ (a.now ≡ b.now) }
{
    a == b
}

// The text after a first line that is this one.
pub fn after_line<'a>(text: &'a [u8], want: &[u8]) -> Option<&'a [u8]>
    ensures some { IfSome result (λ rest. text.now ≡ want.now ++ 10 ∷ rest.now) }
    ensures none { IfNone result (LacksLine want.now text.now) }
{
    match first_line(text) {
        Some((line, rest)) if same(line, want) => Some(rest),
        _ => None,
    }
}

pub fn count_newlines(text: &[u8]) -> u64
    ensures { result ≡ newlines text.now }
{
    let mut n = 0;
    for b in text {
        if *b == b'\n' {
            n += 1;
        }
    }
    n
}
