//! The end of an expression: the first `}` outside quotes.

ghost use Rattle.std.specs.Prelude.{◌≡◌};
ghost use Rattle.htl_text.specs.Template as spec;
ghost use Rattle.htl_text.specs.declared.quotes.Quotes.TheVariants as state;

/// Where a byte of an expression stands.
#[derive(Clone, Copy, Drop)]
pub enum Quotes {
    Outside,
    /// Inside quotes of this mark.
    Inside(u8),
    /// Inside quotes of this mark, right after a backslash.
    Escaped(u8),
}

fn step(quotes: Quotes, c: u8) -> Quotes
    ensures { result ≡ spec.quotes_step quotes c }
{
    match quotes {
        Quotes::Outside => {
            if c == b'\'' || c == b'"' {
                Quotes::Inside(c)
            } else {
                Quotes::Outside
            }
        }
        Quotes::Inside(mark) => {
            if c == mark {
                Quotes::Outside
            } else if c == b'\\' {
                Quotes::Escaped(mark)
            } else {
                Quotes::Inside(mark)
            }
        }
        Quotes::Escaped(mark) => Quotes::Inside(mark),
    }
}

fn closes(quotes: Quotes, c: u8) -> bool
    ensures { result ≡ spec.closes_expression quotes c }
{
    match quotes {
        Quotes::Outside => c == b'}',
        Quotes::Inside(_) => false,
        Quotes::Escaped(_) => false,
    }
}

/// How many bytes stand before the `}` that closes an expression.
#[tactic(auto, unfolding(crate::specs::Template::closing))]
pub fn closing(text: &[u8]) -> Option<usize>
    ensures { result ≡ spec.closing state.Outside 0 text.now }
{
    let mut quotes = Quotes::Outside;
    let mut len = 0;
    let mut rest = text;
    while let [c, later @ ..] = rest {
        if closes(quotes, *c) {
            return Some(len);
        }
        quotes = step(quotes, *c);
        len += 1;
        rest = later;
    }
    None
}
