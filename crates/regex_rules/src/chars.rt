//! The characters of a text.
ghost use Rattle.std.specs.Prelude.{◌≡◌, ◌<◌, ◌∷◌, [], ◌++◌, MatchOption, IfSome, length, encode_utf8};
ghost use Rattle.std.specs.Str.{chars};

/// The first character, and the text after it.
pub fn first_char(text: &str) -> Option<(char, &str)>
    ensures value { MatchOption result (chars text.now ≡ []) (λ p. chars text.now ≡ p.0 ∷ chars p.1.now) }
    ensures parts { IfSome result (λ p. text.now ≡ encode_utf8 p.0 ++ p.1.now) }
    ensures shorter { MatchOption result (text.now ≡ []) (λ p. length p.1.now < length text.now) }
{
    let mut rest = text.chars();
    match rest.next() {
        None => None,
        Some(c) => Some((c, rest.as_str())),
    }
}
