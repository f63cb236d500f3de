//! The characters of a text.
ghost use Rattle.std.specs.Prelude.{◌≡◌, ◌<◌, ◌∷◌, [], MatchOption, length};
ghost use Rattle.std.specs.Str.{chars};
ghost use Rattle.glob_rules.specs.Globs.{is_empty_text};

/// Whether there is no character.
pub fn is_empty(text: &str) -> bool
    ensures { result ≡ is_empty_text (chars text.now) }
{
    text.is_empty()
}

/// The first character, and the text after it.
pub fn first_char(text: &str) -> Option<(char, &str)>
    ensures value { MatchOption result (chars text.now ≡ []) (λ p. chars text.now ≡ p.0 ∷ chars p.1.now) }
    ensures shorter { MatchOption result (text.now ≡ []) (λ p. length p.1.now < length text.now) }
{
    let mut rest = text.chars();
    match rest.next() {
        None => None,
        Some(c) => Some((c, rest.as_str())),
    }
}
