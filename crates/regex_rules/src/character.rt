//! What one character of a text is compared with.
ghost use Rattle.std.specs.Prelude.{◌≡◌};
ghost use Rattle.std.specs.List.{list_any};
ghost use Rattle.regex_rules.specs.Languages.{in_range, in_class, is_one};

use sp_base::Items;

/// The characters from one to another, both of them too.
#[derive(Clone, Copy, Drop)]
pub struct CharRange {
    pub first: char,
    pub last: char,
}

/// The characters of some ranges, or all others.
#[derive(Drop)]
pub struct CharClass {
    pub negated: bool,
    pub ranges: Items<CharRange>,
}

/// The characters that may stand at one place.
#[derive(Drop)]
pub enum OneChar {
    /// `.`: any but a newline.
    AnyButNewline,
    Literal(char),
    Class(CharClass),
}

fn is_in_range(c: char, range: &CharRange) -> bool
    ensures { result ≡ in_range c range.now }
{
    range.first <= c && c <= range.last
}

fn is_in_ranges(c: char, ranges: &[CharRange]) -> bool
    ensures { result ≡ list_any (in_range c) ranges.now }
{
    ranges.iter().any(|range| is_in_range(c, range))
}

fn is_in_class(c: char, class: &CharClass) -> bool
    ensures { result ≡ in_class c class.now }
{
    if class.negated {
        !is_in_ranges(c, class.ranges.as_slice())
    } else {
        is_in_ranges(c, class.ranges.as_slice())
    }
}

impl OneChar {
    /// Whether this character may stand there.
    pub(crate) fn is_one(&self, c: char) -> bool
        ensures { result ≡ is_one self.now c }
    {
        match self {
            OneChar::AnyButNewline => c != '\n',
            OneChar::Literal(d) => c == *d,
            OneChar::Class(class) => is_in_class(c, class),
        }
    }
}
