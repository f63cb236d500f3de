//! What a glob is made of.
ghost use Rattle.std.specs.Prelude.{◌≡◌};
ghost use Rattle.std.specs.List.{list_any};
ghost use Rattle.glob_rules.specs.Globs.{in_glob_range, in_glob_class, stands_for, is_star};

use sp_base::Items;

/// The characters from one to another, both of them too. One that ends before it begins has none.
#[derive(Clone, Copy, Drop)]
pub struct GlobRange {
    pub first: char,
    pub last: char,
}

/// The characters of some ranges, or all others.
#[derive(Drop)]
pub struct GlobClass {
    pub negated: bool,
    pub ranges: Items<GlobRange>,
}

/// A part of a glob. All but a star stand for one character.
#[derive(Drop)]
pub enum GlobPiece {
    /// Any run of characters, also none.
    Star,
    AnyChar,
    Literal(char),
    Class(GlobClass),
}

fn is_in_range(c: char, range: &GlobRange) -> bool
    ensures { result ≡ in_glob_range c range.now }
{
    range.first <= c && c <= range.last
}

fn is_in_ranges(c: char, ranges: &[GlobRange]) -> bool
    ensures { result ≡ list_any (in_glob_range c) ranges.now }
{
    ranges.iter().any(|range| is_in_range(c, range))
}

fn is_in_class(c: char, class: &GlobClass) -> bool
    ensures { result ≡ in_glob_class c class.now }
{
    if class.negated {
        !is_in_ranges(c, class.ranges.as_slice())
    } else {
        is_in_ranges(c, class.ranges.as_slice())
    }
}

impl GlobPiece {
    /// Whether the piece stands for one character, and for this one.
    pub(crate) fn stands_for(&self, c: char) -> bool
        ensures { result ≡ stands_for self.now c }
    {
        match self {
            GlobPiece::Star => false,
            GlobPiece::AnyChar => true,
            GlobPiece::Literal(d) => c == *d,
            GlobPiece::Class(class) => is_in_class(c, class),
        }
    }

    pub(crate) fn is_star(&self) -> bool
        ensures { result ≡ is_star self.now }
    {
        match self {
            GlobPiece::Star => true,
            _ => false,
        }
    }
}
