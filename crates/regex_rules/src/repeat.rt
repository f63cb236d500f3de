//! How often a piece of a pattern stands.
ghost use Rattle.std.specs.Prelude.{◌≡◌};
ghost use Rattle.regex_rules.specs.Languages.{may_lack, may_go_on};

/// How often a piece of a pattern stands.
#[derive(Clone, Copy, Drop)]
pub enum Repeat {
    Once,
    /// `?`: once or not at all.
    Optional,
    /// `*`: any number of times, also none.
    Any,
    /// `+`: any number of times, at least once.
    AtLeastOnce,
}

impl Repeat {
    /// Whether the piece may be left out.
    pub(crate) fn may_lack(self) -> bool
        ensures { result ≡ may_lack self }
    {
        match self {
            Repeat::Once | Repeat::AtLeastOnce => false,
            Repeat::Optional | Repeat::Any => true,
        }
    }

    /// Whether the piece may stand again after itself.
    pub(crate) fn may_go_on(self) -> bool
        ensures { result ≡ may_go_on self }
    {
        match self {
            Repeat::Once | Repeat::Optional => false,
            Repeat::Any | Repeat::AtLeastOnce => true,
        }
    }
}
