//! Leave to keep a page.
ghost use Rattle.std.specs.Prelude.{◌≡◌};
ghost use Rattle.cover_rules.specs.Pages.{IsPageKey};

use cover_rules::{PageKey, Stamp};
use std::marker::Model;

/// Says that no invalidation covered the page of a flight from its asking to its landing. It can't be dropped: whoever holds it takes the
/// key out of it.
pub struct Clear {
    pub(crate) key: PageKey,
    pub(crate) stamp: Stamp,
}

impl Model for Clear {
    ghost use Rattle.cover_rules.specs.Pages.{IsPageKey};
    ghost use Rattle.flights.specs.ClearPages.{ClearPage};

    ghost Value = { ClearPage };

    ghost view = { λ clear. record { key = clear.key; stamp = clear.stamp } };

    ghost invariant = { λ clear. IsPageKey clear.key };
}

impl Clear {
    /// The page that may be kept.
    pub fn key(&self) -> &PageKey
        ensures value { result.now ≡ self.now.key }
        ensures page { IsPageKey result.now }
    {
        &self.key
    }

    /// When the flight was asked.
    pub fn stamp(&self) -> Stamp
        ensures { result ≡ self.now.stamp }
    {
        self.stamp
    }

    /// Hands on the key.
    pub fn into_key(self) -> PageKey
        ensures value { result ≡ self.key }
        ensures page { IsPageKey result }
    {
        let Clear { key, stamp: _ } = self;
        key
    }
}
