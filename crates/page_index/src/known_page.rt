//! Pages whose head and body are noted.
ghost use Rattle.std.specs.Prelude.{◌≡◌};

use cover_rules::Stamp;
use http_front::PreparedAnswer;
use std::marker::Model;

/// A page whose head and body are noted, with its answer prepared. Contracts see it as the page that the files hold.
#[derive(Drop)]
pub struct KnownPage {
    stamp: Stamp,
    answer: PreparedAnswer,
}

impl Model for KnownPage {
    ghost use Rattle.cache_files.specs.declared.page.Page.{Page};

    ghost Value = { Page };

    ghost view = { λ p. record { stamp = p.stamp; answer = p.answer } };
}

impl KnownPage {
    pub(crate) fn new(stamp: Stamp, answer: PreparedAnswer) -> KnownPage
        ensures { result ≡ record { stamp = stamp; answer = answer } }
    {
        KnownPage { stamp, answer }
    }

    /// When it was asked for.
    pub fn stamp(&self) -> Stamp
        ensures { result ≡ self.now.stamp }
    {
        self.stamp
    }

    pub fn into_answer(self) -> PreparedAnswer
        ensures { result ≡ self.answer }
    {
        self.answer
    }
}
