//! The pieces of a script's text.

ghost use Rattle.std.specs.Prelude.{◌≡◌, [], ◌∷◌, ◌++◌, IfOk};

use htl_text::Template;
use sp_base::{Mem, TextBuf};
use sqlite_items::Items;
use std::alloc::Global;

/// A round of a list: the list, the name of the variable that has its items, and the item's index there.
#[derive(Clone, Copy, Drop)]
pub struct Round<'a> {
    pub list: &'a Template,
    pub name: &'a str,
    pub index: usize,
}

/// The variables of a setting, by the rounds that it stands in, the outer ones first. So no item is copied.
#[derive(Drop)]
pub struct Frame<'a> {
    pub rounds: Items<Round<'a>>,
}

/// A piece of the text that a script writes.
#[derive(Drop)]
pub enum Piece<'a> {
    Text(TextBuf),
    /// The text of the script of this name is put in, with the variables of this setting.
    Script(TextBuf, Frame<'a>),
    /// The text of the resource of this name is put in.
    Resource(TextBuf),
}

impl<'a> Frame<'a> {
    /// In no round.
    pub(crate) fn outer(alloc: Global) -> Frame<'a>
        ensures { result.rounds ≡ [] }
    {
        Frame {
            rounds: Items::new(alloc),
        }
    }

    pub(crate) fn duplicate(&self, alloc: Global) -> Mem<Frame<'a>>
        ensures { IfOk result (λ f. f.rounds ≡ self.now.rounds) }
    {
        Ok(Frame {
            rounds: Items::from_slice(alloc, self.rounds.as_slice())?,
        })
    }

    /// In one round more.
    pub(crate) fn within(&self, alloc: Global, round: Round<'a>) -> Mem<Frame<'a>>
        ensures { IfOk result (λ f. f.rounds ≡ self.now.rounds ++ round.entry ∷ []) }
    {
        let mut inner = self.duplicate(alloc)?;
        inner.rounds.push(round)?;
        Ok(inner)
    }
}
