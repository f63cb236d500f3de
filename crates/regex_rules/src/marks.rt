//! A set of places of a pattern: a mark for each.
ghost use Rattle.std.specs.Prelude.{◌≡◌, ℕ, true, false, [], ◌∷◌, ◌++◌, IfOk, OnOk, set, replicate, length};
ghost use Rattle.regex_rules.specs.Off.{AreOff};

use sp_base::Mem;
use std::alloc::Global;
use std::marker::Model;

/// A mark for each place, in the pattern's order. Whether one was ever put on is noted beside them, so that nobody has to look for it.
#[derive(Drop)]
pub(crate) struct Marks {
    marks: Vec<bool>,
    some: bool,
}

impl Model for Marks {
    ghost use Rattle.std.specs.Prelude.{◌≡◌, false, List, Bool};
    ghost use Rattle.regex_rules.specs.Off.{AreOff};

    ghost Value = { List Bool };

    ghost view = { λ m. m.marks.items };

    ghost invariant = { λ m. m.some ≡ false → AreOff m.marks.items };
}

impl Marks {
    /// This many marks, all of them off.
    #[tactic(auto, using(crate::proofs::OffLemmas::off_replicate))]
    pub(crate) fn off(alloc: Global, number: usize) -> Mem<Marks>
        ensures { IfOk result (λ marks. marks ≡ replicate number false) }
    {
        Ok(Marks {
            marks: vec![in alloc; false; number]?,
            some: false,
        })
    }

    /// No marks, with room for this many.
    pub(crate) fn with_room(alloc: Global, number: usize) -> Mem<Marks>
        ensures { IfOk result (λ marks. marks ≡ []) }
    {
        Ok(Marks {
            marks: Vec::with_capacity(alloc, number)?,
            some: false,
        })
    }

    pub(crate) fn as_slice(&self) -> &[bool]
        ensures { result.now ≡ self.now }
    {
        self.marks.as_slice()
    }

    /// Whether it is known that no mark is on.
    pub(crate) fn are_off(&self) -> bool
        ensures { result ≡ true → AreOff self.now }
    {
        !self.some
    }

    #[tactic(auto, using(crate::proofs::OffLemmas::off_more))]
    pub(crate) fn push(&mut self, mark: bool) -> Mem<()>
        ensures { OnOk result (self.new ≡ self.old ++ mark ∷ []) }
    {
        self.marks.push(mark)?;
        self.some |= mark;
        Ok(())
    }

    /// Changes the mark of a place, if there is one.
    #[tactic(auto, using(crate::proofs::OffLemmas::off_put))]
    pub(crate) fn put(&mut self, slot: usize, mark: bool)
        ensures { self.new ≡ set self.old slot mark }
    {
        let Some(place) = self.marks.get_mut(slot) else {
            return;
        };
        *place = mark;
        self.some |= mark;
    }

    pub(crate) fn len(&self) -> usize
        ensures { result ≡ length self.now }
    {
        self.marks.len()
    }

    pub(crate) fn clear(&mut self)
        ensures { self.new ≡ [] }
    {
        self.marks.clear();
        self.some = false;
    }
}
