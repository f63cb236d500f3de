// Names in slots, so that one is moved without a walk over the others.
ghost use Rattle.std.specs.Prelude.{◌≡◌, ◌<◌, ◌≤◌, ◌++◌, ◌∷◌, [], suc, false, IfOk, OnOk, Some, length, nat_eq, option_copied, option_to_list};
ghost use Rattle.std.specs.List.{IsDistinct, list_any};
ghost use Rattle.std.specs.Cmp.Lexicographic.{pointwise};
ghost use Rattle.overlay_merge.specs.Kids.{names_after_move};
ghost use Rattle.overlay_merge.specs.Slots.{SlotsAreGood, IsPutIn, held_in, slot_name, names_of, slot_in};

use sp_base::{Mem, TextBuf};
use std::alloc::Global;
use std::collections::BTreeMap;

/// Names, each in a slot. Slot 0 has none: it is before the first of them and after the last. A name that is moved takes a new slot, and
/// stands in the old one no more.
#[derive(Drop)]
pub(crate) struct Slots<'a> {
    /// The slot before each.
    before: Vec<usize>,
    /// The name that was put into each slot but the first.
    held: Vec<&'a str>,
    /// The slot in which each name stands.
    places: BTreeMap<&'a str, usize>,
}

impl<'a> Slots<'a> {
    #[tactic(auto, unfolding(crate::specs::Slots::names_of))]
    pub(crate) fn new(alloc: Global) -> Mem<Slots<'a>>
        ensures good { IfOk result (λ slots. SlotsAreGood slots) }
        ensures names { IfOk result (λ slots. names_of slots ≡ []) }
    {
        let mut before = Vec::new(alloc);
        before.push(0)?;
        Ok(Slots {
            before,
            held: Vec::new(alloc),
            places: BTreeMap::new(alloc),
        })
    }

    // Puts a name into a new slot, directly before another slot.
    fn put(&mut self, at: usize, name: &'a str) -> Mem<()>
        requires at { at < length self.old.before.items }
        requires size { length self.old.before.items ≡ suc (length self.old.held.items) }
        ensures put { OnOk result (IsPutIn self.old self.new at name.entry.now) }
        ensures size { OnOk result (length self.new.before.items ≡ suc (length self.new.held.items)) }
        ensures more { OnOk result (length self.new.held.items ≡ suc (length self.old.held.items)) }
    {
        let slot = self.before.len();
        let before = self.before[at];
        self.before.push(before)?;
        self.before[at] = slot;
        self.held.push(name)?;
        self.places.insert(name, slot)?;
        Ok(())
    }

    // Adds a name at the end.
    pub(crate) fn add(&mut self, name: &'a str) -> Mem<()>
        requires good { SlotsAreGood self.old }
        requires new { list_any (pointwise nat_eq name.now) (names_of self.old) ≡ false }
        ensures good { OnOk result (SlotsAreGood self.new) }
        ensures names { OnOk result (names_of self.new ≡ names_of self.old ++ name.entry.now ∷ []) }
    {
        self.put(0, name)?;
        Ok(())
    }

    // Moves a name directly before another.
    pub(crate) fn move_before(&mut self, name: &'a str, other: &str) -> Mem<()>
        requires { SlotsAreGood self.old }
        ensures good { OnOk result (SlotsAreGood self.new) }
        ensures names { OnOk result (names_of self.new ≡ names_after_move name.entry.now (Some other.now) (names_of self.old)) }
    {
        if name == other {
            return Ok(());
        }
        let Some(_) = self.places.get(name) else {
            return Ok(());
        };
        let Some(at) = self.places.get(other) else {
            return Ok(());
        };
        let at = *at;
        self.put(at, name)?;
        Ok(())
    }

    /// The names in their order.
    pub(crate) fn names(&self, alloc: Global) -> Mem<Vec<TextBuf>>
        requires { SlotsAreGood self.now }
        ensures { IfOk result (λ names. names.items ≡ names_of self.now) }
    {
        let mut names = Vec::new(alloc);
        let mut slot = 0;
        for _ in 0..self.held.len() {
            slot = self.before[slot];
            push_some(alloc, &mut names, self.name_in(slot))?;
        }
        names.reverse();
        Ok(names)
    }

    // The name that stands in a slot, if one does.
    fn name_in(&self, slot: usize) -> Option<&'a str>
        requires { (0 < slot) × (slot ≤ length self.now.held.items) }
        ensures { option_to_list (option_copied result) ≡ slot_name (held_in self.now) (slot_in self.now) slot }
    {
        let name = self.held[slot - 1];
        match self.places.get(name) {
            Some(place) if *place == slot => Some(name),
            _ => None,
        }
    }
}

fn push_some(alloc: Global, names: &mut Vec<TextBuf>, name: Option<&str>) -> Mem<()>
    ensures { OnOk result (names.new.items ≡ names.old.items ++ option_to_list (option_copied name.entry)) }
{
    if let Some(name) = name {
        names.push(TextBuf::of(alloc, name)?)?;
    }
    Ok(())
}

/// Names that differ, each in a slot, in their order.
pub(crate) fn slots_of<'a>(alloc: Global, names: &'a [TextBuf]) -> Mem<Slots<'a>>
    requires { IsDistinct (pointwise nat_eq) names.now }
    ensures good { IfOk result (λ slots. SlotsAreGood slots) }
    ensures names { IfOk result (λ slots. names_of slots ≡ names.now) }
{
    let mut slots = Slots::new(alloc)?;
    for name in names {
        slots.add(name.text())?;
    }
    Ok(slots)
}
