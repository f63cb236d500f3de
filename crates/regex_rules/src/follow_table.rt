//! What may come after each character of a pattern.
ghost use Rattle.std.specs.Prelude.{◌≡◌, ◌==◌, ◌%◌, ◌↔◌, ℕ, IfOk, replicate, slice_index, bit_or, if◌then◌else◌};
ghost use Rattle.regex_rules.specs.Positions.{Has};
ghost use Rattle.regex_rules.specs.Linkings as spec;

use sp_base::Mem;
use std::alloc::Global;
use std::marker::Model;

/// Of each character of a pattern a set, with a bit for each character that may come after it.
#[derive(Drop)]
pub(crate) struct FollowTable {
    sets: Vec<u64>,
}

impl Model for FollowTable {
    ghost use Rattle.std.specs.Prelude.{List, ℕ};

    ghost Value = { List ℕ };

    ghost view = { λ t. t.sets.items };
}

// A set that is the next one, with those that may come after where its bit is the lowest.
fn linked(set: u64, left: u64, next: u64) -> u64
    ensures { result ≡ (if left % 2 == 1 then bit_or set next else set) }
{
    if left % 2 == 1 { set | next } else { set }
}

// These may come after those, of the characters that the sets are of.
fn link(sets: &mut [u64], after: u64, next: u64)
    ensures { sets.new ≡ spec.link after next sets.old }
{
    let mut left = after;
    for set in sets.iter_mut() {
        *set = linked(*set, left, next);
        left /= 2;
    }
}

// What may come after one character.
fn set_at(sets: &[u64], q: u32) -> u64
    ensures { result ≡ slice_index sets.now q }
{
    match sets.get(q as usize) {
        Some(set) => *set,
        None => 0,
    }
}

impl FollowTable {
    /// Nothing comes after any of so many characters.
    pub(crate) fn new(alloc: Global, number: usize) -> Mem<FollowTable>
        ensures { IfOk result (λ table. table ≡ replicate number 0) }
    {
        Ok(FollowTable {
            sets: vec![in alloc; 0u64; number]?,
        })
    }

    /// These may come after those.
    pub(crate) fn link(&mut self, after: u64, next: u64)
        ensures { self.new ≡ spec.link after next self.old }
    {
        link(self.sets.as_mut_slice(), after, next);
    }

    /// What may come after some of these.
    pub(crate) fn after(&self, ends: u64) -> u64
        ensures { (p : ℕ) → Has result p ↔ ((q : ℕ) × Has ends q × Has (slice_index self.now q) p) }
    {
        let sets = self.sets.as_slice();
        let mut next = 0u64;
        let mut left = ends;
        'ends: while left != 0 {
            let q = left.trailing_zeros();
            left &= !(1u64 << q);
            next |= set_at(sets, q);
        }
        next
    }
}
