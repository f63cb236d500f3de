// Names that fell away from a list.
ghost use Rattle.std.specs.Prelude.{◌≡◌, ◌↔◌, [], ℕ, List, IsTrue, OnOk, OnErr, if◌then◌else◌};
ghost use Rattle.std.specs.Str.{bytes_eq};
ghost use Rattle.tree_draft.specs.Falls as spec;

use indexmap::IndexMap;
use sp_base::Mem;
use std::alloc::Global;
use std::hash::RandomState;
use std::marker::Model;

/// How long a list was when a name last fell away from it, with the names in it that had fallen away before.
#[derive(Drop)]
pub(crate) struct Falls {
    lengths: IndexMap<String, usize, RandomState>,
}

impl Model for Falls {
    ghost use Rattle.std.specs.Prelude.{map, string_bytes};
    ghost use Rattle.tree_draft.specs.Falls.{NameFalls};

    ghost Value = { NameFalls };

    ghost view = { λ f. map (λ e. (string_bytes e.0, e.1)) f.lengths.entries };
}

impl Falls {
    /// None. The seeds key the hashes of the names, which authors pick.
    pub(crate) fn new(alloc: Global, seeds: RandomState) -> Falls
        ensures { result ≡ [] }
    {
        Falls {
            lengths: IndexMap::with_hasher(alloc, seeds),
        }
    }

    pub(crate) fn is_empty(&self) -> bool
        ensures { IsTrue result ↔ (self.now ≡ []) }
    {
        self.lengths.is_empty()
    }

    // How long the list was when a name last fell away.
    fn of(&self, name: &str) -> usize
        ensures { result ≡ spec.fall_of self.now name.now }
    {
        match self.lengths.get(name) {
            Some(n) => *n,
            None => 0,
        }
    }

    /// Whether the name at a place stands.
    pub(crate) fn stands(&self, place: usize, name: &str) -> bool
        ensures { result ≡ spec.stands self.now place name.now }
    {
        self.of(name) <= place
    }

    /// Notes that a name falls away from a list of this length.
    pub(crate) fn note(&mut self, alloc: Global, name: &str, length: usize) -> Mem<()>
        ensures ok { OnOk result ((k : List ℕ) → spec.fall_of self.new k ≡ (if bytes_eq name.now k then length else spec.fall_of self.old k)) }
        ensures err { OnErr result (self.new ≡ self.old) }
    {
        let name = String::from_str(alloc, name)?;
        self.lengths.insert(name, length)?;
        Ok(())
    }
}
