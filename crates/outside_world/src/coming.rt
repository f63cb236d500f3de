//! What is to come in a world in memory.
ghost use Rattle.std.specs.Prelude.{◌≡◌, IfOk, drop};
ghost use Rattle.outside_world.specs.WorldMemory.{first_coming};

use crate::{Happening, HappeningList};
use sp_base::Mem;
use std::alloc::Global;
use std::marker::Model;

/// Those of some happenings that are still to come.
#[derive(Drop)]
pub(crate) struct Coming {
    happenings: HappeningList,
    // How many of them came.
    came: usize,
}

impl Model for Coming {
    ghost use Rattle.std.specs.Prelude.{List, drop};
    ghost use Rattle.outside_world.specs.declared.world.Happening.{Happening};

    ghost Value = { List Happening };

    ghost view = { λ c. drop c.came c.happenings };
}

impl Coming {
    pub(crate) fn new(happenings: HappeningList) -> Coming
        ensures { result ≡ happenings }
    {
        Coming {
            happenings,
            came: 0,
        }
    }

    /// A copy of the first of them, or `Quiet`.
    pub(crate) fn first(&self, alloc: Global) -> Mem<Happening>
        ensures { IfOk result (λ happening. happening ≡ first_coming self.now) }
    {
        match self.happenings.get(self.came) {
            Some(happening) => happening.duplicate(alloc),
            None => Ok(Happening::Quiet),
        }
    }

    /// Takes the first of them away, if there is one.
    pub(crate) fn pass(&mut self)
        ensures { self.new ≡ drop 1 self.old }
    {
        if self.came < self.happenings.len() {
            self.came += 1;
        }
    }
}
