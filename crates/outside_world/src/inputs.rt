//! Inputs: files that are read whole.
ghost use Rattle.std.specs.Prelude.{◌≡◌, ◌≤◌, ℕ, List, Option, IfOk, IfSome, length};
ghost use Rattle.sp_outside.specs.Files.{Files};
ghost use Rattle.outside_world.specs.Faults.{HasInputCause};
ghost use Rattle.outside_world.specs.InputFiles.{IsAnswerFor, longest_input};
ghost use Rattle.outside_world.specs.declared.inputs.InputFault.TheVariants.{NoMemory as out_of_memory};

use sp_base::{ByteBuf, NoMemory};
use std::alloc::{AllocError, Global};

/// The most bytes of a file that is read whole.
pub const LONGEST_INPUT: usize = 67_108_864;

#[derive(Clone, Copy, PartialEq, Eq, Debug, Drop)]
pub enum InputFault {
    Failed,
    TooLong,
    NoMemory,
}

impl From<NoMemory> for InputFault {
    ghost from_gives = { λ _ e. e ≡ out_of_memory };

    fn from(_fault: NoMemory) -> InputFault {
        InputFault::NoMemory
    }
}

impl From<AllocError> for InputFault {
    ghost from_gives = { λ _ e. e ≡ out_of_memory };

    fn from(_fault: AllocError) -> InputFault {
        InputFault::NoMemory
    }
}

/// Files by their names, which no call changes.
pub trait Inputs {
    /// How often a call has failed.
    ghost faults: { Self → ℕ };

    /// The files, where the inputs tell them.
    ghost contents: { Self → Option Files };

    /// The bytes of the file of this name. One of more than `LONGEST_INPUT` bytes is `TooLong`; where there is none the call has failed.
    fn whole(&mut self, alloc: Global, name: &str) -> Result<ByteBuf, InputFault>
        ensures value { IfSome (contents self.old) (λ files. IsAnswerFor files name.now result) }
        ensures size { IfOk result (λ bytes. length bytes ≤ longest_input) }
        ensures same { contents self.new ≡ contents self.old }
        ensures cause { HasInputCause (faults self.old) (faults self.new) result };
}
