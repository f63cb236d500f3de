//! Scenarios, and why bytes are none.
ghost use Rattle.std.specs.Prelude.{◌≡◌, Some};
ghost use Rattle.replay_text.specs.FaultTexts.{scenario_fault_text};
ghost use Rattle.replay_text.specs.declared.scenario.ScenarioFault.TheVariants.{NoMemory as out_of_memory};

use sp_base::{ByteBuf, NoMemory};
use std::alloc::AllocError;
use std::fmt;

/// A content in JSON, a farm in the form of `dispatcher.any` where one is given, and the lines of the events that are asked for.
#[derive(Drop)]
pub struct Scenario {
    pub content: ByteBuf,
    pub farm: Option<ByteBuf>,
    /// The lines of its acts.
    pub acts: ByteBuf,
}

#[derive(Clone, Copy, PartialEq, Eq, Debug, Drop)]
pub enum ScenarioFault {
    /// How many newlines stand before the place at which the bytes are refused.
    Line(u64),
    NoMemory,
}

impl fmt::Display for ScenarioFault {
    ghost output = { λ fault. Some (scenario_fault_text fault) };

    fn fmt<W: fmt::Write>(&self, f: &mut fmt::Formatter<W>) -> fmt::Result {
        match self {
            ScenarioFault::Line(before) => {
                let line = u128::from(*before) + 1;
                write!(f, "scenario refused at line {line}")
            }
            ScenarioFault::NoMemory => f.write_str("Out of memory"),
        }
    }
}

impl From<AllocError> for ScenarioFault {
    ghost from_gives = { λ _ e. e ≡ out_of_memory };

    fn from(_fault: AllocError) -> ScenarioFault {
        ScenarioFault::NoMemory
    }
}

impl From<NoMemory> for ScenarioFault {
    ghost from_gives = { λ _ e. e ≡ out_of_memory };

    fn from(_fault: NoMemory) -> ScenarioFault {
        ScenarioFault::NoMemory
    }
}
