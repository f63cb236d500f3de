//! The farm of a scenario, or why there is none.
ghost use Rattle.std.specs.Prelude.{◌≡◌, Ok, Err, IfOk, IfErr, Some, false};
ghost use Rattle.sling_dispatch.specs.Farms as spec;
ghost use Rattle.sling_dispatch.specs.Faults.{refusal_text};

use any_config::{AnyFault, Farm, FarmFault, STANDARD_FARM, farm_of, read_any};
use sp_base::ByteBuf;
use std::alloc::Global;
use std::fmt;

/// Why a text gives no farm.
#[derive(Drop)]
pub enum FarmRefusal {
    /// It is no `dispatcher.any` file.
    NoFile(AnyFault),
    /// The file has no farm that can be used.
    NoFarm(FarmFault),
}

impl fmt::Display for FarmRefusal {
    ghost output = { λ refusal. Some (refusal_text refusal) };

    fn fmt<W: fmt::Write>(&self, f: &mut fmt::Formatter<W>) -> fmt::Result {
        match self {
            FarmRefusal::NoFile(fault) => write!(f, "{fault}"),
            FarmRefusal::NoFarm(fault) => write!(f, "{fault}"),
        }
    }
}

/// The text of a scenario's farm: the standard one where the scenario gives none.
pub fn farm_text(given: &Option<ByteBuf>) -> &[u8]
    ensures { result.now ≡ spec.farm_text given.now }
{
    match given {
        Some(bytes) => bytes.bytes(),
        None => STANDARD_FARM.as_bytes(),
    }
}

/// The farm that a text gives.
pub fn farm_in(alloc: Global, text: &[u8]) -> Result<Farm, FarmRefusal>
    ensures ok { IfOk result (λ farm. spec.farm_in text.now ≡ Ok farm) }
    ensures err { IfErr result (λ refusal. spec.is_out_of_memory refusal ≡ false → spec.farm_in text.now ≡ Err refusal) }
{
    let top = match read_any(alloc, text) {
        Ok(top) => top,
        Err(fault) => return Err(FarmRefusal::NoFile(fault)),
    };
    match farm_of(alloc, &top) {
        Ok(farm) => Ok(farm),
        Err(fault) => Err(FarmRefusal::NoFarm(fault)),
    }
}

/// Whether the farm wasn't read, since memory ran out.
pub fn is_out_of_memory(refusal: &FarmRefusal) -> bool
    ensures { result ≡ spec.is_out_of_memory refusal.now }
{
    match refusal {
        FarmRefusal::NoFile(fault) => matches!(fault, AnyFault::NoMemory),
        FarmRefusal::NoFarm(fault) => matches!(fault, FarmFault::NoMemory),
    }
}
