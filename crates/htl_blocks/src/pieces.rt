//! What a script's blocks write.

ghost use Rattle.std.specs.Prelude.{◌≡◌, ◌≢◌, IfOk, IfErr};
ghost use Rattle.htl_blocks.specs.Parts.{seen};
ghost use Rattle.htl_blocks.specs.Refused.{Fits, IsRefused};
ghost use Rattle.htl_blocks.specs.Sheets.{PassesLimit, Stops, empty_sheet, kept, with_parts};
ghost use Rattle.htl_blocks.specs.Written.{blocks_parts};
ghost use Rattle.htl_blocks.specs.Pieces.{IsWithinLimits, StandsForParts};

use crate::block::Block;
use crate::blocks::Blocks;
use crate::keeping::Keeping;
use crate::piece::Frame;
use crate::piece_list::PieceList;
use crate::run_fault::RunFault;
use crate::setting::Setting;
use crate::sheet::{Sheet, finished};
use crate::written::blocks;
use htl_expr::Scope;
use std::alloc::Global;

// A sheet with what blocks write.
fn filled<'a>(
    alloc: Global,
    scope: &Scope<'a>,
    keeping: Keeping,
    all: &'a [Block],
) -> Result<Sheet<'a>, RunFault>
    ensures ok { IfOk result (λ sheet. sheet ≡ with_parts (empty_sheet scope.now keeping) (blocks_parts scope.now all.now)) }
    ensures err { IfErr result (λ f. Stops f (empty_sheet scope.now keeping) (blocks_parts scope.now all.now)) }
{
    let mut sheet = Sheet::new(alloc, scope, keeping);
    let frame = Frame::outer(alloc);
    let setting = Setting {
        vars: scope.variables(),
        frame: &frame,
    };
    blocks(&mut sheet, alloc, &setting, all)?;
    Ok(sheet)
}

// What blocks write, of which this is kept.
fn written<'a>(
    alloc: Global,
    scope: &Scope<'a>,
    keeping: Keeping,
    all: &'a [Block],
) -> Result<PieceList<'a>, RunFault>
    ensures parts { IfOk result (StandsForParts scope.now (kept keeping) (blocks_parts scope.now all.now)) }
    ensures fits { IfOk result IsWithinLimits }
    ensures err { IfErr result (λ f. Stops f (empty_sheet scope.now keeping) (blocks_parts scope.now all.now)) }
{
    let sheet = filled(alloc, scope, keeping, all)?;
    finished(sheet, scope)
}

// The fault where there is too much: of the text, if what is looked at of it is too long.
fn fault_beside<'a>(alloc: Global, scope: &Scope<'a>, all: &'a [Block]) -> RunFault
    requires { PassesLimit RunFault.TooMany (empty_sheet scope.now Keeping.All) (blocks_parts scope.now all.now) }
    ensures { result ≢ RunFault.NoMemory → IsRefused result (blocks_parts scope.now all.now) }
{
    let Err(fault) = written(alloc, scope, Keeping::TextAlone, all) else {
        return RunFault::TooMany;
    };
    fault
}

impl Blocks {
    /// What the script writes for a resource and variables, with what is put in from elsewhere. Where there is too much of the rest and too
    /// much text, it is the text that is told; but from the round that is one too many on, nothing is looked at.
    #[tactic(auto, using(crate::proofs::PieceLemmas::all_are_seen, crate::proofs::PieceLemmas::all_fits, crate::proofs::PieceLemmas::long_is_refused))]
    pub fn pieces<'a>(&'a self, alloc: Global, scope: &Scope<'a>) -> Result<PieceList<'a>, RunFault>
        ensures parts { IfOk result (StandsForParts scope.now seen (blocks_parts scope.now self.now)) }
        ensures fits { IfOk result (λ l. Fits (blocks_parts scope.now self.now)) }
        ensures err { IfErr result (λ f. f ≢ RunFault.NoMemory → IsRefused f (blocks_parts scope.now self.now)) }
    {
        match written(alloc, scope, Keeping::All, self.blocks()) {
            Ok(list) => Ok(list),
            Err(RunFault::TooMany) => Err(fault_beside(alloc, scope, self.blocks())),
            Err(RunFault::TooLong) => Err(RunFault::TooLong),
            Err(RunFault::NoMemory) => Err(RunFault::NoMemory),
        }
    }
}
