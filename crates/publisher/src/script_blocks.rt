// The blocks of scripts by their paths.

ghost use Rattle.std.specs.Prelude.{◌≡◌, IfOk};
ghost use Rattle.publisher.specs.Kept.{AreReadings};
ghost use Rattle.publisher.specs.Pages.{script_blocks};
ghost use Rattle.publisher.specs.Readings.{blocks_in};

use crate::shared_blocks::SharedBlocks;
use crate::templates::{Reading, Templates, reading_at};
use resource_tree::Tree;
use script_rank::is_script_name;
use sp_base::{Mem, Path};
use std::alloc::Global;

fn blocks_in(reading: Option<Reading>) -> Option<SharedBlocks>
    ensures { result ≡ blocks_in reading }
{
    match reading {
        Some(Reading::Parsed(blocks)) => Some(blocks),
        Some(Reading::Refused) => None,
        None => None,
    }
}

/// The blocks of the script at a path, if one is there and has a reading.
#[tactic(auto, unfolding(crate::specs::Pages::script_blocks))]
pub(crate) fn script_blocks(
    alloc: Global,
    tree: &Tree,
    templates: &mut Templates,
    script: &Path,
) -> Mem<Option<SharedBlocks>>
    requires kept { AreReadings tree.now templates.old }
    ensures blocks { IfOk result (λ o. o ≡ script_blocks tree.now script.now) }
    ensures kept { AreReadings tree.now templates.new }
{
    if !is_script_name(script.name()) {
        return Ok(None);
    }
    let reading = reading_at(alloc, tree, templates, script)?;
    Ok(blocks_in(reading))
}
