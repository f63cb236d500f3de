// The readings of scripts, each read once and kept until a POST changes its text.
ghost use Rattle.std.specs.Prelude.{◌≡◌, ◌⊎◌, cond, List, ℕ, [], Some, None, IfOk, option_copied, option_map};
ghost use Rattle.sp_base.specs.Texts.{Segments};
ghost use Rattle.resource_tree.specs.Content.{same_path};
ghost use Rattle.script_rank.specs.Ranking.{script_text};
ghost use Rattle.publisher.specs.declared.templates.Reading.{Reading};
ghost use Rattle.publisher.specs.Kept.{AddsAtMost, AreReadings, reading_at};
ghost use Rattle.publisher.specs.Readings.{reading_of};

use crate::shared_blocks::SharedBlocks;
use htl_blocks::{BlockFault, Blocks};
use resource_tree::Tree;
use script_rank::script_text;
use sp_base::{Mem, NoMemory, Path};
use std::alloc::Global;
use std::collections::HashMap;
use std::hash::RandomState;
use std::marker::Model;

/// What a script's text reads as.
#[derive(Drop)]
pub(crate) enum Reading {
    Parsed(SharedBlocks),
    /// The text has no reading.
    Refused,
}

impl Reading {
    /// The same once more.
    fn share(&self) -> Mem<Reading>
        ensures { IfOk result (λ same. same ≡ self.now) }
    {
        match self {
            Reading::Parsed(blocks) => Ok(Reading::Parsed(blocks.share()?)),
            Reading::Refused => Ok(Reading::Refused),
        }
    }
}

/// Readings at the paths of their scripts.
#[derive(Drop)]
pub(crate) struct Templates {
    readings: HashMap<Path, Reading, RandomState>,
}

impl Model for Templates {
    ghost use Rattle.std.specs.Coded.{codes};
    ghost use Rattle.htl_syntax.specs.contracts.node.ExprNode as node;
    ghost use Rattle.htl_blocks.specs.contracts.block.Block as block;
    ghost use Rattle.publisher.specs.Kept.{KeptReadings};

    ghost Value = { KeptReadings };

    ghost coded = { Prim.hlevel (codes, node.the_row.coded, block.the_row.coded) };

    ghost view = { λ t. t.readings.entries };
}

impl Templates {
    pub(crate) fn new(alloc: Global, seeds: RandomState) -> Templates
        ensures { result ≡ [] }
    {
        Templates {
            readings: HashMap::with_hasher(alloc, seeds),
        }
    }

    fn get(&self, script: &Path) -> Option<&Reading>
        ensures { option_copied result ≡ reading_at self.now script.now }
    {
        self.readings.get(script)
    }

    /// Keeps a reading, if there is memory for it.
    fn keep(&mut self, script: Path, reading: Reading)
        ensures { AddsAtMost self.old script reading self.new }
    {
        let _ = self.readings.insert(script, reading);
    }

    pub(crate) fn forget(&mut self, script: &Path)
        ensures { (path : Segments) → reading_at self.new path ≡ cond (same_path script.now path) None (reading_at self.old path) }
    {
        drop(self.readings.remove(script));
    }
}

// Reads a script's text.
fn read(alloc: Global, text: &str) -> Mem<Reading>
    ensures { IfOk result (λ reading. reading ≡ reading_of text.now) }
{
    match Blocks::read(alloc, text) {
        Ok(blocks) => Ok(Reading::Parsed(SharedBlocks::new(alloc, blocks)?)),
        Err(BlockFault::NoMemory) => Err(NoMemory),
        Err(_) => Ok(Reading::Refused),
    }
}

/// What the text of the script at a path reads as, if one is there. It is read once, and its reading kept.
pub(crate) fn reading_at(
    alloc: Global,
    tree: &Tree,
    templates: &mut Templates,
    script: &Path,
) -> Mem<Option<Reading>>
    requires kept { AreReadings tree.now templates.old }
    ensures reading { IfOk result (λ o. o ≡ option_map reading_of (script_text tree.now script.now)) }
    ensures kept { AreReadings tree.now templates.new }
{
    if let Some(reading) = templates.get(script) {
        return Ok(Some(reading.share()?));
    }
    let Some(text) = script_text(alloc, tree, script)? else {
        return Ok(None);
    };
    let reading = read(alloc, text.text())?;
    let shared = reading.share()?;
    templates.keep(script.duplicate(alloc)?, reading);
    Ok(Some(shared))
}
