//! A script's blocks.

ghost use Rattle.std.specs.Prelude.{◌≡◌, ◌≢◌, IfOk, IfErr, Ok, Err};
ghost use Rattle.htl_blocks.specs.Reading.{blocks_of};

use crate::block::Block;
use crate::fault::BlockFault;
use crate::reader::blocks;
use sqlite_items::Items;
use std::alloc::Global;
use std::marker::Model;

/// How deep block elements may nest.
const MOST_NESTED_BLOCKS: u32 = 32;

/// A script as text and block elements. Contracts see the list of its blocks.
#[derive(Drop)]
pub struct Blocks {
    pub(crate) blocks: Items<Block>,
}

impl Model for Blocks {
    ghost use Rattle.std.specs.Prelude.{List};
    ghost use Rattle.std.specs.Coded.{codes};
    ghost use Rattle.htl_syntax.specs.contracts.node.ExprNode as node;
    ghost use Rattle.htl_blocks.specs.declared.block.Block.{Block};
    ghost use Rattle.htl_blocks.specs.contracts.block.Block as block;

    ghost Value = { List Block };

    ghost coded = { Prim.hlevel (codes, node.the_row.coded, block.the_row.coded) };

    ghost view = { λ b. b.blocks };
}

impl Blocks {
    /// The blocks of the script, in their order.
    pub fn blocks(&self) -> &[Block]
        ensures { result.now ≡ self.now }
    {
        self.blocks.as_slice()
    }

    /// Reads a script. Of several faults it answers the one that comes first in the text.
    pub fn read(alloc: Global, text: &str) -> Result<Blocks, BlockFault>
        ensures ok { IfOk result (λ b. blocks_of text.now ≡ Ok b) }
        ensures err { IfErr result (λ f. f ≢ BlockFault.NoMemory → blocks_of text.now ≡ Err f) }
    {
        Ok(Blocks {
            blocks: blocks(alloc, MOST_NESTED_BLOCKS, text.len(), text)?,
        })
    }
}
