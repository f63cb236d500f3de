// Blocks of a script with several owners: the one that keeps them, and those that write them.

ghost use Rattle.std.specs.Prelude.{◌≡◌, IfOk};

use htl_blocks::Blocks;
use sp_base::Mem;
use std::alloc::{AllocError, Global};
use std::marker::Model;
use std::rc::Rc;

/// A script's blocks. While a page is put together, further scripts may be read and kept beside those that are being written.
#[derive(Drop)]
pub(crate) struct SharedBlocks {
    blocks: Rc<Blocks>,
}

impl Model for SharedBlocks {
    ghost use Rattle.std.specs.Prelude.{List};
    ghost use Rattle.std.specs.Coded.{codes};
    ghost use Rattle.htl_syntax.specs.contracts.node.ExprNode as node;
    ghost use Rattle.htl_blocks.specs.declared.block.Block.{Block};
    ghost use Rattle.htl_blocks.specs.contracts.block.Block as block;

    ghost Value = { List Block };

    ghost coded = { Prim.hlevel (codes, node.the_row.coded, block.the_row.coded) };

    ghost view = { λ s. s.blocks.value };
}

impl SharedBlocks {
    pub(crate) fn new(alloc: Global, blocks: Blocks) -> Mem<SharedBlocks>
        ensures { IfOk result (λ shared. shared ≡ blocks) }
    {
        Ok(SharedBlocks {
            blocks: Rc::new(alloc, blocks)?,
        })
    }

    pub(crate) fn get(&self) -> &Blocks
        ensures { result.now ≡ self.now }
    {
        self.blocks.as_ref()
    }

    /// The same blocks once more, without a copy.
    pub(crate) fn share(&self) -> Mem<SharedBlocks>
        ensures { IfOk result (λ same. same ≡ self.now) }
    {
        let blocks: Result<Rc<Blocks>, AllocError> = self.blocks.clone();
        Ok(SharedBlocks { blocks: blocks? })
    }
}
