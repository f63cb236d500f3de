//! Bodies that are kept in memory.
ghost use Rattle.std.specs.Prelude.{◌≡◌, ◌≤◌, IfOk, length};
ghost use Rattle.page_index.specs.Held.{kept_of};
ghost use Rattle.page_index.specs.Limits.{longest_kept};

use sp_base::{ByteBuf, Mem};
use std::alloc::Global;
use std::marker::Model;

// The most bytes of a body that is kept: 1 MiB.
const LONGEST_KEPT: usize = 1_048_576;

/// A share of a page's body, which isn't too long to be kept.
#[derive(Drop)]
pub(crate) struct KeptBody {
    bytes: ByteBuf,
}

impl Model for KeptBody {
    ghost use Rattle.std.specs.Prelude.{◌≤◌, List, ℕ, length};
    ghost use Rattle.page_index.specs.Limits.{longest_kept};

    ghost Value = { List ℕ };

    ghost view = { λ b. b.bytes };

    ghost invariant = { λ b. length b.bytes ≤ longest_kept };
}

impl KeptBody {
    /// A share of a body, where that isn't too long.
    pub(crate) fn of(alloc: Global, body: &mut ByteBuf) -> Mem<Option<KeptBody>>
        ensures ok { IfOk result (λ kept. kept ≡ kept_of body.old) }
        ensures same { body.new ≡ body.old }
    {
        if body.bytes().len() > LONGEST_KEPT {
            return Ok(None);
        }
        let bytes = body.share(alloc)?;
        Ok(Some(KeptBody { bytes }))
    }

    pub(crate) fn len(&self) -> usize
        ensures value { result ≡ length self.now }
        ensures few { result ≤ longest_kept }
    {
        self.bytes.bytes().len()
    }

    /// The same bytes once more, without a copy.
    pub(crate) fn share(&mut self, alloc: Global) -> Mem<ByteBuf>
        ensures ok { IfOk result (λ bytes. bytes ≡ self.old) }
        ensures short { IfOk result (λ bytes. length bytes ≤ longest_kept) }
        ensures same { self.new ≡ self.old }
    {
        self.bytes.share(alloc)
    }
}
