//! Makes a scenario from a number.
ghost use Rattle.std.specs.Prelude.{◌≡◌, IfOk, OnOk};
ghost use Rattle.soak_scenarios.specs.Soaks.{generated_text, with_drawn_blocks};

use crate::draft::ScenarioDraft;
use crate::rounds::push_block;
use crate::site::push_head;
use sp_base::Mem;
use std::alloc::Global;

const BLOCKS: u64 = 625;

fn push_blocks(alloc: Global, draft: &mut ScenarioDraft, count: u64) -> Mem<()>
    ensures { OnOk result (draft.new ≡ with_drawn_blocks count draft.old) }
{
    for before in 0..count {
        push_block(alloc, draft, before + 1)?;
    }
    Ok(())
}

/// The text of the scenario of a number (`docs/formats/FORMATS.md`, "Generated scenarios").
pub fn generated(alloc: Global, number: u32) -> Mem<Vec<u8>>
    ensures { IfOk result (λ text. text.items ≡ generated_text number) }
{
    let mut draft = ScenarioDraft::new(alloc, number);
    push_head(alloc, &mut draft)?;
    push_blocks(alloc, &mut draft, BLOCKS)?;
    draft.push(b"end\n")?;
    Ok(draft.into_text())
}
