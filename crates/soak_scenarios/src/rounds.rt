//! The events of a block.
ghost use Rattle.std.specs.Prelude.{◌≡◌, ◌<◌, [], OnOk};
ghost use Rattle.soak_scenarios.specs.Drafts.{with_text, written};
ghost use Rattle.soak_scenarios.specs.Soaks.{closing_line, flush_line, get_line, on_page, opening_text, post_line, seldom_line, usual_line, with_block, draft_with_line, with_drawn_round, with_rounds, with_seldom_line};

use crate::draft::ScenarioDraft;
use sp_base::Mem;
use std::alloc::Global;

const ROUNDS: u64 = 32;

fn push_opening(alloc: Global, draft: &mut ScenarioDraft, block: u64) -> Mem<()>
    ensures { OnOk result (draft.new ≡ with_text (opening_text block) draft.old) }
{
    draft.push(b"open ")?;
    draft.push_number(alloc, block)?;
    draft.push(b" 127.0.0.1\n")
}

fn push_closing(alloc: Global, draft: &mut ScenarioDraft, block: u64) -> Mem<()>
    ensures { OnOk result (draft.new ≡ with_text (closing_line block) draft.old) }
{
    draft.push(b"close ")?;
    draft.push_number(alloc, block)?;
    draft.push(b"\n")
}

// A line up to the page that it names.
fn push_page(
    alloc: Global,
    draft: &mut ScenarioDraft,
    word: &[u8],
    block: u64,
    before: &[u8],
) -> Mem<()>
    ensures { OnOk result (draft.new ≡ written (on_page word.now block before.now []) draft.old) }
{
    draft.push(word)?;
    draft.push_number(alloc, block)?;
    draft.push(before)?;
    draft.push(b"/content/site/a")?;
    draft.push_draw(alloc, 4)?;
    draft.push(b"/p")?;
    draft.push_draw(alloc, 16)
}

fn push_get(alloc: Global, draft: &mut ScenarioDraft, block: u64) -> Mem<()>
    ensures { OnOk result (draft.new ≡ written (get_line block) draft.old) }
{
    push_page(alloc, draft, b"get ", block, b" ")?;
    draft.push(b".html\n")
}

fn push_post(alloc: Global, draft: &mut ScenarioDraft, block: u64) -> Mem<()>
    ensures { OnOk result (draft.new ≡ written (post_line block) draft.old) }
{
    push_page(alloc, draft, b"post ", block, b" ")?;
    draft.push(b" \"n=")?;
    draft.push_draw(alloc, 1000)?;
    draft.push(b"&n@TypeHint=Long\"\n")
}

fn push_flush(alloc: Global, draft: &mut ScenarioDraft, block: u64) -> Mem<()>
    ensures { OnOk result (draft.new ≡ written (flush_line block) draft.old) }
{
    push_page(alloc, draft, b"flush ", block, b" Activate ")?;
    draft.push(b"\n")
}

// The line of a draw below 15.
fn push_usual(alloc: Global, draft: &mut ScenarioDraft, block: u64, draw: u64) -> Mem<()>
    ensures { OnOk result (draft.new ≡ written (usual_line block draw) draft.old) }
{
    match draw {
        0..=3 => push_get(alloc, draft, block),
        4..=7 => draft.push(b"render first\n"),
        8..=11 => draft.push(b"deliver first\n"),
        12 => draft.push(b"lose first\n"),
        13 => push_post(alloc, draft, block),
        _ => push_flush(alloc, draft, block),
    }
}

// A restart shuts the connection of the block, which opens again.
fn push_restart(alloc: Global, draft: &mut ScenarioDraft, block: u64) -> Mem<()>
    ensures { OnOk result (draft.new ≡ written (seldom_line block 0) draft.old) }
{
    draft.push(b"restart\n")?;
    push_opening(alloc, draft, block)
}

fn push_seldom(alloc: Global, draft: &mut ScenarioDraft, block: u64) -> Mem<()>
    ensures { OnOk result (draft.new ≡ with_seldom_line block draft.old) }
{
    match draft.draw(64) {
        0 => push_restart(alloc, draft, block),
        1 => draft.push(b"fail 2 new\n"),
        _ => draft.push(b"purge\n"),
    }
}

fn push_line(alloc: Global, draft: &mut ScenarioDraft, block: u64, draw: u64) -> Mem<()>
    ensures { OnOk result (draft.new ≡ draft_with_line block draw draft.old) }
{
    if draw == 15 {
        push_seldom(alloc, draft, block)
    } else {
        push_usual(alloc, draft, block, draw)
    }
}

fn push_round(alloc: Global, draft: &mut ScenarioDraft, block: u64) -> Mem<()>
    ensures { OnOk result (draft.new ≡ with_drawn_round block draft.old) }
{
    let draw = draft.draw(16);
    push_line(alloc, draft, block, draw)
}

fn push_rounds(alloc: Global, draft: &mut ScenarioDraft, block: u64, count: u64) -> Mem<()>
    ensures { OnOk result (draft.new ≡ with_rounds block count draft.old) }
{
    for _ in 0..count {
        push_round(alloc, draft, block)?;
    }
    Ok(())
}

/// A block: its connection opens, has its rounds, and closes.
pub fn push_block(alloc: Global, draft: &mut ScenarioDraft, block: u64) -> Mem<()>
    ensures { OnOk result (draft.new ≡ with_block block draft.old) }
{
    push_opening(alloc, draft, block)?;
    push_rounds(alloc, draft, block, ROUNDS)?;
    push_closing(alloc, draft, block)
}
