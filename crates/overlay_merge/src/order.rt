// Kids that are moved to where they wish to stand.
ghost use Rattle.std.specs.Prelude.{◌≡◌, List, nat_eq, IfOk, OnOk, fold, option_copied};
ghost use Rattle.std.specs.Cmp.Lexicographic.{pointwise};
ghost use Rattle.std.specs.List.{IsDistinct};
ghost use Rattle.resource_tree.specs.Content.{kid};
ghost use Rattle.overlay_merge.specs.Kids.{names_after_move, ordered_by, wish_at};
ghost use Rattle.overlay_merge.specs.Slots.{SlotsAreGood, names_after_moves, names_of, AddsMove, AddsMoves};
ghost use Rattle.sp_base.specs.Texts.{Text};

use crate::slots::{Slots, slots_of};
use resource_tree::{Res, Tree};
use sp_base::{Mem, Path, TextBuf};
use std::alloc::Global;

/// A name that is moved directly before another.
#[derive(Clone, Copy, Drop)]
pub(crate) struct KidMove<'a> {
    pub name: &'a str,
    pub other: &'a str,
}

// The name before which a kid of a layer wishes to stand.
fn wish_of<'a>(alloc: Global, tree: &'a Tree, path: &Path, name: &str) -> Mem<Option<&'a TextBuf>>
    ensures { IfOk result (λ o. option_copied o ≡ wish_at tree.now (kid path.now name.now)) }
{
    // `len` says that each node's path is one.
    let _ = tree.len();
    let Some(path) = path.child_or_none(alloc, name)? else {
        return Ok(None);
    };
    match tree.node(&path) {
        Some(node) => Ok(node.props.text("sling:orderBefore")),
        None => Ok(None),
    }
}

// Adds the move of a name, if it wishes one.
#[tactic(auto, unfolding(crate::specs::Kids::names_after_move))]
fn push_move<'a>(moves: &mut Vec<KidMove<'a>>, name: &'a str, wish: Option<&'a TextBuf>) -> Mem<()>
    ensures { OnOk result (AddsMove name.entry.now (option_copied wish.entry) moves.old.items moves.new.items) }
{
    if let Some(other) = wish {
        let other = other.text();
        moves.push(KidMove { name, other })?;
    }
    Ok(())
}

// Adds the moves of a layer's kids.
#[tactic(auto, unfolding(crate::specs::Kids::ordered_by))]
fn add_moves<'a>(
    alloc: Global,
    tree: &'a Tree,
    layer: &'a Res<'_>,
    moves: &mut Vec<KidMove<'a>>,
) -> Mem<()>
    ensures { OnOk result (AddsMoves tree.entry.now layer.entry.now moves.old.items moves.new.items) }
{
    for name in layer.kids() {
        let wish = wish_of(alloc, tree, layer.path(), name.text())?;
        push_move(moves, name.text(), wish)?;
    }
    Ok(())
}

/// The moves of the kids of layers, the lowest layer first.
pub(crate) fn moves_of<'a>(
    alloc: Global,
    tree: &'a Tree,
    layers: &'a [Res<'_>],
) -> Mem<Vec<KidMove<'a>>>
    ensures { IfOk result (λ moves. (names : List Text) → names_after_moves moves.items names ≡ fold (ordered_by tree.now) names layers.now) }
{
    let mut moves = Vec::new(alloc);
    for layer in layers {
        add_moves(alloc, tree, layer, &mut moves)?;
    }
    Ok(moves)
}

fn move_all<'a>(slots: &mut Slots<'a>, moves: &[KidMove<'a>]) -> Mem<()>
    requires { SlotsAreGood slots.old }
    ensures good { OnOk result (SlotsAreGood slots.new) }
    ensures names { OnOk result (names_of slots.new ≡ names_after_moves moves.now (names_of slots.old)) }
{
    for step in moves {
        slots.move_before(step.name, step.other)?;
    }
    Ok(())
}

/// Names that differ, with moves made one after the other: each looks its two names up, and walks over no others.
pub(crate) fn ordered<'a>(
    alloc: Global,
    names: &'a [TextBuf],
    moves: &[KidMove<'a>],
) -> Mem<Vec<TextBuf>>
    requires { IsDistinct (pointwise nat_eq) names.now }
    ensures { IfOk result (λ list. list.items ≡ names_after_moves moves.now names.now) }
{
    let mut slots = slots_of(alloc, names)?;
    move_all(&mut slots, moves)?;
    slots.names(alloc)
}
