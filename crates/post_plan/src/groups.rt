//! What content parameters ask for, group by group: removals, moves and copies.
ghost use Rattle.std.specs.Prelude.{◌≡◌, IfOk};
ghost use Rattle.post_plan.specs.Entries as spec;

use crate::entries::Entry;
use crate::node::TargetNode;
use crate::spots::spot_of;
use crate::suffix::Suffix;
use crate::{Carry, CarryList, Spot, SpotList};
use sp_base::Mem;
use std::alloc::Global;

pub fn same_suffix(one: Suffix, other: Suffix) -> bool
    ensures { result ≡ spec.same_suffix one other }
{
    match (one, other) {
        (Suffix::Plain, Suffix::Plain) => true,
        (Suffix::TypeHint, Suffix::TypeHint) => true,
        (Suffix::DefaultValue, Suffix::DefaultValue) => true,
        (Suffix::Delete, Suffix::Delete) => true,
        (Suffix::MoveFrom, Suffix::MoveFrom) => true,
        (Suffix::CopyFrom, Suffix::CopyFrom) => true,
        (Suffix::ValueFrom, Suffix::ValueFrom) => true,
        (Suffix::IgnoreBlanks, Suffix::IgnoreBlanks) => true,
        _ => false,
    }
}

pub fn copy_of(alloc: Global, spot: &Spot) -> Mem<Spot>
    ensures { IfOk result (λ s. s ≡ spot.now) }
{
    Ok(Spot {
        at_target: spot.at_target,
        path: spot.path.duplicate(alloc)?,
    })
}

/// Each `@Delete`, in the order of the form.
pub fn deletes(alloc: Global, entries: &[Entry]) -> Mem<SpotList>
    ensures { IfOk result (λ spots. spots ≡ spec.deleted_spots entries.now) }
{
    let mut spots = SpotList::new(alloc);
    for entry in entries {
        if same_suffix(Suffix::Delete, entry.suffix) {
            spots.push(copy_of(alloc, &entry.spot)?)?;
        }
    }
    Ok(spots)
}

// The move or the copy that an entry asks for, where its word names a spot.
fn carry_of(alloc: Global, node: &TargetNode, entry: &Entry) -> Mem<Option<Carry>>
    ensures { IfOk result (λ o. o ≡ spec.carry_of node.now entry.now) }
{
    match spot_of(alloc, node, entry.word)? {
        Some(from) => Ok(Some(Carry {
            from,
            to: copy_of(alloc, &entry.spot)?,
        })),
        None => Ok(None),
    }
}

/// Each `@MoveFrom`, or each `@CopyFrom`, in the order of the form.
pub fn carries(
    alloc: Global,
    node: &TargetNode,
    suffix: Suffix,
    entries: &[Entry],
) -> Mem<CarryList>
    ensures { IfOk result (λ list. list ≡ spec.carries node.now suffix entries.now) }
{
    let mut list = CarryList::new(alloc);
    for entry in entries {
        if same_suffix(suffix, entry.suffix)
            && let Some(carry) = carry_of(alloc, node, entry)?
        {
            list.push(carry)?;
        }
    }
    Ok(list)
}
