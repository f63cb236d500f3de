//! How much room the variables of a setting leave for the item of a list.

ghost use Rattle.std.specs.Prelude.{◌≡◌, ◌+◌, IfOk, IfErr, IfSome, [], length, get_or, slice_get};
ghost use Rattle.htl_expr.specs.Variables.{lent_pairs, vars_of};
ghost use Rattle.htl_blocks.specs.VariableRoom.{HasVariableRoom, HasNoRoomIfMemory, IsRoomLeft, vars_len};

use crate::repetition::Repetition;
use crate::run_fault::RunFault;
use htl_expr::{ItemText, Variables, WriteFault};
use sp_base::MOST_RENDERED_BYTES;
use std::alloc::Global;

// What a text leaves of a room.
fn left_by(room: usize, text: &str) -> Result<usize, RunFault>
    ensures { IsRoomLeft room (length text.now) result }
{
    if text.len() > room {
        return Err(RunFault::TooLong);
    }
    Ok(room - text.len())
}

// What a name and its text leave.
fn left_by_one(room: usize, name: &str, text: &str) -> Result<usize, RunFault>
    ensures { IsRoomLeft room (length name.now + length text.now) result }
{
    let left = left_by(room, name)?;
    left_by(left, text)
}

// What pairs leave.
#[cycle(left_by_pairs)]
#[tactic(auto, using(crate::proofs::RoomLemmas::vars_len_more))]
fn left_by_pairs(room: usize, pairs: &[(&str, &str)]) -> Result<usize, RunFault>
    ensures { IsRoomLeft room (vars_len (lent_pairs pairs.now)) result }
{
    match pairs {
        [] => Ok(room),
        [pair, outer @ ..] => {
            let left = left_by_one(room, pair.0, pair.1)?;
            left_by_pairs(left, outer)
        }
    }
}

// What variables leave.
#[cycle(left_by_vars)]
#[tactic(auto, using(crate::proofs::RoomLemmas::vars_len_more))]
fn left_by_vars(room: usize, vars: &Variables) -> Result<usize, RunFault>
    ensures { IsRoomLeft room (vars_len (vars_of vars.now)) result }
{
    match vars {
        Variables::None => Ok(room),
        Variables::With(name, text, outer) => {
            let left = left_by_one(room, name, text)?;
            left_by_vars(left, outer)
        }
        Variables::Pairs(pairs) => left_by_pairs(room, pairs),
    }
}

/// The text of the item at an index of a list, where the variables have room for it. It isn't made beyond that.
pub fn item_at<'v, 'a: 'v>(
    alloc: Global,
    vars: &Variables<'v>,
    repetition: &Repetition<'v, 'a>,
    index: usize,
) -> Result<Option<ItemText<'v>>, RunFault>
    ensures ok { IfOk result (λ item. item ≡ slice_get repetition.now.items index) }
    ensures room { IfOk result (λ item. IfSome item (HasVariableRoom repetition.now.name.now (vars_of vars.now))) }
    ensures err { IfErr result (HasNoRoomIfMemory repetition.now.name.now (vars_of vars.now) (get_or repetition.now.items index [])) }
{
    let beside = left_by_vars(MOST_RENDERED_BYTES, vars)?;
    let room = left_by(beside, repetition.name)?;
    match repetition.items.item(alloc, index, room) {
        Ok(item) => Ok(item),
        Err(WriteFault::TooLong) => Err(RunFault::TooLong),
        Err(WriteFault::NoMemory) => Err(RunFault::NoMemory),
    }
}
