//! The loop over what comes from the world.
ghost use Rattle.std.specs.Prelude.{◌<◌};
ghost use Rattle.docroot_changes.specs.DocrootCalls.{MakesDocrootCalls};
ghost use Rattle.serve_loop.specs.Served.{HasEndCause, Lasts, world_over};

use crate::turn::{TurnEnd, turn};
use cache_log::a_legal_log_grows_by_what_is_allowed;
use docroot_changes::docroot_calls_add_up;
use front::{Front, Renderer, the_files_of_a_front_hold_its_log};
use outside_world::World;
use sp_outside::Disk;
use std::alloc::Global;

/// How serving ends.
#[derive(Clone, Copy, PartialEq, Eq, Debug, Drop)]
pub enum ServeEnd {
    /// As many turns were made as were asked for.
    Turns,
    /// The world couldn't say what comes next.
    WorldFailed,
    NoMemory,
}

/// Takes so many turns. In each the next happening is taken, and its step made; then, while a flight isn't rendered, the first such is
/// rendered and landed; then an unfinished flush has one slice. After each step what it sends is sent, and the connections are shut that it
/// shuts. Where a sending fails its connection is shut, and gone before the next step.
pub fn serve<R: Renderer + Drop, D: Disk, W: World>(
    alloc: Global,
    front: &mut Front<R>,
    disk: &mut D,
    world: &mut W,
    turns: u64,
) -> ServeEnd
    requires { 0 < turns }
    ensures served { Lasts R.publishing R.content D.files D.faults W.log W.next_faults W.send_faults turns result front.old disk.old world.old disk.new world.new }
    ensures cause { HasEndCause result (world_over W.log W.next_faults W.send_faults world.old world.new) }
    ensures calls { MakesDocrootCalls (D.calls disk.old) (D.calls disk.new) }
{
    docroot_calls_add_up();
    the_files_of_a_front_hold_its_log();
    a_legal_log_grows_by_what_is_allowed();
    for made in 0..turns {
        match turn(alloc, front, disk, world) {
            TurnEnd::Whole => {}
            TurnEnd::WorldFailed => return ServeEnd::WorldFailed,
            TurnEnd::NoMemory => return ServeEnd::NoMemory,
        }
    }
    ServeEnd::Turns
}
