//! One step of a front, with what is handed on of it.
ghost use Rattle.std.specs.Prelude.{◌≡◌, OnErr, OnOk};
ghost use Rattle.docroot_changes.specs.DocrootCalls.{MakesDocrootCalls};
ghost use Rattle.serve_loop.specs.Steps.{CutsGoneOf, MakesGoneOf, RelatesAlone, StepIfDone, StepIfCut};

use crate::handing::{HandedOn, hand_on};
use connections::ConnectionId;
use docroot_changes::docroot_calls_add_up;
use front::{Front, Renderer};
use outside_world::World;
use run_events::Step;
use run_laws::{
    connections_that_go_are_gone, events_leave_nothing_due,
    notes_are_of_connections_that_are_there, rounds_take_flights_out_of_the_air,
};
use sp_base::{Mem, NoMemory};
use sp_outside::Disk;
use std::alloc::Global;

// Makes a step, and hands its notes on. A connection on which a sending failed goes then.
pub(crate) fn make<R: Renderer + Drop, D: Disk, W: World>(
    alloc: Global,
    front: &mut Front<R>,
    disk: &mut D,
    world: &mut W,
    step: &Step,
) -> Mem<()>
    ensures ok { StepIfDone R.publishing R.content D.files D.faults W.log W.send_faults step.now result front.old disk.old world.old front.new disk.new world.new }
    ensures err { StepIfCut R.publishing R.content D.files D.faults W.log W.send_faults step.now result front.old disk.old world.old front.new disk.new world.new }
    ensures next_count { W.next_faults world.new ≡ W.next_faults world.old }
    ensures calls { MakesDocrootCalls (D.calls disk.old) (D.calls disk.new) }
{
    events_leave_nothing_due();
    notes_are_of_connections_that_are_there();
    connections_that_go_are_gone();
    rounds_take_flights_out_of_the_air();
    docroot_calls_add_up();
    let notes = front.step(alloc, disk, step)?;
    match hand_on(alloc, world, notes.as_slice()) {
        HandedOn::All => Ok(()),
        HandedOn::FailedAt(c) => go(alloc, front, disk, c),
        HandedOn::NoMemory => Err(NoMemory),
    }
}

// A connection goes. Nothing of that is handed on.
pub(crate) fn go<R: Renderer + Drop, D: Disk>(
    alloc: Global,
    front: &mut Front<R>,
    disk: &mut D,
    c: ConnectionId,
) -> Mem<()>
    ensures ok { OnOk result (RelatesAlone R.publishing R.content D.files D.faults (MakesGoneOf c) front.old disk.old front.new disk.new) }
    ensures err { OnErr result (RelatesAlone R.publishing R.content D.files D.faults (CutsGoneOf c) front.old disk.old front.new disk.new) }
    ensures calls { MakesDocrootCalls (D.calls disk.old) (D.calls disk.new) }
{
    events_leave_nothing_due();
    notes_are_of_connections_that_are_there();
    connections_that_go_are_gone();
    rounds_take_flights_out_of_the_air();
    front.step(alloc, disk, &Step::Gone(c))?;
    Ok(())
}
