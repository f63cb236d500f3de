//! What a turn does after the step of what came.
ghost use Rattle.std.specs.Prelude.{◌≡◌};
ghost use Rattle.docroot_changes.specs.DocrootCalls.{MakesDocrootCalls};
ghost use Rattle.serve_loop.specs.Steps.{CutsEnd, CutsLanding, CutsLandings, EndsTurn, LandsAll, LandsFirst, IfDone, IfCut};

use crate::steps::make;
use docroot_changes::docroot_calls_add_up;
use front::{Front, Renderer};
use outside_world::World;
use run_events::{Pick, Step};
use run_laws::rounds_take_flights_out_of_the_air;
use sp_base::Mem;
use sp_outside::Disk;
use std::alloc::Global;

/// The most flights in the air.
const MOST_FLIGHTS: usize = 256;

// Renders and lands each flight, one after another. None was rendered before.
pub(crate) fn land_all<R: Renderer + Drop, D: Disk, W: World>(
    alloc: Global,
    front: &mut Front<R>,
    disk: &mut D,
    world: &mut W,
) -> Mem<()>
    ensures ok { IfDone R.publishing R.content D.files D.faults W.log W.send_faults LandsAll result front.old disk.old world.old front.new disk.new world.new }
    ensures err { IfCut R.publishing R.content D.files D.faults W.log W.send_faults CutsLandings result front.old disk.old world.old front.new disk.new world.new }
    ensures next_count { W.next_faults world.new ≡ W.next_faults world.old }
    ensures calls { MakesDocrootCalls (D.calls disk.old) (D.calls disk.new) }
{
    docroot_calls_add_up();
    for round in 0..MOST_FLIGHTS {
        if front.unrendered().is_none() {
            return Ok(());
        }
        land_first(alloc, front, disk, world)?;
    }
    Ok(())
}

// Renders the first flight, and lands it.
fn land_first<R: Renderer + Drop, D: Disk, W: World>(
    alloc: Global,
    front: &mut Front<R>,
    disk: &mut D,
    world: &mut W,
) -> Mem<()>
    ensures ok { IfDone R.publishing R.content D.files D.faults W.log W.send_faults LandsFirst result front.old disk.old world.old front.new disk.new world.new }
    ensures err { IfCut R.publishing R.content D.files D.faults W.log W.send_faults CutsLanding result front.old disk.old world.old front.new disk.new world.new }
    ensures next_count { W.next_faults world.new ≡ W.next_faults world.old }
    ensures calls { MakesDocrootCalls (D.calls disk.old) (D.calls disk.new) }
{
    rounds_take_flights_out_of_the_air();
    docroot_calls_add_up();
    make(alloc, front, disk, world, &Step::Render(Pick::First))?;
    make(alloc, front, disk, world, &Step::Deliver(Pick::First))
}

// Gives an unfinished flush one slice.
pub(crate) fn purge_once<R: Renderer + Drop, D: Disk, W: World>(
    alloc: Global,
    front: &mut Front<R>,
    disk: &mut D,
    world: &mut W,
) -> Mem<()>
    ensures ok { IfDone R.publishing R.content D.files D.faults W.log W.send_faults EndsTurn result front.old disk.old world.old front.new disk.new world.new }
    ensures err { IfCut R.publishing R.content D.files D.faults W.log W.send_faults CutsEnd result front.old disk.old world.old front.new disk.new world.new }
    ensures next_count { W.next_faults world.new ≡ W.next_faults world.old }
    ensures calls { MakesDocrootCalls (D.calls disk.old) (D.calls disk.new) }
{
    rounds_take_flights_out_of_the_air();
    docroot_calls_add_up();
    if front.purging() {
        make(alloc, front, disk, world, &Step::Purge)
    } else {
        Ok(())
    }
}
