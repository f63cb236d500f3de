//! One turn.
ghost use Rattle.std.specs.Prelude.{◌≡◌};
ghost use Rattle.docroot_changes.specs.DocrootCalls.{MakesDocrootCalls};
ghost use Rattle.serve_loop.specs.Steps.{EndsAs, HasTurnCause, Relates, TurnIfDone, TurnIfCut, BeginIfDone};

use crate::rounds::{land_all, purge_once};
use crate::steps::{go, make};
use docroot_changes::docroot_calls_add_up;
use front::{Front, Renderer};
use outside_world::{Happening, Work, World, WorldFault};
use run_events::Step;
use run_laws::rounds_take_flights_out_of_the_air;
use sp_base::Mem;
use sp_outside::Disk;
use std::alloc::Global;

/// How a turn ended.
#[derive(Clone, Copy, Drop)]
pub(crate) enum TurnEnd {
    Whole,
    WorldFailed,
    NoMemory,
}

// Takes what comes next, and makes all that is due then.
pub(crate) fn turn<R: Renderer + Drop, D: Disk, W: World>(
    alloc: Global,
    front: &mut Front<R>,
    disk: &mut D,
    world: &mut W,
) -> TurnEnd
    ensures ends { Relates R.publishing R.content D.files D.faults W.log W.send_faults (EndsAs result) front.old disk.old world.old front.new disk.new world.new }
    ensures cause { HasTurnCause result (W.next_faults world.old) (W.next_faults world.new) }
    ensures calls { MakesDocrootCalls (D.calls disk.old) (D.calls disk.new) }
{
    docroot_calls_add_up();
    world.expect(work_of(front));
    let news = match world.next(alloc) {
        Ok(news) => news,
        Err(WorldFault::Failed) => return TurnEnd::WorldFailed,
        Err(WorldFault::NoMemory) => return TurnEnd::NoMemory,
    };
    match follow(alloc, front, disk, world, news) {
        Ok(()) => TurnEnd::Whole,
        Err(_) => TurnEnd::NoMemory,
    }
}

// A flush has its slices in turns in which nothing comes, too.
fn work_of<R: Renderer + Drop>(front: &Front<R>) -> Work {
    if front.purging() {
        Work::Busy
    } else {
        Work::Idle
    }
}

// Makes all that is due after what came.
fn follow<R: Renderer + Drop, D: Disk, W: World>(
    alloc: Global,
    front: &mut Front<R>,
    disk: &mut D,
    world: &mut W,
    news: Happening,
) -> Mem<()>
    ensures ok { TurnIfDone R.publishing R.content D.files D.faults W.log W.send_faults news result front.old disk.old world.old front.new disk.new world.new }
    ensures err { TurnIfCut R.publishing R.content D.files D.faults W.log W.send_faults news result front.old disk.old world.old front.new disk.new world.new }
    ensures next_count { W.next_faults world.new ≡ W.next_faults world.old }
    ensures calls { MakesDocrootCalls (D.calls disk.old) (D.calls disk.new) }
{
    docroot_calls_add_up();
    begin(alloc, front, disk, world, news)?;
    land_all(alloc, front, disk, world)?;
    purge_once(alloc, front, disk, world)
}

// Makes the step of what came, if it has one.
fn begin<R: Renderer + Drop, D: Disk, W: World>(
    alloc: Global,
    front: &mut Front<R>,
    disk: &mut D,
    world: &mut W,
    news: Happening,
) -> Mem<()>
    ensures ok { BeginIfDone R.publishing R.content D.files D.faults W.log W.send_faults news result front.old disk.old world.old front.new disk.new world.new }
    ensures err { TurnIfCut R.publishing R.content D.files D.faults W.log W.send_faults news result front.old disk.old world.old front.new disk.new world.new }
    ensures next_count { W.next_faults world.new ≡ W.next_faults world.old }
    ensures calls { MakesDocrootCalls (D.calls disk.old) (D.calls disk.new) }
{
    rounds_take_flights_out_of_the_air();
    docroot_calls_add_up();
    match news {
        Happening::Opened(c, peer) => {
            let step = Step::Opened(c, peer);
            make(alloc, front, disk, world, &step)
        }
        Happening::Piece(c, bytes) => {
            let step = Step::Piece(c, bytes);
            make(alloc, front, disk, world, &step)
        }
        Happening::Gone(c) => go(alloc, front, disk, c),
        Happening::Quiet => Ok(()),
    }
}
