//! The program: does what the words of its command line say, from the standard input, the files of the system and clients at a port to
//! the standard output.
#![tactic(auto)]

mod command;
mod ending;
mod farms;
mod faults;
mod form;
mod laws;
mod opening;
mod outside;
mod play;
mod program;
mod refusals;
mod renderer;
mod replaying;
mod scripted_disk;
mod serving;
mod session;
mod soak;
mod steps;
mod streams;
mod summary;
mod telling;

use command::command;
use ending::Ending;
use operator_report::{Report, ReportedInputs, ReportedWorld};
use outside::Outside;
use outside_world::RealInputs;
use sockets::RealWorld;
use sp_outside::{RealDisk, RealSink, RealSource, RealWords};
use std::hash::RandomState;
use std::process::ExitCode;

// The port that clients come to.
const PORT: u16 = 8080;

fn main(rt: HostRuntime) -> ExitCode {
    let words = RealWords::new(&rt);
    let Ok(disk) = RealDisk::new(&rt) else {
        return ExitCode::from(Ending::NoMemory.status());
    };
    // Without seeds the table of paths could be attacked.
    let Ok(seeds) = RandomState::new(&rt) else {
        return ExitCode::from(Ending::NoMemory.status());
    };
    let report = Report::new(&rt, PORT);
    let world = RealWorld::new(&rt, PORT);
    let mut outside = Outside {
        source: RealSource::new(rt.reader()),
        sink: RealSink::new(&rt),
        inputs: ReportedInputs::new(RealInputs::new(&rt), &report),
        disk,
        world: ReportedWorld::new(rt.alloc(), world, &words, &report),
    };
    let status = command(rt.alloc(), seeds, &words, &mut outside);
    outside.world.end(status).finish();
    ExitCode::from(status)
}
