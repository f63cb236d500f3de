//! The program: reads the content and the farm of a site, and says what is wrong with them.
#![tactic(auto)]

mod command;
mod ending;
mod excerpt;
mod findings;
mod form;
mod lines;
mod program;
mod quotes;
mod shown;
mod telling;
mod warnings;

use command::command;
use ending::CheckEnding;
use outside_world::RealInputs;
use sp_outside::{RealSink, RealWords};
use std::hash::RandomState;
use std::process::ExitCode;

const USAGE: &str = "usage: site_check CONTENT ANY | --help | --version\n";

fn main(rt: HostRuntime) -> ExitCode {
    let words = RealWords::new(&rt);
    // Without seeds the table of paths could be attacked.
    let Ok(seeds) = RandomState::new(&rt) else {
        return ExitCode::from(CheckEnding::NoMemory.status());
    };
    let mut inputs = RealInputs::new(&rt);
    let mut sink = RealSink::new(&rt);
    let ending = command(rt.alloc(), seeds, &words, &mut inputs, &mut sink);
    if let CheckEnding::Usage = ending {
        // A usage that can't be written is told by the status.
        let _ = rt.eprint(USAGE);
    }
    ExitCode::from(ending.status())
}
