//! The files of the real system, read whole. They tell nothing.
ghost use Rattle.std.specs.Prelude.{◌≡◌, ◌≤◌, None, IfOk, length};
ghost use Rattle.outside_world.specs.Faults.{HasInputCause};
ghost use Rattle.outside_world.specs.InputFiles.{longest_input};

use crate::{InputFault, Inputs, LONGEST_INPUT};
use sp_base::ByteBuf;
use std::alloc::Global;
use std::fs::{File, Files};
use std::io::{self, ErrorKind, Read};

/// The files of the real system, each under its path. It tells nothing. A path is one of the system's: below the folder that the program
/// runs in, unless it begins with a slash, and through symbolic links.
#[derive(Drop)]
pub struct RealInputs<R: Files + Drop> {
    rt: R,
    failed: u64,
}

impl From<io::Error> for InputFault {
    fn from(fault: io::Error) -> InputFault {
        match fault.kind() {
            ErrorKind::OutOfMemory => InputFault::NoMemory,
            _ => InputFault::Failed,
        }
    }
}

impl<R: Files + Drop> RealInputs<R> {
    /// Nothing is opened.
    pub fn new(rt: R) -> RealInputs<R>
        ensures { ⟦<RealInputs<R> as Inputs>⟧.faults result ≡ 0 }
    {
        RealInputs { rt, failed: 0 }
    }
}

// At most so many bytes are read that it shows whether the file is too long.
fn read_whole<R: Files>(rt: &R, alloc: Global, path: &str) -> Result<ByteBuf, InputFault>
    ensures { IfOk result (λ bytes. length bytes ≤ longest_input) }
{
    let file = File::open(rt, path)?;
    let mut bytes = Vec::new(alloc);
    file.take(LONGEST_INPUT as u64 + 1).read_to_end(&mut bytes)?;
    if bytes.len() > LONGEST_INPUT {
        return Err(InputFault::TooLong);
    }
    Ok(ByteBuf::from(bytes))
}

impl<R: Files + Drop> Inputs for RealInputs<R> {
    ghost faults = { λ i. i.failed };

    ghost contents = { λ _. None };

    fn whole(&mut self, alloc: Global, name: &str) -> Result<ByteBuf, InputFault> {
        let read = read_whole(&self.rt, alloc, name);
        if let Err(InputFault::Failed) = read {
            self.failed = self.failed.saturating_add(1);
        }
        read
    }
}
