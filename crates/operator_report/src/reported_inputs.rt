//! Inputs that are told of.
ghost use Rattle.std.specs.Prelude.{◌≡◌};

use crate::report::Report;
use outside_world::{InputFault, Inputs};
use sp_base::ByteBuf;
use std::alloc::Global;
use std::env::Env;
use std::fs::Files;
use std::io::Eprint;

// What is read next.
#[derive(Clone, Copy, Drop)]
enum Next {
    Content,
    Farm,
    Another,
}

/// Inputs of which the first is a content and the second a farm's file. They tell what the inputs in them do.
#[derive(Drop)]
pub struct ReportedInputs<'a, I: Inputs + Drop, R: Eprint + Files + Env + Drop> {
    inputs: I,
    report: &'a Report<R>,
    next: Next,
}

impl<'a, I: Inputs + Drop, R: Eprint + Files + Env + Drop> ReportedInputs<'a, I, R> {
    pub fn new(inputs: I, report: &'a Report<R>) -> ReportedInputs<'a, I, R>
        ensures faults { ⟦<ReportedInputs<'a, I, R> as Inputs>⟧.faults result ≡ I.faults inputs }
        ensures contents { ⟦<ReportedInputs<'a, I, R> as Inputs>⟧.contents result ≡ I.contents inputs }
    {
        ReportedInputs {
            inputs,
            report,
            next: Next::Content,
        }
    }

    fn tell(&mut self, alloc: Global, bytes: &[u8])
        ensures { self.new.inputs ≡ self.old.inputs }
    {
        self.next = match self.next {
            Next::Content => {
                self.report.content(bytes);
                Next::Farm
            }
            Next::Farm => {
                self.report.farm(alloc, bytes);
                Next::Another
            }
            Next::Another => Next::Another,
        };
    }
}

impl<'a, I: Inputs + Drop, R: Eprint + Files + Env + Drop> Inputs for ReportedInputs<'a, I, R> {
    ghost faults = { λ i. I.faults i.inputs };

    ghost contents = { λ i. I.contents i.inputs };

    fn whole(&mut self, alloc: Global, name: &str) -> Result<ByteBuf, InputFault> {
        let read = self.inputs.whole(alloc, name);
        if let Ok(bytes) = &read {
            self.tell(alloc, bytes.bytes());
        }
        read
    }
}
