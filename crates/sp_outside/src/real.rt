//! Sources and sinks over a reader and a printer. They tell nothing.
ghost use Rattle.std.specs.Prelude.{◌≡◌, None};

use crate::{Sink, SinkFault, Source, SourceFault};
use std::io::{Print, Read};

/// The standard input, or another reader. It tells nothing.
#[derive(Drop)]
pub struct RealSource<R: Read + Drop> {
    reader: R,
    failed: u64,
}

impl<R: Read + Drop> RealSource<R> {
    pub fn new(reader: R) -> RealSource<R>
        ensures { ⟦<RealSource<R> as Source>⟧.faults result ≡ 0 }
    {
        RealSource { reader, failed: 0 }
    }
}

impl<R: Read + Drop> Source for RealSource<R> {
    ghost faults = { λ s. s.failed };

    ghost left = { λ _. None };

    fn read(&mut self, into: &mut [u8]) -> Result<usize, SourceFault> {
        match self.reader.read(into) {
            Ok(n) => Ok(n),
            Err(_) => {
                self.failed = self.failed.saturating_add(1);
                Err(SourceFault::Failed)
            }
        }
    }
}

/// The standard output, or another printer. It tells nothing.
#[derive(Drop)]
pub struct RealSink<R: Print + Drop> {
    rt: R,
    failed: u64,
}

impl<R: Print + Drop> RealSink<R> {
    pub fn new(rt: R) -> RealSink<R>
        ensures { ⟦<RealSink<R> as Sink>⟧.faults result ≡ 0 }
    {
        RealSink { rt, failed: 0 }
    }
}

impl<R: Print + Drop> Sink for RealSink<R> {
    ghost faults = { λ s. s.failed };

    ghost held = { λ _. None };

    fn write(&mut self, bytes: &[u8]) -> Result<usize, SinkFault> {
        match self.rt.write_some(bytes) {
            Ok(n) if n > 0 => Ok(n),
            _ => {
                self.failed = self.failed.saturating_add(1);
                Err(SinkFault::Failed)
            }
        }
    }
}
