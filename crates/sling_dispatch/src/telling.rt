//! Writes a line, after which the run ends.
ghost use Rattle.std.specs.Prelude.{◌≡◌, IfOk, OnErr};
ghost use Rattle.sling_dispatch.specs.Reports.{IsUntouched, report_over};
ghost use Rattle.sling_dispatch.specs.InnerEndings.{TellsText, ending_by};

use crate::ending::Ending;
use crate::streams::write_all;
use sp_base::Mem;
use sp_outside::{Sink, SinkFault};

// Writes a text, after which the run ends so.
pub fn say<K: Sink>(sink: &mut K, text: &[u8], good: Ending) -> Ending
    ensures { TellsText good text.now result (report_over K.held K.faults sink.old sink.new) }
{
    match write_all(sink, text) {
        Ok(()) => good,
        Err(fault) => ending_by(fault),
    }
}

// How a run ends at a fault of its sink.
pub fn ending_by(fault: SinkFault) -> Ending
    ensures { result ≡ ending_by fault }
{
    match fault {
        SinkFault::Failed => Ending::SinkFailed,
        SinkFault::NoMemory => Ending::NoMemory,
    }
}

// Writes a line, where memory was there to make it, after which the run ends so.
pub fn say_line<K: Sink>(sink: &mut K, line: Mem<Vec<u8>>, good: Ending) -> Ending
    ensures made { IfOk line (λ text. TellsText good text.items result (report_over K.held K.faults sink.old sink.new)) }
    ensures not_made { OnErr line ((result ≡ Ending.NoMemory) × IsUntouched (report_over K.held K.faults sink.old sink.new)) }
{
    match line {
        Ok(text) => say(sink, &text, good),
        Err(_) => Ending::NoMemory,
    }
}
