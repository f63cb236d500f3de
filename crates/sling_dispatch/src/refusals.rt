//! Says why a content or a farm is refused.
ghost use Rattle.sling_dispatch.specs.Endings.{Means};
ghost use Rattle.sling_dispatch.specs.InnerEndings.{IsContentOr, IsFarmOr};
ghost use Rattle.sling_dispatch.specs.Reports.{report_over};

use crate::ending::Ending;
use crate::farms::{FarmRefusal, is_out_of_memory};
use crate::faults::{content_line, farm_line, is_memory};
use crate::telling::say_line;
use content_json::ContentFault;
use sp_outside::Sink;
use std::alloc::Global;

// Says why the content is refused.
pub fn refuse_content<K: Sink>(alloc: Global, fault: &ContentFault, sink: &mut K) -> Ending
    ensures { Means (IsContentOr fault.now) result (report_over K.held K.faults sink.old sink.new) }
{
    if is_memory(fault) {
        return Ending::NoMemory;
    }
    say_line(sink, content_line(alloc, fault), Ending::ContentRefused)
}

// Says why the farm is refused.
pub fn refuse_farm<K: Sink>(alloc: Global, refusal: &FarmRefusal, sink: &mut K) -> Ending
    ensures { Means (IsFarmOr refusal.now) result (report_over K.held K.faults sink.old sink.new) }
{
    if is_out_of_memory(refusal) {
        return Ending::NoMemory;
    }
    say_line(sink, farm_line(alloc, refusal), Ending::FarmRefused)
}
