//! A flush that begins.
ghost use Rattle.std.specs.Prelude.{◌≡◌, ◌<◌};
ghost use Rattle.coherence_core.specs.Asking as spec;
ghost use Rattle.coherence_core.specs.Asking.{BegunAs, FlushedAs};
ghost use Rattle.coherence_core.specs.Cores.{drawn_of};
ghost use Rattle.cache_log.specs.Limits.{most_stamps};

use crate::answers::Got;
use crate::core_state::{Core, MOST_STAMPS};
use crate::noting::forget_covered;
use crate::pending::Pending;
use cache_ids::FlushId;
use cover_rules::Invalidation;
use dispatch_rules::may_flush;
use invalidation::{InvFault, Purge, read_invalidation};
use sp_base::Req;
use std::alloc::Global;

const MOST_FLUSHES: usize = 256;

impl Core {
    // Begins the flush that a request asks for, where its client may, and neither the flushes nor the stamps are used up.
    pub(crate) fn flush(&mut self, alloc: Global, req: &Req, peer: &str) -> Got
        ensures { FlushedAs self.old self.new req.now peer.now result }
    {
        if !may_flush(&self.farm, peer) {
            return Got::FlushForbidden;
        }
        let inv = match read_invalidation(alloc, req) {
            Ok(inv) => inv,
            Err(fault) => return refusal(fault),
        };
        if self.queue.len() >= MOST_FLUSHES {
            return Got::FullPurge;
        }
        if self.stamps_drawn() >= MOST_STAMPS {
            return Got::Worn;
        }
        self.begin(alloc, inv)
    }

    // Takes the memory of a flush. Then it has begun: what it covers is forgotten before anything else of it, and each flight is voided whose page
    // it covers.
    fn begin(&mut self, alloc: Global, inv: Invalidation) -> Got
        requires { drawn_of self.old < most_stamps }
        ensures { BegunAs self.old self.new inv result }
    {
        let Ok(own) = inv.duplicate(alloc) else {
            return Got::NoMemory;
        };
        if self.queue.reserve(1).is_err() {
            return Got::NoMemory;
        }
        let level = self.farm.level;
        forget_covered(alloc, &mut self.pages, level, &inv);
        let stamp = self.next_stamp();
        self.flights.void(level, &inv);
        self.begun += 1;
        let number = FlushId::new(self.begun);
        self.queue.push_reserved(Pending {
            number,
            purge: Purge::begin(level, inv, stamp),
        });
        Got::Flush(number, own)
    }
}

fn refusal(fault: InvFault) -> Got
    ensures { result ≡ spec.refusal fault }
{
    match fault {
        InvFault::NoMemory => Got::NoMemory,
        InvFault::NoHandle => Got::FlushRefused(InvFault::NoHandle),
        InvFault::BadHandle => Got::FlushRefused(InvFault::BadHandle),
        InvFault::BadAction => Got::FlushRefused(InvFault::BadAction),
    }
}
