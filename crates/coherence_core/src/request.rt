//! A request that comes to the cache.
ghost use Rattle.std.specs.Prelude.{◌≡◌, ◌++◌, false, IfOk, Some};
ghost use Rattle.cover_rules.specs.Pages.{IsPageKey};
ghost use Rattle.dispatch_rules.specs.Caching.{is_auto};
ghost use Rattle.docroot_changes.specs.DocrootCalls.{MakesDocrootCalls};
ghost use Rattle.flights.specs.Flights.{numbers_of};
ghost use Rattle.coherence_core.specs.Asking.{IsLookedUp, KeyedAs, RequestedAs, HasCauseInEachLog};
ghost use Rattle.coherence_core.specs.Cores.{ExtendsCore, FlightsRise, KeepsFarm, flight_labels, flush_numbers};
ghost use Rattle.coherence_core.specs.LookCalls.{AsksDisk, ReadsPage, page_asked};
ghost use Rattle.coherence_core.specs.Lookups.{ReadsFiles};
ghost use Rattle.coherence_core.specs.Notes.{KnowsDisk, KnowsDiskWith, with_notes};
ghost use Rattle.coherence_core.specs.Requests.{got_entries, got_flights, got_flushes, got_labels, requested_under};
ghost use Rattle.sp_outside.specs.Causes.{IsDiskFailure};

use crate::answers::{Got, Requested};
use crate::core_state::Core;
use crate::laws::coverage_by_three_facts;
use crate::look::Look;
use crate::lookup::look_up;
use cache_files::a_page_is_its_head_and_its_body;
use cover_rules::PageKey;
use dispatch_rules::{admits, auto_of, key_of};
use docroot_changes::docroot_calls_add_up;
use docroot_format::FileFault;
use flights::the_numbers_of_flights_rise;
use http_front::PreparedAnswer;
use invalidation::is_invalidation;
use sp_base::Req;
use sp_outside::Disk;
use std::alloc::Global;

impl Core {
    /// Answers a request, or says what is to be done for it. The first slice of a flush that begins is left to `purge_step`.
    pub fn request<D: Disk>(
        &mut self,
        alloc: Global,
        disk: &mut D,
        req: &Req,
        peer: &str,
    ) -> Requested
        ensures log { ExtendsCore (D.files disk.old) self.old (D.files disk.new) self.new (requested_under result) (got_entries result.got) }
        ensures cause { HasCauseInEachLog (D.files disk.old) self.old req.now peer.now result }
        ensures came { RequestedAs (D.files disk.old) self.old self.new req.now peer.now result }
        ensures files { D.files disk.new ≡ D.files disk.old }
        ensures disk_failed { IsDiskFailure (D.faults disk.old) (D.faults disk.new) result.disk_failed }
        ensures calls { MakesDocrootCalls (D.calls disk.old) (D.calls disk.new) }
        ensures asks { AsksDisk (D.files disk.old) (D.calls disk.old) (D.calls disk.new) self.old (page_asked self.old req.now) result }
        ensures flights { numbers_of self.new.flights ≡ numbers_of self.old.flights ++ got_flights result.got }
        ensures labels { flight_labels self.new.flights ≡ flight_labels self.old.flights ++ got_labels result.got }
        ensures flushes { flush_numbers self.new.queue.items ≡ flush_numbers self.old.queue.items ++ got_flushes result.got }
        ensures rising { FlightsRise self.old → FlightsRise self.new }
        ensures kept { KeepsFarm self.old self.new }
        ensures knows { KnowsDisk (D.files disk.old) self.old → KnowsDisk (D.files disk.new) self.new }
    {
        a_page_is_its_head_and_its_body();
        coverage_by_three_facts();
        the_numbers_of_flights_rise();
        self.answer(alloc, disk, req, peer)
    }

    // Does what the first point says that applies to the request.
    fn answer<D: Disk>(&mut self, alloc: Global, disk: &mut D, req: &Req, peer: &str) -> Requested
        ensures came { RequestedAs (D.files disk.old) self.old self.new req.now peer.now result }
        ensures files { D.files disk.new ≡ D.files disk.old }
        ensures disk_failed { IsDiskFailure (D.faults disk.old) (D.faults disk.new) result.disk_failed }
        ensures calls { MakesDocrootCalls (D.calls disk.old) (D.calls disk.new) }
        ensures asks { AsksDisk (D.files disk.old) (D.calls disk.old) (D.calls disk.new) self.old (page_asked self.old req.now) result }
    {
        docroot_calls_add_up();
        if self.down {
            return without_fault(Got::Down);
        }
        if is_invalidation(req) {
            return without_fault(self.flush(alloc, req, peer));
        }
        match admits(alloc, &self.farm, req) {
            Ok(true) => {}
            Ok(false) => return without_fault(Got::Denied),
            Err(_) => return without_fault(Got::NoMemory),
        }
        match key_of(alloc, &self.farm, req) {
            Ok(Some(key)) => self.keyed(alloc, disk, key),
            Ok(None) => without_fault(self.ask(alloc, None, false)),
            Err(_) => without_fault(Got::NoMemory),
        }
    }

    // Answers a request for a page that may be kept.
    fn keyed<D: Disk>(&mut self, alloc: Global, disk: &mut D, key: PageKey) -> Requested
        requires { IsPageKey key }
        ensures keyed { KeyedAs (D.files disk.old) self.old self.new key result.got result.disk_failed }
        ensures files { D.files disk.new ≡ D.files disk.old }
        ensures disk_failed { IsDiskFailure (D.faults disk.old) (D.faults disk.new) result.disk_failed }
        ensures calls { MakesDocrootCalls (D.calls disk.old) (D.calls disk.new) }
        ensures asks { AsksDisk (D.files disk.old) (D.calls disk.old) (D.calls disk.new) self.old (Some key) result }
    {
        docroot_calls_add_up();
        let Ok(auto) = auto_of(alloc, &self.farm, &key) else {
            return without_fault(Got::NoMemory);
        };
        match self.find(alloc, disk, &key, auto) {
            Ok(Some(answer)) => without_fault(Got::Hit(key, answer)),
            Ok(None) => without_fault(self.ask(alloc, Some(key), auto)),
            Err(FileFault::Disk) => Requested {
                got: self.ask(alloc, Some(key), auto),
                disk_failed: true,
            },
            Err(FileFault::NoMemory) => without_fault(Got::NoMemory),
        }
    }

    // The answer of a page: what is known of it, and else what the store has.
    fn find<D: Disk>(
        &mut self,
        alloc: Global,
        disk: &mut D,
        key: &PageKey,
        auto: bool,
    ) -> Result<Option<PreparedAnswer>, FileFault>
        requires page { IsPageKey key.now }
        requires auto { auto ≡ is_auto self.old.farm key.now }
        ensures notes { self.new ≡ with_notes self.old self.new.pages }
        ensures learns { KnowsDiskWith (D.files disk.old) self.old self.new.pages }
        ensures value { IfOk result (λ found. KnowsDisk (D.files disk.old) self.old → IsLookedUp (D.files disk.old) self.old.farm key.now found) }
        ensures reads { ReadsFiles (D.files disk.old) (D.files disk.new) (D.faults disk.old) (D.faults disk.new) (D.calls disk.old) (D.calls disk.new) result }
        ensures asks { ReadsPage (D.files disk.old) (D.calls disk.old) (D.calls disk.new) self.old.pages self.old.farm key.now result }
    {
        let look = Look {
            farm: &self.farm,
            queue: &self.queue,
            key,
            auto,
        };
        look_up(alloc, disk, &mut self.pages, &look)
    }
}

fn without_fault(got: Got) -> Requested
    ensures got { result.got ≡ got }
    ensures disk_failed { result.disk_failed ≡ false }
{
    Requested {
        got,
        disk_failed: false,
    }
}
