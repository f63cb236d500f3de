//! A flight that is asked.
ghost use Rattle.std.specs.Prelude.{◌≡◌, ◌<◌, IfOk, IfSome, Some, length};
ghost use Rattle.cover_rules.specs.Pages.{IsPageKey};
ghost use Rattle.flights.specs.Flights as flights;
ghost use Rattle.coherence_core.specs.Asking as spec;
ghost use Rattle.coherence_core.specs.Asking.{AskedAs};
ghost use Rattle.coherence_core.specs.Cores.{drawn_of};
ghost use Rattle.cache_log.specs.Limits.{most_stamps};

use crate::answers::Got;
use crate::core_state::{Core, MOST_STAMPS};
use cache_ids::FlightId;
use cover_rules::{Invalidation, PageKey, StatRule, covers};
use flights::{AskFault, Flight};
use sp_base::Mem;
use std::alloc::Global;

const MOST_FLIGHTS: usize = 256;

impl Core {
    // Asks for a page, or for none, where neither the flights nor the stamps are used up.
    pub(crate) fn ask(&mut self, alloc: Global, key: Option<PageKey>, auto: bool) -> Got
        requires { IfSome key IsPageKey }
        ensures { AskedAs self.old self.new key auto result }
    {
        if self.flights.len() >= MOST_FLIGHTS {
            return Got::FullAir;
        }
        if self.stamps_drawn() >= MOST_STAMPS {
            return Got::Worn;
        }
        match duplicate(alloc, &key) {
            Ok(own) => self.launch(key, own, auto),
            Err(_) => Got::NoMemory,
        }
    }

    // Puts the flight into the air. It is voided where an unfinished flush covers its page.
    fn launch(&mut self, key: Option<PageKey>, own: Option<PageKey>, auto: bool) -> Got
        requires room { length self.old.flights < flights.most_flights }
        requires stamps { drawn_of self.old < most_stamps }
        requires page { IfSome key IsPageKey }
        requires same { own ≡ key }
        ensures { AskedAs self.old self.new key auto result }
    {
        let flight = Flight {
            number: FlightId::new(self.asked + 1),
            auto,
            stamp: self.next_stamp(),
            voided: self.is_barred(auto, &key),
            key,
        };
        match self.flights.ask(flight) {
            Ok(ticket) => {
                self.asked += 1;
                Got::Asked(ticket, own)
            }
            Err(AskFault::FullAir) => unreachable!(),
        }
    }

    // Whether an unfinished flush covers the page.
    fn is_barred(&self, auto: bool, key: &Option<PageKey>) -> bool
        ensures { result ≡ spec.is_barred self.now.farm.level auto key.now self.now.queue.items }
    {
        let level = self.farm.level;
        self.queue.iter().any(|flush| covers_page(level, auto, flush.purge.invalidation(), key))
    }
}

fn covers_page(level: usize, auto: bool, inv: &Invalidation, key: &Option<PageKey>) -> bool
    ensures { result ≡ flights.covers_page level auto inv.now key.now }
{
    match key {
        Some(key) => covers_key(level, auto, inv, key),
        None => false,
    }
}

pub(crate) fn covers_key(level: usize, auto: bool, inv: &Invalidation, key: &PageKey) -> bool
    ensures { result ≡ flights.covers_page level auto inv.now (Some key.now) }
{
    covers(StatRule { level, auto }, inv, key)
}

fn duplicate(alloc: Global, key: &Option<PageKey>) -> Mem<Option<PageKey>>
    ensures { IfOk result (λ own. own ≡ key.now) }
{
    match key {
        Some(key) => Ok(Some(key.duplicate(alloc)?)),
        None => Ok(None),
    }
}
