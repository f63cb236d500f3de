//! The flights in the air.
ghost use Rattle.std.specs.Prelude.{◌≡◌, ◌<◌, ◌≤◌, ◌++◌, ◌∷◌, [], IfOk, IfSome, IsSome, OnErr, OnOk, Some, length, map, remove, slice_get, vec_capacity};
ghost use Rattle.flights.specs.FaultTexts.{ask_fault_text};
ghost use Rattle.cover_rules.specs.Pages.{IsPageKey};
ghost use Rattle.flights.specs.Flights.{AreForPages, after_invalidation, covers_page, flight_at, most_flights, without};
ghost use Rattle.flights.specs.Landings.{LandsAs};

use crate::flight::Flight;
use crate::landing::{Landing, landing_of};
use crate::ticket::Ticket;
use cache_ids::FlightId;
use cover_rules::{Invalidation, StatRule, covers};
use sp_base::Mem;
use std::alloc::Global;
use std::fmt;
use std::marker::Model;

const MOST_FLIGHTS: usize = 256;

/// Why no flight is asked.
#[derive(Clone, Copy, PartialEq, Eq, Debug, Drop)]
pub enum AskFault {
    /// There are as many in the air as may be.
    FullAir,
}

impl fmt::Display for AskFault {
    ghost output = { λ fault. Some (ask_fault_text fault) };

    fn fmt<W: fmt::Write>(&self, f: &mut fmt::Formatter<W>) -> fmt::Result {
        match self {
            AskFault::FullAir => f.write_str("FullAir"),
        }
    }
}

/// The flights in the air, the oldest first. Room for all that may be there is taken with it, so no later call takes memory.
#[derive(Drop)]
pub struct Flights {
    items: Vec<Flight>,
}

impl Model for Flights {
    ghost use Rattle.std.specs.Prelude.{◌≤◌, List, length, vec_capacity};
    ghost use Rattle.flights.specs.declared.flight.Flight.{Flight};
    ghost use Rattle.flights.specs.Flights.{AreForPages, most_flights};

    ghost Value = { List Flight };

    ghost view = { λ flights. flights.items.items };

    ghost invariant = { λ flights. (most_flights ≤ vec_capacity flights.items) × (length flights.items.items ≤ most_flights) × AreForPages flights.items.items };
}

impl Flights {
    /// Takes the room for as many flights as may be in the air. None is.
    pub fn new(alloc: Global) -> Mem<Flights>
        ensures { IfOk result (λ flights. flights ≡ []) }
    {
        Ok(Flights {
            items: Vec::with_capacity(alloc, MOST_FLIGHTS)?,
        })
    }

    /// How many flights are in the air. Each is for a page, or for none.
    pub fn len(&self) -> usize
        ensures value { result ≡ length self.now }
        ensures most { result ≤ most_flights }
        ensures pages { AreForPages self.now }
    {
        self.items.len()
    }

    /// Puts a flight into the air, unless as many are there as may be. It is voided from the first where it says so.
    pub fn ask(&mut self, flight: Flight) -> Result<Ticket, AskFault>
        requires { IfSome flight.key IsPageKey }
        ensures ticket { IfOk result (λ ticket. ticket ≡ flight.number) }
        ensures ok { OnOk result (self.new ≡ self.old ++ flight ∷ []) }
        ensures there { IfOk result (λ ticket. IsSome (flight_at ticket self.new)) }
        ensures room { OnOk result (length self.old < most_flights) }
        ensures full { OnErr result (length self.old ≡ most_flights) }
        ensures err { OnErr result (self.new ≡ self.old) }
    {
        if self.items.len() >= MOST_FLIGHTS {
            return Err(AskFault::FullAir);
        }
        let number = flight.number;
        match self.items.push(flight) {
            Ok(()) => Ok(Ticket { number }),
            Err(_) => unreachable!(),
        }
    }

    /// Voids each flight whose page the invalidation covers. The .stat files lie in the folders down to `level`.
    pub fn void(&mut self, level: usize, inv: &Invalidation)
        ensures { self.new ≡ map (after_invalidation level inv.now) self.old }
    {
        void_all(&mut self.items, level, inv);
    }

    /// Takes a flight out of the air that has its answer.
    pub fn land(&mut self, ticket: Ticket) -> Landing
        requires { IsSome (flight_at ticket self.old) }
        ensures landing { IfSome (flight_at ticket self.old) (λ flight. LandsAs flight result) }
        ensures left { self.new ≡ without ticket self.old }
    {
        let Ticket { number } = ticket;
        let flight = take_flight(&mut self.items, number);
        landing_of(flight)
    }

    /// Takes a flight out of the air that has no answer, and never will.
    pub fn lose(&mut self, ticket: Ticket)
        requires { IsSome (flight_at ticket self.old) }
        ensures { self.new ≡ without ticket self.old }
    {
        let Ticket { number } = ticket;
        take_flight(&mut self.items, number);
    }
}

// Whether the invalidation covers the page of a flight.
fn covers_flight(level: usize, inv: &Invalidation, flight: &Flight) -> bool
    ensures { result ≡ covers_page level flight.now.auto inv.now flight.now.key }
{
    match &flight.key {
        Some(key) => covers(
            StatRule {
                level,
                auto: flight.auto,
            },
            inv,
            key,
        ),
        None => false,
    }
}

fn void_flight(flight: &mut Flight, level: usize, inv: &Invalidation)
    ensures { flight.new ≡ after_invalidation level inv.now flight.old }
{
    let covered = covers_flight(level, inv, flight);
    flight.voided = flight.voided || covered;
}

fn void_all(flights: &mut [Flight], level: usize, inv: &Invalidation)
    ensures { flights.new ≡ map (after_invalidation level inv.now) flights.old }
{
    for flight in flights.iter_mut() {
        void_flight(flight, level, inv);
    }
}

fn take_flight(flights: &mut Vec<Flight>, number: FlightId) -> Flight
    requires { IsSome (flight_at number flights.old.items) }
    ensures found { flight_at number flights.old.items ≡ Some result }
    ensures left { flights.new.items ≡ without number flights.old.items }
    ensures room { vec_capacity flights.new ≡ vec_capacity flights.old }
{
    let at = place_of(flights, number);
    flights.remove(at)
}

// Where the flight stands.
fn place_of(flights: &[Flight], number: FlightId) -> usize
    requires { IsSome (flight_at number flights.now) }
    ensures within { result < length flights.now }
    ensures value { flight_at number flights.now ≡ slice_get flights.now result }
    ensures rest { remove flights.now result ≡ without number flights.now }
{
    for (i, flight) in flights.iter().enumerate() {
        if flight.number == number {
            return i;
        }
    }
    unreachable!()
}
