//! Flights with their tickets.
ghost use Rattle.std.specs.Prelude.{◌≡◌, ◌&&◌, position};
ghost use Rattle.run_events.specs.Events as events;
ghost use Rattle.run_events.specs.Moves as spec;
ghost use Rattle.run_events.specs.Events.{is_rendered, is_unrendered};
ghost use Rattle.front.specs.Caches.{flying_of};

use connections::{ConnectionId, FlightId};
use flights::Ticket;
use run_events::{Flying, Pick};
use sp_base::Req;

/// A flight in the air, with the ticket that takes it out.
pub(crate) struct TicketedFlight {
    pub(crate) ticket: Ticket,
    pub(crate) flying: Flying,
}

/// A flight that was just asked.
pub(crate) fn new_flight(number: FlightId, connection: ConnectionId, request: Req) -> Flying
    ensures { result ≡ spec.new_flight number connection request }
{
    Flying {
        number,
        connection,
        request,
        rendered: None,
    }
}

/// Where the first flight stands that is asked for and isn't rendered.
pub(crate) fn first_unrendered(flights: &[TicketedFlight], pick: &Pick) -> Option<usize>
    ensures { result ≡ position (λ flying. events.is_picked pick.now flying && is_unrendered flying) (flying_of flights.now) }
{
    unrendered_place(flights, pick)
}

/// Where the first flight stands that is asked for and is rendered.
pub(crate) fn first_rendered(flights: &[TicketedFlight], pick: &Pick) -> Option<usize>
    ensures { result ≡ position (λ flying. events.is_picked pick.now flying && is_rendered flying) (flying_of flights.now) }
{
    rendered_place(flights, pick)
}

/// Where the first flight stands that is asked for.
pub(crate) fn first_picked(flights: &[TicketedFlight], pick: &Pick) -> Option<usize>
    ensures { result ≡ position (λ flying. events.is_picked pick.now flying && events.is_any flying) (flying_of flights.now) }
{
    picked_place(flights, pick)
}

fn unrendered_place(flights: &[TicketedFlight], pick: &Pick) -> Option<usize>
    ensures { result ≡ position (λ flight. events.is_picked pick.now flight.flying && is_unrendered flight.flying) flights.now }
{
    flights.iter().position(|flight| is_picked(pick, &flight.flying)
        && flight.flying.rendered.is_none())
}

fn rendered_place(flights: &[TicketedFlight], pick: &Pick) -> Option<usize>
    ensures { result ≡ position (λ flight. events.is_picked pick.now flight.flying && is_rendered flight.flying) flights.now }
{
    flights.iter().position(|flight| is_picked(pick, &flight.flying)
        && flight.flying.rendered.is_some())
}

fn picked_place(flights: &[TicketedFlight], pick: &Pick) -> Option<usize>
    ensures { result ≡ position (λ flight. events.is_picked pick.now flight.flying && events.is_any flight.flying) flights.now }
{
    flights
        .iter()
        .position(|flight| is_picked(pick, &flight.flying))
}

fn is_picked(pick: &Pick, flying: &Flying) -> bool
    ensures { result ≡ events.is_picked pick.now flying.now }
{
    match pick {
        Pick::Number(number) => flying.number == *number,
        Pick::First => true,
    }
}
