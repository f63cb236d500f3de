//! How many flights may be in the air.
ghost use Rattle.std.specs.Prelude.{◌≡◌, ◌<◌, ℕ, None};
ghost use Rattle.flights.specs.Flights.{flight_at};

use cache_ids::FlightId;
use cover_rules::Stamp;
use flights::{AskFault, Flight, Flights, a_flight_is_there_until_its_ticket_is_spent};

fn unkeyed(number: FlightId) -> Flight
    ensures number { result.number ≡ number }
    ensures key { result.key ≡ None }
{
    Flight {
        number,
        key: None,
        auto: false,
        stamp: Stamp { epoch: 1, count: 1 },
        voided: false,
    }
}

// Asks flights from this number down to 1, until one is refused, and loses them again. How many were in the air is told.
fn most_in_the_air(flights: &mut Flights, number: u64) -> usize
    ensures { (other : ℕ) → number < other → flight_at other flights.new ≡ flight_at other flights.old }
{
    a_flight_is_there_until_its_ticket_is_spent();
    if number == 0 {
        return flights.len();
    }
    match flights.ask(unkeyed(FlightId::new(number))) {
        Ok(ticket) => {
            let most = most_in_the_air(flights, number - 1);
            flights.lose(ticket);
            most
        }
        Err(AskFault::FullAir) => flights.len(),
    }
}

#[test]
fn has_room_for_256_flights(rt: HostRuntime) {
    let flights = Flights::new(rt.alloc());
    assert!(rt; flights.is_ok());
    if let Ok(mut flights) = flights {
        assert!(rt; most_in_the_air(&mut flights, 256) == 256);
        assert!(rt; most_in_the_air(&mut flights, 257) == 256);
        assert!(rt; flights.len() == 0);
    }
}
