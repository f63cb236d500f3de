//! The flights in the air as the cache sees them: which page each may be kept as, and whether an invalidation has covered that page
//! since. The one way from a flight to a page that may be kept (Adobe Dispatcher manual, "Invalidating Cached Pages From AEM").
#![tactic(auto)]

mod clear;
mod flight;
mod flights;
mod landing;
mod laws;
mod ticket;

pub use clear::Clear;
pub use flight::Flight;
pub use flights::{AskFault, Flights};
pub use landing::Landing;
pub use laws::{
    a_flight_is_there_until_its_ticket_is_spent, a_flight_lands_clear_where_nothing_covered_it,
    the_numbers_of_flights_rise, tickets_have_the_places_of_their_flights,
};
pub use ticket::Ticket;
