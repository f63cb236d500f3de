//! What follows for flights in the air, on functions that do nothing.
ghost use Rattle.std.specs.Prelude.{◌≡◌, ◌≢◌, ◌<◌, ◌++◌, ◌∷◌, [], ℕ, List, IsSome, Some, None, map, slice_get};
ghost use Rattle.cache_ids.specs.Ids.{FlightId};
ghost use Rattle.cover_rules.specs.declared.invalidation.Invalidation.{Invalidation};
ghost use Rattle.flights.specs.declared.flight.Flight.{Flight};
ghost use Rattle.flights.specs.Flights.{AreRising, after_invalidation, flight_at, numbers_of, without, HasItsNumber, KeepsFlight, IsFoundAsLeftBy, RisesWithIfAbove, RisesAfterIfRising, LeavesPlaceIfThere};
ghost use Rattle.flights.specs.Landings.{UncoveredFlightsLandClear, CoveredFlightsLandVoided, UnkeyedFlightsLandUnkeyed};

/// A flight that is asked under a number that no other has is there under it (`asked`), and stays so while others are asked
/// (`others_asked`), land or are lost (`others_spent`), but that an invalidation that covers its page voids it (`voided`). Where numbers
/// rise, none is there under its number once its ticket is spent (`spent`).
pub fn a_flight_is_there_until_its_ticket_is_spent()
    ensures asked { (flight : Flight) (flights : List Flight) → flight_at flight.number flights ≡ None → HasItsNumber flight (flights ++ flight ∷ []) }
    ensures others_asked { (id : FlightId) (other : Flight) (flights : List Flight) → id ≢ other.number → KeepsFlight id flights (flights ++ other ∷ []) }
    ensures others_spent { (id other : FlightId) (flights : List Flight) → id ≢ other → flight_at id (without other flights) ≡ flight_at id flights }
    ensures voided { (id : FlightId) (level : ℕ) (inv : Invalidation) (flights : List Flight) → IsFoundAsLeftBy id level inv flights }
    ensures spent { (least : ℕ) (id : FlightId) (most : ℕ) (flights : List Flight) → AreRising least flights most → flight_at id (without id flights) ≡ None }
{}

/// The numbers of the flights in the air rise where each that is asked has a higher number than all before it (`asked`): an invalidation
/// and a landing keep that (`voided`, `left`), and no flight has a number above the greatest (`above`).
pub fn the_numbers_of_flights_rise()
    ensures asked { (least most : ℕ) (flight : Flight) (flights : List Flight) → RisesWithIfAbove least most flight flights }
    ensures voided { (least most level : ℕ) (inv : Invalidation) (flights : List Flight) → RisesAfterIfRising least most level inv flights }
    ensures left { (least : ℕ) (id : FlightId) (most : ℕ) (flights : List Flight) → AreRising least flights most → AreRising least (without id flights) most }
    ensures above { (least : ℕ) (id : FlightId) (most : ℕ) (flights : List Flight) → AreRising least flights most → most < id → flight_at id flights ≡ None }
{}

/// Tickets in the order of their asking have the places of their flights, where numbers rise: that of a flight that is asked comes last
/// (`asked`), an invalidation changes no number (`voided`), each has its flight (`there`), and where a flight is taken out of the air its
/// number alone goes, from the place of the ticket (`left`).
pub fn tickets_have_the_places_of_their_flights()
    ensures asked { (flight : Flight) (flights : List Flight) → numbers_of (flights ++ flight ∷ []) ≡ numbers_of flights ++ flight.number ∷ [] }
    ensures voided { (level : ℕ) (inv : Invalidation) (flights : List Flight) → numbers_of (map (after_invalidation level inv) flights) ≡ numbers_of flights }
    ensures there { (id : FlightId) (place : ℕ) (flights : List Flight) → slice_get (numbers_of flights) place ≡ Some id → IsSome (flight_at id flights) }
    ensures left { (least : ℕ) (id : FlightId) (most place : ℕ) (flights : List Flight) → AreRising least flights most → LeavesPlaceIfThere id place flights }
{}

/// A flight that is for a page gives leave to keep it where it was not voided as it was asked, and no invalidation that has begun since
/// covers the page (`clear`); it gives none where it was, or one does (`voided`), however many have begun since; and a flight that is for
/// no page gives none (`unkeyed`).
pub fn a_flight_lands_clear_where_nothing_covered_it()
    ensures clear { UncoveredFlightsLandClear }
    ensures voided { CoveredFlightsLandVoided }
    ensures unkeyed { UnkeyedFlightsLandUnkeyed }
{}
