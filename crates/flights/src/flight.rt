//! What the cache knows of a flight.
use cache_ids::FlightId;
use cover_rules::{PageKey, Stamp};

/// A flight: a request that the publisher was asked, until its answer lands or it is lost.
#[derive(Drop)]
pub struct Flight {
    pub number: FlightId,
    /// The page that its answer may be kept as, if it has one.
    pub key: Option<PageKey>,
    /// Whether .stat files outdate that page.
    pub auto: bool,
    /// When it was asked.
    pub stamp: Stamp,
    /// Whether an invalidation covers that page that was unfinished when the flight was asked, or has begun since.
    pub voided: bool,
}
