//! An unfinished flush.
use cache_ids::FlushId;
use invalidation::Purge;

/// An unfinished flush: its number, and how far it is.
#[derive(Drop)]
pub struct Pending {
    pub number: FlushId,
    pub purge: Purge,
}
