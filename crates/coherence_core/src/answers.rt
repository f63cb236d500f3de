//! What the calls of a core answer.
use cache_ids::FlushId;
use cover_rules::{Invalidation, PageKey};
use flights::Ticket;
use http_front::PreparedAnswer;
use invalidation::InvFault;

/// What a request got.
pub enum Got {
    /// The cache is down.
    Down,
    /// The farm doesn't admit the request.
    Denied,
    /// The page, from the store.
    Hit(PageKey, PreparedAnswer),
    /// A flight, whose answer may be kept as the page if there is one.
    Asked(Ticket, Option<PageKey>),
    /// A flush, by its number. No slice of it is made yet.
    Flush(FlushId, Invalidation),
    /// The request names no invalidation.
    FlushRefused(InvFault),
    /// The client may not invalidate.
    FlushForbidden,
    /// As many flights are in the air as may be.
    FullAir,
    /// As many flushes are unfinished as may be.
    FullPurge,
    /// The session has no stamp left.
    Worn,
    NoMemory,
}

/// What a request got, and whether the disk failed in the call.
pub struct Requested {
    pub got: Got,
    pub disk_failed: bool,
}

/// What became of a landing.
#[derive(Drop)]
pub enum Landed {
    /// Its answer was stored as this page.
    Kept(PageKey),
    /// Its answer may not be stored.
    Passed,
    /// The disk failed as its answer was stored.
    DiskFailed,
    NoMemory,
}

/// What a slice of the oldest flush came to.
#[derive(Clone, Copy, Drop)]
pub enum Purged {
    /// No flush is unfinished.
    Idle,
    /// The flush isn't finished yet.
    More(FlushId),
    Done(FlushId),
    /// The disk failed, which ended the flush.
    Failed(FlushId),
    /// Memory ran out, which ended the flush.
    NoMemory(FlushId),
}
