//! Stamps, in place of the times of files.
/// When something happened, in place of a file's time: the number of the session of the Dispatcher, and the number of the stamp in that
/// session. Stamps are ordered by the epoch, then by the count.
#[derive(Clone, Copy, PartialEq, Eq, PartialOrd, Ord, Debug, Drop)]
pub struct Stamp {
    /// The session, counted from 1.
    pub epoch: u64,
    pub count: u64,
}
