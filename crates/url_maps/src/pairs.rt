// A pair of a prefix and a target, without its prefix.
use sp_base::TextBuf;

/// By what a prefix leads to a target.
#[derive(Clone, Copy, Drop)]
pub(crate) enum PairKind {
    Mapping,
    Pattern,
    Alias,
    VanityPath,
}

/// Where a prefix leads.
#[derive(Drop)]
pub(crate) struct Pair {
    pub kind: PairKind,
    pub target: TextBuf,
    /// The status of a redirect, where the target is outside.
    pub away: Option<u16>,
}
