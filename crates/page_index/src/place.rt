//! The places of keys.
ghost use Rattle.std.specs.Prelude.{◌≡◌};
ghost use Rattle.page_index.specs.Held as held;

use cover_rules::PageKey;
use std::hash::{DefaultHasher, Hash, Hasher};

/// The hash of a key, at which its note stands.
#[tactic(auto, unfolding(crate::specs::Held::place_of_key))]
pub(crate) fn place_of(key: &PageKey) -> u64
    ensures { result ≡ held.place_of_key key.now }
{
    let mut hasher = DefaultHasher::new();
    key.folder.hash(&mut hasher);
    key.file.text().hash(&mut hasher);
    hasher.finish()
}
