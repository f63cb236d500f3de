//! How many objects a JSON text has.

// Where a byte stands.
#[derive(Clone, Copy, Drop)]
enum Within {
    Structure,
    Text,
    /// After the backslash of a text.
    Escape,
}

fn after(within: Within, byte: u8) -> Within {
    match (within, byte) {
        (Within::Structure, b'"') => Within::Text,
        (Within::Text, b'"') => Within::Structure,
        (Within::Text, b'\\') => Within::Escape,
        (Within::Escape, _) => Within::Text,
        _ => within,
    }
}

/// How many objects begin in a JSON text: each is a node of a content, unless a later one has its name.
pub fn object_count(json: &[u8]) -> usize {
    let mut count = 0usize;
    let mut within = Within::Structure;
    for byte in json {
        if matches!(within, Within::Structure) && *byte == b'{' {
            count = count.saturating_add(1);
        }
        within = after(within, *byte);
    }
    count
}
