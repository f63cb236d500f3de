//! What is shown of texts that others wrote.

use sp_base::Mem;

// How many bytes at the beginning of a text are one that isn't printable: a control character but a tab, an end of a line or a paragraph, or
// a mark that turns the direction of what follows. 0 where the text begins with another.
fn hidden_bytes(text: &[u8]) -> usize {
    match text {
        [0xc2, second, ..] if matches!(*second, 0x80..=0x9f) => 2,
        [0xe2, 0x80, third, ..] if matches!(*third, 0xa8..=0xae) => 3,
        [0xe2, 0x81, third, ..] if matches!(*third, 0xa6..=0xa9) => 3,
        [first, ..] if *first != b'\t' && (*first < b' ' || *first == 0x7f) => 1,
        _ => 0,
    }
}

/// Adds a text, with a `?` for each character that isn't printable.
pub fn push_shown(out: &mut Vec<u8>, text: &[u8]) -> Mem<()> {
    let mut passed = 0usize;
    for at in 0..text.len() {
        if passed == 0 {
            passed = hidden_bytes(&text[at..]);
            out.push(if passed == 0 { text[at] } else { b'?' })?;
        }
        passed = passed.saturating_sub(1);
    }
    Ok(())
}
