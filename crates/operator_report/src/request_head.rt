//! The lines of a request's head.

/// How the lines of requests end.
const VERSIONS: [&[u8]; 2] = [b" HTTP/1.1", b" HTTP/1.0"];

/// The field with the length of a body.
const LENGTH_FIELD: &[u8] = b"content-length:";

// Whether a byte may stand in a method (RFC 9110, section 5.6.2).
fn is_of_method(byte: u8) -> bool {
    byte.is_ascii_alphanumeric() || b"!#$%&'*+-.^_`|~".contains(&byte)
}

// Whether a line begins with a method, a blank and a slash.
fn begins_as_request(line: &[u8]) -> bool {
    match line.iter().position(|byte| !is_of_method(*byte)) {
        Some(end) if end > 0 => match line.get(end..) {
            Some(rest) => rest.starts_with(b" /"),
            None => false,
        },
        _ => false,
    }
}

/// The method and the target, where a line is the first one of a request.
pub fn asked_in(line: &[u8]) -> Option<&[u8]> {
    if !begins_as_request(line) {
        return None;
    }
    for version in VERSIONS {
        if let Some(asked) = line.strip_suffix(version) {
            return Some(asked);
        }
    }
    None
}

/// The path in a method and a target, as it came.
pub fn path_in(asked: &[u8]) -> Option<&[u8]> {
    let blank = asked.iter().position(|byte| *byte == b' ')?;
    let target = asked.get(blank..)?.strip_prefix(b" ".as_slice())?;
    match target.iter().position(|byte| *byte == b'?') {
        Some(mark) => target.get(..mark),
        None => Some(target),
    }
}

/// What stands in a line after the name of the field with the length.
pub fn length_text(line: &[u8]) -> Option<&[u8]> {
    let name = line.get(..LENGTH_FIELD.len())?;
    if name.eq_ignore_ascii_case(LENGTH_FIELD) {
        line.get(LENGTH_FIELD.len()..)
    } else {
        None
    }
}

/// The number that a text is, with blanks around it.
pub fn number_in(text: &[u8]) -> Option<usize> {
    str::from_utf8(text).ok()?.trim().parse().ok()
}
