//! What a client asks for after a redirect.

use sp_base::{Mem, TextBuf};
use std::alloc::Global;

// Whether a target begins with a scheme (RFC 3986, section 3.1), and so may lead to another server.
fn has_scheme(target: &str) -> bool {
    let bytes = target.as_bytes();
    if !matches!(bytes.first(), Some(first) if first.is_ascii_alphabetic()) {
        return false;
    }
    for byte in bytes {
        if *byte == b':' {
            return true;
        }
        if !byte.is_ascii_alphanumeric() && !matches!(*byte, b'+' | b'-' | b'.') {
            return false;
        }
    }
    false
}

// The path of a target, without a query and a fragment.
fn target_path(target: &str) -> &str {
    match target.find(|c: char| c == '?' || c == '#') {
        Some(at) => &target[..at],
        None => target,
    }
}

// What stands before the last segment of a path.
fn folder_of(path: &str) -> &str {
    match path.rfind('/') {
        Some(at) => &path[..at],
        None => "",
    }
}

// The path that a client asks for after it asked for a text and was led to a path, which is put in the place of the last segment where it
// begins with no slash (RFC 3986, section 5.2.2).
fn resolved(alloc: Global, text: &str, path: &str) -> Mem<String> {
    let (before, path) = if path.is_empty() {
        ("", text)
    } else if path.starts_with('/') {
        ("", path)
    } else {
        (folder_of(text), path)
    };
    let mut whole = String::from_str(alloc, before)?;
    if !path.starts_with('/') {
        whole.push_str("/")?;
    }
    whole.push_str(path)?;
    Ok(whole)
}

/// The path that a redirect asks this server for, without a slash at its end, if it asks this one, where a text was asked for. None, too,
/// where the path may be read as another text: with an escape, a mangled prefix, or a segment that a client takes away; and of an empty
/// target.
pub fn asked_again(alloc: Global, text: &str, target: &str) -> Mem<Option<TextBuf>> {
    if target.is_empty() || target.starts_with("//") || has_scheme(target) {
        return Ok(None);
    }
    let path = target_path(target);
    let whole = resolved(alloc, text, path)?;
    let whole = whole.as_str();
    if path.contains('%') || whole.contains("/_") || whole.contains("/.") {
        return Ok(None);
    }
    match whole.strip_suffix('/') {
        Some(shorter) if !shorter.is_empty() => Ok(Some(TextBuf::of(alloc, shorter)?)),
        _ => Ok(Some(TextBuf::of(alloc, whole)?)),
    }
}
