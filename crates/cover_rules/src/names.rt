//! How long a segment's file name is.
ghost use Rattle.std.specs.Prelude.{◌≡◌, ◌≤◌, length};
ghost use Rattle.cover_rules.specs.Names.{file_byte, file_name, is_plain_name_byte, longest_escaped_name, longest_page_name};
ghost use Rattle.cover_rules.specs.Names as spec;
ghost use Rattle.sp_base.specs.Paths.{mangled_seg};

use sp_base::mangled_parts;

/// The most bytes of a file name in the document root.
pub const LONGEST_PAGE_NAME: usize = 200;

fn is_plain(b: u8) -> bool
    ensures { result ≡ is_plain_name_byte b }
{
    b.is_ascii_alphanumeric() || (b == b'.' || (b == b'_' || b == b'-'))
}

// How many bytes of a file name a byte takes.
fn width(b: u8) -> usize
    ensures width { result ≡ length (file_byte b) }
    ensures few { result ≤ 3 }
{
    if is_plain(b) { 1 } else { 3 }
}

// How long the file name of a text is.
fn name_length(text: &str) -> usize
    requires { length text.now ≤ longest_page_name }
    ensures length { result ≡ length (file_name text.now) }
    ensures most { result ≤ longest_escaped_name }
{
    let mut length = 0;
    for b in text.as_bytes() {
        length += width(*b);
    }
    length
}

/// Whether the file name of a mangled segment has at most `LONGEST_PAGE_NAME` bytes. In a file name each byte but ASCII letters, digits,
/// `.`, `_` and `-` is `%` and two capital hexadecimal digits.
pub fn has_name(seg: &str) -> bool
    ensures { result ≡ spec.has_file_name seg.now }
{
    if seg.len() > LONGEST_PAGE_NAME {
        return false;
    }
    name_length(seg) <= LONGEST_PAGE_NAME
}

/// The same of a segment that isn't mangled yet.
pub fn has_mangled_name(seg: &str) -> bool
    ensures { result ≡ spec.has_file_name (mangled_seg seg.now) }
{
    let (mark, rest) = mangled_parts(seg);
    if mark.len() > LONGEST_PAGE_NAME || rest.len() > LONGEST_PAGE_NAME {
        return false;
    }
    name_length(mark) + name_length(rest) <= LONGEST_PAGE_NAME
}
