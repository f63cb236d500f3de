//! Reads the host that a request asks for, and the length of its body (RFC 9110, sections 7.2 and 8.6).
ghost use Rattle.std.specs.Prelude.{◌≡◌, ◌+◌, IfSome, IsTrue, IsUtf8, length, drop, option_copied, option_map, position};
ghost use Rattle.std.specs.List.{before_first, list_all};
ghost use Rattle.std.specs.Char.{is_ascii_digit};
ghost use Rattle.std.specs.Str.Parse.{digits_value};
ghost use Rattle.sp_base.specs.Bytes.{is_colon};
ghost use Rattle.http_front.specs.Hosts as spec;
ghost use Rattle.http_front.specs.LentHosts.{lent_host};

use sp_base::{GREATEST_PORT, HTTP_PORT};

const MOST_DIGITS: usize = 18;

/// The host of a request, from its Host field: its name and its port.
pub fn host_of(minor: u8, value: Option<&[u8]>) -> Option<(&[u8], u16)>
    ensures value { option_map lent_host result ≡ spec.host_of minor (option_copied value.entry) }
    ensures text { IfSome result (λ host. IsUtf8 host.0.now) }
{
    match value {
        Some(value) => host_in(value),
        None if minor == 0 => Some((b"", HTTP_PORT)),
        None => None,
    }
}

fn host_in(value: &[u8]) -> Option<(&[u8], u16)>
    ensures value { option_map lent_host result ≡ spec.host_in value.now }
    ensures text { IfSome result (λ host. IsUtf8 host.0.now) }
{
    let (name, port) = cut(value);
    if !is_name(name) {
        return None;
    }
    match port_of(port) {
        Some(port) => Some((name, port)),
        None => None,
    }
}

// What stands before the first colon, and what stands after it.
fn cut(value: &[u8]) -> (&[u8], &[u8])
    ensures name { result.0.now ≡ before_first is_colon value.now }
    ensures port { result.1.now ≡ drop (length (before_first is_colon value.now) + 1) value.now }
{
    match first_colon(value) {
        Some(at) => (&value[..at], &value[at + 1..]),
        None => (value, b""),
    }
}

fn first_colon(value: &[u8]) -> Option<usize>
    ensures { result ≡ position is_colon value.now }
{
    value.iter().position(|b| *b == b':')
}

fn is_name(text: &[u8]) -> bool
    ensures { result ≡ spec.is_asked_host_name text.now }
{
    !text.is_empty() && has_name_bytes_alone(text)
}

fn has_name_bytes_alone(text: &[u8]) -> bool
    ensures { result ≡ list_all spec.is_asked_host_byte text.now }
{
    text.iter().all(|b| is_name_byte(*b))
}

fn is_name_byte(b: u8) -> bool
    ensures { result ≡ spec.is_asked_host_byte b }
{
    b.is_ascii_alphanumeric() || (b == b'-' || (b == b'_' || b == b'.'))
}

fn port_of(text: &[u8]) -> Option<u16>
    ensures { result ≡ spec.port_of text.now }
{
    if text.is_empty() {
        return Some(HTTP_PORT);
    }
    if text.len() > 1 && text[0] == b'0' {
        return None;
    }
    let number = number_of(text)?;
    if number <= usize::from(GREATEST_PORT) {
        Some(number as u16)
    } else {
        None
    }
}

/// The length of a request's body, from its Content-Length field.
pub fn length_of(value: Option<&[u8]>) -> Option<usize>
    ensures { result ≡ spec.length_of (option_copied value.entry) }
{
    match value {
        Some(value) => number_of(value),
        None => Some(0),
    }
}

fn number_of(text: &[u8]) -> Option<usize>
    ensures { result ≡ spec.port_number text.now }
{
    if is_number(text) {
        Some(digits_value(text))
    } else {
        None
    }
}

fn is_number(text: &[u8]) -> bool
    ensures { result ≡ spec.is_number text.now }
{
    has_digits_alone(text) && (!text.is_empty() && text.len() <= MOST_DIGITS)
}

fn has_digits_alone(text: &[u8]) -> bool
    ensures { result ≡ list_all is_ascii_digit text.now }
{
    text.iter().all(|b| b.is_ascii_digit())
}

fn digits_value(text: &[u8]) -> usize
    requires { IsTrue (spec.is_number text.now) }
    ensures { result ≡ digits_value 10 text.now }
{
    let mut number = 0;
    for b in text {
        number = number * 10 + usize::from(*b - b'0');
    }
    number
}
