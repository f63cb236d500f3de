//! The hosts of a farm.
ghost use Rattle.std.specs.Prelude.{◌≡◌, MatchOption, Some, None};
ghost use Rattle.std.specs.List.{list_all};
ghost use Rattle.sp_base.specs.Limits.{greatest_port};
ghost use Rattle.any_config.specs.Farms as spec;
ghost use Rattle.any_config.specs.Tokens.{is_letter_or_digit};
ghost use Rattle.any_config.specs.Farms.{FarmGives};

use crate::entries::glob;
use crate::farm::{HostList, VirtualHost};
use crate::farm_fault::FarmFault;
use crate::members::{Member, word_of};
use crate::node::AnyNode;
use crate::numbers::decimal;
use sp_base::{GREATEST_PORT, HTTP_PORT, TextBuf};
use std::alloc::Global;

// The text before its last colon, and the text after it.
fn at_last_colon(text: &str) -> Option<(&str, &str)>
    ensures { MatchOption result (spec.at_last_colon text.now ≡ None) (λ p. spec.at_last_colon text.now ≡ Some (p.0.now, p.1.now)) }
{
    match text.rfind(':') {
        None => None,
        Some(at) => Some((&text[..at], &text[at + 1..])),
    }
}

fn port(text: &str) -> Option<u16>
    ensures { result ≡ spec.decimal greatest_port text.now }
{
    match decimal(u32::from(GREATEST_PORT), text.as_bytes()) {
        None => None,
        Some(n) => Some(n as u16),
    }
}

#[tactic(auto, unfolding(crate::specs::Farms::host))]
fn host(alloc: Global, name: &str, text: &str) -> Result<VirtualHost, FarmFault>
    ensures { FarmGives (λ h. h) result (spec.host name.now text.now) }
{
    let Some((prefix, back)) = at_last_colon(text) else {
        let name = glob(alloc, name, text)?;
        return Ok(VirtualHost { name, port: None });
    };
    let host = glob(alloc, name, prefix)?;
    match port(back) {
        Some(n) => Ok(VirtualHost {
            name: host,
            port: Some(n),
        }),
        None => Err(FarmFault::BadKind(TextBuf::of(alloc, name)?)),
    }
}

#[tactic(auto, unfolding(crate::specs::Farms::served_host))]
fn host_of(alloc: Global, member: &Member) -> Result<VirtualHost, FarmFault>
    ensures { FarmGives (λ h. h) result (spec.served_host member.now) }
{
    let name = member.0.text();
    if !name.is_empty() {
        return Err(FarmFault::BadKind(TextBuf::of(alloc, name)?));
    }
    let text = word_of(alloc, "virtualhosts", &member.1)?;
    host(alloc, "virtualhosts", text)
}

/// The hosts that are served.
pub fn hosts(alloc: Global, served: &[Member]) -> Result<HostList, FarmFault>
    ensures { FarmGives (λ l. l) result (spec.each spec.served_host served.now) }
{
    let mut found = HostList::new(alloc);
    for member in served {
        found.push(host_of(alloc, member)?)?;
    }
    Ok(found)
}

fn is_letter_or_digit(c: u8) -> bool
    ensures { result ≡ is_letter_or_digit c }
{
    (c >= b'A' && c <= b'Z') || ((c >= b'a' && c <= b'z') || (c >= b'0' && c <= b'9'))
}

fn is_host_byte(c: u8) -> bool
    ensures { result ≡ spec.is_host_byte c }
{
    is_letter_or_digit(c) || (c == b'-' || (c == b'_' || c == b'.'))
}

fn are_host_bytes(bytes: &[u8]) -> bool
    ensures { result ≡ list_all spec.is_host_byte bytes.now }
{
    bytes.iter().all(|c| is_host_byte(*c))
}

fn is_host_name(text: &str) -> bool
    ensures { result ≡ spec.is_host_name text.now }
{
    !text.is_empty() && are_host_bytes(text.as_bytes())
}

fn name_or_localhost(text: &str) -> &str
    ensures { result.now ≡ spec.name_or_localhost text.now }
{
    if is_host_name(text) {
        text
    } else {
        "localhost"
    }
}

fn asked_text(text: &str) -> (&str, u16)
    ensures { (result.0.now, result.1) ≡ spec.asked_cut text.now (spec.at_last_colon text.now) }
{
    match at_last_colon(text) {
        None => (name_or_localhost(text), HTTP_PORT),
        Some((prefix, back)) => (name_or_localhost(prefix), port(back).unwrap_or(HTTP_PORT)),
    }
}

/// The host and the port at which the publisher is asked.
#[tactic(auto, unfolding(crate::specs::Farms::publisher_address))]
pub fn asked(served: &[Member]) -> (&str, u16)
    ensures { (result.0.now, result.1) ≡ spec.publisher_address served.now }
{
    match served {
        [(_, AnyNode::Word(text)), ..] => asked_text(text.text()),
        _ => ("localhost", HTTP_PORT),
    }
}
