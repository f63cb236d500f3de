//! What a filter says of a request.
ghost use Rattle.std.specs.Prelude.{◌≡◌, IfOk, drop};
ghost use Rattle.glob_rules.specs.Rules.{decision};
ghost use Rattle.dispatch_rules.specs.Admission as spec;
ghost use Rattle.dispatch_rules.specs.RequestParts.{applies_to};
ghost use Rattle.dispatch_rules.specs.UrlParts.{IsDotted};

use crate::caching::query_bytes;
use crate::url_parts::{dotted_selectors, extension, stem, suffix};
use any_config::{Filter, FilterList, Test};
use sp_base::{Mem, Req};
use std::alloc::Global;

/// The parts of a request that an entry asks about.
#[derive(Clone, Copy, Drop)]
pub struct RequestParts<'a> {
    pub line: &'a str,
    pub method: &'a str,
    pub url: &'a str,
    pub path: &'a str,
    pub selectors: &'a str,
    pub extension: &'a str,
    pub suffix: &'a str,
    pub query: &'a str,
}

/// Whether a filter allows a request: the last entry that applies decides.
pub fn filter_allows(alloc: Global, filter: &FilterList, req: &Req) -> Mem<bool>
    ensures { IfOk result (λ yes. yes ≡ decision (spec.applies req.now) (λ entry. entry.allow) filter.now) }
{
    let url = req.path().as_text();
    let selectors = dotted_selectors(alloc, url)?;
    let query = String::from_utf8_lossy(alloc, query_bytes(req))?;
    let seen = RequestParts {
        line: req.line(),
        method: req.method(),
        url,
        path: stem(url),
        selectors: without_dot(selectors.as_str()),
        extension: extension(url),
        suffix: suffix(url),
        query: query.as_str(),
    };
    let allowed = last_says(alloc, filter, &seen)?;
    Ok(allowed)
}

fn without_dot(text: &str) -> &str
    requires { IsDotted text.now }
    ensures { result.now ≡ drop 1 text.now }
{
    match text.strip_prefix('.') {
        Some(rest) => rest,
        None => "",
    }
}

fn last_says(alloc: Global, filter: &FilterList, seen: &RequestParts) -> Mem<bool>
    ensures { IfOk result (λ yes. yes ≡ decision (applies_to seen.now) (λ entry. entry.allow) filter.now) }
{
    let entries = filter.as_slice();
    let mut left = entries.len();
    while left > 0 {
        left -= 1;
        let entry = &entries[left];
        if applies(alloc, entry, seen)? {
            return Ok(entry.allow);
        }
    }
    Ok(false)
}

fn applies(alloc: Global, entry: &Filter, seen: &RequestParts) -> Mem<bool>
    ensures { IfOk result (λ yes. yes ≡ applies_to seen.now entry.now) }
{
    Ok(
        fits(alloc, &entry.request_line, seen.line)?
            && (fits(alloc, &entry.method, seen.method)?
                && (fits(alloc, &entry.url, seen.url)?
                    && (fits(alloc, &entry.path, seen.path)?
                        && (fits(alloc, &entry.selectors, seen.selectors)?
                            && (fits(alloc, &entry.extension, seen.extension)?
                                && (fits(alloc, &entry.suffix, seen.suffix)?
                                    && fits(alloc, &entry.query, seen.query)?)))))),
    )
}

fn fits(alloc: Global, test: &Option<Test>, text: &str) -> Mem<bool>
    ensures { IfOk result (λ yes. yes ≡ spec.fits test.now text.now) }
{
    match test {
        Some(Test::Glob(glob)) => Ok(glob.matches(text)),
        Some(Test::Pattern(pattern)) => pattern.matches(alloc, text),
        None => Ok(true),
    }
}
