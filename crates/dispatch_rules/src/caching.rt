//! Which answers may be kept, and under which key.
ghost use Rattle.std.specs.Prelude.{◌≡◌, [], IfOk, IfSome, is_none, unwrap_or};
ghost use Rattle.cover_rules.specs.Pages.{IsPageKey};
ghost use Rattle.glob_rules.specs.Rules as rules;
ghost use Rattle.dispatch_rules.specs.Caching as spec;

use any_config::Farm;
use cover_rules::{PageKey, page_key};
use form_urlencoded::parse;
use glob_rules::allows;
use http_header::AUTHORIZATION;
use sp_base::{Answer, Mark, Mem, Req};
use std::alloc::Global;

/// The key under which the answer to a request may be kept. There is none exactly where the method isn't GET, the request has an
/// Authorization header and the farm doesn't keep such answers, the farm doesn't ignore a parameter of the query, the path is no
/// page's, or the rules deny the text of the page's path.
pub fn key_of(alloc: Global, farm: &Farm, req: &Req) -> Mem<Option<PageKey>>
    ensures key { IfOk result (λ key. key ≡ spec.cache_key farm.now req.now) }
    ensures page { IfOk result (λ found. IfSome found IsPageKey) }
{
    if !may_keep(alloc, farm, req)? {
        return Ok(None);
    }
    let Some(key) = page_key(alloc, req.path())? else {
        return Ok(None);
    };
    if allows(&farm.rules, key.text(alloc)?.text()) {
        Ok(Some(key))
    } else {
        Ok(None)
    }
}

fn may_keep(alloc: Global, farm: &Farm, req: &Req) -> Mem<bool>
    ensures { IfOk result (λ yes. yes ≡ spec.may_keep farm.now req.now) }
{
    if req.method() != "GET" {
        return Ok(false);
    }
    if !is_shared(farm, req) {
        return Ok(false);
    }
    ignores(alloc, farm, query_bytes(req))
}

/// The query as it came, empty where there is none.
pub fn query_bytes(req: &Req) -> &[u8]
    ensures { result.now ≡ unwrap_or req.now.query [] }
{
    match req.query() {
        Some(query) => query,
        None => b"",
    }
}

fn is_shared(farm: &Farm, req: &Req) -> bool
    ensures { result ≡ spec.is_shared farm.now req.now }
{
    farm.authorized || req.field(&AUTHORIZATION).is_none()
}

fn ignores(alloc: Global, farm: &Farm, query: &[u8]) -> Mem<bool>
    ensures { IfOk result (λ yes. yes ≡ spec.ignores farm.now query.now) }
{
    for pair in parse(alloc, query) {
        let (name, _value) = pair?;
        if !allows(&farm.ignored, name.as_str()) {
            return Ok(false);
        }
    }
    Ok(true)
}

/// Whether .stat files outdate a page.
pub fn auto_of(alloc: Global, farm: &Farm, key: &PageKey) -> Mem<bool>
    ensures { IfOk result (λ auto. auto ≡ spec.is_auto farm.now key.now) }
{
    let text = key.text(alloc)?;
    Ok(allows(&farm.auto, text.text()))
}

/// Whether an answer may be kept.
pub fn storable(answer: &Answer) -> bool
    ensures { result ≡ spec.is_storable answer.now }
{
    answer.status == 200 && is_plain(answer.mark)
}

fn is_plain(mark: Mark) -> bool
    ensures { result ≡ spec.is_plain_mark mark }
{
    match mark {
        Mark::Plain => true,
        Mark::NoCache => false,
        Mark::NoStore => false,
        Mark::MustRevalidate => false,
    }
}

/// Whether a client may invalidate, by its IP address.
pub fn may_flush(farm: &Farm, peer: &str) -> bool
    ensures { result ≡ rules.allows farm.now.clients peer.now }
{
    allows(&farm.clients, peer)
}
