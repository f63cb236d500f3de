//! Which requests are admitted.
ghost use Rattle.std.specs.Prelude.{◌≡◌, ◌==◌, IfOk, if◌then◌else◌, Some};
ghost use Rattle.std.specs.List.{list_any};
ghost use Rattle.dispatch_rules.specs.Admission as spec;

use crate::filter::filter_allows;
use any_config::{Farm, HostList, VirtualHost};
use sp_base::{Mem, Req};
use std::alloc::Global;

/// Whether a request is admitted: its host is one of the farm's, and the filter allows it.
pub fn admits(alloc: Global, farm: &Farm, req: &Req) -> Mem<bool>
    ensures { IfOk result (λ yes. yes ≡ spec.admits farm.now req.now) }
{
    if is_served(alloc, farm, req)? {
        filter_allows(alloc, &farm.filter, req)
    } else {
        Ok(false)
    }
}

fn is_served(alloc: Global, farm: &Farm, req: &Req) -> Mem<bool>
    ensures { IfOk result (λ yes. yes ≡ spec.is_served farm.now req.now) }
{
    let named = !req.host().is_empty();
    let host = if named {
        req.host()
    } else {
        farm.ask_host.text()
    };
    let port = if named { req.port() } else { farm.ask_port };
    let host = host.to_ascii_lowercase(alloc)?;
    Ok(serves_any(&farm.hosts, host.as_str(), port))
}

fn serves_any(hosts: &HostList, host: &str, port: u16) -> bool
    ensures { result ≡ list_any (spec.serves host.now port) hosts.now }
{
    hosts
        .as_slice()
        .iter()
        .any(|served| serves(served, host, port))
}

fn serves(served: &VirtualHost, host: &str, port: u16) -> bool
    ensures { result ≡ spec.serves host.now port served.now }
{
    served.name.matches(host) && has_port(served.port, port)
}

fn has_port(own: Option<u16>, port: u16) -> bool
    ensures { result ≡ spec.has_port own port }
{
    match own {
        Some(own) => own == port,
        None => true,
    }
}
