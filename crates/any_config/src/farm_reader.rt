//! The farm of a file.
ghost use Rattle.std.specs.Prelude.{◌≡◌, ◌≢◌, IfOk, IfErr, Ok, Err};
ghost use Rattle.any_config.specs.Farms as spec;
ghost use Rattle.any_config.specs.declared.node.AnyNode.{out-AnyNode};
ghost use Rattle.any_config.specs.Farms.{FarmGives};

use crate::entries::{filters, needed_rules, optional_rules};
use crate::farm::{Farm, FilterList, HostList};
use crate::farm_fault::FarmFault;
use crate::hosts::{asked, hosts};
use crate::members::{Member, group_of, name_or, needed_group};
use crate::node::AnyNode;
use crate::numbers::number;
use sp_base::TextBuf;
use std::alloc::Global;

/// The greatest level at which .stat files may lie.
const DEEPEST_LEVEL: u32 = 32;

fn only_in(alloc: Global, farms: &[Member]) -> Result<&[Member], FarmFault>
    ensures { FarmGives (λ ms. ms.now) result (spec.only_in farms.now) }
{
    match farms {
        [] => Err(FarmFault::BadKind(TextBuf::of(alloc, "farms")?)),
        [farm] => group_of(alloc, name_or(&farm.0, "farms"), &farm.1),
        _ => Err(FarmFault::NotSupported(TextBuf::of(alloc, "farms")?)),
    }
}

fn members_in(top: &AnyNode) -> &[Member]
    ensures { result.now ≡ spec.members_in (out-AnyNode top.now) }
{
    match top {
        AnyNode::Group(members) => members.as_slice(),
        _ => &[],
    }
}

#[tactic(auto, unfolding(crate::specs::Farms::only_farm))]
fn only_farm(alloc: Global, top: &AnyNode) -> Result<&[Member], FarmFault>
    ensures { FarmGives (λ ms. ms.now) result (spec.only_farm top.now) }
{
    let farms = needed_group(alloc, "farms", members_in(top))?;
    only_in(alloc, farms)
}

// What a farm keeps, and who may invalidate it, beside what was read of it before.
#[tactic(auto, unfolding(crate::specs::Farms::with_cache))]
fn with_cache(
    alloc: Global,
    hosts: HostList,
    ask: (TextBuf, u16),
    filter: FilterList,
    cache: &[Member],
) -> Result<Farm, FarmFault>
    ensures { FarmGives (λ f. f) result (spec.with_cache hosts ask filter cache.now) }
{
    let rules = needed_rules(alloc, "rules", cache)?;
    let level = number(alloc, "statfileslevel", DEEPEST_LEVEL, cache)?;
    let authorized = number(alloc, "allowAuthorized", 1, cache)?;
    let auto = optional_rules(alloc, "invalidate", cache)?;
    let clients = optional_rules(alloc, "allowedClients", cache)?;
    let ignored = optional_rules(alloc, "ignoreUrlParams", cache)?;
    let (ask_host, ask_port) = ask;
    Ok(Farm {
        hosts,
        ask_host,
        ask_port,
        filter,
        level: level as usize,
        authorized: authorized == 1,
        rules,
        auto,
        clients,
        ignored,
    })
}

#[tactic(auto, unfolding(crate::specs::Farms::farm_of))]
fn read_farm(alloc: Global, top: &AnyNode) -> Result<Farm, FarmFault>
    ensures { FarmGives (λ f. f) result (spec.farm_of top.now) }
{
    let farm = only_farm(alloc, top)?;
    let served = needed_group(alloc, "virtualhosts", farm)?;
    let hosts = hosts(alloc, served)?;
    let filter = filters(alloc, farm)?;
    let cache = needed_group(alloc, "cache", farm)?;
    let (host, port) = asked(served);
    with_cache(
        alloc,
        hosts,
        (TextBuf::of(alloc, host)?, port),
        filter,
        cache,
    )
}

/// The one farm of a file, or the first fault in the order `farms`, `virtualhosts`, `filter`, `cache`, and of the cache `rules`,
/// `statfileslevel`, `allowAuthorized`, `invalidate`, `allowedClients` and `ignoreUrlParams`.
pub fn farm_of(alloc: Global, top: &AnyNode) -> Result<Farm, FarmFault>
    ensures ok { IfOk result (λ f. spec.farm_of top.now ≡ Ok f) }
    ensures err { IfErr result (λ e. e ≢ FarmFault.NoMemory → spec.farm_of top.now ≡ Err e) }
{
    read_farm(alloc, top)
}
