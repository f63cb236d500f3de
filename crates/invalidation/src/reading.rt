//! A request that asks for an invalidation.
ghost use Rattle.std.specs.Prelude.{◌≡◌, ◌≢◌, IfOk, IfErr, Ok, Err};
ghost use Rattle.invalidation.specs.Invalidations as spec;

use crate::InvFault;
use crate::action::{is_resource_only, requested_action};
use crate::handle::read_handle;
use cover_rules::Invalidation;
use sp_base::Req;
use std::alloc::Global;

/// Whether a request asks for an invalidation: whether its path is `/dispatcher/invalidate.cache`, whatever its method and its query.
pub fn is_invalidation(req: &Req) -> bool
    ensures { result ≡ spec.is_invalidation req.now }
{
    req.path().as_text() == "/dispatcher/invalidate.cache"
}

/// The invalidation that the fields of a request name.
pub fn read_invalidation(alloc: Global, req: &Req) -> Result<Invalidation, InvFault>
    ensures ok { IfOk result (λ invalidation. spec.invalidation_of req.now ≡ Ok invalidation) }
    ensures err { IfErr result (λ e. e ≢ InvFault.NoMemory → spec.invalidation_of req.now ≡ Err e) }
{
    let handle = read_handle(alloc, req)?;
    let Some(action) = requested_action(req) else {
        return Err(InvFault::BadAction);
    };
    Ok(Invalidation {
        action,
        handle,
        only: is_resource_only(req),
    })
}
