//! What was done to the content, and whether its node alone is meant.
ghost use Rattle.std.specs.Prelude.{◌≡◌, codes};
ghost use Rattle.sp_base.specs.Fields.{field_of};
ghost use Rattle.invalidation.specs.Invalidations as spec;

use cover_rules::Action;
use http_header::HeaderName;
use sp_base::Req;

/// The action that the first `CQ-Action` field names, where it names one.
pub fn requested_action(req: &Req) -> Option<Action>
    ensures { result ≡ spec.requested_action req.now }
{
    match req.field(&HeaderName::from_static("cq-action")) {
        Some(value) => named_action(value),
        None => None,
    }
}

fn named_action(value: &[u8]) -> Option<Action>
    ensures { result ≡ spec.named_action value.now }
{
    if value == b"Activate".as_slice() {
        Some(Action::Activate)
    } else if value == b"Deactivate".as_slice() {
        Some(Action::Deactivate)
    } else if value == b"Delete".as_slice() {
        Some(Action::Delete)
    } else {
        None
    }
}

/// Whether the first `CQ-Action-Scope` field is `ResourceOnly`.
pub fn is_resource_only(req: &Req) -> bool
    ensures { result ≡ spec.is_resource_only req.now }
{
    match req.field(&HeaderName::from_static("cq-action-scope")) {
        Some(value) => value == b"ResourceOnly".as_slice(),
        None => false,
    }
}
