// The first fault of content: in an object its names, then `:order`, then its members in the order of
// their names' bytes, each with all below it.
ghost use Rattle.std.specs.Prelude.{◌≡◌, ◌∷◌, IfOk, IsTrue, false, take};
ghost use Rattle.serde_json.specs.Data.{object};
ghost use Rattle.serde_json.specs.View.{view, members_view};
ghost use Rattle.sp_base.specs.Paths.{most_segments};
ghost use Rattle.content_json.specs.Names.{has_bad_name, is_content_name};
ghost use Rattle.content_json.specs.Faults.{own_fault, fault_in, fault_below, in_member, here};

use crate::fault::{Cause, Found};
use crate::kind::array_cause;
use crate::names::{has_bad_name, is_order, kid_path};
use crate::order::has_good_order;
use serde_json::{Map, Value};
use sp_base::{MOST_SEGMENTS, Mem, NoMemory, Path, PathFault};
use std::alloc::Global;

fn here(alloc: Global, cause: Cause) -> Found
    ensures { result ≡ here cause }
{
    Found {
        cause,
        place: Path::root(alloc),
    }
}

// The one fault that is left where a path may be made.
fn out_of_memory(fault: PathFault) -> NoMemory
    requires { fault ≡ PathFault.NoMemory }
{
    match fault {
        PathFault::NoMemory => NoMemory,
        _ => unreachable!(),
    }
}

// A name, and after it the first segments of a path, as many as fit.
fn after_name(alloc: Global, name: &str, path: &Path) -> Mem<Path>
    requires { IsTrue (is_content_name name.now) }
    ensures { IfOk result (λ made. made ≡ take most_segments (name.now ∷ path.now)) }
{
    let top = kid_path(alloc, &Path::root(alloc), name)?;
    let rest = path.first(alloc, MOST_SEGMENTS - 1)?;
    // `depth` says that these are segments of a path.
    let _ = rest.depth();
    match top.join(alloc, &rest) {
        Ok(made) => Ok(made),
        Err(fault) => Err(out_of_memory(fault)),
    }
}

// The fault seen from the object that has it in its member of this name.
fn in_member(alloc: Global, name: &str, found: &Found) -> Mem<Found>
    requires { IsTrue (is_content_name name.now) }
    ensures { IfOk result (λ f. f ≡ in_member name.now found.now) }
{
    Ok(Found {
        cause: found.cause,
        place: after_name(alloc, name, &found.place)?,
    })
}

fn own_fault(alloc: Global, members: &Map<String, Value>) -> Mem<Option<Found>>
    ensures { IfOk result (λ found. found ≡ own_fault (members_view members.now.entries)) }
{
    if has_bad_name(members) {
        return Ok(Some(here(alloc, Cause::BadName)));
    }
    if has_good_order(alloc, members)? {
        Ok(None)
    } else {
        Ok(Some(here(alloc, Cause::BadOrder)))
    }
}

// The first fault of a value.
#[cycle(fault)]
fn fault_in(alloc: Global, value: &Value) -> Mem<Option<Found>>
    ensures { IfOk result (λ found. found ≡ fault_in (view value.now)) }
{
    match value {
        Value::Null | Value::Bool(_) | Value::String(_) => Ok(None),
        Value::Number(number) => {
            if number.as_i64().is_some() {
                Ok(None)
            } else {
                Ok(Some(here(alloc, Cause::BadNumber)))
            }
        }
        Value::Array(items) => match array_cause(items.as_slice()) {
            Some(cause) => Ok(Some(here(alloc, cause))),
            None => Ok(None),
        },
        Value::Object(members) => object_fault(alloc, members),
    }
}

/// The first fault of an object.
#[cycle(fault)]
pub(crate) fn object_fault(alloc: Global, members: &Map<String, Value>) -> Mem<Option<Found>>
    ensures { IfOk result (λ found. found ≡ fault_in (object (members_view members.now.entries))) }
{
    match own_fault(alloc, members)? {
        Some(found) => Ok(Some(found)),
        None => fault_below(alloc, members),
    }
}

// The first fault of the members, whose names may all stand in content.
#[cycle(fault)]
fn fault_below(alloc: Global, members: &Map<String, Value>) -> Mem<Option<Found>>
    requires { has_bad_name (members_view members.now.entries) ≡ false }
    ensures { IfOk result (λ found. found ≡ fault_below (members_view members.now.entries)) }
{
    for (name, value) in members.iter() {
        if !is_order(name.as_str()) {
            if let Some(found) = fault_in(alloc, value)? {
                return Ok(Some(in_member(alloc, name.as_str(), &found)?));
            }
        }
    }
    Ok(None)
}
