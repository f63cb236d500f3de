// Which names of members may stand in content, and which members are kids.
ghost use Rattle.std.specs.Prelude.{◌≡◌, ◌<◌, IfOk, IsTrue, length};
ghost use Rattle.serde_json.specs.View.{members_view};
ghost use Rattle.resource_tree.specs.Content.{kid};
ghost use Rattle.sp_base.specs.Paths.{most_segments, seg_ok};
ghost use Rattle.content_json.specs.Names.{is_order, is_content_name, has_bad_name, is_object, is_kid};

use serde_json::{Map, Value};
use sp_base::{Mem, NoMemory, Path, PathFault, seg_ok};
use std::alloc::Global;

pub(crate) const ORDER: &str = ":order";

pub(crate) fn is_order(name: &str) -> bool
    ensures { result ≡ is_order name.now }
{
    name == ORDER
}

pub(crate) fn is_content_name(name: &str) -> bool
    ensures { result ≡ is_content_name name.now }
{
    seg_ok(name) && !name.starts_with(':')
}

/// Whether a name of a member may not stand in content.
pub(crate) fn has_bad_name(members: &Map<String, Value>) -> bool
    ensures { result ≡ has_bad_name (members_view members.now.entries) }
{
    for (name, _) in members.iter() {
        if !is_order(name.as_str()) && !is_content_name(name.as_str()) {
            return true;
        }
    }
    false
}

/// Whether the member of a name is an object.
pub(crate) fn is_kid(members: &Map<String, Value>, name: &str) -> bool
    ensures { result ≡ is_kid (members_view members.now.entries) name.now }
{
    match members.get(name) {
        Some(value) => value.is_object(),
        None => false,
    }
}

// The path of a kid. Its name and the depth were looked at before.
pub(crate) fn kid_path(alloc: Global, path: &Path, name: &str) -> Mem<Path>
    requires name { IsTrue (seg_ok name.now) }
    requires shallow { length path.now < most_segments }
    ensures { IfOk result (λ found. found ≡ kid path.now name.now) }
{
    match path.child(alloc, name) {
        Ok(kid) => Ok(kid),
        Err(PathFault::NoMemory) => Err(NoMemory),
        Err(_) => unreachable!(),
    }
}
