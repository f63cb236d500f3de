// Reads content: the JSON, and then its nodes, or why it is refused.
ghost use Rattle.std.specs.Prelude.{◌≡◌, ◌≢◌, None, Some, Ok, Err, false, IfOk, IfErr, MatchOption};
ghost use Rattle.serde_json.specs.Data.{Members, object};
ghost use Rattle.serde_json.specs.View.{view, members_view};
ghost use Rattle.content_json.specs.ContentOf.{json_of, refused_by, content_in, content};
ghost use Rattle.content_json.specs.Steps.{is_sound};

use crate::ContentFault;
use crate::fault::{Cause, Found};
use crate::from_tokens::nodes_of_text;
use crate::search::object_fault;
use resource_tree::Tree;
use serde_json::{Map, Value};
use sp_base::Mem;
use std::alloc::Global;
use std::hash::RandomState;

/// Reads content from a JSON text (RFC 8259) whose top is an object, the root. A member with an object is
/// a kid, one with a text, an integer, a truth or an array of one kind of these a property, and one with
/// `null` is nothing. The member `:order` names the kids that come first; the others follow in the order of
/// their bytes. Of several faults the first is told: in an object its names, then `:order`, then its
/// members in the order of their bytes, each with all below it; the size is looked at last.
pub fn read_tree(alloc: Global, seeds: RandomState, bytes: &[u8]) -> Result<Tree, ContentFault>
    ensures ok { IfOk result (λ tree. content bytes.now ≡ Ok tree) }
    ensures err { IfErr result (λ fault. fault ≢ ContentFault.NoMemory → content bytes.now ≡ Err fault) }
{
    match tree_from_tokens(alloc, seeds, bytes)? {
        Some(tree) => Ok(tree),
        None => refused(alloc, bytes),
    }
}

// Why bytes that aren't sound content are refused.
fn refused(alloc: Global, bytes: &[u8]) -> Result<Tree, ContentFault>
    requires { (ms : Members) → json_of bytes.now ≡ Some (object ms) → is_sound ms ≡ false }
    ensures ok { IfOk result (λ tree. content bytes.now ≡ Ok tree) }
    ensures err { IfErr result (λ fault. fault ≢ ContentFault.NoMemory → content bytes.now ≡ Err fault) }
{
    let Value::Object(members) = json_of(alloc, bytes)? else {
        return Err(ContentFault::NotObject);
    };
    Err(refusal(alloc, &members)?)
}

// The tree of sound content. There is none of content that isn't sound, and of bytes that aren't JSON.
fn tree_from_tokens(alloc: Global, seeds: RandomState, bytes: &[u8]) -> Mem<Option<Tree>>
    ensures { IfOk result (λ found. MatchOption found
        ((ms : Members) → json_of bytes.now ≡ Some (object ms) → is_sound ms ≡ false)
        (λ tree. content bytes.now ≡ Ok tree)) }
{
    match simdutf8::compat::from_utf8(bytes) {
        Ok(text) => match nodes_of_text(alloc, seeds, text)? {
            Some(nodes) => Ok(Some(Tree::of(nodes))),
            None => Ok(None),
        },
        Err(_fault) => Ok(None),
    }
}

// The JSON that the bytes are.
fn json_of(alloc: Global, bytes: &[u8]) -> Result<Value, ContentFault>
    ensures ok { IfOk result (λ json. json_of bytes.now ≡ Some (view json)) }
    ensures err { IfErr result (λ fault. fault ≢ ContentFault.NoMemory → (fault ≡ ContentFault.NotJson) × (json_of bytes.now ≡ None)) }
{
    match Value::from_slice(alloc, bytes) {
        Ok(json) => Ok(json),
        Err(fault) => {
            if fault.is_memory() {
                Err(ContentFault::NoMemory)
            } else {
                Err(ContentFault::NotJson)
            }
        }
    }
}

fn refused_by(found: Found) -> ContentFault
    ensures { result ≡ refused_by found.cause found.place }
{
    let Found { cause, place } = found;
    match cause {
        Cause::BadName => ContentFault::BadName(place),
        Cause::BadNumber => ContentFault::BadNumber(place),
        Cause::MixedArray => ContentFault::MixedArray(place),
        Cause::BadOrder => ContentFault::BadOrder(place),
    }
}

// Why an object that isn't sound is refused: its first fault, or else its size.
fn refusal(alloc: Global, members: &Map<String, Value>) -> Mem<ContentFault>
    requires { is_sound (members_view members.now.entries) ≡ false }
    ensures { IfOk result (λ fault. content_in (Some (object (members_view members.now.entries))) ≡ Err fault) }
{
    match object_fault(alloc, members)? {
        Some(found) => Ok(refused_by(found)),
        None => Ok(ContentFault::TooBig),
    }
}
