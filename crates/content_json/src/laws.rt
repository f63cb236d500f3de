//! Laws of content, on functions that do nothing.
ghost use Rattle.std.specs.Prelude.{◌≡◌, Some, None, Ok};
ghost use Rattle.serde_json.specs.Data.{Data, Members, object};
ghost use Rattle.sp_base.specs.Texts.{Segments, Text};
ghost use Rattle.resource_tree.specs.Content.{Content, IsGood};
ghost use Rattle.content_json.specs.declared.fault.Found.{Found};
ghost use Rattle.content_json.specs.ContentOf.{json_of, content, IsContentUnlessTooBig};
ghost use Rattle.content_json.specs.Faults.{fault_in};
ghost use Rattle.content_json.specs.Ways.{HasPropsOfWay, IsPlaced, IsNodeAtWay, HasNoCause, HasKidsInOrderIfAtWay};

/// What is read is a tree: the root and each path's parent are there, and each node's kids are exactly the paths one segment longer.
pub fn content_is_a_tree()
    ensures { (bytes : Text) (tree : Content) → content bytes ≡ Ok tree → IsGood tree }
{}

/// The node at a path is the object that the members on the way lead to, and there is none where they lead to no object.
pub fn members_lead_to_nodes()
    ensures { (bytes : Text) (tree : Content) (top : Data) (path : Segments) → content bytes ≡ Ok tree → json_of bytes ≡ Some top → IsNodeAtWay tree top path }
{}

/// A member's value stands under its name: the property of a name at a path is the value that the path's members and that name lead to, as
/// one of a property; there is none where they lead to no value, to an object or `null`, or the name is `:order`.
pub fn a_members_value_stands_under_its_name()
    ensures { (bytes : Text) (tree : Content) (top : Data) (path : Segments) → content bytes ≡ Ok tree → json_of bytes ≡ Some top → HasPropsOfWay tree top path }
{}

/// Of an object without a fault the paths of the tree alone decide whether it is too big.
pub fn paths_decide_the_size()
    ensures { (bytes : Text) (members : Members) → json_of bytes ≡ Some (object members) → fault_in (object members) ≡ None → IsContentUnlessTooBig bytes members }
{}

/// There is no fault exactly where no value on any way has one.
pub fn no_fault_without_a_cause()
    ensures none { (bytes : Text) (top : Data) → json_of bytes ≡ Some top → fault_in top ≡ None → HasNoCause top }
    ensures all { (bytes : Text) (top : Data) → json_of bytes ≡ Some top → HasNoCause top → fault_in top ≡ None }
{}

/// A fault is told with its cause and its place.
pub fn a_fault_is_at_its_place()
    ensures { (bytes : Text) (top : Data) (found : Found) → json_of bytes ≡ Some top → fault_in top ≡ Some found → IsPlaced top found }
{}

/// The kids that `:order` names come first, in its order; the others follow in the order of their bytes.
pub fn other_kids_in_byte_order()
    ensures { (bytes : Text) (top : Data) (way : Segments) (members : Members) → json_of bytes ≡ Some top → HasKidsInOrderIfAtWay top way members }
{}
