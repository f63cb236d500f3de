// Writes a tree as JSON: of each node the properties, then `:order`, then the kids.
ghost use Rattle.std.specs.Prelude.{◌≡◌, IfOk, OnOk, Some, Ok, true};
ghost use Rattle.json.specs.Tree.{json_tokens};
ghost use Rattle.resource_tree.specs.Content.{IsGood, node_at};
ghost use Rattle.property_json.specs.PropertyJson.{Adds};
ghost use Rattle.content_json.specs.ContentOf.{content};
ghost use Rattle.content_json.specs.Written.{is_plain_tree, tree_text};
ghost use Rattle.content_json.specs.Steps.{order_tokens, whole_at, kid_tokens, AreBelow, AreBelowKids};

use crate::names::{ORDER, kid_path};
use json::Writer;
use property_json::{properties_come_first, write_properties, write_texts};
use resource_tree::{Node, Tree};
use sp_base::{ByteBuf, Mem, Path, TextList};
use std::alloc::{AllocError, Global};

// Writes the names of all kids in their order, where there are some.
fn write_order(writer: &mut Writer, kids: &TextList) -> Result<(), AllocError>
    ensures { OnOk result (Adds writer.old writer.new (order_tokens kids.now)) }
{
    if kids.is_empty() {
        return Ok(());
    }
    writer.key(ORDER)?;
    write_texts(writer, kids)
}

// Writes a node and all below it. Out of memory, some of it may be written.
#[cycle(writing)]
fn write_node(alloc: Global, tree: &Tree, writer: &mut Writer, path: &Path, node: &Node) -> Mem<()>
    requires good { IsGood tree.now }
    requires there { node_at tree.now path.now ≡ Some node.now }
    ensures tokens { OnOk result (Adds writer.old writer.new (json_tokens (whole_at tree.now path.now))) }
    ensures props { OnOk result (AreBelow tree.now path.now) }
{
    properties_come_first();
    writer.begin_object()?;
    write_properties(writer, &node.props)?;
    write_order(writer, &node.kids)?;
    write_kids(alloc, tree, writer, path, node)?;
    writer.end_object()?;
    Ok(())
}

// Writes the kids of a node as members, each with all below it.
#[cycle(writing)]
fn write_kids(alloc: Global, tree: &Tree, writer: &mut Writer, path: &Path, node: &Node) -> Mem<()>
    requires good { IsGood tree.now }
    requires there { node_at tree.now path.now ≡ Some node.now }
    ensures tokens { OnOk result (Adds writer.old writer.new (kid_tokens tree.now path.now node.now.kids)) }
    ensures props { OnOk result (AreBelowKids tree.now path.now node.now.kids) }
{
    for name in node.kids.as_slice() {
        let kid = kid_path(alloc, path, name.text())?;
        if let Some(node) = tree.node(&kid) {
            writer.key(name.text())?;
            write_node(alloc, tree, writer, &kid, node)?;
        }
    }
    Ok(())
}

/// Writes a tree as compact JSON (RFC 8259): of each node its properties in the order of their names, then, where it has kids,
/// the member `:order` with the names of all kids in their order, then the kids in that order. Reading that gives the same tree,
/// if no name in it begins with `:` and no list of numbers or truths is empty.
pub fn write_tree(alloc: Global, tree: &Tree) -> Mem<ByteBuf>
    ensures value { IfOk result (λ bytes. bytes ≡ tree_text tree.now) }
    ensures read_back { IfOk result (λ bytes. is_plain_tree tree.now ≡ true → content bytes ≡ Ok tree.now) }
{
    // `len` says that the tree is good: the root is there, and each kid.
    let _ = tree.len();
    let mut writer = Writer::new(Vec::new(alloc));
    let root = Path::root(alloc);
    if let Some(node) = tree.node(&root) {
        write_node(alloc, tree, &mut writer, &root, node)?;
    }
    Ok(ByteBuf::from(writer.into_inner()))
}
