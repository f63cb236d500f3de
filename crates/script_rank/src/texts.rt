// The nodes that hold the texts of scripts.
ghost use Rattle.std.specs.Prelude.{◌≡◌, OnOk, option_copied, true};
ghost use Rattle.script_rank.specs.Noting.{AddsScript, has_data_text, has_text_there, is_named_script, is_text_path, leaves_text};
ghost use Rattle.script_rank.specs.Ranking.{is_script_name};

use resource_tree::{Node, PatchNode};
use sp_base::{Mem, Path};
use std::alloc::Global;

/// Whether a name may be a script's.
pub fn is_script_name(name: &str) -> bool
    ensures { result ≡ is_script_name name.now }
{
    name.as_bytes().ends_with(b".html")
}

// Whether there is a name that may be a script's.
fn is_named_script(name: Option<&str>) -> bool
    ensures { result ≡ is_named_script (option_copied name.entry) }
{
    match name {
        Some(name) => is_script_name(name),
        None => false,
    }
}

/// Whether the text of a script may stand at a path: the segment before its last one names the script.
pub(crate) fn is_text_path(path: &Path) -> bool
    ensures { result ≡ is_text_path path.now }
{
    path.name() == "jcr:content" && is_named_script(path.seg(path.depth().saturating_sub(2)))
}

/// Whether a node holds the text of a script.
#[tactic(auto, unfolding(crate::specs::Noting::has_data_text))]
pub(crate) fn has_text(node: &Node) -> bool
    ensures { result ≡ has_data_text node.now }
{
    node.props.text("jcr:data").is_some()
}

/// The same, if there is a node.
pub(crate) fn has_text_there(node: Option<&Node>) -> bool
    ensures { result ≡ has_text_there (option_copied node.entry) }
{
    match node {
        Some(node) => has_text(node),
        None => false,
    }
}

/// The same of what an entry of a patch leaves.
pub(crate) fn leaves_text(row: &PatchNode) -> bool
    ensures { result ≡ leaves_text row.now }
{
    match row {
        PatchNode::Node(node) => has_text(node),
        PatchNode::Gone => false,
    }
}

/// Adds the script whose text a path is for, if a test holds.
pub(crate) fn push_script(
    scripts: &mut Vec<Path>,
    alloc: Global,
    path: &Path,
    holds: bool,
) -> Mem<()>
    requires { is_text_path path.now ≡ true }
    ensures { OnOk result (AddsScript path.now holds scripts.old.items scripts.new.items) }
{
    if !holds {
        return Ok(());
    }
    scripts.push(path.parent(alloc)?)?;
    Ok(())
}
