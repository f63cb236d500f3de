// The texts that a node claims.
ghost use Rattle.std.specs.Prelude.{◌≡◌, ◌<◌, ◌||◌, ℕ, List, IfOk, OnOk, length, false, is_some, option_copied};
ghost use Rattle.std.specs.List.{list_any};
ghost use Rattle.std.specs.Option.{option_map_or};
ghost use Rattle.std.specs.Str.{bytes_eq};
ghost use Rattle.sp_base.specs.Paths.{path_in};
ghost use Rattle.url_maps.specs.Claims.{node_claims_alias, node_claims_vanity_path, spells_alias, spells_vanity_path, AreTextsThat};
ghost use Rattle.url_maps.specs.VanityPaths.{with_slash};

use resource_tree::Node;
use sp_base::{Mem, Path, TextBuf, TextList, value_texts};
use std::alloc::Global;

// The texts that a node at a path claims as its aliases, none where no node is.
pub(crate) fn alias_texts(alloc: Global, path: &Path, node: Option<&Node>) -> Mem<TextList>
    ensures { IfOk result (AreTextsThat (λ t. option_map_or (λ n. node_claims_alias path.now n t) (option_copied node.entry) false)) }
{
    match node {
        Some(node) => aliases_of(alloc, path, node),
        None => Ok(TextList::new(alloc)),
    }
}

// The texts that the node at a path claims as its aliases.
pub(crate) fn aliases_of(alloc: Global, path: &Path, node: &Node) -> Mem<TextList>
    ensures { IfOk result (λ claimed. (t : List ℕ) → list_any (bytes_eq t) claimed ≡ node_claims_alias path.now node.now t) }
{
    let mut claimed = TextList::new(alloc);
    if path.depth() == 0 {
        return Ok(claimed);
    }
    let words = value_texts(node.props.get("sling:alias"));
    for word in words {
        push_alias(&mut claimed, alloc, path, word.text())?;
    }
    Ok(claimed)
}

// Pushes what one alias of a node claims, which isn't the root: its text, where it may be the name of a node.
fn push_alias(claimed: &mut TextList, alloc: Global, path: &Path, alias: &str) -> Mem<()>
    requires { 0 < length path.now }
    ensures { OnOk result ((t : List ℕ) → list_any (bytes_eq t) claimed.new ≡ (list_any (bytes_eq t) claimed.old || spells_alias path.now t alias.now)) }
{
    // `depth` says that the path is valid.
    let _ = path.depth();
    let parent = path.parent(alloc)?;
    let Some(named) = parent.child_or_none(alloc, alias)? else {
        return Ok(());
    };
    claimed.push(TextBuf::of(alloc, named.as_text())?)?;
    Ok(())
}

// The texts that a node claims as its vanity paths, none where no node is.
pub(crate) fn vanity_texts(alloc: Global, node: Option<&Node>) -> Mem<TextList>
    ensures { IfOk result (AreTextsThat (λ t. option_map_or (λ n. node_claims_vanity_path n t) (option_copied node.entry) false)) }
{
    match node {
        Some(node) => vanity_paths_of(alloc, node),
        None => Ok(TextList::new(alloc)),
    }
}

// The texts that a node claims as its vanity paths.
pub(crate) fn vanity_paths_of(alloc: Global, node: &Node) -> Mem<TextList>
    ensures { IfOk result (λ claimed. (t : List ℕ) → list_any (bytes_eq t) claimed ≡ node_claims_vanity_path node.now t) }
{
    let mut claimed = TextList::new(alloc);
    let words = value_texts(node.props.get("sling:vanityPath"));
    for word in words {
        push_vanity_path(&mut claimed, alloc, word.text())?;
    }
    Ok(claimed)
}

// Pushes what one vanity path of a node claims, where it spells a path.
fn push_vanity_path(claimed: &mut TextList, alloc: Global, word: &str) -> Mem<()>
    ensures { OnOk result ((t : List ℕ) → list_any (bytes_eq t) claimed.new ≡ (list_any (bytes_eq t) claimed.old || spells_vanity_path t word.now)) }
{
    let text = with_slash(alloc, word)?;
    if !reads(alloc, text.text())? {
        return Ok(());
    }
    claimed.push(text)?;
    Ok(())
}

// The text of a vanity path, before which a slash is put where it has none.
fn with_slash(alloc: Global, text: &str) -> Mem<TextBuf>
    ensures { IfOk result (λ t. t ≡ with_slash text.now) }
{
    if text.starts_with('/') {
        return TextBuf::of(alloc, text);
    }
    let mut whole = String::with_capacity(alloc, text.len().saturating_add(1))?;
    whole.push_str("/")?;
    whole.push_str(text)?;
    Ok(TextBuf::from(whole))
}

// Whether a text spells a path.
fn reads(alloc: Global, text: &str) -> Mem<bool>
    ensures { IfOk result (λ is. is ≡ is_some (path_in text.now)) }
{
    Ok(Path::read_or_none(alloc, text)?.is_some())
}
