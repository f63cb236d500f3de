//! Aliases and vanity paths that several nodes claim.
ghost use Rattle.std.specs.Prelude.{◌≡◌, IfOk};
ghost use Rattle.url_maps.specs.VanityPaths.{vanity_page, with_slash};
ghost use Rattle.site_faults.specs.Claims as spec;

use resource_tree::{Node, Tree};
use sp_base::{Items, Mem, Path, TextBuf, value_texts};
use std::alloc::Global;
use std::collections::BTreeMap;

/// Two nodes, or one node twice, that claim one path for two resources: by an alias, or by a vanity path.
#[derive(Drop)]
pub struct SharedClaim {
    pub claim: Path,
    pub first: Path,
    pub other: Path,
}

pub type SharedClaimList = Items<SharedClaim>;

// A path that a node claims, and the resource that is to be found there.
#[derive(Drop)]
struct Claim {
    path: Path,
    resource: Path,
}

// A node that claims a path, and the resource that is to be found there.
#[derive(Drop)]
struct Claimant {
    node: Path,
    resource: Path,
}

// Of each claimed path the claimant with the least path.
type FirstClaims = BTreeMap<Path, Claimant>;

// The path, where no node is at it.
fn free(tree: &Tree, path: Option<Path>) -> Option<Path>
    ensures { result ≡ spec.free tree.now path }
{
    match path {
        Some(path) if tree.node(&path).is_none() => Some(path),
        _ => None,
    }
}

// The path that a node, which isn't the root, claims by an alias.
fn alias_claim(alloc: Global, tree: &Tree, path: &Path, alias: &str) -> Mem<Option<Path>>
    ensures { IfOk result (λ claim. claim ≡ spec.alias_claim tree.now path.now alias.now) }
{
    let parent = path.parent(alloc)?;
    let claim = parent.child_or_none(alloc, alias)?;
    Ok(free(tree, claim))
}

// The text of a vanity path, before which a slash is put where it has none.
fn with_slash(alloc: Global, text: &str) -> Mem<TextBuf>
    ensures { IfOk result (λ t. t ≡ with_slash text.now) }
{
    if text.starts_with('/') {
        return TextBuf::of(alloc, text);
    }
    let mut whole = String::from_str(alloc, "/")?;
    whole.push_str(text)?;
    Ok(TextBuf::from(whole))
}

// The path that a node claims by a vanity path.
fn vanity_claim(alloc: Global, tree: &Tree, vanity_path: &str) -> Mem<Option<Path>>
    ensures { IfOk result (λ claim. claim ≡ spec.vanity_claim tree.now vanity_path.now) }
{
    let text = with_slash(alloc, vanity_path)?;
    let claim = Path::read_or_none(alloc, text.text())?;
    Ok(free(tree, claim))
}

// The resource that is found by a vanity path of the node at a path: the page whose content the node is, or the node's own.
fn vanity_resource(alloc: Global, path: &Path) -> Mem<Path>
    ensures { IfOk result (λ page. page ≡ vanity_page path.now) }
{
    if path.name() == "jcr:content" {
        path.parent(alloc)
    } else {
        path.duplicate(alloc)
    }
}

fn add_alias_claims(
    claims: &mut Items<Claim>,
    alloc: Global,
    tree: &Tree,
    path: &Path,
    node: &Node,
) -> Mem<()> {
    if path.depth() == 0 {
        return Ok(());
    }
    for alias in value_texts(node.props.get("sling:alias")) {
        if let Some(claimed) = alias_claim(alloc, tree, path, alias.text())? {
            claims.push(Claim {
                path: claimed,
                resource: path.duplicate(alloc)?,
            })?;
        }
    }
    Ok(())
}

fn add_vanity_claims(
    claims: &mut Items<Claim>,
    alloc: Global,
    tree: &Tree,
    path: &Path,
    node: &Node,
) -> Mem<()> {
    for vanity_path in value_texts(node.props.get("sling:vanityPath")) {
        if let Some(claimed) = vanity_claim(alloc, tree, vanity_path.text())? {
            claims.push(Claim {
                path: claimed,
                resource: vanity_resource(alloc, path)?,
            })?;
        }
    }
    Ok(())
}

// What a node claims.
fn claims_of(alloc: Global, tree: &Tree, path: &Path, node: &Node) -> Mem<Items<Claim>> {
    let mut claims = Items::new(alloc);
    add_alias_claims(&mut claims, alloc, tree, path, node)?;
    add_vanity_claims(&mut claims, alloc, tree, path, node)?;
    Ok(claims)
}

fn note_claim(firsts: &mut FirstClaims, alloc: Global, claim: &Claim, path: &Path) -> Mem<()> {
    if let Some(first) = firsts.get(&claim.path) {
        if first.node <= *path {
            return Ok(());
        }
    }
    let claimant = Claimant {
        node: path.duplicate(alloc)?,
        resource: claim.resource.duplicate(alloc)?,
    };
    firsts.insert(claim.path.duplicate(alloc)?, claimant)?;
    Ok(())
}

fn note_claims(
    firsts: &mut FirstClaims,
    alloc: Global,
    tree: &Tree,
    path: &Path,
    node: &Node,
) -> Mem<()> {
    let claims = claims_of(alloc, tree, path, node)?;
    for claim in claims.as_slice() {
        note_claim(firsts, alloc, claim, path)?;
    }
    Ok(())
}

// Tells a claim, where it is for another resource than the first is.
fn tell_claim(
    told: &mut SharedClaimList,
    alloc: Global,
    firsts: &FirstClaims,
    claim: &Claim,
    path: &Path,
) -> Mem<()> {
    if let Some(first) = firsts.get(&claim.path) {
        if first.resource != claim.resource {
            told.push(SharedClaim {
                claim: claim.path.duplicate(alloc)?,
                first: first.node.duplicate(alloc)?,
                other: path.duplicate(alloc)?,
            })?;
        }
    }
    Ok(())
}

fn tell_claims(
    told: &mut SharedClaimList,
    alloc: Global,
    tree: &Tree,
    firsts: &FirstClaims,
    path: &Path,
    node: &Node,
) -> Mem<()> {
    let claims = claims_of(alloc, tree, path, node)?;
    for claim in claims.as_slice() {
        tell_claim(told, alloc, firsts, claim, path)?;
    }
    Ok(())
}

/// Of each path that several nodes claim the least of their paths, with each of the others that claims it for another resource than that
/// one does, and with itself where it claims the path for two, in no order that is promised.
pub fn shared_claims(alloc: Global, tree: &Tree) -> Mem<SharedClaimList> {
    let mut firsts = BTreeMap::new(alloc);
    let mut told = Items::new(alloc);
    let rows = tree.rows(alloc)?;
    for row in rows.as_slice() {
        note_claims(&mut firsts, alloc, tree, row.0, row.1)?;
    }
    for row in rows.as_slice() {
        tell_claims(&mut told, alloc, tree, &firsts, row.0, row.1)?;
    }
    Ok(told)
}
