//! The index of the scripts of a tree over many patches of it, compared after each with an index that is made anew, and with the tree.
ghost use Rattle.std.specs.Prelude.{◌<◌, IfSome};
ghost use Rattle.resource_tree.specs.Content.{IsGood};
ghost use Rattle.resource_tree.specs.Patches.{patching};

use resource_tree::{Patch, Tree};
use script_rank::{ScriptIndex, first_script};
use sp_base::{Mem, Path, TextBuf, TextList, Value};
use std::alloc::Global;
use std::hash::RandomState;
use std::io;
use tree_draft::Draft;
use type_chain::{TypeList, TypeName};
use url_split::Parts;

const STEPS: u32 = 10_000;

const SEED: u32 = 20_260;

// Types in both search paths, with folders and scripts below them.
const PATHS: [&str; 18] = [
    "/apps",
    "/apps/a",
    "/apps/a/html.html",
    "/apps/a/a.html",
    "/apps/a/GET.html",
    "/apps/a/s",
    "/apps/a/s/html.html",
    "/apps/a/s.html",
    "/apps/a/b",
    "/apps/a/b/html.html",
    "/apps/a/b/b.json.html",
    "/libs",
    "/libs/a",
    "/libs/a/html.html",
    "/libs/a/s",
    "/libs/a/s.json.html",
    "/libs/a/b",
    "/libs/a/b/b.html",
];

const TYPES: [&str; 3] = ["a", "a/b", "/apps/a/b"];

// An extension, and a selector or none.
const REQUESTS: [(&str, &str); 4] = [("html", ""), ("html", "s"), ("json", ""), ("json", "s")];

// Numbers that follow from a seed.
#[derive(Drop)]
struct Numbers {
    state: u32,
}

impl Numbers {
    fn below(&mut self, n: usize) -> usize
        requires { 0 < n }
        ensures { result < n }
    {
        let next = (self.state as u64 * 1_103_515_245 + 12_345) % 2_147_483_648;
        self.state = next as u32;
        (next / 65_536) as usize % n
    }

    fn path(&mut self) -> &'static str {
        match PATHS.get(self.below(PATHS.len())) {
            Some(path) => *path,
            None => "/",
        }
    }
}

fn created(alloc: Global, tree: &Tree, path: &Path) -> Option<Patch>
    ensures { IfSome result (λ patch. IsGood (patching tree.now patch)) }
{
    let mut draft = Draft::new(alloc, tree);
    match draft.create(alloc, path) {
        Ok(()) => draft.patch(alloc).ok(),
        Err(_) => None,
    }
}

fn written(alloc: Global, tree: &Tree, path: &Path) -> Option<Patch>
    ensures { IfSome result (λ patch. IsGood (patching tree.now patch)) }
{
    let mut draft = Draft::new(alloc, tree);
    let text = Value::Text(TextBuf::from(String::new(alloc)));
    match draft.set(alloc, path, "jcr:data", text) {
        Ok(()) => draft.patch(alloc).ok(),
        Err(_) => None,
    }
}

fn erased(alloc: Global, tree: &Tree, path: &Path) -> Option<Patch>
    ensures { IfSome result (λ patch. IsGood (patching tree.now patch)) }
{
    let mut draft = Draft::new(alloc, tree);
    match draft.unset(alloc, path, "jcr:data") {
        Ok(()) => draft.patch(alloc).ok(),
        Err(_) => None,
    }
}

fn removed(alloc: Global, tree: &Tree, path: &Path) -> Option<Patch>
    ensures { IfSome result (λ patch. IsGood (patching tree.now patch)) }
{
    let mut draft = Draft::new(alloc, tree);
    match draft.remove(alloc, path) {
        Ok(()) => draft.patch(alloc).ok(),
        Err(_) => None,
    }
}

fn moved(alloc: Global, tree: &Tree, source: &Path, target: &Path) -> Option<Patch>
    ensures { IfSome result (λ patch. IsGood (patching tree.now patch)) }
{
    let mut draft = Draft::new(alloc, tree);
    match draft.move_to(alloc, source, target) {
        Ok(()) => draft.patch(alloc).ok(),
        Err(_) => None,
    }
}

fn copied(alloc: Global, tree: &Tree, source: &Path, target: &Path) -> Option<Patch>
    ensures { IfSome result (λ patch. IsGood (patching tree.now patch)) }
{
    let mut draft = Draft::new(alloc, tree);
    match draft.copy_to(alloc, source, target) {
        Ok(()) => draft.patch(alloc).ok(),
        Err(_) => None,
    }
}

// The patch of one of eight kinds, where the tree allows it. Scripts are made more often than they are taken away.
fn patch_of(
    alloc: Global,
    tree: &Tree,
    kind: usize,
    path: &Path,
    text: &Path,
    other: &Path,
) -> Option<Patch>
    ensures { IfSome result (λ patch. IsGood (patching tree.now patch)) }
{
    match kind {
        0..=4 => created(alloc, tree, path),
        5..=9 => created(alloc, tree, text),
        10..=15 => written(alloc, tree, text),
        16 => erased(alloc, tree, text),
        17 => removed(alloc, tree, path),
        18 => moved(alloc, tree, path, other),
        _ => copied(alloc, tree, path, other),
    }
}

// Puts a patch over a tree, and its index after it.
fn put(alloc: Global, tree: &mut Tree, index: &mut ScriptIndex, patch: Patch) -> Mem<()>
    requires { IsGood (patching tree.old patch) }
{
    let change = index.change_of(alloc, tree, &patch)?;
    tree.apply(patch)?;
    index.take(change);
    Ok(())
}

fn path_at(alloc: Global, text: &str) -> Mem<Path> {
    Ok(Path::read_or_none(alloc, text)?.unwrap_or_else(|| Path::root(alloc)))
}

fn step(alloc: Global, tree: &mut Tree, index: &mut ScriptIndex, numbers: &mut Numbers) -> Mem<()> {
    let kind = numbers.below(20);
    let name = numbers.path();
    let path = path_at(alloc, name)?;
    let text = format!(in alloc; "{name}/jcr:content")?;
    let text = path_at(alloc, text.as_str())?;
    let other = path_at(alloc, numbers.path())?;
    match patch_of(alloc, tree, kind, &path, &text, &other) {
        Some(patch) => put(alloc, tree, index, patch),
        None => Ok(()),
    }
}

fn types(alloc: Global, name: &str) -> Mem<TypeList> {
    let mut types = TypeList::new(alloc);
    if let Some(name) = TypeName::read(alloc, name)? {
        types.push(name)?;
    }
    if let Some(name) = TypeName::read(alloc, "a")? {
        types.push(name)?;
    }
    Ok(types)
}

fn parts(alloc: Global, extension: &str, selector: &str) -> Mem<Parts> {
    let mut selectors = TextList::new(alloc);
    if !selector.is_empty() {
        selectors.push(TextBuf::of(alloc, selector)?)?;
    }
    Ok(Parts {
        path: Path::root(alloc),
        selectors,
        extension: TextBuf::of(alloc, extension)?,
        suffix: TextBuf::from(String::new(alloc)),
    })
}

fn are_one(a: &Option<Path>, b: &Option<Path>) -> bool {
    match (a, b) {
        (Some(a), Some(b)) => a == b,
        (None, None) => true,
        _ => false,
    }
}

// What the index answers, where an index that is made anew and the tree answer the same.
fn agreed(
    alloc: Global,
    tree: &Tree,
    index: &ScriptIndex,
    types: &TypeList,
    parts: &Parts,
) -> Mem<Option<Option<Path>>> {
    let kept = index.first(alloc, types, parts)?;
    let anew = ScriptIndex::of(alloc, tree)?.first(alloc, types, parts)?;
    let found = first_script(alloc, tree, types, parts)?;
    if are_one(&kept, &anew) && are_one(&kept, &found) {
        Ok(Some(kept))
    } else {
        Ok(None)
    }
}

// Asks for one type and one request. The answer says whether a script is found, unless the answers differ.
fn is_found(
    alloc: Global,
    tree: &Tree,
    index: &ScriptIndex,
    numbers: &mut Numbers,
) -> Mem<Option<bool>> {
    let name = TYPES[numbers.below(TYPES.len())];
    let (extension, selector) = REQUESTS[numbers.below(REQUESTS.len())];
    let types = types(alloc, name)?;
    let parts = parts(alloc, extension, selector)?;
    let script = agreed(alloc, tree, index, &types, &parts)?;
    Ok(script.map(|found| found.is_some()))
}

fn walks(alloc: Global, tree: &mut Tree, index: &mut ScriptIndex) -> Mem<bool> {
    let mut numbers = Numbers { state: SEED };
    let mut found: u32 = 0;
    for _ in 0..STEPS {
        step(alloc, tree, index, &mut numbers)?;
        match is_found(alloc, tree, index, &mut numbers)? {
            Some(true) => found = found.saturating_add(1),
            Some(false) => {}
            None => return Ok(false),
        }
    }
    // Of the requests neither all nor none find a script.
    Ok(found > STEPS / 4 && found < STEPS)
}

fn walks_from_the_root(alloc: Global, seeds: RandomState) -> Mem<bool> {
    let mut tree = Tree::new(alloc, seeds)?;
    let mut index = ScriptIndex::of(alloc, &tree)?;
    walks(alloc, &mut tree, &mut index)
}

#[test]
fn an_index_goes_along_with_its_tree(rt: HostRuntime) -> io::Result<()> {
    let seeds = RandomState::new(&rt)?;
    assert!(rt; matches!(walks_from_the_root(rt.alloc(), seeds), Ok(true)));
    Ok(())
}
