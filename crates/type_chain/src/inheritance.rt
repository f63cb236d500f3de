//! The chain of a resource's types, from its own to the one of the default servlets.
ghost use Rattle.std.specs.Prelude.{◌≡◌, ◌++◌, ◌∷◌, [], IfOk, OnOk, option_and_then, option_copied};
ghost use Rattle.type_chain.specs.Types.{type_of};
ghost use Rattle.type_chain.specs.Chain.{chain_of, default_type, has_type, own_types, own_super, super_of, super_text, type_text, with_default};
ghost use Rattle.type_chain.specs.ScriptPlaces.{AreScriptPlacesOf, only};

use crate::script_places::visit_type;
use crate::{ScriptPlaceList, TypeList, TypeName};
use resource_tree::Tree;
use sp_base::{Mem, NoMemory, Path, PathFault, PropList, TextBuf};
use std::alloc::Global;

/// The most types of a chain before the default type.
const MOST_TYPES: usize = 32;

/// The text of a resource's type: its text `sling:resourceType`, else its text `jcr:primaryType`, else `nt:unstructured`.
#[tactic(auto, unfolding(crate::specs::Chain::type_text))]
pub fn type_text(props: &PropList) -> &str
    ensures { result.now ≡ type_text props.now }
{
    if let Some(text) = props.text("sling:resourceType") {
        return text.text();
    }
    match props.text("jcr:primaryType") {
        Some(text) => text.text(),
        None => "nt:unstructured",
    }
}

/// A chain of types with their script places.
#[derive(Drop)]
pub struct ChainWithScriptPlaces {
    pub types: TypeList,
    pub script_places: ScriptPlaceList,
}

impl ChainWithScriptPlaces {
    // Adds a type with its script places, and gives the text of its super type.
    fn add<'a>(&mut self, alloc: Global, tree: &'a Tree, name: TypeName) -> Mem<Option<&'a TextBuf>>
        requires { AreScriptPlacesOf tree.now self.old.types self.old.script_places }
        ensures text { IfOk result (λ o. option_copied o ≡ super_text tree.entry.now name) }
        ensures types { OnOk result (self.new.types ≡ self.old.types ++ name ∷ []) }
        ensures script_places { OnOk result (AreScriptPlacesOf tree.entry.now self.new.types self.new.script_places) }
    {
        let text = visit_type(alloc, tree, &name, &mut self.script_places)?;
        self.types.push(name)?;
        Ok(text)
    }
}

/// The types whose scripts a resource is rendered by, the nearest first: its own, its super type, that one's super type, and so on, and
/// at last `sling/servlet/default`.
pub fn chain(alloc: Global, tree: &Tree, props: &PropList) -> Mem<TypeList>
    ensures { IfOk result (λ list. list ≡ chain_of tree.now props.now) }
{
    Ok(chain_with_script_places(alloc, tree, props)?.types)
}

/// The chain of a resource, and the script places of its types. Each place of each type is looked up once, for both.
#[tactic(auto, unfolding(crate::specs::Chain::chain_of))]
pub fn chain_with_script_places(
    alloc: Global,
    tree: &Tree,
    props: &PropList,
) -> Mem<ChainWithScriptPlaces>
    ensures types { IfOk result (λ chain. chain.types ≡ chain_of tree.now props.now) }
    ensures script_places { IfOk result (λ chain. AreScriptPlacesOf tree.now chain.types chain.script_places) }
{
    let own = TypeName::read(alloc, type_text(props))?;
    let mut chain = own_types(alloc, tree, props, own)?;
    add_default(alloc, tree, &mut chain)?;
    Ok(chain)
}

fn own_types(
    alloc: Global,
    tree: &Tree,
    props: &PropList,
    own: Option<TypeName>,
) -> Mem<ChainWithScriptPlaces>
    ensures types { IfOk result (λ chain. chain.types ≡ own_types tree.now props.now own) }
    ensures script_places { IfOk result (λ chain. AreScriptPlacesOf tree.now chain.types chain.script_places) }
{
    let mut chain = ChainWithScriptPlaces {
        types: TypeList::new(alloc),
        script_places: ScriptPlaceList::new(alloc),
    };
    let mut next = begin(alloc, tree, props, own, &mut chain)?;
    while let Some(name) = next {
        if chain.types.len() >= MOST_TYPES || has_type(&chain.types, &name) {
            break;
        }
        next = type_named(alloc, chain.add(alloc, tree, name)?)?;
    }
    Ok(chain)
}

// Begins the chain with the resource's own type, and gives the super type: the resource's own text counts before those of the type's
// places.
#[tactic(auto, unfolding(crate::specs::Chain::super_of))]
fn begin(
    alloc: Global,
    tree: &Tree,
    props: &PropList,
    own: Option<TypeName>,
    chain: &mut ChainWithScriptPlaces,
) -> Mem<Option<TypeName>>
    requires { AreScriptPlacesOf tree.now chain.old.types chain.old.script_places }
    ensures next { IfOk result (λ o. o ≡ super_of tree.entry.now props.entry.now own) }
    ensures types { OnOk result (chain.new.types ≡ chain.old.types ++ only own) }
    ensures script_places { OnOk result (AreScriptPlacesOf tree.entry.now chain.new.types chain.new.script_places) }
{
    let text = own_super(props);
    match own {
        Some(own) => {
            let above = chain.add(alloc, tree, own)?;
            type_named(alloc, text.or(above))
        }
        None => type_named(alloc, text),
    }
}

// The type that a text names, if there is a text.
fn type_named(alloc: Global, text: Option<&TextBuf>) -> Mem<Option<TypeName>>
    ensures { IfOk result (λ o. o ≡ option_and_then type_of (option_copied text.entry)) }
{
    match text {
        Some(text) => TypeName::read(alloc, text.text()),
        None => Ok(None),
    }
}

#[tactic(auto, unfolding(crate::specs::Chain::own_super))]
pub(crate) fn own_super(props: &PropList) -> Option<&TextBuf>
    ensures { option_copied result ≡ own_super props.now }
{
    props.text("sling:resourceSuperType")
}

fn has_type(types: &TypeList, name: &TypeName) -> bool
    ensures { result ≡ has_type name.now types.now }
{
    types.as_slice().iter().any(|other| other.is_same(name))
}

fn add_default(alloc: Global, tree: &Tree, chain: &mut ChainWithScriptPlaces) -> Mem<()>
    requires { AreScriptPlacesOf tree.now chain.old.types chain.old.script_places }
    ensures types { OnOk result (chain.new.types ≡ with_default chain.old.types) }
    ensures script_places { OnOk result (AreScriptPlacesOf tree.now chain.new.types chain.new.script_places) }
{
    let name = default_type(alloc)?;
    if has_type(&chain.types, &name) {
        return Ok(());
    }
    chain.add(alloc, tree, name)?;
    Ok(())
}

// The type of the default servlets.
fn default_type(alloc: Global) -> Mem<TypeName>
    ensures { IfOk result (λ name. name ≡ default_type) }
{
    match Path::read(alloc, "/sling/servlet/default") {
        Ok(segs) => Ok(TypeName {
            rooted: false,
            segs,
        }),
        Err(PathFault::NoMemory) => Err(NoMemory),
        Err(_) => unreachable!(),
    }
}
