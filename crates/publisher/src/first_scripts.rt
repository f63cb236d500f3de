// The scripts that rank first: each is searched for once, and remembered until a POST may change it.
ghost use Rattle.std.specs.Prelude.{◌≡◌, ◌≤◌, ◌<◌, ◌⊎◌, [], ℕ, Some, true, IfOk, IfSome, length, option_copied};
ghost use Rattle.type_chain.specs.Chain.{chain_of, own_super};
ghost use Rattle.script_rank.specs.Search.{search_result as first_script};
ghost use Rattle.publisher.specs.declared.first_scripts.FirstScript.{FirstScript};
ghost use Rattle.publisher.specs.FirstScripts.{AreAmongFirsts, AreFirst, IsKeptFor, first_at, most_firsts};
ghost use Rattle.publisher.specs.Kept.{AreIndexesFor};

use crate::kept_index::{Indexes, script_by_index};
use resource_tree::Tree;
use sp_base::{Mem, Path, PropList, TextBuf, TextList};
use std::alloc::Global;
use std::collections::HashMap;
use std::hash::RandomState;
use std::marker::Model;
use type_chain::type_text;
use url_split::Parts;

/// The most scripts that are remembered at a time.
const MOST_FIRSTS: usize = 4_096;

/// The most bytes of the texts of one: clients choose the selectors and the extension.
const MOST_TEXT: usize = 512;

/// The bytes of a text's entry in a list.
const TEXT_ENTRY: usize = 24;

// The sum of Fowler, Noll and Vo in 64 bits: where it begins, its factor, and what ends a text, which is no byte.
const FIRST_SUM: u64 = 14_695_981_039_346_656_037;

const FACTOR: u64 = 1_099_511_628_211;

const END: u64 = 256;

/// The script that ranks first, or that there is none, with all that the search asks beside the tree.
#[derive(Drop)]
pub(crate) struct FirstScript {
    type_text: TextBuf,
    /// The text of the super type that the resource itself names.
    super_text: Option<TextBuf>,
    selectors: TextList,
    extension: TextBuf,
    script: Option<Path>,
}

impl FirstScript {
    fn of(alloc: Global, props: &PropList, parts: &Parts, script: &Option<Path>) -> Mem<FirstScript>
        ensures of { IfOk result (λ first. IsKeptFor first props.now parts.now) }
        ensures script { IfOk result (λ first. first.script ≡ script.now) }
    {
        Ok(FirstScript {
            type_text: TextBuf::of(alloc, type_text(props))?,
            super_text: own_text(alloc, own_super(props))?,
            selectors: parts.selectors.duplicate(alloc)?,
            extension: parts.extension.duplicate(alloc)?,
            script: own_path(alloc, script)?,
        })
    }

    // Whether it is that of a resource with these properties, for a request with these parts.
    fn is_of(&self, props: &PropList, parts: &Parts) -> bool
        ensures { result ≡ true → IsKeptFor self.now props.now parts.now }
    {
        is_text(&self.type_text, type_text(props))
            && is_super(&self.super_text, own_super(props))
            && is_text(&self.extension, parts.extension.text())
            && are_same(self.selectors.as_slice(), parts.selectors.as_slice())
    }
}

// The text of the super type that a resource names.
#[tactic(auto, unfolding(type_chain::specs::Chain::own_super))]
fn own_super(props: &PropList) -> Option<&TextBuf>
    ensures { option_copied result ≡ own_super props.now }
{
    props.text("sling:resourceSuperType")
}

fn own_text(alloc: Global, text: Option<&TextBuf>) -> Mem<Option<TextBuf>>
    ensures { IfOk result (λ own. own ≡ option_copied text.entry) }
{
    match text {
        Some(text) => Ok(Some(text.duplicate(alloc)?)),
        None => Ok(None),
    }
}

fn own_path(alloc: Global, path: &Option<Path>) -> Mem<Option<Path>>
    ensures { IfOk result (λ own. own ≡ path.now) }
{
    match path {
        Some(path) => Ok(Some(path.duplicate(alloc)?)),
        None => Ok(None),
    }
}

fn is_text(own: &TextBuf, text: &str) -> bool
    ensures { result ≡ true → own.now ≡ text.now }
{
    own.text() == text
}

fn is_super(own: &Option<TextBuf>, text: Option<&TextBuf>) -> bool
    ensures { result ≡ true → own.now ≡ option_copied text.entry }
{
    match (own, text) {
        (Some(own), Some(text)) => is_text(own, text.text()),
        (None, None) => true,
        _ => false,
    }
}

fn are_same(own: &[TextBuf], texts: &[TextBuf]) -> bool
    ensures { result ≡ true → own.now ≡ texts.now }
{
    own == texts
}

// The sum of a text and its end after another.
fn sum_with(sum: u64, text: &str) -> u64 {
    let mut sum = sum;
    for byte in text.as_bytes() {
        sum = (sum ^ u64::from(*byte)).wrapping_mul(FACTOR);
    }
    (sum ^ END).wrapping_mul(FACTOR)
}

// The number under which a script is remembered. Another would do too, since what is found under it is compared.
fn number_of(props: &PropList, parts: &Parts) -> u64 {
    let mut sum = sum_with(FIRST_SUM, type_text(props));
    if let Some(text) = own_super(props) {
        sum = sum_with(sum, text.text());
    }
    sum = sum_with(sum, parts.extension.text());
    for selector in parts.selectors.as_slice() {
        sum = sum_with(sum, selector.text());
    }
    sum
}

// How many bytes the texts take.
fn text_len(props: &PropList, parts: &Parts, script: &Option<Path>) -> usize {
    let mut len = type_text(props)
        .len()
        .saturating_add(parts.extension.text().len());
    if let Some(text) = own_super(props) {
        len = len.saturating_add(text.text().len());
    }
    if let Some(path) = script {
        len = len.saturating_add(path.as_text().len());
    }
    for selector in parts.selectors.as_slice() {
        len = len
            .saturating_add(selector.text().len())
            .saturating_add(TEXT_ENTRY);
    }
    len
}

/// Scripts that are remembered, by their numbers.
#[derive(Drop)]
pub(crate) struct FirstScripts {
    firsts: HashMap<u64, FirstScript, RandomState>,
}

impl Model for FirstScripts {
    ghost use Rattle.std.specs.Prelude.{◌≤◌, length};
    ghost use Rattle.publisher.specs.FirstScripts.{KeptFirsts, most_firsts};

    ghost Value = { KeptFirsts };

    ghost view = { λ f. f.firsts.entries };

    ghost invariant = { λ f. length f.firsts.entries ≤ most_firsts };
}

impl FirstScripts {
    pub(crate) fn new(alloc: Global, seeds: RandomState) -> FirstScripts
        ensures { result ≡ [] }
    {
        FirstScripts {
            firsts: HashMap::with_hasher(alloc, seeds),
        }
    }

    fn get(&self, number: u64) -> Option<&FirstScript>
        ensures { option_copied result ≡ first_at self.now number }
    {
        self.firsts.get(&number)
    }

    // The one of a resource with these properties, for a request with these parts, if it is remembered.
    fn known(&self, number: u64, props: &PropList, parts: &Parts) -> Option<&FirstScript>
        ensures there { IfSome result (λ first. first_at self.now number ≡ Some first.now) }
        ensures of { IfSome result (λ first. IsKeptFor first.now props.now parts.now) }
    {
        match self.get(number) {
            Some(first) if first.is_of(props, parts) => Some(first),
            _ => None,
        }
    }

    // Forgets all where there is no room for one more.
    fn make_room(&mut self)
        ensures fewer { AreAmongFirsts self.old self.new }
        ensures room { length self.new < most_firsts }
    {
        if self.firsts.len() < MOST_FIRSTS {
            return;
        }
        self.forget_all();
    }

    // Remembers one more, if there is memory for it.
    fn put(&mut self, number: u64, first: FirstScript)
        requires { length self.old < most_firsts }
        ensures { (n : ℕ) (other : FirstScript) → first_at self.new n ≡ Some other → (first_at self.old n ≡ Some other) ⊎ (other ≡ first) }
    {
        let _ = self.firsts.insert(number, first);
    }

    pub(crate) fn forget_all(&mut self)
        ensures { self.new ≡ [] }
    {
        self.firsts.clear();
    }
}

// Remembers the script that was searched for, if its texts are short and there is memory for it.
fn remember(
    firsts: &mut FirstScripts,
    alloc: Global,
    tree: &Tree,
    props: &PropList,
    parts: &Parts,
    script: &Option<Path>,
)
    requires firsts { AreFirst tree.now firsts.old }
    requires script { script.now ≡ first_script tree.now (chain_of tree.now props.now) parts.now }
    ensures { AreFirst tree.now firsts.new }
{
    if text_len(props, parts, script) > MOST_TEXT {
        return;
    }
    let Ok(first) = FirstScript::of(alloc, props, parts, script) else {
        return;
    };
    firsts.make_room();
    firsts.put(number_of(props, parts), first);
}

/// The script that renders a resource with these properties.
pub(crate) fn first_script(
    alloc: Global,
    tree: &Tree,
    indexes: &Option<Indexes>,
    firsts: &mut FirstScripts,
    props: &PropList,
    parts: &Parts,
) -> Mem<Option<Path>>
    requires indexes { AreIndexesFor tree.now indexes.now }
    requires firsts { AreFirst tree.now firsts.old }
    ensures script { IfOk result (λ o. o ≡ first_script tree.now (chain_of tree.now props.now) parts.now) }
    ensures firsts { AreFirst tree.now firsts.new }
{
    if let Some(first) = firsts.known(number_of(props, parts), props, parts) {
        return own_path(alloc, &first.script);
    }
    let script = script_by_index(alloc, tree, indexes, props, parts)?;
    remember(firsts, alloc, tree, props, parts, &script);
    Ok(script)
}
