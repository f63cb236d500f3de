//! The turns in which a text is mapped.
ghost use Rattle.std.specs.Prelude.{◌≡◌, ◌==◌, ◌++◌, true, IfOk, length, option_copied, slice_index};
ghost use Rattle.regex_rules.specs.Fronts.{may_cut};
ghost use Rattle.url_maps.specs.Answers.{map_answer};
ghost use Rattle.url_maps.specs.Claims.{IsIndexOf};
ghost use Rattle.url_maps.specs.Found.{IsLongestPair, IsTextOf, pair_if_at};
ghost use Rattle.url_maps.specs.Patterns.{node_of_host};
ghost use Rattle.url_maps.specs.Search.{HasNoMappingBeyond, IsBest, IsBeyond, IsLastSeparator, IsOf, IsShorter, IsTurn, is_separator};
ghost use Rattle.url_maps.specs.Turns.{IsMapped, target_ending};

use crate::asked::HostText;
use crate::fronts::{PatternFront, pair_if_at};
use crate::mappings::mapping_within;
use crate::pairs::{Pair, PairKind};
use crate::reach::reach_of;
use crate::{MapAnswer, MapIndex, the_answer_is_mapped};
use resource_tree::Tree;
use sp_base::{Mem, TextBuf};
use std::alloc::Global;

/// The most turns of a text.
const MOST_TURNS: usize = 16;

// What a turn in which a pair decides makes of a text.
#[derive(Drop)]
pub(crate) struct MappingStep {
    pub text: TextBuf,
    /// The status of a redirect, where the pair leads away.
    pub away: Option<u16>,
}

/// A text, cut where a prefix ends.
#[derive(Clone, Copy)]
struct Cut<'a> {
    prefix: &'a str,
    rest: &'a str,
}

/// What a turn knows of its mappings before it looks at a prefix.
#[derive(Drop)]
pub(crate) struct Known {
    /// The most bytes of the prefix of a mapping of the host node.
    reach: usize,
    /// Of the pairs that patterns give the one with the longest prefix.
    pattern: Option<PatternFront>,
}

/// Maps the text of a request's path, for the host and the port that are asked. Without an index each call walks over the tree.
pub fn map_in(alloc: Global, tree: &Tree, host: &str, port: u16, text: &str) -> Mem<MapAnswer>
    ensures relation { IfOk result (IsMapped tree.now host.now port text.now) }
    ensures value { IfOk result (λ a. a ≡ map_answer tree.now host.now port text.now) }
{
    MapIndex::of(alloc, tree)?.map_in(alloc, tree, host, port, text)
}

impl MapIndex {
    /// Maps the text of a request's path with the index of the tree.
    pub fn map_in(
        &self,
        alloc: Global,
        tree: &Tree,
        host: &str,
        port: u16,
        text: &str,
    ) -> Mem<MapAnswer>
        requires { IsIndexOf tree.now self.now }
        ensures relation { IfOk result (IsMapped tree.now host.now port text.now) }
        ensures value { IfOk result (λ a. a ≡ map_answer tree.now host.now port text.now) }
    {
        the_answer_is_mapped();
        let _ = tree.len();
        self.turns(alloc, tree, host, port, text)
    }

    fn turns(&self, alloc: Global, tree: &Tree, host: &str, port: u16, text: &str) -> Mem<MapAnswer>
        requires { IsIndexOf tree.now self.now }
        ensures { IfOk result (IsMapped tree.now host.now port text.now) }
    {
        let _ = tree.len();
        let first = HostText::of(alloc, host, port, text)?;
        let mut asked = Some(first);
        let mut text = TextBuf::of(alloc, text)?;
        for _ in 0..MOST_TURNS {
            let Some(step) = self.step(alloc, tree, &asked, text.text())? else {
                return Ok(MapAnswer::Inside(text));
            };
            if let Some(status) = step.away {
                return Ok(MapAnswer::Away(status, step.text));
            }
            text = step.text;
            asked = None;
        }
        Ok(MapAnswer::Inside(text))
    }

    // A turn, if a pair applies: the longest prefix is looked at first.
    fn step(
        &self,
        alloc: Global,
        tree: &Tree,
        asked: &Option<HostText>,
        text: &str,
    ) -> Mem<Option<MappingStep>>
        requires index { IsIndexOf tree.now self.now }
        requires text { IsTextOf asked.now text.now }
        ensures { IfOk result (IsTurn tree.now asked.now text.now) }
    {
        let known = self.known(alloc, tree, asked, text)?;
        self.step_knowing(alloc, tree, asked, &known, text)
    }

    #[tactic(auto, using(crate::proofs::FrontLemmas::found_at))]
    fn step_knowing(
        &self,
        alloc: Global,
        tree: &Tree,
        asked: &Option<HostText>,
        known: &Known,
        text: &str,
    ) -> Mem<Option<MappingStep>>
        requires index { IsIndexOf tree.now self.now }
        requires reach { HasNoMappingBeyond tree.now (node_of_host asked.now) text.now known.now.reach }
        requires pattern { IsLongestPair tree.now asked.now text.now known.now.pattern }
        ensures { IfOk result (IsTurn tree.now asked.now text.now) }
    {
        let mut prefix = text;
        loop {
            let rest = &text[prefix.len()..];
            if let Some(pair) = self.best(alloc, tree, asked, known, &Cut { prefix, rest })? {
                return Ok(Some(MappingStep {
                    text: text_after(alloc, &pair, rest)?,
                    away: pair.away,
                }));
            }
            match shorter(prefix) {
                Some(less) => prefix = less,
                None => return Ok(None),
            }
        }
    }

    // How far the prefix of a mapping may reach, and the pair that patterns give.
    fn known(&self, alloc: Global, tree: &Tree, asked: &Option<HostText>, text: &str) -> Mem<Known>
        requires index { IsIndexOf tree.now self.now }
        requires text { IsTextOf asked.now text.now }
        ensures reach { IfOk result (λ known. HasNoMappingBeyond tree.now (node_of_host asked.now) text.now known.reach) }
        ensures pattern { IfOk result (λ known. IsLongestPair tree.now asked.now text.now known.pattern) }
    {
        Ok(Known {
            reach: reach_of(alloc, tree, asked, text)?,
            pattern: self.longest_pair(alloc, tree, asked, text)?,
        })
    }

    // The pair that decides among those with a prefix.
    fn best(
        &self,
        alloc: Global,
        tree: &Tree,
        asked: &Option<HostText>,
        known: &Known,
        cut: &Cut,
    ) -> Mem<Option<Pair>>
        requires index { IsIndexOf tree.now self.now }
        requires cut { may_cut cut.now.rest.now ≡ true }
        requires reach { IsBeyond tree.now (node_of_host asked.now) cut.now.prefix.now known.now.reach }
        requires pattern { IsOf PairKind.Pattern tree.now asked.now cut.now.prefix.now (pair_if_at (length cut.now.prefix.now) known.now.pattern) }
        ensures { IfOk result (IsBest tree.now asked.now cut.now.prefix.now cut.now.rest.now) }
    {
        if let Some(pair) = mapping_within(alloc, tree, asked, known.reach, cut.prefix)? {
            return Ok(Some(pair));
        }
        if let Some(pair) = pair_if_at(alloc, cut.prefix.len(), &known.pattern)? {
            return Ok(Some(pair));
        }
        if let Some(pair) = self.alias_of(alloc, tree, cut.prefix)? {
            return Ok(Some(pair));
        }
        if begins_with_slash(cut.rest) {
            return Ok(None);
        }
        Ok(self.vanity_path_of(alloc, tree, cut.prefix)?)
    }
}

fn begins_with_slash(text: &str) -> bool
    ensures { result ≡ (slice_index text.now 0 == 47) }
{
    text.starts_with('/')
}

// A text up to its last dot or slash.
fn shorter(text: &str) -> Option<&str>
    ensures { IsShorter text.now (option_copied result) }
{
    match last_separator(text.as_bytes()) {
        Some(at) => Some(&text[..at]),
        None => None,
    }
}

fn last_separator(bytes: &[u8]) -> Option<usize>
    ensures { IsLastSeparator bytes.now result }
{
    let len = bytes.len();
    for passed in 0..len {
        let at = len - 1 - passed;
        if is_separator(bytes[at]) {
            return Some(at);
        }
    }
    None
}

fn is_separator(byte: u8) -> bool
    ensures { result ≡ is_separator byte }
{
    byte == b'.' || byte == b'/'
}

// The text after a turn: the target, and what followed the prefix, after a vanity path's target at least `.html`.
fn text_after(alloc: Global, pair: &Pair, rest: &str) -> Mem<TextBuf>
    ensures { IfOk result (λ t. t ≡ pair.now.target ++ target_ending pair.now.kind rest.now) }
{
    let target = pair.target.text();
    let ending = ending(pair.kind, rest);
    let mut whole = String::with_capacity(alloc, target.len().saturating_add(ending.len()))?;
    whole.push_str(target)?;
    whole.push_str(ending)?;
    Ok(TextBuf::from(whole))
}

fn ending(kind: PairKind, rest: &str) -> &str
    ensures { result.now ≡ target_ending kind rest.entry.now }
{
    match kind {
        PairKind::VanityPath if rest.is_empty() => ".html",
        _ => rest,
    }
}
