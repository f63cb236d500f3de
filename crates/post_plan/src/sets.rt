//! The properties that content parameters set.
ghost use Rattle.std.specs.Prelude.{◌≡◌, ◌<◌, ◌++◌, [], IfOk, OnOk, Some, length, option_copied, slice_get, take, true};
ghost use Rattle.std.specs.Cmp.Lexicographic.{pointwise};
ghost use Rattle.std.specs.List.{cons_option};
ghost use Rattle.std.specs.Str.{bytes_eq};
ghost use Rattle.sp_base.specs.Bytes.{first_text};
ghost use Rattle.post_plan.specs.Entries as spec;
ghost use Rattle.post_plan.specs.Entries.{Entry as ContentEntry};
ghost use Rattle.post_plan.specs.NumberedSpots.{first_indices};
ghost use Rattle.post_plan.specs.Parameters.{words_of};

use crate::entries::Entry;
use crate::groups::{copy_of, same_suffix};
use crate::hints::hint_of;
use crate::numbered_spots::{LentEntries, first_indices, is_later, numbered};
use crate::suffix::Suffix;
use crate::words::words_of;
use crate::{LentWords, PropSet, SetList, Spot};
use sp_base::{Hint, Mem, Path, TextBuf};
use std::alloc::Global;

fn same_bool(one: bool, other: bool) -> bool
    ensures { result ≡ spec.same_bool one other }
{
    if one { other } else { !other }
}

#[tactic(auto, using(crate::proofs::SetLemmas::same_path))]
fn same_path(one: &Path, other: &Path) -> bool
    ensures { result ≡ pointwise bytes_eq one.now other.now }
{
    one == other
}

fn same_spot(one: &Spot, other: &Spot) -> bool
    ensures { result ≡ spec.same_spot one.now other.now }
{
    same_bool(one.at_target, other.at_target) && same_path(&one.path, &other.path)
}

fn is_at(spot: &Spot, suffix: Suffix, entry: &Entry) -> bool
    ensures { result ≡ spec.is_of_spot spot.now suffix entry.now }
{
    same_suffix(suffix, entry.suffix) && same_spot(spot, &entry.spot)
}

// The word of the first parameter of a spot with a suffix.
fn first_at<'a>(spot: &Spot, suffix: Suffix, entries: &LentEntries<'_, 'a>) -> Option<&'a str>
    ensures { option_copied result ≡ first_text (spec.words_at spot.now suffix entries.now) }
{
    let mut rest = entries.as_slice();
    while let [entry, more @ ..] = rest {
        if is_at(spot, suffix, entry) {
            return Some(entry.word);
        }
        rest = more;
    }
    None
}

// All words of a spot's parameters with a suffix.
fn words_at<'a>(
    alloc: Global,
    spot: &Spot,
    suffix: Suffix,
    entries: &LentEntries<'_, 'a>,
) -> Mem<LentWords<'a>>
    ensures { IfOk result (λ words. words ≡ spec.words_at spot.now suffix entries.now) }
{
    let mut words = LentWords::new(alloc);
    for entry in entries.as_slice() {
        if is_at(spot, suffix, entry) {
            words.push(entry.word)?;
        }
    }
    Ok(words)
}

fn is_true(word: Option<&str>) -> bool
    ensures { result ≡ spec.is_word_true (option_copied word.entry) }
{
    match word {
        Some(word) => word == "true",
        None => false,
    }
}

fn full_words<'a>(alloc: Global, words: &LentWords<'a>) -> Mem<LentWords<'a>>
    ensures { IfOk result (λ l. l ≡ spec.without_blanks true words.now) }
{
    let mut full = LentWords::new(alloc);
    for word in words.as_slice() {
        if !word.is_empty() {
            full.push(word)?;
        }
    }
    Ok(full)
}

fn without_blanks<'a>(alloc: Global, ignores: bool, words: LentWords<'a>) -> Mem<LentWords<'a>>
    ensures { IfOk result (λ l. l ≡ spec.without_blanks ignores words.entry) }
{
    if ignores {
        full_words(alloc, &words)
    } else {
        Ok(words)
    }
}

fn is_one_blank(words: &LentWords) -> bool
    ensures { result ≡ spec.is_one_blank words.now }
{
    match words.lone() {
        Some(word) => word.is_empty(),
        None => false,
    }
}

fn defaulted<'a>(defaults: LentWords<'a>, words: LentWords<'a>) -> LentWords<'a>
    ensures { result ≡ spec.words_or_defaults defaults.entry words.entry }
{
    if !defaults.is_empty() && is_one_blank(&words) {
        defaults
    } else {
        words
    }
}

// Its own words, or those of the parameter that `@ValueFrom` names.
fn given<'a>(
    alloc: Global,
    pairs: &'a [(TextBuf, TextBuf)],
    spot: &Spot,
    entries: &LentEntries<'_, 'a>,
) -> Mem<LentWords<'a>>
    ensures { IfOk result (λ l. l ≡ spec.given_words pairs.now entries.now spot.now) }
{
    match first_at(spot, Suffix::ValueFrom, entries) {
        Some(name) => words_of(alloc, name, pairs),
        None => words_at(alloc, spot, Suffix::Plain, entries),
    }
}

// The words that a spot is set to.
fn set_words<'a>(
    alloc: Global,
    pairs: &'a [(TextBuf, TextBuf)],
    entries: &LentEntries<'_, 'a>,
    spot: &Spot,
) -> Mem<LentWords<'a>>
    ensures { IfOk result (λ l. l ≡ spec.set_words pairs.now entries.now spot.now) }
{
    let words = given(alloc, pairs, spot, entries)?;
    let ignores = is_true(first_at(spot, Suffix::IgnoreBlanks, entries));
    let words = without_blanks(alloc, ignores, words)?;
    let defaults = words_at(alloc, spot, Suffix::DefaultValue, entries)?;
    Ok(defaulted(defaults, words))
}

fn hint_at(spot: &Spot, entries: &LentEntries) -> Option<Hint>
    ensures { result ≡ spec.hint_at entries.now spot.now }
{
    match first_at(spot, Suffix::TypeHint, entries) {
        Some(word) => hint_of(word),
        None => None,
    }
}

fn set_of<'a>(
    alloc: Global,
    pairs: &'a [(TextBuf, TextBuf)],
    entries: &LentEntries<'_, 'a>,
    spot: &Spot,
) -> Mem<Option<PropSet<'a>>>
    ensures { IfOk result (λ o. o ≡ spec.set_of pairs.now entries.now spot.now) }
{
    let words = set_words(alloc, pairs, entries, spot)?;
    if words.is_empty() {
        return Ok(None);
    }
    Ok(Some(PropSet {
        spot: copy_of(alloc, spot)?,
        hint: hint_at(spot, entries),
        words,
    }))
}

// What the entry at an index sets, where those before it don't name its spot. The other entries of its spot are those of its number.
fn set_here<'a>(
    alloc: Global,
    pairs: &'a [(TextBuf, TextBuf)],
    entries: &[Entry<'a>],
    indices: &[usize],
    n: usize,
) -> Mem<Option<PropSet<'a>>>
    requires indices { indices.now ≡ first_indices entries.now }
    requires within { n < length entries.now }
    ensures { IfOk result (λ o. (e : ContentEntry) → slice_get entries.now n ≡ Some e → o ≡ spec.set_here pairs.now entries.now (take n entries.now) e) }
{
    if is_later(indices, n) {
        return Ok(None);
    }
    let entry = &entries[n];
    let own = numbered(alloc, entries, indices, n)?;
    set_of(alloc, pairs, &own, &entry.spot)
}

fn add<'a>(list: &mut SetList<'a>, set: Option<PropSet<'a>>) -> Mem<()>
    ensures { OnOk result (list.new ≡ list.old ++ cons_option set.entry []) }
{
    match set {
        Some(set) => list.push(set),
        None => Ok(()),
    }
}

/// The properties that are set, each at the index of the first parameter that names it.
#[tactic(auto, using(crate::proofs::SetLemmas::turn, crate::proofs::SetLemmas::done))]
pub fn sets<'a>(
    alloc: Global,
    pairs: &'a [(TextBuf, TextBuf)],
    entries: &[Entry<'a>],
) -> Mem<SetList<'a>>
    ensures { IfOk result (λ l. l ≡ spec.sets pairs.now entries.now) }
{
    let indices = first_indices(alloc, entries)?;
    let mut list = SetList::new(alloc);
    for n in 0..entries.len() {
        let set = set_here(alloc, pairs, entries, &indices, n)?;
        add(&mut list, set)?;
    }
    Ok(list)
}
