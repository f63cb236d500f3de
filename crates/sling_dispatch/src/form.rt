//! The words that the program knows.
ghost use Rattle.std.specs.Prelude.{◌≡◌, ◌≢◌, ◌≤◌, ◌∷◌, ◌↔◌, [], ℕ, IfOk, IfSome, IfNone, IsTrue, codes, map};
ghost use Rattle.std.specs.Fmt.{decimal};
ghost use Rattle.sling_dispatch.specs.Forms.{AsksFor, HasForm, beginning_word, greatest_number, greatest_turns};

use replay_text::number;
use sp_base::{Mem, TextBuf};
use std::alloc::Global;
use std::str;

/// What becomes of the pages that the document root holds.
#[derive(Clone, Copy, PartialEq, Eq, Debug, Drop)]
pub enum Beginning {
    /// They are dropped.
    Fresh,
    /// They are served.
    Warm,
}

/// What is served, and for how long.
#[derive(Drop)]
pub struct ServeWords {
    /// The name of the content.
    pub content: TextBuf,
    /// The name of the farm's file.
    pub any: TextBuf,
    pub turns: u64,
    pub beginning: Beginning,
}

/// What words ask for.
#[derive(Drop)]
pub enum Form {
    Replay,
    /// The scenario that is made from this number.
    Scenario(u32),
    /// A run of that scenario.
    Soak(u32),
    Serve(ServeWords),
}

const GREATEST_NUMBER: u64 = 4_294_967_295;

// The most turns: 2^63.
const MOST_TURNS: u64 = 9_223_372_036_854_775_808;

/// What the words ask for, or None where they are of no form.
pub fn form_of(alloc: Global, words: &[&[u8]]) -> Mem<Option<Form>>
    ensures some { IfOk result (λ o. IfSome o (AsksFor (map (λ w. w.now) words.now))) }
    ensures none { IfOk result (λ o. IfNone o (HasForm (map (λ w. w.now) words.now) → ⊥)) }
{
    match words {
        [word] => Ok(short_form(word)),
        [word, spelled] => numbered_form(alloc, word, spelled),
        [word, content, any, turns, beginning] => {
            if !is_same(word, b"serve") {
                return Ok(None);
            }
            serve_form(alloc, content, any, turns, beginning)
        }
        _ => Ok(None),
    }
}

fn is_same(a: &[u8], b: &[u8]) -> bool
    ensures { IsTrue result ↔ (a.now ≡ b.now) }
{
    a == b
}

// What a single word asks for.
fn short_form(word: &[u8]) -> Option<Form>
    ensures some { IfSome result (AsksFor (word.now ∷ [])) }
    ensures none { IfNone result (HasForm (word.now ∷ []) → ⊥) }
{
    if is_same(word, b"replay") {
        Some(Form::Replay)
    } else {
        None
    }
}

// What a word and a number ask for.
fn numbered_form(alloc: Global, word: &[u8], spelled: &[u8]) -> Mem<Option<Form>>
    ensures some { IfOk result (λ o. IfSome o (AsksFor (word.now ∷ spelled.now ∷ []))) }
    ensures none { IfOk result (λ o. IfNone o (HasForm (word.now ∷ spelled.now ∷ []) → ⊥)) }
{
    let Some(number) = scenario_number(alloc, spelled)? else {
        return Ok(None);
    };
    if is_same(word, b"scenario") {
        return Ok(Some(Form::Scenario(number)));
    }
    if is_same(word, b"soak") {
        return Ok(Some(Form::Soak(number)));
    }
    Ok(None)
}

// The number of a scenario that is generated.
fn scenario_number(alloc: Global, spelled: &[u8]) -> Mem<Option<u32>>
    ensures some { IfOk result (λ o. IfSome o (λ n. (n ≤ greatest_number) × (spelled.now ≡ decimal n))) }
    ensures none { IfOk result (λ o. IfNone o ((n : ℕ) → n ≤ greatest_number → spelled.now ≢ decimal n)) }
{
    let Some(number) = number(alloc, spelled)? else {
        return Ok(None);
    };
    if number <= GREATEST_NUMBER {
        Ok(Some(number as u32))
    } else {
        Ok(None)
    }
}

// How many turns are asked for.
fn turn_count(alloc: Global, spelled: &[u8]) -> Mem<Option<u64>>
    ensures some { IfOk result (λ o. IfSome o (λ n. (1 ≤ n) × (n ≤ greatest_turns) × (spelled.now ≡ decimal n))) }
    ensures none { IfOk result (λ o. IfNone o ((n : ℕ) → 1 ≤ n → n ≤ greatest_turns → spelled.now ≢ decimal n)) }
{
    let Some(turns) = number(alloc, spelled)? else {
        return Ok(None);
    };
    if turns > 0 && turns <= MOST_TURNS {
        Ok(Some(turns))
    } else {
        Ok(None)
    }
}

fn beginning_of(word: &[u8]) -> Option<Beginning>
    ensures some { IfSome result (λ b. word.now ≡ beginning_word b) }
    ensures none { IfNone result ((b : Beginning) → word.now ≢ beginning_word b) }
{
    if is_same(word, b"fresh") {
        return Some(Beginning::Fresh);
    }
    if is_same(word, b"warm") {
        return Some(Beginning::Warm);
    }
    None
}

// What the words after `serve` ask for.
fn serve_form(
    alloc: Global,
    content: &[u8],
    any: &[u8],
    turns: &[u8],
    beginning: &[u8],
) -> Mem<Option<Form>>
    ensures some { IfOk result (λ o. IfSome o (AsksFor (codes "serve" ∷ content.now ∷ any.now ∷ turns.now ∷ beginning.now ∷ []))) }
    ensures none { IfOk result (λ o. IfNone o (HasForm (codes "serve" ∷ content.now ∷ any.now ∷ turns.now ∷ beginning.now ∷ []) → ⊥)) }
{
    let Ok(content) = str::from_utf8(content) else {
        return Ok(None);
    };
    let Ok(any) = str::from_utf8(any) else {
        return Ok(None);
    };
    let Some(beginning) = beginning_of(beginning) else {
        return Ok(None);
    };
    let Some(turns) = turn_count(alloc, turns)? else {
        return Ok(None);
    };
    Ok(Some(Form::Serve(ServeWords {
        content: TextBuf::of(alloc, content)?,
        any: TextBuf::of(alloc, any)?,
        turns,
        beginning,
    })))
}
