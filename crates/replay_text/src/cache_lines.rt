//! What the lines about flushes, the cache and its disk ask for.
ghost use Rattle.std.specs.Prelude.{◌≡◌, ◌≢◌, ◌++◌, ℕ, Bool, List, IfOk, IfSome, IfNone, IsTrue, codes};
ghost use Rattle.std.specs.List.{list_all};
ghost use Rattle.cover_rules.specs.declared.invalidation.Action as models;
ghost use Rattle.sp_outside.specs.declared.mem_disk.Way as ways;
ghost use Rattle.replay_text.specs.EventLines.{is_visible_text, line_of, scope_text, flushed_text, way_text, IsCallNumber, IsEventLine};
ghost use Rattle.replay_text.specs.Quoting.{connection_text, not_blank, IsNoFlushed, IsNoFlush, IsNoFailureOf, IsOfNoCache};
ghost use Rattle.replay_text.specs.Transcript.{action_text};

use crate::event_line::EventLine;
use crate::event_reader::{after_word, connection_after, first_word, number_from_one};
use crate::lines::same;
use crate::targets::as_visible_text;
use connections::ConnectionId;
use cover_rules::Action;
use sp_base::{Mem, TextBuf};
use sp_outside::Way;
use std::alloc::Global;

fn action_of(word: &[u8]) -> Option<Action>
    ensures some { IfSome result (λ action. word.now ≡ action_text action) }
    ensures none { IfNone result ((action : models.Action) → word.now ≢ action_text action) }
{
    if same(word, b"Activate") {
        Some(Action::Activate)
    } else if same(word, b"Deactivate") {
        Some(Action::Deactivate)
    } else if same(word, b"Delete") {
        Some(Action::Delete)
    } else {
        None
    }
}

// The word before a blank and a last word `only`.
fn before_only(text: &[u8]) -> Option<&[u8]>
    ensures some { IfSome result (λ word. (text.now ≡ word.now ++ codes " only") × IsTrue (list_all not_blank word.now)) }
    ensures none { IfNone result ((word : List ℕ) → IsTrue (list_all not_blank word) → text.now ≢ word ++ codes " only") }
{
    let Some((word, rest)) = first_word(text) else {
        return None;
    };
    if same(rest, b"only") {
        Some(word)
    } else {
        None
    }
}

// A handle, and whether the word `only` stands after it.
fn handle_and_scope(alloc: Global, text: &[u8]) -> Mem<Option<(TextBuf, bool)>>
    ensures some { IfOk result (λ o. IfSome o (λ p. IsTrue (is_visible_text p.0) × (text.now ≡ p.0 ++ scope_text p.1))) }
    ensures none { IfOk result (λ o. IfNone o ((handle : List ℕ) (only : Bool) → IsTrue (is_visible_text handle) → text.now ≢ handle ++ scope_text only)) }
{
    if let Some(word) = before_only(text) {
        let Some(handle) = as_visible_text(alloc, word)? else {
            return Ok(None);
        };
        return Ok(Some((handle, true)));
    }
    let Some(handle) = as_visible_text(alloc, text)? else {
        return Ok(None);
    };
    Ok(Some((handle, false)))
}

// An action, a handle and a scope.
fn flushed(alloc: Global, text: &[u8]) -> Mem<Option<(Action, TextBuf, bool)>>
    ensures some { IfOk result (λ o. IfSome o (λ p. IsTrue (is_visible_text p.1) × (text.now ≡ flushed_text p.0 p.1 p.2))) }
    ensures none { IfOk result (λ o. IfNone o (IsNoFlushed text.now)) }
{
    let Some((word, rest)) = first_word(text) else {
        return Ok(None);
    };
    let Some(action) = action_of(word) else {
        return Ok(None);
    };
    let Some((handle, only)) = handle_and_scope(alloc, rest)? else {
        return Ok(None);
    };
    Ok(Some((action, handle, only)))
}

pub fn flush_line(alloc: Global, line: &[u8]) -> Mem<Option<EventLine>>
    ensures some { IfOk result (λ o. IfSome o (λ e. IsEventLine e × (line.now ≡ line_of e))) }
    ensures none { IfOk result (λ o. IfNone o (IsNoFlush line.now)) }
{
    let Some((c, rest)) = connection_after(alloc, line, b"flush ")? else {
        return Ok(None);
    };
    let Some((action, handle, only)) = flushed(alloc, rest)? else {
        return Ok(None);
    };
    Ok(Some(EventLine::Flush(ConnectionId::new(c), action, handle, only)))
}

fn way_of(word: &[u8]) -> Option<Way>
    ensures some { IfSome result (λ way. word.now ≡ way_text way) }
    ensures none { IfNone result ((way : ways.Way) → word.now ≢ way_text way) }
{
    if same(word, b"old") {
        Some(Way::Old)
    } else if same(word, b"new") {
        Some(Way::New)
    } else {
        None
    }
}

// Which of the disk's calls fails, and what it leaves, after a word that is the line's beginning.
fn failure_after(alloc: Global, line: &[u8], word: &[u8]) -> Mem<Option<(u64, Way)>>
    ensures some { IfOk result (λ o. IfSome o (λ p. IsCallNumber p.0 × (line.now ≡ connection_text word.now p.0 (way_text p.1)))) }
    ensures none { IfOk result (λ o. IfNone o (IsNoFailureOf word.now line.now)) }
{
    let Some(after) = after_word(line, word) else {
        return Ok(None);
    };
    let Some((number, rest)) = first_word(after) else {
        return Ok(None);
    };
    let Some(n) = number_from_one(alloc, number)? else {
        return Ok(None);
    };
    let Some(way) = way_of(rest) else {
        return Ok(None);
    };
    Ok(Some((n, way)))
}

// What a line about the cache or its disk asks for.
pub fn cache_line(alloc: Global, line: &[u8]) -> Mem<Option<EventLine>>
    ensures some { IfOk result (λ o. IfSome o (λ e. IsEventLine e × (line.now ≡ line_of e))) }
    ensures none { IfOk result (λ o. IfNone o (IsOfNoCache line.now)) }
{
    if same(line, b"purge") {
        return Ok(Some(EventLine::Purge));
    }
    if same(line, b"restart") {
        return Ok(Some(EventLine::Restart));
    }
    if let Some((n, way)) = failure_after(alloc, line, b"fail ")? {
        return Ok(Some(EventLine::Fail(n, way)));
    }
    if let Some((n, way)) = failure_after(alloc, line, b"stop ")? {
        return Ok(Some(EventLine::Stop(n, way)));
    }
    Ok(None)
}
