//! What the lines of events ask for.
ghost use Rattle.std.specs.Prelude.{◌≡◌, ◌≢◌, ◌↔◌, ◌++◌, ◌∷◌, [], ℕ, List, IfOk, IfSome, IfNone, IsTrue};
ghost use Rattle.sp_base.specs.Bytes.{AreBytes};
ghost use Rattle.replay_text.specs.EventLines.{is_visible_text, line_of, IsEventLine};
ghost use Rattle.replay_text.specs.Quoting.{connection_text, IsNoDirect, IsNoTargetOf, IsNoClose, IsNoBytes, IsNoPost, IsOfNoConnection, IsOfNoFlight};
ghost use Rattle.replay_text.specs.Transcript.{quotation, IsConnectionNumber};

use crate::cache_lines::{cache_line, flush_line};
use crate::event_line::EventLine;
use crate::event_reader::{after_word, connection, connection_after, first_word, flight_after};
use crate::quoted::unquoted;
use crate::targets::as_visible_text;
use connections::ConnectionId;
use sp_base::{ByteBuf, Mem, TextBuf};
use std::alloc::Global;

fn direct_line(alloc: Global, line: &[u8]) -> Mem<Option<EventLine>>
    ensures some { IfOk result (λ o. IfSome o (λ e. IsEventLine e × (line.now ≡ line_of e))) }
    ensures none { IfOk result (λ o. IfNone o (IsNoDirect line.now)) }
{
    let Some(rest) = after_word(line, b"direct ") else {
        return Ok(None);
    };
    let Some(target) = as_visible_text(alloc, rest)? else {
        return Ok(None);
    };
    Ok(Some(EventLine::Direct(target)))
}

// A connection and a target after a word.
fn target_after(alloc: Global, line: &[u8], word: &[u8]) -> Mem<Option<(ConnectionId, TextBuf)>>
    ensures some { IfOk result (λ o. IfSome o (λ p. IsConnectionNumber p.0 × IsTrue (is_visible_text p.1) × (line.now ≡ connection_text word.now p.0 p.1))) }
    ensures none { IfOk result (λ o. IfNone o (IsNoTargetOf word.now line.now)) }
{
    let Some((c, rest)) = connection_after(alloc, line, word)? else {
        return Ok(None);
    };
    let Some(target) = as_visible_text(alloc, rest)? else {
        return Ok(None);
    };
    Ok(Some((ConnectionId::new(c), target)))
}

fn close_line(alloc: Global, line: &[u8]) -> Mem<Option<EventLine>>
    ensures some { IfOk result (λ o. IfSome o (λ e. IsEventLine e × (line.now ≡ line_of e))) }
    ensures none { IfOk result (λ o. IfNone o (IsNoClose line.now)) }
{
    let Some(rest) = after_word(line, b"close ") else {
        return Ok(None);
    };
    let Some(c) = connection(alloc, rest)? else {
        return Ok(None);
    };
    Ok(Some(EventLine::Close(c)))
}

fn is_empty(bytes: &ByteBuf) -> bool
    ensures { IsTrue result ↔ (bytes.now ≡ []) }
{
    bytes.bytes().is_empty()
}

fn bytes_line(alloc: Global, line: &[u8]) -> Mem<Option<EventLine>>
    ensures some { IfOk result (λ o. IfSome o (λ e. IsEventLine e × (line.now ≡ line_of e))) }
    ensures none { IfOk result (λ o. IfNone o (IsNoBytes line.now)) }
{
    let Some((c, rest)) = connection_after(alloc, line, b"bytes ")? else {
        return Ok(None);
    };
    let Some(bytes) = unquoted(alloc, rest)? else {
        return Ok(None);
    };
    if is_empty(&bytes) {
        return Ok(None);
    }
    Ok(Some(EventLine::Bytes(ConnectionId::new(c), bytes)))
}

// A target, and the body that is quoted after it.
fn target_and_body(alloc: Global, text: &[u8]) -> Mem<Option<(TextBuf, ByteBuf)>>
    ensures some { IfOk result (λ o. IfSome o (λ p. IsTrue (is_visible_text p.0) × AreBytes p.1 × (text.now ≡ p.0 ++ 32 ∷ quotation p.1))) }
    ensures none { IfOk result (λ o. IfNone o ((t b : List ℕ) → IsTrue (is_visible_text t) → AreBytes b → text.now ≢ t ++ 32 ∷ quotation b)) }
{
    let Some((word, rest)) = first_word(text) else {
        return Ok(None);
    };
    let Some(target) = as_visible_text(alloc, word)? else {
        return Ok(None);
    };
    let Some(body) = unquoted(alloc, rest)? else {
        return Ok(None);
    };
    Ok(Some((target, body)))
}

fn post_line(alloc: Global, line: &[u8]) -> Mem<Option<EventLine>>
    ensures some { IfOk result (λ o. IfSome o (λ e. IsEventLine e × (line.now ≡ line_of e))) }
    ensures none { IfOk result (λ o. IfNone o (IsNoPost line.now)) }
{
    let Some((c, rest)) = connection_after(alloc, line, b"post ")? else {
        return Ok(None);
    };
    let Some((target, body)) = target_and_body(alloc, rest)? else {
        return Ok(None);
    };
    Ok(Some(EventLine::Post(ConnectionId::new(c), target, body)))
}

// What a line about a connection asks for.
fn connection_line(alloc: Global, line: &[u8]) -> Mem<Option<EventLine>>
    ensures some { IfOk result (λ o. IfSome o (λ e. IsEventLine e × (line.now ≡ line_of e))) }
    ensures none { IfOk result (λ o. IfNone o (IsOfNoConnection line.now)) }
{
    if let Some((c, peer)) = target_after(alloc, line, b"open ")? {
        return Ok(Some(EventLine::Open(c, peer)));
    }
    if let Some((c, target)) = target_after(alloc, line, b"get ")? {
        return Ok(Some(EventLine::Get(c, target)));
    }
    if let Some(event) = close_line(alloc, line)? {
        return Ok(Some(event));
    }
    if let Some(event) = bytes_line(alloc, line)? {
        return Ok(Some(event));
    }
    if let Some(event) = flush_line(alloc, line)? {
        return Ok(Some(event));
    }
    post_line(alloc, line)
}

// What a line about a flight asks for.
fn flight_line(alloc: Global, line: &[u8]) -> Mem<Option<EventLine>>
    ensures some { IfOk result (λ o. IfSome o (λ e. IsEventLine e × (line.now ≡ line_of e))) }
    ensures none { IfOk result (λ o. IfNone o (IsOfNoFlight line.now)) }
{
    if let Some(flight) = flight_after(alloc, line, b"render ")? {
        return Ok(Some(EventLine::Render(flight)));
    }
    if let Some(flight) = flight_after(alloc, line, b"deliver ")? {
        return Ok(Some(EventLine::Deliver(flight)));
    }
    if let Some(flight) = flight_after(alloc, line, b"lose ")? {
        return Ok(Some(EventLine::Lose(flight)));
    }
    Ok(None)
}

/// What the line of an event asks for: exactly the lines of `docs/formats/FORMATS.md` are read. The line is without its newline.
pub fn read_event_line(alloc: Global, line: &[u8]) -> Mem<Option<EventLine>>
    ensures some { IfOk result (λ o. IfSome o (λ e. IsEventLine e × (line.now ≡ line_of e))) }
    ensures none { IfOk result (λ o. IfNone o ((e : EventLine) → IsEventLine e → line.now ≢ line_of e)) }
{
    if let Some(event) = direct_line(alloc, line)? {
        return Ok(Some(event));
    }
    if let Some(event) = flight_line(alloc, line)? {
        return Ok(Some(event));
    }
    if let Some(event) = cache_line(alloc, line)? {
        return Ok(Some(event));
    }
    connection_line(alloc, line)
}
