//! Writes the lines of events.
ghost use Rattle.std.specs.Prelude.{◌≡◌, ◌++◌, [], ◌<◌, Some, IfOk, OnOk, codes};
ghost use Rattle.std.specs.Fmt.{decimal};
ghost use Rattle.sp_base.specs.Paths.{mangled_segs, text_of};
ghost use Rattle.replay_text.specs.Transcript.{hex, quotation, quotation_or_dash, mark_text, answer_text, key_text, action_text, scope_word, invalidation_text, note_line, sent_line, note_text, event_text};

use crate::handles::mangled_text;
use crate::quoting::{push_quoted, push_quoted_parts};
use connections::{ConnectionId, FlightId, FlushId};
use cover_rules::{Action, Invalidation, PageKey};
use http_front::SentParts;
use run_events::Note;
use sp_base::{Answer, Mark, Mem, Path};
use std::alloc::Global;

pub fn push(out: &mut Vec<u8>, bytes: &[u8]) -> Mem<()>
    ensures { OnOk result (out.new.items ≡ out.old.items ++ bytes.now) }
{
    out.extend_from_slice(bytes)?;
    Ok(())
}

pub fn push_number(alloc: Global, out: &mut Vec<u8>, n: u64) -> Mem<()>
    ensures { OnOk result (out.new.items ≡ out.old.items ++ decimal n) }
{
    let text = n.to_string(alloc)?;
    push(out, text.as_bytes())
}

pub fn hex_digit(n: u8) -> u8
    requires { n < 16 }
    ensures { result ≡ hex n }
{
    if n < 10 { b'0' + n } else { b'a' - 10 + n }
}

fn push_quoted_or_dash(out: &mut Vec<u8>, bytes: &[u8]) -> Mem<()>
    ensures { OnOk result (out.new.items ≡ out.old.items ++ quotation_or_dash bytes.now) }
{
    match bytes {
        [] => push(out, b"-"),
        _ => push_quoted(out, bytes),
    }
}

fn push_mark(out: &mut Vec<u8>, mark: Mark) -> Mem<()>
    ensures { OnOk result (out.new.items ≡ out.old.items ++ mark_text mark) }
{
    match mark {
        Mark::Plain => push(out, b"-"),
        Mark::NoCache => push(out, b"no-cache"),
        Mark::NoStore => push(out, b"no-store"),
        Mark::MustRevalidate => push(out, b"must-revalidate"),
    }
}

fn push_answer(alloc: Global, out: &mut Vec<u8>, answer: &Answer) -> Mem<()>
    ensures { OnOk result (out.new.items ≡ out.old.items ++ answer_text answer.now) }
{
    push_number(alloc, out, u64::from(answer.status))?;
    push(out, b" ")?;
    push_quoted_or_dash(out, answer.kind.text().as_bytes())?;
    push(out, b" ")?;
    push_quoted_or_dash(out, answer.location.text().as_bytes())?;
    push(out, b" ")?;
    push_mark(out, answer.mark)?;
    push(out, b" ")?;
    push_quoted(out, answer.body.bytes())
}

fn push_page(alloc: Global, out: &mut Vec<u8>, key: &PageKey) -> Mem<()>
    ensures { OnOk result (out.new.items ≡ out.old.items ++ key_text (Some key.now)) }
{
    let path = key.text(alloc)?;
    push_quoted(out, path.text().as_bytes())
}

fn push_key(alloc: Global, out: &mut Vec<u8>, key: &Option<PageKey>) -> Mem<()>
    ensures { OnOk result (out.new.items ≡ out.old.items ++ key_text key.now) }
{
    match key {
        Some(key) => push_page(alloc, out, key),
        None => push(out, b"-"),
    }
}

// A word and a number.
fn push_numbered(alloc: Global, out: &mut Vec<u8>, word: &[u8], n: u64) -> Mem<()>
    ensures { OnOk result (out.new.items ≡ out.old.items ++ (word.now ++ decimal n)) }
{
    push(out, word)?;
    push_number(alloc, out, n)
}

// A word and the number of a connection.
fn push_connection(
    alloc: Global,
    out: &mut Vec<u8>,
    word: &[u8],
    connection: ConnectionId,
) -> Mem<()>
    ensures { OnOk result (out.new.items ≡ out.old.items ++ (word.now ++ decimal connection)) }
{
    push_numbered(alloc, out, word, u64::from(connection.number()))
}

fn push_ask(
    alloc: Global,
    out: &mut Vec<u8>,
    flight: FlightId,
    connection: ConnectionId,
    key: &Option<PageKey>,
) -> Mem<()>
    ensures { OnOk result (out.new.items ≡ out.old.items ++ (codes "ask " ++ decimal flight ++ codes " " ++ decimal connection ++ codes " " ++ key_text key.now)) }
{
    push_numbered(alloc, out, b"ask ", flight.number())?;
    push_connection(alloc, out, b" ", connection)?;
    push(out, b" ")?;
    push_key(alloc, out, key)
}

fn push_hit(alloc: Global, out: &mut Vec<u8>, connection: ConnectionId, key: &PageKey) -> Mem<()>
    ensures { OnOk result (out.new.items ≡ out.old.items ++ (codes "hit " ++ decimal connection ++ codes " " ++ key_text (Some key.now))) }
{
    push_connection(alloc, out, b"hit ", connection)?;
    push(out, b" ")?;
    push_page(alloc, out, key)
}

fn push_kept(alloc: Global, out: &mut Vec<u8>, flight: FlightId, key: &PageKey) -> Mem<()>
    ensures { OnOk result (out.new.items ≡ out.old.items ++ (codes "kept " ++ decimal flight ++ codes " " ++ key_text (Some key.now))) }
{
    push_numbered(alloc, out, b"kept ", flight.number())?;
    push(out, b" ")?;
    push_page(alloc, out, key)
}

fn push_action(out: &mut Vec<u8>, action: Action) -> Mem<()>
    ensures { OnOk result (out.new.items ≡ out.old.items ++ action_text action) }
{
    match action {
        Action::Activate => push(out, b"Activate"),
        Action::Deactivate => push(out, b"Deactivate"),
        Action::Delete => push(out, b"Delete"),
    }
}

fn push_scope(out: &mut Vec<u8>, only: bool) -> Mem<()>
    ensures { OnOk result (out.new.items ≡ out.old.items ++ scope_word only) }
{
    if only {
        push(out, b"only")
    } else {
        push(out, b"all")
    }
}

fn push_handle(alloc: Global, out: &mut Vec<u8>, handle: &Path) -> Mem<()>
    ensures { OnOk result (out.new.items ≡ out.old.items ++ quotation (text_of (mangled_segs handle.now))) }
{
    let text = mangled_text(alloc, handle)?;
    push_quoted(out, &text)
}

fn push_invalidation(alloc: Global, out: &mut Vec<u8>, inv: &Invalidation) -> Mem<()>
    ensures { OnOk result (out.new.items ≡ out.old.items ++ invalidation_text inv.now) }
{
    push_action(out, inv.action)?;
    push(out, b" ")?;
    push_handle(alloc, out, &inv.handle)?;
    push(out, b" ")?;
    push_scope(out, inv.only)
}

fn push_flush(alloc: Global, out: &mut Vec<u8>, flush: FlushId, inv: &Invalidation) -> Mem<()>
    ensures { OnOk result (out.new.items ≡ out.old.items ++ (codes "flush " ++ decimal flush ++ codes " " ++ invalidation_text inv.now)) }
{
    push_numbered(alloc, out, b"flush ", flush.number())?;
    push(out, b" ")?;
    push_invalidation(alloc, out, inv)
}

fn push_local(alloc: Global, out: &mut Vec<u8>, connection: ConnectionId, status: u16) -> Mem<()>
    ensures { OnOk result (out.new.items ≡ out.old.items ++ (codes "local " ++ decimal connection ++ codes " " ++ decimal status)) }
{
    push_connection(alloc, out, b"local ", connection)?;
    push_numbered(alloc, out, b" ", u64::from(status))
}

fn push_rendered(alloc: Global, out: &mut Vec<u8>, flight: FlightId, answer: &Answer) -> Mem<()>
    ensures { OnOk result (out.new.items ≡ out.old.items ++ (codes "rendered " ++ decimal flight ++ codes " " ++ answer_text answer.now)) }
{
    push_numbered(alloc, out, b"rendered ", flight.number())?;
    push(out, b" ")?;
    push_answer(alloc, out, answer)
}

fn push_sent(
    alloc: Global,
    out: &mut Vec<u8>,
    connection: ConnectionId,
    bytes: SentParts<'_>,
) -> Mem<()>
    ensures { OnOk result (out.new.items ≡ out.old.items ++ sent_line connection (bytes.entry.head.now ++ bytes.entry.body.now)) }
{
    push_connection(alloc, out, b"sent ", connection)?;
    push(out, b" ")?;
    push_quoted_parts(out, bytes)
}

// The line of a note, without its newline. A slice that left more to do has none.
fn push_note_line(alloc: Global, out: &mut Vec<u8>, note: &Note) -> Mem<()>
    ensures { OnOk result (out.new.items ≡ out.old.items ++ note_line note.now) }
{
    match note {
        Note::Answer(answer) => {
            push(out, b"answer ")?;
            push_answer(alloc, out, answer)
        }
        Note::Ask(flight, connection, key) => push_ask(alloc, out, *flight, *connection, key),
        Note::Hit(connection, key) => push_hit(alloc, out, *connection, key),
        Note::Local(connection, status) => push_local(alloc, out, *connection, *status),
        Note::Flush(flush, _, inv) => push_flush(alloc, out, *flush, inv),
        Note::Sliced(_) => Ok(()),
        Note::Done(flush) => push_numbered(alloc, out, b"done ", flush.number()),
        Note::Failed(flush, _) => push_numbered(alloc, out, b"failed ", flush.number()),
        Note::Rendered(flight, answer) => push_rendered(alloc, out, *flight, answer),
        Note::Kept(flight, key) => push_kept(alloc, out, *flight, key),
        Note::Unkept(flight) => push_numbered(alloc, out, b"unkept ", flight.number()),
        Note::Passed(flight) => push_numbered(alloc, out, b"passed ", flight.number()),
        Note::Lost(flight) => push_numbered(alloc, out, b"lost ", flight.number()),
        Note::Sent(connection, bytes) => push_sent(alloc, out, *connection, bytes.parts()),
        Note::Shut(connection) => push_connection(alloc, out, b"shut ", *connection),
        Note::Refused(connection) => push_connection(alloc, out, b"refused ", *connection),
        Note::Idle => push(out, b"none"),
        Note::Up(epoch) => push_numbered(alloc, out, b"up ", *epoch),
        Note::Down => push(out, b"down"),
        Note::Hurt => push(out, b"hurt"),
        Note::OutOfMemory => push(out, b"dry"),
    }
}

fn push_note(alloc: Global, out: &mut Vec<u8>, note: &Note) -> Mem<()>
    ensures { OnOk result (out.new.items ≡ out.old.items ++ note_text note.now) }
{
    if let Note::Sliced(_) = note {
        return Ok(());
    }
    push_note_line(alloc, out, note)?;
    push(out, b"\n")
}

/// The lines of an event.
pub fn write_notes(alloc: Global, event: u64, notes: &[Note]) -> Mem<Vec<u8>>
    ensures { IfOk result (λ text. text.items ≡ event_text event notes.now) }
{
    let mut out = Vec::new(alloc);
    push(&mut out, b"@ ")?;
    push_number(alloc, &mut out, event)?;
    push(&mut out, b"\n")?;
    for note in notes {
        push_note(alloc, &mut out, note)?;
    }
    Ok(out)
}
