//! Scenarios that are written, and notes that the program doesn't make, worked out by hand from `docs/formats/FORMATS.md`.
use connections::{ConnectionId, FlightId, FlushId};
use cover_rules::{Action, Invalidation, PageKey, page_key};
use http_front::SentBytes;
use replay_text::{Scenario, read_scenario, write_notes, write_scenario};
use run_events::{Failure, Note, NoteList};
use sp_base::{ByteBuf, Items, Mem, Path};
use std::alloc::Global;

const WITH_FARM: &str = "scenario 1
content
{}

.
farm
/a { }
.
direct /a.json
end
";

const SCENARIOS: &[&str] = &[
    WITH_FARM,
    "scenario 1\ncontent\n.\nfarm\n.\nend\n",
    "scenario 1\ncontent\n.\nend\n",
];

fn is_written(alloc: Global, scenario: &Scenario, text: &str) -> bool {
    matches!(write_scenario(alloc, scenario), Ok(bytes) if bytes.bytes() == text.as_bytes())
}

// Whether a text is a scenario that is written as it was read.
fn is_written_again(alloc: Global, text: &str) -> bool {
    match read_scenario(alloc, text.as_bytes()) {
        Ok(scenario) => is_written(alloc, &scenario, text),
        Err(_) => false,
    }
}

#[test]
fn scenarios_are_written(rt: HostRuntime) {
    for text in SCENARIOS {
        assert!(rt; is_written_again(rt.alloc(), *text));
    }
}

fn key(alloc: Global, path: &str) -> Mem<Option<PageKey>> {
    match Path::read(alloc, path) {
        Ok(path) => page_key(alloc, &path),
        Err(_) => Ok(None),
    }
}

// A flight for a page of the cache, bytes that are no text, and that memory ran out.
fn push_notes(alloc: Global, notes: &mut NoteList) -> Mem<()> {
    let page = key(alloc, "/content/site/en.html")?;
    notes.push(Note::Ask(FlightId::new(u64::MAX), ConnectionId::new(u32::MAX), page))?;
    let sent = ByteBuf::of(alloc, b"\"\x00\xff\\")?;
    notes.push(Note::Sent(ConnectionId::new(3), SentBytes::whole(alloc, sent)))?;
    push_flush_notes(alloc, notes)?;
    notes.push(Note::OutOfMemory)
}

// A flush of a node of which the name begins with a namespace, a slice that left more to do, and how it ended.
fn push_flush_notes(alloc: Global, notes: &mut NoteList) -> Mem<()> {
    let Ok(handle) = Path::read(alloc, "/content/jcr:content") else {
        return Ok(());
    };
    let flush = FlushId::new(7);
    let inv = Invalidation {
        action: Action::Delete,
        handle,
        only: true,
    };
    notes.push(Note::Flush(flush, ConnectionId::new(3), inv))?;
    notes.push(Note::Sliced(flush))?;
    notes.push(Note::Failed(flush, Failure::NoMemory))
}

const NOTES: &str = r#"@ 12
ask 18446744073709551615 4294967295 "/content/site/en.html"
sent 3 "\"\x00\xff\\"
flush 7 Delete "/content/_jcr_content" only
failed 7
dry
"#;

fn are_written(alloc: Global, notes: &NoteList) -> bool {
    matches!(write_notes(alloc, 12, notes.as_slice()), Ok(text) if text.as_slice() == NOTES.as_bytes())
}

fn notes_are_written(alloc: Global) -> bool {
    let mut notes = Items::new(alloc);
    push_notes(alloc, &mut notes).is_ok() && are_written(alloc, &notes)
}

#[test]
fn lines_of_notes(rt: HostRuntime) {
    assert!(rt; notes_are_written(rt.alloc()));
}
