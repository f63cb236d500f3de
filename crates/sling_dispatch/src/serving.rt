//! Serves a content before a farm, over the document root and the world.
ghost use Rattle.std.specs.Prelude.{◌≡◌, ◌++◌, ◌∷◌, [], IfOk, codes};
ghost use Rattle.std.specs.Fmt.{decimal};
ghost use Rattle.docroot_changes.specs.DocrootCalls.{MakesDocrootCalls};
ghost use Rattle.sling_dispatch.specs.Endings.{Means};
ghost use Rattle.sling_dispatch.specs.Forms.{AreServeWords};
ghost use Rattle.sling_dispatch.specs.InnerServing.{IsInputOr, IsOfServeEnd, IsOpeningOr, EndsForContent, EndsForSite, EndsForTexts, EndsForWords};
ghost use Rattle.sling_dispatch.specs.Reports.{report_over};

use crate::ending::Ending;
use crate::farms::farm_in;
use crate::faults::unread_line;
use crate::form::ServeWords;
use crate::opening::open_front;
use crate::outside::Outside;
use crate::refusals::{refuse_content, refuse_farm};
use crate::telling::{say, say_line};
use any_config::Farm;
use cache_files::OpenFault;
use content_json::read_tree;
use docroot_changes::docroot_calls_add_up;
use outside_world::{InputFault, Inputs, World};
use publisher::Publisher;
use run_laws::events_leave_nothing_due;
use serve_loop::{ServeEnd, serve};
use sp_base::{ByteBuf, Mem};
use sp_outside::{Disk, Sink};
use std::alloc::Global;
use std::hash::RandomState;
use std::mem::forget;

/// What the inputs hold.
#[derive(Drop)]
struct Texts {
    content: ByteBuf,
    any: ByteBuf,
}

/// Serves what the words name.
pub fn serve_named<S, K: Sink, I: Inputs, D: Disk, W: World>(
    alloc: Global,
    seeds: RandomState,
    words: ServeWords,
    outside: &mut Outside<S, K, I, D, W>,
) -> Ending
    requires { AreServeWords words }
    ensures source { outside.new.source ≡ outside.old.source }
    ensures contents { I.contents outside.new.inputs ≡ I.contents outside.old.inputs }
    ensures calls { MakesDocrootCalls (D.calls outside.old.disk) (D.calls outside.new.disk) }
    ensures ending { EndsForWords words I.contents I.faults K.held K.faults D.files D.faults W.log W.next_faults W.send_faults outside.old outside.new result }
{
    docroot_calls_add_up();
    let content = match outside.inputs.whole(alloc, words.content.text()) {
        Ok(bytes) => bytes,
        Err(fault) => {
            return refuse_input(alloc, fault, words.content.text(), &mut outside.sink);
        }
    };
    let any = match outside.inputs.whole(alloc, words.any.text()) {
        Ok(bytes) => bytes,
        Err(fault) => return refuse_input(alloc, fault, words.any.text(), &mut outside.sink),
    };
    serve_texts(alloc, seeds, words, Texts { content, any }, outside)
}

// Serves what the inputs hold. The bytes of the content are given up before the farm is read.
fn serve_texts<S, K: Sink, I: Inputs, D: Disk, W: World>(
    alloc: Global,
    seeds: RandomState,
    words: ServeWords,
    texts: Texts,
    outside: &mut Outside<S, K, I, D, W>,
) -> Ending
    requires { AreServeWords words }
    ensures source { outside.new.source ≡ outside.old.source }
    ensures inputs { outside.new.inputs ≡ outside.old.inputs }
    ensures calls { MakesDocrootCalls (D.calls outside.old.disk) (D.calls outside.new.disk) }
    ensures ending { EndsForTexts words texts.content texts.any K.held K.faults D.files D.faults W.log W.next_faults W.send_faults outside.old outside.new result }
{
    docroot_calls_add_up();
    let Texts { content, any } = texts;
    let read = read_tree(alloc, seeds, content.bytes());
    drop(content);
    match read {
        Ok(tree) => serve_before(
            alloc,
            Publisher::new(alloc, seeds, tree),
            any,
            &words,
            outside,
        ),
        Err(fault) => refuse_content(alloc, &fault, &mut outside.sink),
    }
}

// Serves a content before the farm that a text gives, which is given up.
fn serve_before<S, K: Sink, I: Inputs, D: Disk, W: World>(
    alloc: Global,
    publisher: Publisher,
    any: ByteBuf,
    words: &ServeWords,
    outside: &mut Outside<S, K, I, D, W>,
) -> Ending
    requires { AreServeWords words.now }
    ensures source { outside.new.source ≡ outside.old.source }
    ensures inputs { outside.new.inputs ≡ outside.old.inputs }
    ensures calls { MakesDocrootCalls (D.calls outside.old.disk) (D.calls outside.new.disk) }
    ensures ending { EndsForContent words.now publisher any K.held K.faults D.files D.faults W.log W.next_faults W.send_faults outside.old outside.new result }
{
    docroot_calls_add_up();
    let read = farm_in(alloc, any.bytes());
    drop(any);
    match read {
        Ok(farm) => serve_site(alloc, publisher, farm, words, outside),
        Err(refusal) => refuse_farm(alloc, &refusal, &mut outside.sink),
    }
}

// Serves a content before a farm.
fn serve_site<S, K: Sink, I: Inputs, D: Disk, W: World>(
    alloc: Global,
    publisher: Publisher,
    farm: Farm,
    words: &ServeWords,
    outside: &mut Outside<S, K, I, D, W>,
) -> Ending
    requires { AreServeWords words.now }
    ensures source { outside.new.source ≡ outside.old.source }
    ensures inputs { outside.new.inputs ≡ outside.old.inputs }
    ensures calls { MakesDocrootCalls (D.calls outside.old.disk) (D.calls outside.new.disk) }
    ensures ending { EndsForSite words.now publisher farm K.held K.faults D.files D.faults W.log W.next_faults W.send_faults outside.old outside.new result }
{
    docroot_calls_add_up();
    events_leave_nothing_due();
    let opened = open_front(alloc, publisher, farm, words.beginning, &mut outside.disk);
    let mut front = match opened {
        Ok(front) => front,
        Err(fault) => return refuse_opening(fault, &mut outside.sink),
    };
    let end = serve(
        alloc,
        &mut front,
        &mut outside.disk,
        &mut outside.world,
        words.turns,
    );
    // As after a replay the system takes the memory back at once.
    forget(front.end());
    say_end(alloc, end, words, &mut outside.sink)
}

// Says why an input wasn't read.
fn refuse_input<K: Sink>(alloc: Global, fault: InputFault, name: &str, sink: &mut K) -> Ending
    ensures { Means (IsInputOr fault name.now) result (report_over K.held K.faults sink.old sink.new) }
{
    match fault {
        InputFault::NoMemory => Ending::NoMemory,
        _ => say_line(sink, unread_line(alloc, fault, name), Ending::InputFailed),
    }
}

// Says why no session begins.
fn refuse_opening<K: Sink>(fault: OpenFault, sink: &mut K) -> Ending
    ensures { Means (IsOpeningOr fault) result (report_over K.held K.faults sink.old sink.new) }
{
    match fault {
        OpenFault::Disk => say(sink, b"docroot failed\n", Ending::DocrootFailed),
        OpenFault::Foreign => say(sink, b"docroot foreign\n", Ending::NotOpened),
        OpenFault::EpochEnd => say(sink, b"epoch at its end\n", Ending::NotOpened),
        OpenFault::NoMemory => Ending::NoMemory,
    }
}

// Says how serving ended.
fn say_end<K: Sink>(alloc: Global, end: ServeEnd, words: &ServeWords, sink: &mut K) -> Ending
    ensures { Means (IsOfServeEnd end words.now) result (report_over K.held K.faults sink.old sink.new) }
{
    match end {
        ServeEnd::Turns => say_line(sink, served_line(alloc, words.turns), Ending::Done),
        ServeEnd::WorldFailed => say(sink, b"world failed\n", Ending::WorldFailed),
        ServeEnd::NoMemory => Ending::NoMemory,
    }
}

// The line that says how many turns were made.
fn served_line(alloc: Global, turns: u64) -> Mem<Vec<u8>>
    ensures { IfOk result (λ text. text.items ≡ codes "served " ++ decimal turns ++ 10 ∷ []) }
{
    let mut text = Vec::new(alloc);
    text.extend_from_slice(b"served ")?;
    let count = turns.to_string(alloc)?;
    text.extend_from_slice(count.as_bytes())?;
    text.extend_from_slice(b"\n")?;
    Ok(text)
}
