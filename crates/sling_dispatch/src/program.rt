//! The run: what the words say is done, from the source, the inputs, the disk and the world to the sink.
ghost use Rattle.std.specs.Prelude.{◌≡◌, ◌+◌};
ghost use Rattle.replay_text.specs.Scenario.{longest_scenario};
ghost use Rattle.docroot_changes.specs.DocrootCalls.{MakesDocrootCalls};
ghost use Rattle.sling_dispatch.specs.Streams.{HasTaken};
ghost use Rattle.sling_dispatch.specs.Endings.{Means, IsReplay};
ghost use Rattle.sling_dispatch.specs.Forms.{IsServe};
ghost use Rattle.sling_dispatch.specs.RunEndings.{EndsAsIsDue, MeansWhatIsDue};
ghost use Rattle.sling_dispatch.specs.InnerServing.{IsScenarioOr, IsSummaryOr, ReplaysSource};
ghost use Rattle.sling_dispatch.specs.Reports.{IsUntouched, report_over, IsApartUnlessServe, texts_in};

use crate::ending::Ending;
use crate::form::{Form, form_of};
use crate::outside::Outside;
use crate::replaying::replay;
use crate::serving::serve_named;
use crate::soak::summary_of;
use crate::streams::{ReadFault, read_whole};
use crate::telling::{say, say_line};
use docroot_changes::docroot_calls_add_up;
use outside_world::{Inputs, World};
use replay_text::LONGEST_SCENARIO;
use soak_scenarios::generated;
use sp_outside::{Disk, Sink, Source};
use std::alloc::Global;
use std::hash::RandomState;

/// Does what the words say, and gives the exit status.
/// The seeds key the tables of paths, which authors of content pick.
pub fn run<S: Source, K: Sink, I: Inputs, D: Disk, W: World>(
    alloc: Global,
    seeds: RandomState,
    words: &[&[u8]],
    outside: &mut Outside<S, K, I, D, W>,
) -> u8
    ensures taken { HasTaken (longest_scenario + 1) (S.left outside.old.source) (S.left outside.new.source) }
    ensures ending { EndsAsIsDue (texts_in words.now) S.left S.faults K.held K.faults I.contents I.faults D.files D.faults
        W.log W.next_faults W.send_faults outside.old outside.new result }
    ensures apart { IsApartUnlessServe words.now S.left S.faults I.contents I.faults D.files D.faults W.log W.next_faults W.send_faults outside.old outside.new }
    ensures calls { MakesDocrootCalls (D.calls outside.old.disk) (D.calls outside.new.disk) }
    ensures uncalled { (IsServe (texts_in words.now) → ⊥) → D.calls outside.new.disk ≡ D.calls outside.old.disk }
    ensures source { (IsReplay (texts_in words.now) → ⊥) → IsUntouched (report_over S.left S.faults outside.old.source outside.new.source) }
{
    ending(alloc, seeds, words, outside).status()
}

fn ending<S: Source, K: Sink, I: Inputs, D: Disk, W: World>(
    alloc: Global,
    seeds: RandomState,
    words: &[&[u8]],
    outside: &mut Outside<S, K, I, D, W>,
) -> Ending
    ensures taken { HasTaken (longest_scenario + 1) (S.left outside.old.source) (S.left outside.new.source) }
    ensures ending { MeansWhatIsDue (texts_in words.now) S.left S.faults K.held K.faults I.contents I.faults D.files D.faults
        W.log W.next_faults W.send_faults outside.old outside.new result }
    ensures apart { IsApartUnlessServe words.now S.left S.faults I.contents I.faults D.files D.faults W.log W.next_faults W.send_faults outside.old outside.new }
    ensures calls { MakesDocrootCalls (D.calls outside.old.disk) (D.calls outside.new.disk) }
    ensures uncalled { (IsServe (texts_in words.now) → ⊥) → D.calls outside.new.disk ≡ D.calls outside.old.disk }
    ensures source { (IsReplay (texts_in words.now) → ⊥) → IsUntouched (report_over S.left S.faults outside.old.source outside.new.source) }
{
    docroot_calls_add_up();
    let Ok(asked) = form_of(alloc, words) else {
        return Ending::NoMemory;
    };
    let Some(form) = asked else {
        return say(
            &mut outside.sink,
            b"usage: replay | soak N | scenario N | serve CONTENT ANY TURNS fresh|warm\n",
            Ending::Usage,
        );
    };
    match form {
        Form::Replay => { replay_source(alloc, seeds, &mut outside.source, &mut outside.sink) }
        Form::Scenario(number) => write_scenario(alloc, number, &mut outside.sink),
        Form::Soak(number) => soak(alloc, seeds, number, &mut outside.sink),
        Form::Serve(words) => serve_named(alloc, seeds, words, outside),
    }
}

// Runs the scenario that a source holds.
fn replay_source<S: Source, K: Sink>(
    alloc: Global,
    seeds: RandomState,
    source: &mut S,
    sink: &mut K,
) -> Ending
    ensures taken { HasTaken (longest_scenario + 1) (S.left source.old) (S.left source.new) }
    ensures ending { ReplaysSource S.left S.faults K.held K.faults source.old source.new sink.old sink.new result }
{
    match read_whole(alloc, source, LONGEST_SCENARIO) {
        Ok(text) => replay(alloc, seeds, text, sink),
        Err(ReadFault::Failed) => say(sink, b"source failed\n", Ending::SourceFailed),
        Err(ReadFault::NoMemory) => Ending::NoMemory,
    }
}

// Writes the scenario that is made from a number.
fn write_scenario<K: Sink>(alloc: Global, number: u32, sink: &mut K) -> Ending
    ensures { Means (IsScenarioOr number) result (report_over K.held K.faults sink.old sink.new) }
{
    say_line(sink, generated(alloc, number), Ending::Done)
}

// Runs the scenario that is made from a number, and writes the summary of its events.
fn soak<K: Sink>(alloc: Global, seeds: RandomState, number: u32, sink: &mut K) -> Ending
    ensures { Means (IsSummaryOr number) result (report_over K.held K.faults sink.old sink.new) }
{
    say_line(sink, summary_of(alloc, seeds, number), Ending::Done)
}
