//! The whole program over a command line: the words that it is given, and the status that it ends with.
ghost use Rattle.std.specs.Prelude.{◌≡◌, ◌+◌, map, IfOk};
ghost use Rattle.docroot_changes.specs.DocrootCalls.{MakesDocrootCalls};
ghost use Rattle.replay_text.specs.Scenario.{longest_scenario};
ghost use Rattle.sling_dispatch.specs.Streams.{HasTaken};
ghost use Rattle.sling_dispatch.specs.Endings.{AreWordsOf};
ghost use Rattle.sling_dispatch.specs.RunEndings.{CommandEndsAsIsDue};

use crate::ending::Ending;
use crate::outside::Outside;
use crate::program::run;
use docroot_changes::docroot_calls_add_up;
use outside_world::{Inputs, World};
use sp_base::{Items, Mem, NoMemory};
use sp_outside::{CommandWords, Disk, Sink, Source, Words};
use std::alloc::Global;
use std::hash::RandomState;

/// Reads the words of the command line, does what they say, and gives the exit status.
pub fn command<L: Words, S: Source, K: Sink, I: Inputs, D: Disk, W: World>(
    alloc: Global,
    seeds: RandomState,
    line: &L,
    outside: &mut Outside<S, K, I, D, W>,
) -> u8
    ensures taken { HasTaken (longest_scenario + 1) (S.left outside.old.source) (S.left outside.new.source) }
    ensures ending { CommandEndsAsIsDue (L.told line.now) S.left S.faults K.held K.faults I.contents I.faults D.files D.faults D.calls
        W.log W.next_faults W.send_faults outside.old outside.new result }
    ensures calls { MakesDocrootCalls (D.calls outside.old.disk) (D.calls outside.new.disk) }
{
    docroot_calls_add_up();
    let Ok(words) = words_of(alloc, line) else {
        return Ending::NoMemory.status();
    };
    let Ok(slices) = slices_of(alloc, &words) else {
        return Ending::NoMemory.status();
    };
    run(alloc, seeds, &slices, outside)
}

// The words of the command line.
fn words_of<W: Words>(alloc: Global, line: &W) -> Mem<CommandWords>
    ensures { IfOk result (λ words. AreWordsOf (W.told line.now) words) }
{
    let mut words = Items::new(alloc);
    for place in 0..usize::MAX {
        match line.word(alloc, place)? {
            Some(word) => words.push(word)?,
            None => return Ok(words),
        }
    }
    Err(NoMemory)
}

// The same words, lent.
fn slices_of(alloc: Global, words: &CommandWords) -> Mem<Vec<&[u8]>>
    ensures { IfOk result (λ slices. map (λ w. w.now) slices.items ≡ words.now) }
{
    let mut slices = Vec::new(alloc);
    for word in words.as_slice() {
        slices.push(word.bytes())?;
    }
    Ok(slices)
}
