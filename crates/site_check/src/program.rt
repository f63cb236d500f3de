//! What the words ask for is done.

use crate::ending::CheckEnding;
use crate::findings::{Findings, find};
use crate::form::CheckForm;
use crate::lines::unread_line;
use crate::telling::say;
use outside_world::{InputFault, Inputs};
use sp_base::ByteBuf;
use sp_outside::Sink;
use std::alloc::Global;
use std::hash::RandomState;

const HELP: &[u8] = b"site_check CONTENT ANY

Reads the content of a site (CONTENT, JSON) and its farm (ANY, a dispatcher.any), and says what is wrong with them,
each on a line of its own, with the place where that can be told. Nothing is changed, and nothing is served.

fault    the site can't be served, or a script of it is answered 500
warning  what is likely to be a mistake

status   0 nothing is wrong, 1 warnings, 2 faults, 64 other words, 66 a file that can't be read, 70 no memory,
         74 the standard output was closed
";

const VERSION: &[u8] = b"site_check 1\n";

/// Answers a question, or checks a site.
pub fn run<I: Inputs, K: Sink>(
    alloc: Global,
    seeds: RandomState,
    form: CheckForm<'_>,
    inputs: &mut I,
    sink: &mut K,
) -> CheckEnding {
    match form {
        CheckForm::Help => say(sink, HELP, CheckEnding::Fine),
        CheckForm::Version => say(sink, VERSION, CheckEnding::Fine),
        CheckForm::Check(content, any) => check(alloc, seeds, (content, any), inputs, sink),
    }
}

// Reads both files, and checks what they hold.
fn check<I: Inputs, K: Sink>(
    alloc: Global,
    seeds: RandomState,
    names: (&str, &str),
    inputs: &mut I,
    sink: &mut K,
) -> CheckEnding {
    let content = match inputs.whole(alloc, names.0) {
        Ok(bytes) => bytes,
        Err(fault) => return refuse(alloc, fault, names.0, sink),
    };
    let any = match inputs.whole(alloc, names.1) {
        Ok(bytes) => bytes,
        Err(fault) => return refuse(alloc, fault, names.1, sink),
    };
    check_texts(alloc, seeds, &content, &any, sink)
}

fn check_texts<K: Sink>(
    alloc: Global,
    seeds: RandomState,
    content: &ByteBuf,
    any: &ByteBuf,
    sink: &mut K,
) -> CheckEnding {
    match find(alloc, seeds, content.bytes(), any.bytes()) {
        Ok(found) => say(sink, &found.text, ending_of(&found)),
        Err(_) => CheckEnding::NoMemory,
    }
}

fn ending_of(found: &Findings) -> CheckEnding {
    if found.faults > 0 {
        CheckEnding::Faulty
    } else if found.warnings > 0 {
        CheckEnding::Warned
    } else {
        CheckEnding::Fine
    }
}

// Says that a file wasn't read.
fn refuse<K: Sink>(alloc: Global, fault: InputFault, name: &str, sink: &mut K) -> CheckEnding {
    match unread_line(alloc, fault, name) {
        Ok(line) => say(sink, &line, CheckEnding::InputFailed),
        Err(_) => CheckEnding::NoMemory,
    }
}
