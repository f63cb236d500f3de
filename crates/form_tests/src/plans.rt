//! The faults of a form in their order. The program answers each of them 400.
use crate::forms::form;
use form_input::Form;
use post_plan::{Op, PlanFault, TargetEnding, plan};
use sp_base::Path;
use std::alloc::Global;

fn name_of(fault: &PlanFault) -> &'static str {
    match fault {
        PlanFault::BadOperation => "BadOperation",
        PlanFault::NoDest => "NoDest",
        PlanFault::BadOrder => "BadOrder",
        PlanFault::BadHint(_) => "BadHint",
        PlanFault::BadPath(_) => "BadPath",
        PlanFault::NoMemory => "NoMemory",
    }
}

fn is_named(planned: &Result<Op<'_>, PlanFault>, wanted: &str) -> bool {
    match planned {
        Ok(_) => false,
        Err(fault) => name_of(fault) == wanted,
    }
}

fn is_refused_at(alloc: Global, target: &Path, form: &Form, wanted: &str) -> bool {
    let ending = TargetEnding { star: false };
    is_named(&plan(alloc, target, ending, form), wanted)
}

fn is_refused(alloc: Global, form: &Form, wanted: &str) -> bool {
    match Path::read(alloc, "/p") {
        Ok(target) => is_refused_at(alloc, &target, form, wanted),
        Err(_) => false,
    }
}

// Whether these pairs are refused so at `/p`, from where `..` leads no further than to the root.
fn are_refused(alloc: Global, pairs: &[(&str, &str)], wanted: &str) -> bool {
    match form(alloc, pairs) {
        Ok(form) => is_refused(alloc, &form, wanted),
        Err(_) => false,
    }
}

// Pairs, and the fault that is told. Of the four pairs each has a fault, and comes before those that stand above it: the last one's is told.
const FAULTS: &[(&[(&str, &str)], &str)] = &[
    (&[("..", "1")], "BadPath"),
    (&[("..", "1"), ("a@Foo", "1")], "BadHint"),
    (&[("..", "1"), ("a@Foo", "1"), (":order", "x")], "BadOrder"),
    (
        &[
            ("..", "1"),
            ("a@Foo", "1"),
            (":order", "x"),
            (":operation", "copy"),
        ],
        "NoDest",
    ),
    (&[(":operation", "none"), (":order", "x")], "BadOperation"),
];

#[test]
fn faults_come_in_their_order(rt: HostRuntime) {
    for (pairs, wanted) in FAULTS {
        assert!(rt; are_refused(rt.alloc(), *pairs, *wanted));
    }
}
