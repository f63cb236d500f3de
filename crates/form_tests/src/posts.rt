//! An operation that is done on a tree at once. What POSTs leave is shown through the program (examples/runs/post_operations and its neighbours).
use crate::forms::form;
use form_input::Form;
use post_apply::{ApplyFault, PostReport, apply};
use post_plan::{TargetEnding, plan};
use resource_tree::Tree;
use sp_base::{Path, Value, ValueFault};
use std::alloc::Global;
use std::hash::RandomState;
use std::test::Fail;

// A form asks for an operation here; where it doesn't, that is told as a lack of memory.
fn post(
    alloc: Global,
    tree: &mut Tree,
    target: &Path,
    form: &Form,
) -> Result<PostReport, ApplyFault> {
    let ending = TargetEnding { star: false };
    match &plan(alloc, target, ending, form) {
        Ok(op) => apply(alloc, tree, op),
        Err(_) => Err(ApplyFault::NoMemory),
    }
}

const NUMBER: &[(&str, &str)] = &[("n", "12"), ("n@TypeHint", "Long")];

fn is_twelve(tree: &Tree, path: &Path) -> bool {
    match tree.node(path) {
        Some(node) => matches!(node.props.get("n"), Some(Value::Long(12))),
        None => false,
    }
}

fn is_made(alloc: Global, tree: &mut Tree, target: &Path, form: &Form) -> bool {
    match post(alloc, tree, target, form) {
        Ok(report) => report.created && report.path == *target && is_twelve(tree, target),
        Err(_) => false,
    }
}

// Whether a number is posted to a new node, and is there then.
fn makes(alloc: Global, tree: &mut Tree, target: &str) -> bool {
    match (Path::read(alloc, target), form(alloc, NUMBER)) {
        (Ok(target), Ok(form)) => is_made(alloc, tree, &target, &form),
        _ => false,
    }
}

const NO_NUMBER: &[(&str, &str)] = &[("good", "1"), ("n", "abc"), ("n@TypeHint", "Long")];

fn is_refused(alloc: Global, tree: &mut Tree, target: &Path, form: &Form) -> bool {
    matches!(
        post(alloc, tree, target, form),
        Err(ApplyFault::Value(_, ValueFault::NotANumber(0)))
    ) && tree.node(target).is_none()
}

// Whether a word that is no number is refused, and no node is there then.
fn refuses(alloc: Global, tree: &mut Tree, target: &str) -> bool {
    match (Path::read(alloc, target), form(alloc, NO_NUMBER)) {
        (Ok(target), Ok(form)) => is_refused(alloc, tree, &target, &form),
        _ => false,
    }
}

fn changes_a_tree(alloc: Global, seeds: RandomState) -> bool {
    match Tree::new(alloc, seeds) {
        Ok(mut tree) => makes(alloc, &mut tree, "/content/t") && refuses(alloc, &mut tree, "/t"),
        Err(_) => false,
    }
}

#[test]
fn an_operation_changes_the_tree(rt: HostRuntime) -> Result<(), Fail> {
    let seeds = RandomState::new(&rt)?;
    assert!(rt; changes_a_tree(rt.alloc(), seeds));
    Ok(())
}
