//! The places of faults, which the program doesn't tell. That more expressions have no reading is a stored run (examples/runs/expressions_refused).
use htl_expr::{Expr, ExprFault};
use htl_text::{Template, TextFault};
use std::alloc::Global;

fn unexpected(alloc: Global, text: &str) -> Option<usize> {
    match Expr::read(alloc, text) {
        Err(ExprFault::Unexpected(place)) => Some(place),
        _ => None,
    }
}

// An expression, and the first byte that it can't go on with.
const UNEXPECTED: [(&str, usize); 8] = [
    ("1 2", 2),
    ("é", 0),
    ("x.a:?", 4),
    ("x ? properties.a:b", 18),
    ("9223372036854775808", 18),
    ("a = b", 3),
    ("'\\q'", 2),
    ("a @ join='x', join='y'", 14),
];

#[test]
fn bytes_that_go_on_with_nothing(rt: HostRuntime) {
    for (text, place) in &UNEXPECTED {
        assert!(rt; unexpected(rt.alloc(), *text) == Some(*place));
    }
}

fn too_deep(alloc: Global, text: &str) -> Option<usize> {
    match Expr::read(alloc, text) {
        Err(ExprFault::TooDeep(place)) => Some(place),
        _ => None,
    }
}

// An expression, and the bracket or the choice within 32 others.
const NESTED: [(&str, usize); 3] = [
    ("(((((((((((((((((((((((((((((((((1", 32),
    (
        "x?1:x?1:x?1:x?1:x?1:x?1:x?1:x?1:x?1:x?1:x?1:x?1:x?1:x?1:x?1:x?1:x?1:x?1:x?1:x?1:x?1:x?1:x?1:x?1:x?1:x?1:x?1:x?1:x?1:x?1:x?1:x?1:x?1:1",
        129,
    ),
    ("((((((((((((((((((((((((((((((((x['a']", 33),
];

#[test]
fn brackets_nest_32_deep(rt: HostRuntime) {
    for (text, place) in &NESTED {
        assert!(rt; too_deep(rt.alloc(), *text) == Some(*place));
    }
}

fn unclosed(alloc: Global, text: &str) -> Option<usize> {
    match Template::read(alloc, text) {
        Err(TextFault::Unclosed(place)) => Some(place),
        _ => None,
    }
}

const UNCLOSED: [(&str, usize); 3] = [("a${", 1), ("é${", 2), ("$$ \\${}${1}${", 11)];

#[test]
fn unclosed_expressions_are_refused(rt: HostRuntime) {
    for (text, place) in &UNCLOSED {
        assert!(rt; unclosed(rt.alloc(), *text) == Some(*place));
    }
}

fn bad_expression(alloc: Global, text: &str) -> Option<usize> {
    match Template::read(alloc, text) {
        Err(TextFault::BadExpr(place)) => Some(place),
        _ => None,
    }
}

const BAD_EXPRESSIONS: [(&str, usize); 2] = [("a${1+}${", 1), ("${1}$${x y}", 5)];

#[test]
fn bad_expressions_are_refused(rt: HostRuntime) {
    for (text, place) in &BAD_EXPRESSIONS {
        assert!(rt; bad_expression(rt.alloc(), *text) == Some(*place));
    }
}
