//! What the program doesn't ask for: the value of an expression and its text by themselves, and what a text is after a write that was refused.
//! Tables of what expressions print are stored runs of the program (examples/runs/expressions).
use htl_expr::{Evaluation, Expr, Out, Scope, Variables, WriteFault};
use sp_base::{PropList, Value};
use std::alloc::Global;

fn scope<'s>(props: &'s PropList, vars: &'s Variables<'s>) -> Scope<'s> {
    Scope {
        props,
        path: "/content/en",
        name: "en",
        resource_type: "s/page",
        vars,
    }
}

fn is_list(alloc: Global, scope: &Scope<'_>, e: &Expr, wanted: &str) -> bool {
    matches!(e.value(alloc, scope), Ok(Out::List(_)))
        && matches!(e.print(alloc, scope), Ok(text) if text.text() == wanted)
}

fn reads_as_list(alloc: Global, scope: &Scope<'_>, text: &str, wanted: &str) -> bool {
    matches!(Expr::read(alloc, text), Ok(e) if is_list(alloc, scope, &e, wanted))
}

#[test]
fn a_value_has_a_kind(rt: HostRuntime) {
    let props = PropList::new(rt.alloc());
    let vars = Variables::None;
    assert!(rt;
        reads_as_list(
            rt.alloc(),
            &scope(&props, &vars),
            "[7, 8] @ join='; '",
            "7; 8"
        )
    );
}

// Writes an expression for a resource of which nothing is found out yet, where there is room for 5 bytes.
fn is_too_long<'x>(alloc: Global, scope: &'x Scope<'x>, page: &mut String, e: &'x Expr) -> bool {
    let mut evaluation = Evaluation::of(alloc, scope);
    matches!(
        e.write(page, alloc, &mut evaluation, scope.vars, 5),
        Err(WriteFault::TooLong)
    )
}

fn leaves_the_page<'x>(alloc: Global, scope: &'x Scope<'x>, e: &'x Expr) -> bool {
    let mut page = String::new(alloc);
    page.push_str("<p>").is_ok()
        && is_too_long(alloc, scope, &mut page, e)
        && page.as_str() == "<p>"
}

fn is_not_written<'x>(alloc: Global, scope: &'x Scope<'x>, text: &str) -> bool {
    matches!(Expr::read(alloc, text), Ok(e) if leaves_the_page(alloc, scope, &e))
}

// Expressions that print more than 2 bytes.
const LONGER: [&str; 6] = [
    "'<b>'",
    "['a', 'b']",
    "[1, [2, 3]]",
    "1 == 1",
    "properties.n",
    "[properties.n]",
];

#[test]
fn a_refused_write_leaves_the_page(rt: HostRuntime) {
    let mut props = PropList::new(rt.alloc());
    let _ = props.put(rt.alloc(), "n", Value::Long(123));
    let vars = Variables::None;
    for text in &LONGER {
        assert!(rt; is_not_written(rt.alloc(), &scope(&props, &vars), *text));
    }
}
