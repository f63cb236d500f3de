//! Variables in expressions, and what block statements ask of an expression.
use htl_expr::{Evaluation, Expr, Listed, Scope, Variables, WriteFault};
use htl_text::{Template, TextFault};
use sp_base::{Mem, PropList, TextBuf, TextList, Value};
use std::alloc::Global;

fn scope<'s>(props: &'s PropList, vars: &'s Variables<'s>) -> Scope<'s> {
    Scope {
        props,
        path: "/content/en",
        name: "en",
        resource_type: "s/page",
        vars,
    }
}

// The properties `title` with `<T>`, `n` with 3, and `tags` with a and b.
fn properties(alloc: Global) -> Mem<PropList> {
    let mut props = PropList::new(alloc);
    props.put(alloc, "title", Value::Text(TextBuf::of(alloc, "<T>")?))?;
    props.put(alloc, "n", Value::Long(3))?;
    let mut tags = TextList::new(alloc);
    tags.push(TextBuf::of(alloc, "a")?)?;
    tags.push(TextBuf::of(alloc, "b")?)?;
    props.put(alloc, "tags", Value::Texts(tags))?;
    Ok(props)
}

fn prints(alloc: Global, scope: &Scope<'_>, text: &str, wanted: &str) -> bool {
    matches!(Expr::read(alloc, text), Ok(e) if is_printed(alloc, scope, &e, wanted))
}

fn is_printed(alloc: Global, scope: &Scope<'_>, e: &Expr, wanted: &str) -> bool {
    matches!(e.print(alloc, scope), Ok(text) if text.text() == wanted)
}

// What expressions print where `item` is `a<b`, over `x` and an outer `item`, and `title` is a variable too.
const PRINTED: [(&str, &str); 18] = [
    ("item", "a&lt;b"),
    ("item @ context='unsafe'", "a<b"),
    ("x", "1"),
    ("title", "t"),
    ("properties.title", "&lt;T&gt;"),
    ("other", ""),
    ("Item", ""),
    ("item.length", ""),
    ("item['path']", ""),
    ("x.y || 'none'", "none"),
    ("[item, x] @ join='-'", "a&lt;b-1"),
    ("[[x, item], x] @ join='; '", "1,a&lt;b; 1"),
    ("x == '1'", "true"),
    ("x == 1", "false"),
    ("[x] == ['1']", "true"),
    ("[x, title] == ['1', 'x']", "false"),
    ("x < 2", "false"),
    ("empty ? 1 : x && item == 'a<b'", "true"),
];

#[test]
fn names_are_variables(rt: HostRuntime) {
    let Ok(props) = properties(rt.alloc()) else {
        return;
    };
    let pairs = [("x", "1"), ("item", "outer"), ("title", "t"), ("empty", "")];
    let outer = Variables::Pairs(&pairs);
    let vars = Variables::With("item", "a<b", &outer);
    for (text, wanted) in &PRINTED {
        assert!(rt; prints(rt.alloc(), &scope(&props, &vars), *text, *wanted));
    }
}

fn has_item(alloc: Global, list: &Listed<'_>, place: usize, wanted: &str) -> bool {
    matches!(list.item(alloc, place, wanted.len()), Ok(Some(item)) if item.text() == wanted)
}

// Whether an item has no room in so many bytes.
fn has_no_room(alloc: Global, list: &Listed<'_>, place: usize, most: usize) -> bool {
    matches!(list.item(alloc, place, most), Err(WriteFault::TooLong))
}

fn has_items(alloc: Global, list: &Listed<'_>, first: &str, second: &str) -> bool {
    list.len() == 2
        && has_item(alloc, list, 0, first)
        && has_item(alloc, list, 1, second)
        && has_no_room(alloc, list, 0, first.len().saturating_sub(1))
        && has_no_room(alloc, list, 1, second.len().saturating_sub(1))
        && matches!(list.item(alloc, 2, 0), Ok(None))
}

fn lists<'v, 'a: 'v>(
    alloc: Global,
    of: &mut Evaluation<'a>,
    vars: &'v Variables<'v>,
    e: &'v Expr,
    row: (&str, &str),
) -> bool {
    matches!(e.listed(alloc, of, vars), Ok(Some(list)) if has_items(alloc, &list, row.0, row.1))
}

// Lists of two items, and their texts.
const LISTED: [(&str, &str, &str); 4] = [
    ("properties.tags", "a", "b"),
    ("[item, 3]", "a<b", "3"),
    ("[1 == 1, [item, item]] @ join='-'", "true", "a<b,a<b"),
    ("x ? properties.tags : item", "a", "b"),
];

#[test]
fn lists_have_items(rt: HostRuntime) {
    let Ok(props) = properties(rt.alloc()) else {
        return;
    };
    let none = Variables::None;
    let outer = Variables::With("x", "1", &none);
    let vars = Variables::With("item", "a<b", &outer);
    let scope = scope(&props, &vars);
    let mut of = Evaluation::of(rt.alloc(), &scope);
    for (text, first, second) in &LISTED {
        let read = Expr::read(rt.alloc(), *text);
        assert!(rt;
            matches!(&read, Ok(e) if lists(rt.alloc(), &mut of, &vars, e, (*first, *second)))
        );
    }
}

fn is_true(alloc: Global, of: &mut Evaluation<'_>, e: &Expr, item: &str) -> Option<bool> {
    let none = Variables::None;
    let vars = Variables::With("item", item, &none);
    e.is_true(alloc, of, &vars).ok()
}

#[test]
fn a_test_is_asked_for_each_item(rt: HostRuntime) {
    let props = PropList::new(rt.alloc());
    let none = Variables::None;
    let scope = scope(&props, &none);
    let mut of = Evaluation::of(rt.alloc(), &scope);
    let Ok(e) = Expr::read(rt.alloc(), "item == 'b' || !item") else {
        return;
    };
    for (item, wanted) in &[("a", false), ("b", true), ("", true)] {
        assert!(rt; is_true(rt.alloc(), &mut of, &e, *item) == Some(*wanted));
    }
}

fn plain<'x>(alloc: Global, scope: &'x Scope<'x>, e: &'x Expr, most: usize) -> Option<TextBuf> {
    let mut of = Evaluation::of(alloc, scope);
    e.unescaped(alloc, &mut of, scope.vars, most).ok()
}

#[test]
fn a_name_is_not_escaped_and_has_a_limit(rt: HostRuntime) {
    let props = PropList::new(rt.alloc());
    let none = Variables::None;
    let vars = Variables::With("item", "a<b", &none);
    let scope = scope(&props, &vars);
    let Ok(e) = Expr::read(rt.alloc(), "[item, 1] @ join='/'") else {
        return;
    };
    assert!(rt; matches!(plain(rt.alloc(), &scope, &e, 5), Some(name) if name.text() == "a<b/1"));
    assert!(rt; plain(rt.alloc(), &scope, &e, 4).is_none());
}

fn fault_place(alloc: Global, text: &str, place: usize) -> Option<usize> {
    match Template::read_at(alloc, text, place) {
        Err(TextFault::Unclosed(place)) | Err(TextFault::BadExpr(place)) => Some(place),
        _ => None,
    }
}

#[test]
fn faults_are_told_in_the_whole_text(rt: HostRuntime) {
    for (text, place, wanted) in &[("a${", 0, 1), ("a${", 7, 8), ("${1}${x y}", 3, 7)] {
        assert!(rt; fault_place(rt.alloc(), *text, *place) == Some(*wanted));
    }
}

// Writes a template for two items, one after another.
fn writes_items(
    alloc: Global,
    of: &mut Evaluation<'_>,
    template: &Template,
    page: &mut String,
) -> bool {
    let none = Variables::None;
    let first = Variables::With("item", "a", &none);
    let second = Variables::With("item", "<", &none);
    template.write(page, alloc, of, &first, 10).is_ok()
        && template.write(page, alloc, of, &second, 23).is_ok()
        && template.write(page, alloc, of, &second, 22).is_err()
}

#[test]
fn a_template_writes_after_what_is_there(rt: HostRuntime) {
    let props = PropList::new(rt.alloc());
    let none = Variables::None;
    let scope = scope(&props, &none);
    let mut of = Evaluation::of(rt.alloc(), &scope);
    let mut page = String::new(rt.alloc());
    let Ok(template) = Template::read(rt.alloc(), "<li>${item}</li>") else {
        return;
    };
    assert!(rt; writes_items(rt.alloc(), &mut of, &template, &mut page));
    assert!(rt; page.as_str() == "<li>a</li><li>&lt;</li>");
}
