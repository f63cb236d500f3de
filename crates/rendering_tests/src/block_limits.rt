//! The limits of what scripts with blocks write: of their text, of the variables of a setting, of what is put in, and of rounds.
use crate::block_texts::scope;
use htl_blocks::{Blocks, Piece, RunFault};
use htl_expr::{Scope, Variables};
use sp_base::{Mem, PropList, TextBuf, TextList, Value};
use std::alloc::Global;

fn fault_of(alloc: Global, props: &PropList, text: &str) -> Option<RunFault> {
    let vars = Variables::None;
    match Blocks::read(alloc, text) {
        Ok(blocks) => blocks.pieces(alloc, &scope(props, &vars)).err(),
        Err(_) => None,
    }
}

fn many(alloc: Global, count: usize) -> Mem<Value> {
    let mut list = TextList::new(alloc);
    for _item in 0..count {
        list.push(TextBuf::of(alloc, "x")?)?;
    }
    Ok(Value::Texts(list))
}

// The properties `items` with 1,000 texts, and `fewer` with 999.
fn with_items(alloc: Global) -> Mem<PropList> {
    let mut props = PropList::new(alloc);
    props.put(alloc, "items", many(alloc, 1000)?)?;
    props.put(alloc, "fewer", many(alloc, 999)?)?;
    Ok(props)
}

// Scripts that put in 1,000 texts, and one more; and whether that is too many.
const INCLUSIONS: [(&str, bool); 2] = [
    (
        "<p data-sly-list='${properties.items}' data-sly-resource='x'></p>",
        false,
    ),
    (
        "<p data-sly-list='${properties.items}' data-sly-resource='x'></p><p data-sly-include='y'></p>",
        true,
    ),
];

// Scripts with 1,000,000 rounds, and with one more.
const ROUNDS: [(&str, bool); 2] = [
    (
        "<p data-sly-list='${properties.items}'><q data-sly-list='${properties.fewer}'></q></p>",
        false,
    ),
    (
        "<p data-sly-list='${properties.items}'><q data-sly-list='${properties.fewer}'></q></p><p data-sly-list='${[1]}'></p>",
        true,
    ),
];

fn are_too_many(alloc: Global, props: &PropList, rows: &[(&str, bool)]) -> bool {
    for (text, is_refused) in rows {
        if matches!(fault_of(alloc, props, text), Some(RunFault::TooMany)) != *is_refused {
            return false;
        }
    }
    true
}

#[test]
fn a_thousand_are_put_in(rt: HostRuntime) {
    let Ok(props) = with_items(rt.alloc()) else {
        return;
    };
    assert!(rt; are_too_many(rt.alloc(), &props, &INCLUSIONS));
}

#[test]
fn a_million_rounds_are_gone(rt: HostRuntime) {
    let Ok(props) = with_items(rt.alloc()) else {
        return;
    };
    assert!(rt; are_too_many(rt.alloc(), &props, &ROUNDS));
}

fn long(alloc: Global, len: usize) -> Mem<Value> {
    let mut text = String::new(alloc);
    for _line in 0..len / 64 {
        text.push_str("xxxxxxxxxxxxxxxxxxxxxxxxxxxxxxxxxxxxxxxxxxxxxxxxxxxxxxxxxxxxxxxx")?;
    }
    for _byte in 0..len % 64 {
        text.push_str("x")?;
    }
    Ok(Value::Text(TextBuf::from(text)))
}

// A property `long` of so many bytes.
fn with_long(alloc: Global, len: usize) -> Mem<PropList> {
    let mut props = PropList::new(alloc);
    props.put(alloc, "long", long(alloc, len)?)?;
    Ok(props)
}

const MOST_BYTES: usize = 4_194_304;

// A text; with two bytes more and a script between them; and after 1,250 scripts.
const LONG: &str = "${properties.long}";

const LONG_AND_MORE: &str = "a${properties.long}<p data-sly-unwrap data-sly-include='x'></p>b";

const LONG_AND_MANY: &str =
    "<p data-sly-unwrap data-sly-list.a='${[1, 2, 3, 4, 5]}'><p data-sly-unwrap data-sly-list.b='${[1, 2, 3, 4, 5]}'><p data-sly-unwrap data-sly-list.c='${[1, 2, 3, 4, 5]}'><p data-sly-unwrap data-sly-list.d='${[1, 2, 3, 4, 5]}'><p data-sly-unwrap data-sly-list.e='${[1, 2]}' data-sly-include='x'></p></p></p></p></p>${properties.long}";

#[test]
fn a_text_has_at_most_four_megabytes(rt: HostRuntime) {
    for (len, text, is_refused) in &[
        (MOST_BYTES, LONG, false),
        (MOST_BYTES + 1, LONG, true),
        (MOST_BYTES - 2, LONG_AND_MORE, false),
        (MOST_BYTES - 1, LONG_AND_MORE, true),
        (MOST_BYTES, LONG_AND_MANY, false),
        (MOST_BYTES + 1, LONG_AND_MANY, true),
    ] {
        assert!(rt;
            matches!(with_long(rt.alloc(), *len), Ok(props) if matches!(fault_of(rt.alloc(), &props, *text), Some(RunFault::TooLong)) == *is_refused)
        );
    }
}

// Scripts with a text that is too long and a round that is one too many; and whether it is the text that is told. It stands before all
// rounds, after 1,000,000 of them, and as the variable of the round that is one too many.
const LONG_AND_OFTEN: [(&str, bool); 3] = [
    (
        "${properties.long}<p data-sly-list='${properties.items}'><q data-sly-list='${properties.fewer}'></q></p><p data-sly-list='${[1]}'></p>",
        true,
    ),
    (
        "<p data-sly-list='${properties.items}'><q data-sly-list='${properties.fewer}'></q></p>${properties.long}<p data-sly-list='${[1]}'></p>",
        true,
    ),
    (
        "<p data-sly-list='${properties.items}'><q data-sly-list='${properties.fewer}'></q></p><p data-sly-list='${[properties.long]}'></p>",
        false,
    ),
];

fn is_told(fault: &Option<RunFault>, is_long: bool) -> bool {
    match fault {
        Some(RunFault::TooLong) => is_long,
        Some(RunFault::TooMany) => !is_long,
        _ => false,
    }
}

fn are_told(alloc: Global, props: &PropList, rows: &[(&str, bool)]) -> bool {
    for (text, is_long) in rows {
        if !is_told(&fault_of(alloc, props, text), *is_long) {
            return false;
        }
    }
    true
}

fn with_items_and_long(alloc: Global) -> Mem<PropList> {
    let mut props = with_items(alloc)?;
    props.put(alloc, "long", long(alloc, MOST_BYTES + 1)?)?;
    Ok(props)
}

#[test]
fn a_round_that_is_one_too_many_ends_what_is_looked_at(rt: HostRuntime) {
    let Ok(props) = with_items_and_long(rt.alloc()) else {
        return;
    };
    assert!(rt; are_told(rt.alloc(), &props, &LONG_AND_OFTEN));
}

// Variables: one that is a text, one over that, and an item ten times as long as the outer one's, ten times over.
const ITEM: &str = "<p data-sly-list.a='${[properties.long]}'></p>";

const ITEM_IN_ITEM: &str =
    "<p data-sly-list.a='${[properties.long]}'><p data-sly-list.b='${[a]}'></p></p>";

const GROWN: &str =
    "<i data-sly-list.a='${[properties.long]}'><i data-sly-list.b='${[[a,a,a,a,a,a,a,a,a,a]]}'><i data-sly-list.c='${[[b,b,b,b,b,b,b,b,b,b]]}'><i data-sly-list.d='${[[c,c,c,c,c,c,c,c,c,c]]}'><i data-sly-list.e='${[[d,d,d,d,d,d,d,d,d,d]]}'><i data-sly-list.f='${[[e,e,e,e,e,e,e,e,e,e]]}'><i data-sly-list.g='${[[f,f,f,f,f,f,f,f,f,f]]}'><i data-sly-list.h='${[[g,g,g,g,g,g,g,g,g,g]]}'><i data-sly-list.i='${[[h,h,h,h,h,h,h,h,h,h]]}'><i data-sly-list.j='${[[i,i,i,i,i,i,i,i,i,i]]}'><i data-sly-list.k='${[[j,j,j,j,j,j,j,j,j,j]]}'></i></i></i></i></i></i></i></i></i></i></i>";

// A variable has its name and its text.
#[test]
fn variables_have_at_most_four_megabytes(rt: HostRuntime) {
    for (len, text, is_refused) in &[
        (MOST_BYTES - 1, ITEM, false),
        (MOST_BYTES, ITEM, true),
        (MOST_BYTES / 2 - 1, ITEM_IN_ITEM, false),
        (MOST_BYTES / 2, ITEM_IN_ITEM, true),
        (10, GROWN, true),
    ] {
        assert!(rt;
            matches!(with_long(rt.alloc(), *len), Ok(props) if matches!(fault_of(rt.alloc(), &props, *text), Some(RunFault::TooLong)) == *is_refused)
        );
    }
}

fn resource_len(piece: &Piece<'_>) -> Option<usize> {
    match piece {
        Piece::Resource(name) => Some(name.text().len()),
        _ => None,
    }
}

fn name_len<'a>(alloc: Global, scope: &Scope<'a>, blocks: &'a Blocks) -> Option<usize> {
    match blocks.pieces(alloc, scope) {
        Ok(list) => match list.pieces() {
            [piece] => resource_len(piece),
            _ => None,
        },
        Err(_) => None,
    }
}

fn long_name_len(alloc: Global, props: &PropList) -> Option<usize> {
    let vars = Variables::None;
    match Blocks::read(
        alloc,
        "<p data-sly-unwrap data-sly-resource='${properties.long}'></p>",
    ) {
        Ok(blocks) => name_len(alloc, &scope(props, &vars), &blocks),
        Err(_) => None,
    }
}

#[test]
fn a_name_is_no_longer_than_a_path(rt: HostRuntime) {
    for (len, wanted) in &[(12_864, 12_864), (12_865, 0)] {
        assert!(rt;
            matches!(with_long(rt.alloc(), *len), Ok(props) if long_name_len(rt.alloc(), &props) == Some(*wanted))
        );
    }
}
