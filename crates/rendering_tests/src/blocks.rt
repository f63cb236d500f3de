//! What scripts are read as, by an outline of their blocks, and where their faults are.
use htl_blocks::{Attributes, Block, BlockFault, Blocks, Body, Unwrap};
use htl_text::{TemplatePiece, TextFault};
use sp_base::Mem;
use std::alloc::Global;

// Plain text as it stands, and `$` for an expression.
fn push_pieces(text: &mut String, pieces: &[TemplatePiece]) -> Mem<()> {
    for piece in pieces {
        match piece {
            TemplatePiece::Plain(plain) => text.push_str(plain.text())?,
            TemplatePiece::Value(_) => text.push_str("$")?,
        }
    }
    Ok(())
}

fn body_word(body: &Option<Body>) -> &str {
    match body {
        Some(Body::Text(_)) => "text ",
        Some(Body::Include(_)) => "include ",
        Some(Body::Resource(_)) => "resource ",
        None => "",
    }
}

fn unwrap_word(unwrap: &Option<Unwrap>) -> &str {
    match unwrap {
        Some(Unwrap::Always) => "unwrap ",
        Some(Unwrap::Where(_)) => "unwrap? ",
        None => "",
    }
}

fn push_words(text: &mut String, attributes: &Attributes) -> Mem<()> {
    if attributes.test.is_some() {
        text.push_str("test ")?;
    }
    if let Some((name, _)) = &attributes.list {
        text.push_str("list ")?;
        text.push_str(name.text())?;
        text.push_str(" ")?;
    }
    text.push_str(body_word(&attributes.body))?;
    text.push_str(unwrap_word(&attributes.unwrap))?;
    Ok(())
}

#[cycle(outline)]
fn push_block(text: &mut String, block: &Block) -> Mem<()> {
    match block {
        Block::Text(template) => push_pieces(text, template.pieces()),
        Block::Element(tag, content, end_tag) => {
            text.push_str("[")?;
            push_words(text, &tag.get().attributes)?;
            push_pieces(text, tag.get().start.pieces())?;
            text.push_str("|")?;
            push_blocks(text, content.as_slice())?;
            text.push_str("|")?;
            text.push_str(end_tag.text())?;
            text.push_str("]")?;
            Ok(())
        }
    }
}

#[cycle(outline)]
fn push_blocks(text: &mut String, blocks: &[Block]) -> Mem<()> {
    for block in blocks {
        push_block(text, block)?;
    }
    Ok(())
}

fn outline(alloc: Global, blocks: &Blocks) -> Mem<String> {
    let mut text = String::new(alloc);
    push_blocks(&mut text, blocks.blocks())?;
    Ok(text)
}

fn reads(alloc: Global, text: &str, wanted: &str) -> bool {
    match Blocks::read(alloc, text) {
        Ok(blocks) => matches!(outline(alloc, &blocks), Ok(found) if found.as_str() == wanted),
        Err(_) => false,
    }
}

const READINGS: [(&str, &str); 22] = [
    ("a${x}b", "a$b"),
    ("a < b <3 <p id='${x}'>c</p >", "a < b <3 <p id='$'>c</p >"),
    (
        "<p data-sly-test=\"${x}\" id=\"c\">y</p>z",
        "[test <p id=\"c\">|y|</p>]z",
    ),
    (
        "<p\n\t data-sly-test='${x}'\n id=a>y</p>",
        "[test <p\n id=a>|y|</p>]",
    ),
    ("<p data-sly-list=\"${x}\">y</p>", "[list item <p>|y|</p>]"),
    (
        "<p data-sly-list._k9=\"${x}\">${_k9}</p>",
        "[list _k9 <p>|$|</p>]",
    ),
    ("a<b data-sly-text=\"${x}\">y</b>", "a[text <b>|y|</b>]"),
    ("<p data-sly-unwrap>y</p>", "[unwrap <p>|y|</p>]"),
    ("<p data-sly-unwrap=\"\">y</p>", "[unwrap <p>|y|</p>]"),
    ("<p data-sly-unwrap='${x}'>y</p>", "[unwrap? <p>|y|</p>]"),
    ("<p data-sly-unwrap = \"x\">y</p>", "[unwrap? <p>|y|</p>]"),
    (
        "<p data-sly-unwrap  id=''>y</p>",
        "[unwrap <p  id=''>|y|</p>]",
    ),
    (
        "<p data-sly-include=\"a.html\"/>y</p>",
        "[include <p/>||]y</p>",
    ),
    ("<p data-sly-resource='b'></p>", "[resource <p>||</p>]"),
    (
        "<p data-sly-unwrap data-sly-text='${x}' data-sly-list='${y}' data-sly-test='z'></p>",
        "[test list item text unwrap <p>||</p>]",
    ),
    (
        "<br data-sly-test=\"${x}\">y<IMG data-sly-test='' id=i>",
        "[test <br>||]y[test <IMG id=i>||]",
    ),
    (
        "<p data-sly-test=\"${x}\"><p>a</p><P/>b</P>c",
        "[test <p>|<p>a</p><P/>b|</P>]c",
    ),
    (
        "<!-- <p data-sly-text='x'>y</p> -->",
        "<!-- [text <p>|y|</p>] -->",
    ),
    (
        "<a title=\"<p data-sly-text='x'>\">y</a>",
        "<a title=\"<p data-sly-text='x'>\">y</a>",
    ),
    ("<p data-sly-test='${a > \"b\"}'>c</p>", "[test <p>|c|</p>]"),
    (
        "<ul data-sly-test='x'><li data-sly-list='${x}'>${item}</li>,</ul>",
        "[test <ul>|[list item <li>|$|</li>],|</ul>]",
    ),
    (
        "<p data-sly-test='x'>a</b><q x='</p>'></p>",
        "[test <p>|a</b><q x='</p>'>|</p>]",
    ),
];

#[test]
fn scripts_are_read(rt: HostRuntime) {
    for (text, wanted) in &READINGS {
        assert!(rt; reads(rt.alloc(), text, wanted));
    }
}

// The kind of a fault, and its place.
fn fault_of(fault: &BlockFault) -> (&str, usize) {
    match fault {
        BlockFault::OpenTag(place) => ("open", *place),
        BlockFault::BadBlock(place) => ("bad", *place),
        BlockFault::TooDeep(place) => ("deep", *place),
        BlockFault::Text(TextFault::Unclosed(place)) => ("unclosed", *place),
        BlockFault::Text(TextFault::BadExpr(place)) => ("expression", *place),
        BlockFault::Text(TextFault::NoMemory) => ("memory", 0),
        BlockFault::NoMemory => ("memory", 0),
    }
}

fn faults(alloc: Global, text: &str, kind: &str, place: usize) -> bool {
    match Blocks::read(alloc, text) {
        Ok(_) => false,
        Err(fault) => {
            let found = fault_of(&fault);
            found.0 == kind && found.1 == place
        }
    }
}

const FAULTS: [(&str, &str, usize); 21] = [
    ("<p data-sly-text=\"x\">", "open", 0),
    ("ab<p data-sly-text='x'", "open", 2),
    ("ab<p data-sly-foo=\"x\">", "open", 2),
    ("<p data-sly-test='x'><p></p>", "open", 0),
    ("<p data-sly-foo=\"x\"></p>", "bad", 0),
    ("a<p data-sly-test='x' data-sly-test='y'></p>", "bad", 1),
    ("<p data-sly-text='x' data-sly-include='b'></p>", "bad", 0),
    (
        "<p data-sly-list='${x}' data-sly-list.a='${x}'></p>",
        "bad",
        0,
    ),
    ("<p data-sly-test></p>", "bad", 0),
    ("<p data-sly-test=x></p>", "bad", 0),
    ("<p data-sly-test = x></p>", "bad", 0),
    ("<p data-sly-unwrap = ></p>", "bad", 0),
    ("<p data-sly-list.1='${x}'></p>", "bad", 0),
    ("<p data-sly-list.='${x}'></p>", "bad", 0),
    ("<p data-sly-text='${x'></p>", "bad", 0),
    ("<p data-sly-text='a${x}'></p>", "bad", 0),
    ("${x <p data-sly-foo></p>", "unclosed", 0),
    ("<p data-sly-foo></p>${x", "bad", 0),
    ("ab<p class=\"${x\" data-sly-unwrap>y</p>", "unclosed", 2),
    ("a<p data-sly-unwrap>b${x</p>", "unclosed", 21),
    ("a<p data-sly-unwrap>b</p>c${1 2}", "expression", 26),
];

#[test]
fn the_first_fault_is_told(rt: HostRuntime) {
    for (text, kind, place) in &FAULTS {
        assert!(rt; faults(rt.alloc(), text, kind, *place));
    }
}

fn nested(alloc: Global, levels: usize) -> Mem<String> {
    let mut text = String::new(alloc);
    for _level in 0..levels {
        text.push_str("<p data-sly-unwrap>")?;
    }
    for _level in 0..levels {
        text.push_str("</p>")?;
    }
    Ok(text)
}

#[test]
fn thirty_two_levels_nest(rt: HostRuntime) {
    assert!(rt;
        matches!(nested(rt.alloc(), 32), Ok(text) if Blocks::read(rt.alloc(), text.as_str()).is_ok())
    );
    assert!(rt;
        matches!(nested(rt.alloc(), 33), Ok(text) if faults(rt.alloc(), text.as_str(), "deep", 608))
    );
}
