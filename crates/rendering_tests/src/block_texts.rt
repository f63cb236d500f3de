//! The texts that scripts with blocks write, with what is put in from elsewhere.
use htl_blocks::{Blocks, Frame, Piece, PieceList};
use htl_expr::{Scope, Variables};
use sp_base::{LongList, Mem, PropList, TextBuf, TextList, TruthList, Value};
use std::alloc::Global;

pub(crate) fn scope<'s>(props: &'s PropList, vars: &'s Variables<'s>) -> Scope<'s> {
    Scope {
        props,
        path: "/content/en",
        name: "en",
        resource_type: "s/page",
        vars,
    }
}

fn texts(alloc: Global, items: &[&str]) -> Mem<Value> {
    let mut list = TextList::new(alloc);
    for item in items {
        list.push(TextBuf::of(alloc, item)?)?;
    }
    Ok(Value::Texts(list))
}

fn longs(alloc: Global, items: &[i64]) -> Mem<Value> {
    let mut list = LongList::new(alloc);
    for item in items {
        list.push(*item)?;
    }
    Ok(Value::Longs(list))
}

fn truths(alloc: Global, items: &[bool]) -> Mem<Value> {
    let mut list = TruthList::new(alloc);
    for item in items {
        list.push(*item)?;
    }
    Ok(Value::Truths(list))
}

fn put_lists(alloc: Global, props: &mut PropList) -> Mem<()> {
    props.put(alloc, "tags", texts(alloc, &["a", "b"])?)?;
    props.put(alloc, "one", texts(alloc, &["z"])?)?;
    props.put(alloc, "empty", texts(alloc, &[])?)?;
    props.put(alloc, "longs", longs(alloc, &[7, -2])?)?;
    props.put(alloc, "truths", truths(alloc, &[true, false])?)
}

fn put_values(alloc: Global, props: &mut PropList) -> Mem<()> {
    props.put(alloc, "title", Value::Text(TextBuf::of(alloc, "<T>")?))?;
    props.put(alloc, "blank", Value::Text(TextBuf::of(alloc, "")?))?;
    props.put(alloc, "n", Value::Long(3))?;
    props.put(alloc, "zero", Value::Long(0))?;
    props.put(alloc, "yes", Value::Truth(true))?;
    props.put(alloc, "no", Value::Truth(false))
}

fn properties(alloc: Global) -> Mem<PropList> {
    let mut props = PropList::new(alloc);
    put_values(alloc, &mut props)?;
    put_lists(alloc, &mut props)?;
    Ok(props)
}

fn push_variables<'a>(
    alloc: Global,
    text: &mut String,
    list: &PieceList<'a>,
    frame: &Frame<'a>,
) -> Mem<()> {
    let vars = list.variables(alloc, frame)?;
    let pairs = vars.lent(alloc)?;
    for pair in pairs.as_slice() {
        text.push_str(" ")?;
        text.push_str(pair.0)?;
        text.push_str("=")?;
        text.push_str(pair.1)?;
    }
    Ok(())
}

// A bar stands after each text, so that an empty one would show.
fn push_piece<'a>(
    alloc: Global,
    text: &mut String,
    list: &PieceList<'a>,
    piece: &Piece<'a>,
) -> Mem<()> {
    match piece {
        Piece::Text(plain) => {
            text.push_str(plain.text())?;
            text.push_str("|")?;
        }
        Piece::Script(name, frame) => {
            text.push_str("{")?;
            text.push_str(name.text())?;
            push_variables(alloc, text, list, frame)?;
            text.push_str("}")?;
        }
        Piece::Resource(name) => {
            text.push_str("[")?;
            text.push_str(name.text())?;
            text.push_str("]")?;
        }
    }
    Ok(())
}

fn outline(alloc: Global, list: &PieceList<'_>) -> Mem<String> {
    let mut text = String::new(alloc);
    for piece in list.pieces() {
        push_piece(alloc, &mut text, list, piece)?;
    }
    Ok(text)
}

fn are_pieces<'a>(alloc: Global, scope: &Scope<'a>, blocks: &'a Blocks, wanted: &str) -> bool {
    match blocks.pieces(alloc, scope) {
        Ok(list) => matches!(outline(alloc, &list), Ok(found) if found.as_str() == wanted),
        Err(_) => false,
    }
}

fn writes(alloc: Global, props: &PropList, text: &str, wanted: &str) -> bool {
    let none = Variables::None;
    let vars = Variables::With("k", "v", &none);
    match Blocks::read(alloc, text) {
        Ok(blocks) => are_pieces(alloc, &scope(props, &vars), &blocks, wanted),
        Err(_) => false,
    }
}

// A script, and its text: a bar after each piece of text, a script that is put in with its variables in braces, a resource in brackets.
const TEXTS: [(&str, &str); 77] = [
    ("", ""),
    ("a${properties.n}${k}", "a3v|"),
    ("\\${k}<p>\\${k}</p>", "${k}<p>${k}</p>|"),
    ("1 < 2 <3 <${k} </ p><>", "1 < 2 <3 <v </ p><>|"),
    (
        "<p id='${k}' data-id='${k}'>${k}</p>",
        "<p id='v' data-id='v'>v</p>|",
    ),
    (
        "<p data-sly-test='${properties.n}' id='${properties.n}'>x</p>",
        "<p id='3'>x</p>|",
    ),
    ("<p data-sly-test=\"${properties.n > 5}\">x</p>y", "y|"),
    ("<p data-sly-test='${properties.none}'>x</p>", ""),
    ("<p data-sly-test=''>x</p>", ""),
    ("<p data-sly-test='false'>x</p>", "<p>x</p>|"),
    ("<p data-sly-test = '${properties.no}'>x</p>.", ".|"),
    (
        "<i data-sly-test='${properties.zero}'>1</i><i data-sly-test='${properties.no}'>2</i><i data-sly-test='${properties.blank}'>3</i><i data-sly-test='${properties.empty}'>4</i>.",
        ".|",
    ),
    (
        "<i data-sly-test='${properties.yes}'>1</i><i data-sly-test='${properties.one}'>2</i><i data-sly-test='${properties.title}'>3</i>.",
        "<i>1</i><i>2</i><i>3</i>.|",
    ),
    ("<p data-sly-test='${\"a\" == \"a\"}'>x</p>", "<p>x</p>|"),
    ("<p data-sly-test='${2 > 1}'>x</p>", "<p>x</p>|"),
    (
        "<p data-sly-text='${properties.title}'>x</p>",
        "<p>&lt;T&gt;</p>|",
    ),
    (
        "<p data-sly-text=\"${properties.title @ context='unsafe'}\">x</p>",
        "<p><T></p>|",
    ),
    ("<p data-sly-text='plain'>x<b>y</b></p>", "<p>plain</p>|"),
    ("<p data-sly-text='${properties.tags}'></p>", "<p>a,b</p>|"),
    (
        "<p data-sly-text=\"${properties.tags @ join='; '}\"></p>",
        "<p>a; b</p>|",
    ),
    ("<p data-sly-text='${properties.none}'>x</p>", "<p></p>|"),
    ("<p data-sly-text=''>x</p>", "<p></p>|"),
    ("a<p data-sly-unwrap>x<b>y</b></p>z", "ax<b>y</b>z|"),
    ("<p data-sly-unwrap=''>x</p>", "x|"),
    ("<p data-sly-unwrap='${properties.none}'>x</p>", "<p>x</p>|"),
    ("<p data-sly-unwrap='${properties.n}'>x</p>", "x|"),
    ("<p data-sly-unwrap = '${properties.no}'>x</p>", "<p>x</p>|"),
    (
        "<ul data-sly-list=\"${properties.tags}\"><li>${item}</li></ul>",
        "<ul><li>a</li><li>b</li></ul>|",
    ),
    (
        "<p data-sly-list='${properties.one}'>${item}</p>${item}.",
        "<p>z</p>.|",
    ),
    ("<p data-sly-list='${properties.empty}'>x</p>y", "y|"),
    ("<p data-sly-list='${properties.none}'>x</p>y", "y|"),
    ("<p data-sly-list='${properties.n}'>x</p>y", "y|"),
    ("<p data-sly-list='a'>x</p>y", "y|"),
    ("<p data-sly-list='${[]}'>x</p>y", "y|"),
    (
        "<p data-sly-list='${properties.longs}'>${item};</p>",
        "<p>7;-2;</p>|",
    ),
    (
        "<p data-sly-list='${properties.truths}'>${item};</p>",
        "<p>true;false;</p>|",
    ),
    (
        "<p data-sly-list=\"${[1, 'x<', true, properties.tags]}\">${item};</p>",
        "<p>1;x&lt;;true;a,b;</p>|",
    ),
    (
        "<p data-sly-list='${properties.longs}'>${item > 5};</p>",
        "<p>false;false;</p>|",
    ),
    (
        "<p data-sly-list='${properties.tags}'><b data-sly-test=\"${item == 'b'}\">${item}</b></p>",
        "<p><b>b</b></p>|",
    ),
    (
        "<p data-sly-list.t='${[properties.title]}'>${t}${t @ context='unsafe'}</p>",
        "<p>&lt;T&gt;<T></p>|",
    ),
    (
        "<p data-sly-list.t='${properties.tags}' title='${t}'>${t}${item}</p>",
        "<p title=''>ab</p>|",
    ),
    (
        "<p data-sly-list.k='${properties.tags}'>${k}</p>${k}",
        "<p>ab</p>v|",
    ),
    (
        "<p data-sly-include='x.html'>y</p>",
        "<p>|{x.html k=v}</p>|",
    ),
    ("<p data-sly-include='${k}'>y</p>", "<p>|{v k=v}</p>|"),
    (
        "<p data-sly-include='${properties.none}'>y</p>",
        "<p>|{ k=v}</p>|",
    ),
    (
        "<p data-sly-resource='${properties.title}'>y</p>z",
        "<p>|[<T>]</p>z|",
    ),
    (
        "<p data-sly-resource='${properties.none}'>y</p>",
        "<p>|[]</p>|",
    ),
    (
        "<p data-sly-list='${properties.tags}' data-sly-test='${properties.no}'>x</p>.",
        ".|",
    ),
    (
        "<p data-sly-test='${properties.n}' data-sly-list='${properties.tags}'>${item}</p>",
        "<p>ab</p>|",
    ),
    (
        "<p data-sly-list='${properties.tags}' data-sly-test='${item}'>x</p>.",
        ".|",
    ),
    (
        "<p data-sly-text='t' data-sly-test='${properties.yes}'>x</p>",
        "<p>t</p>|",
    ),
    (
        "<p data-sly-unwrap data-sly-test='${properties.no}'>x</p>.",
        ".|",
    ),
    (
        "<p data-sly-test='${properties.no}' data-sly-include='x'></p>.",
        ".|",
    ),
    (
        "<p data-sly-test='${properties.yes}' data-sly-resource='x'></p>",
        "<p>|[x]</p>|",
    ),
    (
        "<p data-sly-list='${properties.tags}' data-sly-text='${item}'>x</p>",
        "<p>ab</p>|",
    ),
    (
        "<p data-sly-unwrap data-sly-list='${properties.tags}' data-sly-include='${item}'>y</p>",
        "{a item=a k=v}{b item=b k=v}",
    ),
    (
        "<p data-sly-list='${properties.tags}' data-sly-resource='${item}'>y</p>",
        "<p>|[a][b]</p>|",
    ),
    (
        "<p data-sly-list='${properties.tags}' data-sly-unwrap='${item}'>${item}</p>",
        "<p>ab</p>|",
    ),
    (
        "<p data-sly-unwrap data-sly-list='${properties.tags}'>${item}</p>",
        "ab|",
    ),
    (
        "<b data-sly-unwrap data-sly-text=\"${properties.n}\">z</b>",
        "3|",
    ),
    ("<p data-sly-unwrap data-sly-resource='x'>y</p>z", "[x]z|"),
    (
        "<p data-sly-list.x='${properties.tags}'><q data-sly-list.y='${[x, 3]}'>${x}${y},</q></p>",
        "<p><q>aa,a3,</q><q>bb,b3,</q></p>|",
    ),
    (
        "<p data-sly-list='${properties.tags}'><q data-sly-list='${[1, 2]}'>${item}</q>${item}</p>",
        "<p><q>12</q>a<q>12</q>b</p>|",
    ),
    (
        "<p data-sly-list.k='${properties.tags}'><q data-sly-unwrap data-sly-include='x'></q>,</p>",
        "<p>|{x k=a k=v},|{x k=b k=v},</p>|",
    ),
    (
        "<p data-sly-test='${properties.no}'><p data-sly-text='x'></p></p>y",
        "y|",
    ),
    (
        "<p data-sly-text='t'><p data-sly-include='x'></p></p>y",
        "<p>t</p>y|",
    ),
    ("<P data-sly-unwrap>x<p>y</P>z</p>w", "x<p>y</P>zw|"),
    ("<br data-sly-test='x'>y", "<br>y|"),
    ("<BR data-sly-test='${properties.no}'/>y", "y|"),
    ("<hr data-sly-unwrap>y", "y|"),
    ("<p data-sly-test='x'/>y</p>", "<p/>y</p>|"),
    ("<p data-sly-unwrap><p/>x</p>y", "<p/>xy|"),
    ("<!-- <b data-sly-text='x'>y</b> -->", "<!-- <b>x</b> -->|"),
    (
        "<a title=\"<p data-sly-text='x'>\">y</a>",
        "<a title=\"<p data-sly-text='x'>\">y</a>|",
    ),
    (
        "<p\n\t data-sly-test='x'\n id='y' >z</p>",
        "<p\n id='y' >z</p>|",
    ),
    ("<p id='y'  data-sly-test='x' >z</p>", "<p id='y' >z</p>|"),
    (
        "<a data-sly-test='x' href='${k}' title=\"${properties.title}\">y</a>",
        "<a href='v' title=\"&lt;T&gt;\">y</a>|",
    ),
];

#[test]
fn scripts_write_texts(rt: HostRuntime) {
    let Ok(props) = properties(rt.alloc()) else {
        return;
    };
    for (text, wanted) in &TEXTS {
        assert!(rt; writes(rt.alloc(), &props, *text, *wanted));
    }
}

// The fault of a script, if it has one.
