//! Pages of one script each, worked out by hand.
use crate::site::other_page;
use std::hash::RandomState;
use std::test::Fail;

// Each script, as a JSON string has it, and its page.
const PAGES: [(&str, &str); 70] = [
    // no blocks
    ("", ""),
    ("a${properties.n}${k}b", "a3b"),
    ("1 < 2 <3 <${properties.n} </ p><>", "1 < 2 <3 <3 </ p><>"),
    (
        r#"\\${properties.n}<p>\\${properties.n}</p>"#,
        "${properties.n}<p>${properties.n}</p>",
    ),
    (
        "<p id='${properties.n}' data-id='i'>${properties.title}</p>",
        "<p id='3' data-id='i'>A</p>",
    ),
    // tests
    (
        "<p data-sly-test='${properties.n}' id='${properties.n}'>x</p>",
        "<p id='3'>x</p>",
    ),
    (r#"<p data-sly-test=\"${properties.n > 5}\">x</p>y"#, "y"),
    ("<p data-sly-test='${properties.absent}'>x</p>.", "."),
    ("<p data-sly-test=''>x</p>.", "."),
    ("<p data-sly-test='false'>x</p>", "<p>x</p>"),
    (
        "<i data-sly-test='${properties.zero}'>1</i><i data-sly-test='${properties.no}'>2</i><i data-sly-test='${properties.blank}'>3</i><i data-sly-test='${properties.empty}'>4</i>.",
        ".",
    ),
    (
        "<i data-sly-test='${properties.yes}'>1</i><i data-sly-test='${properties.one}'>2</i><i data-sly-test='${properties.markup}'>3</i>.",
        "<i>1</i><i>2</i><i>3</i>.",
    ),
    ("<p data-sly-test='${2 > 1}'>x</p>", "<p>x</p>"),
    // texts
    (
        "<p data-sly-text='${properties.markup}'>x</p>",
        "<p>&lt;T&gt;</p>",
    ),
    (
        r#"<p data-sly-text=\"${properties.markup @ context='unsafe'}\">x</p>"#,
        "<p><T></p>",
    ),
    ("<p data-sly-text='plain'>x<b>y</b></p>", "<p>plain</p>"),
    ("<p data-sly-text='${properties.tags}'></p>", "<p>a,b</p>"),
    (
        r#"<p data-sly-text=\"${properties.tags @ join='; '}\"></p>"#,
        "<p>a; b</p>",
    ),
    ("<p data-sly-text='${properties.absent}'>x</p>", "<p></p>"),
    ("<p data-sly-text=''>x</p>", "<p></p>"),
    // tags left out
    ("a<p data-sly-unwrap>x<b>y</b></p>z", "ax<b>y</b>z"),
    ("<p data-sly-unwrap=''>x</p>", "x"),
    (
        "<p data-sly-unwrap='${properties.absent}'>x</p>",
        "<p>x</p>",
    ),
    ("<p data-sly-unwrap='${properties.n}'>x</p>", "x"),
    // lists
    (
        r#"<ul data-sly-list=\"${properties.tags}\"><li>${item}</li></ul>"#,
        "<ul><li>a</li><li>b</li></ul>",
    ),
    (
        "<p data-sly-list='${properties.one}'>${item}</p>${item}.",
        "<p>z</p>.",
    ),
    ("<p data-sly-list='${properties.empty}'>x</p>y", "y"),
    ("<p data-sly-list='${properties.absent}'>x</p>y", "y"),
    ("<p data-sly-list='${properties.n}'>x</p>y", "y"),
    ("<p data-sly-list='${properties.title}'>x</p>y", "y"),
    ("<p data-sly-list='${properties.blank}'>x</p>y", "y"),
    ("<p data-sly-list='${properties.yes}'>x</p>y", "y"),
    ("<p data-sly-list='a'>x</p>y", "y"),
    ("<p data-sly-list='${[]}'>x</p>y", "y"),
    (
        "<p data-sly-list='${properties.longs}'>${item};</p>",
        "<p>7;-2;</p>",
    ),
    (
        "<p data-sly-list='${properties.truths}'>${item};</p>",
        "<p>true;false;</p>",
    ),
    (
        r#"<p data-sly-list=\"${[1, 'x<', true, properties.tags]}\">${item};</p>"#,
        "<p>1;x&lt;;true;a,b;</p>",
    ),
    (
        "<p data-sly-list='${properties.longs}'>${item > 5};</p>",
        "<p>false;false;</p>",
    ),
    (
        r#"<p data-sly-list='${properties.tags}'><b data-sly-test=\"${item == 'b'}\">${item}</b></p>"#,
        "<p><b>b</b></p>",
    ),
    (
        "<p data-sly-list.t='${[properties.markup]}'>${t}${t @ context='unsafe'}</p>",
        "<p>&lt;T&gt;<T></p>",
    ),
    (
        "<p data-sly-list.t='${properties.tags}' title='${t}'>${t}${item}</p>",
        "<p title=''>ab</p>",
    ),
    // two blocks of one element
    (
        "<p data-sly-list='${properties.tags}' data-sly-test='${properties.no}'>x</p>.",
        ".",
    ),
    (
        "<p data-sly-test='${properties.n}' data-sly-list='${properties.tags}'>${item}</p>",
        "<p>ab</p>",
    ),
    (
        "<p data-sly-list='${properties.tags}' data-sly-test='${item}'>x</p>.",
        ".",
    ),
    (
        "<p data-sly-text='t' data-sly-test='${properties.yes}'>x</p>",
        "<p>t</p>",
    ),
    (
        "<p data-sly-unwrap data-sly-test='${properties.no}'>x</p>.",
        ".",
    ),
    (
        "<p data-sly-test='${properties.no}' data-sly-include='inner.html'></p>.",
        ".",
    ),
    (
        "<p data-sly-test='${properties.yes}' data-sly-resource='part'></p>",
        "<p>(T)</p>",
    ),
    (
        "<p data-sly-list='${properties.tags}' data-sly-text='${item}'>x</p>",
        "<p>ab</p>",
    ),
    (
        "<p data-sly-unwrap data-sly-list='${properties.tags}' data-sly-include='inner.html'>y</p>",
        "[a|A|/content/en][b|A|/content/en]",
    ),
    (
        r#"<p data-sly-list=\"${['part', 'bad', 'part']}\" data-sly-resource='${item}'>y</p>"#,
        "<p>(T)(T)</p>",
    ),
    (
        "<p data-sly-list='${properties.tags}' data-sly-unwrap='${item}'>${item}</p>",
        "<p>ab</p>",
    ),
    (
        "<p data-sly-unwrap data-sly-list='${properties.tags}'>${item}</p>",
        "ab",
    ),
    (
        r#"<b data-sly-unwrap data-sly-text=\"${properties.n}\">z</b>"#,
        "3",
    ),
    ("<p data-sly-unwrap data-sly-resource='part'>y</p>z", "(T)z"),
    // elements in one another
    (
        "<p data-sly-list.x='${properties.tags}'><q data-sly-list.y='${[x, 3]}'>${x}${y},</q></p>",
        "<p><q>aa,a3,</q><q>bb,b3,</q></p>",
    ),
    (
        "<p data-sly-list='${properties.tags}'><q data-sly-list='${[1, 2]}'>${item}</q>${item}</p>",
        "<p><q>12</q>a<q>12</q>b</p>",
    ),
    (
        "<p data-sly-list='${properties.tags}'><q data-sly-unwrap data-sly-include='inner.html'></q>,</p>",
        "<p>[a|A|/content/en],[b|A|/content/en],</p>",
    ),
    (
        "<p data-sly-test='${properties.no}'><p data-sly-text='x'></p></p>y",
        "y",
    ),
    (
        "<p data-sly-text='t'><p data-sly-include='inner.html'></p></p>y",
        "<p>t</p>y",
    ),
    ("<P data-sly-unwrap>x<p>y</P>z</p>w", "x<p>y</P>zw"),
    // elements without an end tag
    ("<br data-sly-test='x'>y", "<br>y"),
    ("<BR data-sly-test='${properties.no}'/>y", "y"),
    ("<hr data-sly-unwrap>y", "y"),
    ("<p data-sly-test='x'/>y</p>", "<p/>y</p>"),
    ("<p data-sly-unwrap><p/>x</p>y", "<p/>xy"),
    // comments, tags in values, blanks
    ("<!-- <b data-sly-text='x'>y</b> -->", "<!-- <b>x</b> -->"),
    (
        r#"<a title=\"<p data-sly-text='x'>\">y</a>"#,
        r#"<a title="<p data-sly-text='x'>">y</a>"#,
    ),
    (
        r#"<p\n\t data-sly-test='x'\n id='y' >z</p>"#,
        "<p\n id='y' >z</p>",
    ),
    ("<p id='y'  data-sly-test='x' >z</p>", "<p id='y' >z</p>"),
];

#[test]
fn scripts_make_pages(rt: HostRuntime) -> Result<(), Fail> {
    let seeds = RandomState::new(&rt)?;
    assert_eq!(rt; other_page(rt.alloc(), seeds, &PAGES), None);
    Ok(())
}
