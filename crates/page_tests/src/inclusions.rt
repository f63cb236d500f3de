//! Pages of what other scripts and resources write, and those without end.
use crate::site::{other_page, some_page};
use std::hash::RandomState;
use std::test::Fail;

// Each script, and its page.
const PAGES: [(&str, &str); 24] = [
    ("plain ${properties.title}", "plain A"),
    (
        "<p data-sly-include='inner.html'>x</p>",
        "<p>[|A|/content/en]</p>",
    ),
    (
        "<p data-sly-include='/apps/s/page/inner.html'>x</p>",
        "<p>[|A|/content/en]</p>",
    ),
    (
        "<p data-sly-list='${properties.tags}'><b data-sly-include='inner.html'></b></p>",
        "<p><b>[a|A|/content/en]</b><b>[b|A|/content/en]</b></p>",
    ),
    (
        "<p data-sly-list.item='${properties.longs}'><b data-sly-include='inner.html'></b></p>",
        "<p><b>[7|A|/content/en]</b><b>[-2|A|/content/en]</b></p>",
    ),
    (
        "<p data-sly-list.other='${properties.one}'><b data-sly-include='inner.html'></b></p>",
        "<p><b>[|A|/content/en]</b></p>",
    ),
    (
        "<p data-sly-list='${properties.tags}'><b data-sly-resource='part'></b></p>",
        "<p><b>(T)</b><b>(T)</b></p>",
    ),
    ("<p data-sly-resource='/content/en/part'></p>", "<p>(T)</p>"),
    (
        "<p data-sly-include='parts/deep.html'></p>",
        "<p><i>leaf</i></p>",
    ),
    (
        "<p data-sly-include='parts/leaf.html' data-sly-unwrap></p>-${properties.title}",
        "leaf-A",
    ),
    (
        "<p data-sly-unwrap data-sly-include='inner.html'></p><p data-sly-resource='part'></p>",
        "[|A|/content/en]<p>(T)</p>",
    ),
    // scripts that aren't there, or have no reading
    ("<p data-sly-include='leaf.html'>x</p>y", "<p></p>y"),
    ("<p data-sly-include='${absent}'>x</p>y", "<p></p>y"),
    ("<p data-sly-include='../page/inner.html'></p>", "<p></p>"),
    ("<p data-sly-include='noscript'></p>", "<p></p>"),
    ("<p data-sly-include='bad.html'>x</p>y", "<p></p>y"),
    ("<p data-sly-include='/content/en'></p>", "<p></p>"),
    // resources that aren't there, or have no script or one without a reading
    ("<p data-sly-resource='missing'>x</p>y", "<p></p>y"),
    ("<p data-sly-resource='${absent}'>x</p>y", "<p></p>y"),
    ("<p data-sly-resource='none'>x</p>y", "<p></p>y"),
    ("<p data-sly-resource='bad'>x</p>y", "<p></p>y"),
    ("<p data-sly-resource='..'>x</p>y", "<p></p>y"),
    ("<p data-sly-resource='/'>x</p>y", "<p></p>y"),
    // the page itself, where it isn't put in
    (
        "<p data-sly-test='' data-sly-include='html.html'>x</p>y",
        "y",
    ),
];

// Scripts without a page: those that put themselves in, by name or by their resource, or another that puts them in, and those without a
// reading.
const ENDLESS: [&str; 8] = [
    "<p data-sly-include='html.html'></p>",
    "<p data-sly-include='/apps/s/page/html.html'></p>",
    "<p data-sly-include='other.html'></p>",
    "<p data-sly-resource='${resource.path}'></p>",
    "<p data-sly-resource='/content/en'></p>",
    "<p data-sly-resource='back'></p>",
    "<p data-sly-text=\\\"x\\\">",
    "${",
];

#[test]
fn pages_are_put_together(rt: HostRuntime) -> Result<(), Fail> {
    let seeds = RandomState::new(&rt)?;
    assert_eq!(rt; other_page(rt.alloc(), seeds, &PAGES), None);
    Ok(())
}

#[test]
fn pages_without_end_are_refused(rt: HostRuntime) -> Result<(), Fail> {
    let seeds = RandomState::new(&rt)?;
    assert_eq!(rt; some_page(rt.alloc(), seeds, &ENDLESS), None);
    Ok(())
}
