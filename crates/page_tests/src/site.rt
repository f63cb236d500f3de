//! A site with one page, and what its page is answered.
use content_json::read_tree;
use publisher::Publisher;
use sp_base::{Answer, Ask, ByteBuf, Mem, NoMemory, Path, TextBuf};
use std::alloc::Global;
use std::hash::RandomState;

// `/content/en` has a property of each kind. Below it `part` has a script that shows its variables, `back` one that puts the page in, `none`
// has no script, and that of `bad` has no reading.
const CONTENT: &str =
    r#"{"content":{"en":{"sling:resourceType":"s/page","title":"A","markup":"<T>","blank":"","n":3,"zero":0,"yes":true,"no":false,"tags":["a","b"],"one":["z"],"empty":[],"longs":[7,-2],"truths":[true,false],"part":{"sling:resourceType":"s/part","title":"T"},"back":{"sling:resourceType":"s/back"},"none":{"sling:resourceType":"s/none"},"bad":{"sling:resourceType":"s/bad"}"#;

const APPS: &str =
    r#"}},"apps":{"s":{"part":{"html.html":{"jcr:content":{"jcr:data":"(${item}${properties.title})"}}},"back":{"html.html":{"jcr:content":{"jcr:data":"<p data-sly-resource='/content/en'></p>"}}},"bad":{"html.html":{"jcr:content":{"jcr:data":"${"}}},"page":{"inner.html":{"jcr:content":{"jcr:data":"[${item}|${properties.title}|${resource.path}]"}},"other.html":{"jcr:content":{"jcr:data":"<p data-sly-include='html.html'></p>"}},"bad.html":{"jcr:content":{"jcr:data":"${"}},"noscript":{"jcr:content":{"jcr:data":"x"}},"parts":{"leaf.html":{"jcr:content":{"jcr:data":"leaf"}},"deep.html":{"jcr:content":{"jcr:data":"<i data-sly-include='leaf.html'></i>"}}},"html.html":{"jcr:content":{"jcr:data":""#;

const QUOTE: &str = r#""}}"#;

const END: &str = "}}}}";

/// Writes a text so often.
pub fn push_times(text: &mut String, part: &str, times: usize) -> Mem<()> {
    for _time in 0..times {
        text.push_str(part)?;
    }
    Ok(())
}

/// Writes texts one after another.
pub fn push_all(text: &mut String, parts: &[&str]) -> Mem<()> {
    for part in parts {
        text.push_str(*part)?;
    }
    Ok(())
}

/// A site with this script of its page; `members` are more of the page, `scripts` more beside its script, each with a comma before it.
#[derive(Clone, Copy, Drop)]
pub struct Site<'s> {
    pub script: &'s str,
    pub members: &'s str,
    pub scripts: &'s str,
}

// The site's content.
fn content(alloc: Global, site: &Site<'_>) -> Mem<String> {
    let mut text = String::new(alloc);
    push_all(
        &mut text,
        &[
            CONTENT,
            site.members,
            APPS,
            site.script,
            QUOTE,
            site.scripts,
            END,
        ],
    )?;
    Ok(text)
}

fn publisher(alloc: Global, seeds: RandomState, site: &Site<'_>) -> Mem<Publisher> {
    let text = content(alloc, site)?;
    match read_tree(alloc, seeds, text.as_str().as_bytes()) {
        Ok(tree) => Ok(Publisher::new(alloc, seeds, tree)),
        Err(_) => Err(NoMemory),
    }
}

fn get(alloc: Global) -> Mem<Ask> {
    let Ok(path) = Path::read(alloc, "/content/en.html") else {
        return Err(NoMemory);
    };
    Ok(Ask {
        method: TextBuf::of(alloc, "GET")?,
        host: TextBuf::of(alloc, "localhost")?,
        port: 80,
        path,
        slash: false,
        kind: TextBuf::of(alloc, "")?,
        body: ByteBuf::of(alloc, b"")?,
    })
}

fn answer(alloc: Global, seeds: RandomState, site: &Site<'_>) -> Mem<Answer> {
    let ask = get(alloc)?;
    let mut publisher = publisher(alloc, seeds, site)?;
    publisher.answer(alloc, &ask)
}

// Whether this is the site's page.
fn has_page(alloc: Global, seeds: RandomState, site: &Site<'_>, page: &str) -> bool {
    matches!(
        answer(alloc, seeds, site),
        Ok(answer) if answer.status == 200 && answer.body.bytes() == page.as_bytes()
    )
}

/// How many bytes the site's page has; none where there is no page.
pub fn page_len(alloc: Global, seeds: RandomState, site: &Site<'_>) -> Mem<Option<usize>> {
    let answer = answer(alloc, seeds, site)?;
    match answer.status {
        200 => Ok(Some(answer.body.bytes().len())),
        500 => Ok(None),
        _ => Err(NoMemory),
    }
}

// Whether the site has no page.
fn has_no_page(alloc: Global, seeds: RandomState, site: &Site<'_>) -> bool {
    matches!(answer(alloc, seeds, site), Ok(answer) if answer.status == 500)
}

// The site with this script and nothing more.
fn with_script<'s>(script: &'s str) -> Site<'s> {
    Site {
        script,
        members: "",
        scripts: "",
    }
}

/// The first row, a script and its page, that doesn't hold.
pub fn other_page(alloc: Global, seeds: RandomState, rows: &[(&str, &str)]) -> Option<usize> {
    for (place, (script, page)) in rows.iter().enumerate() {
        if !has_page(alloc, seeds, &with_script(*script), *page) {
            return Some(place);
        }
    }
    None
}

/// The first of these scripts that has a page.
pub fn some_page(alloc: Global, seeds: RandomState, scripts: &[&str]) -> Option<usize> {
    for (place, script) in scripts.iter().enumerate() {
        if !has_no_page(alloc, seeds, &with_script(*script)) {
            return Some(place);
        }
    }
    None
}
