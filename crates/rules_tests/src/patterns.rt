//! Filters with patterns: which requests an entry applies to, and what a member in single quotes may be.
use any_config::{FarmFault, farm_of, read_any};
use dispatch_rules::admits;
use sp_base::{LentHead, Mem, Path, PathFault, Req};
use std::alloc::Global;

const BEFORE: &str =
    r#"/farms { /site { /virtualhosts { "localhost" } /filter { /1 { /type "allow" "#;

const AFTER: &str = " } } /cache { /rules { } } } }";

// What an entry that allows has besides its type, and a method, a path and a query: one request that is admitted, and one that isn't.
type Row = (&'static str, Asked, Asked);

type Asked = (&'static str, &'static str, &'static str);

const ROWS: [Row; 22] = [
    ("/url '/a.*'", ("GET", "/abc", ""), ("GET", "/b/abc", "")),
    (
        "/method '(GET|HEAD)'",
        ("HEAD", "/a", ""),
        ("HEADS", "/a", ""),
    ),
    (
        "/method '(GET|HEAD)'",
        ("GET", "/a", ""),
        ("POST", "/a", ""),
    ),
    (
        "/url '/content/.*\\.(html|json)'",
        ("GET", "/content/en.html", ""),
        ("GET", "/content/en.html5", ""),
    ),
    (
        "/url '/content/.*\\.(html|json)'",
        ("GET", "/content/a/b.json", ""),
        ("GET", "/x/content/en.json", ""),
    ),
    (
        "/url '^/content/[a-z]+$'",
        ("GET", "/content/en", ""),
        ("GET", "/content/en2", ""),
    ),
    ("/url '/ä.c'", ("GET", "/äöc", ""), ("GET", "/äc", "")),
    ("/url '/a*'", ("GET", "/aa", ""), ("GET", "/ab", "")),
    ("/url \"/a*\"", ("GET", "/ab", ""), ("GET", "/b", "")),
    ("/url '/a.c'", ("GET", "/abc", ""), ("GET", "/abbc", "")),
    ("/url \"/a.c\"", ("GET", "/a.c", ""), ("GET", "/abc", "")),
    (
        "/url '/[^.]*' /url \"/b\"",
        ("GET", "/a", ""),
        ("GET", "/b.c", ""),
    ),
    (
        "/path '/a|/b'",
        ("GET", "/b.html", ""),
        ("GET", "/c.html", ""),
    ),
    (
        "/selectors '(print|[0-9-]+)'",
        ("GET", "/a.1-2.html", ""),
        ("GET", "/a.print.1.html", ""),
    ),
    (
        "/selectors '[a-z]+(\\.[a-z]+)*'",
        ("GET", "/a.b.c.html", ""),
        ("GET", "/a.html", ""),
    ),
    (
        "/extension 'jpe?g'",
        ("GET", "/a.jpg", ""),
        ("GET", "/a.jpegs", ""),
    ),
    (
        "/suffix '/.+'",
        ("GET", "/a.html/b", ""),
        ("GET", "/a.html", ""),
    ),
    (
        "/query '(.*&)?q=[0-9]+'",
        ("GET", "/a", "b=c&q=12"),
        ("GET", "/a", "q=12&b=c"),
    ),
    (
        "/glob '(GET|HEAD) /[a-z]+ HTTP/1\\.[01]'",
        ("GET", "/abc", ""),
        ("GET", "/a/b", ""),
    ),
    (
        "/method '(GET|HEAD)' /url \"/a*\"",
        ("HEAD", "/ab", ""),
        ("HEAD", "/b", ""),
    ),
    (
        "/method \"GET\" /url '/a.*'",
        ("GET", "/ab", ""),
        ("HEAD", "/ab", ""),
    ),
    (
        "/extension '(html|json)' /selectors ''",
        ("GET", "/a.html", ""),
        ("GET", "/a.b.html", ""),
    ),
];

// What such an entry has besides its type, and the member that its file is refused for.
const REFUSED: [(&str, &str); 8] = [
    ("/url 'a{2}'", "url"),
    ("/method '(GET|HEAD'", "method"),
    ("/glob '*'", "glob"),
    ("/query '[z-a]'", "query"),
    ("/suffix '\\d'", "suffix"),
    ("/extension '(?:a)' /suffix '*'", "extension"),
    ("/url '/a' /path { }", "path"),
    (
        "/url '(((((((((((((((((((((((((((((((((a)))))))))))))))))))))))))))))))))'",
        "url",
    ),
];

fn farm_text(alloc: Global, members: &str) -> Mem<String> {
    let mut text = String::new(alloc);
    text.push_str(BEFORE)?;
    text.push_str(members)?;
    text.push_str(AFTER)?;
    Ok(text)
}

fn request(alloc: Global, asked: &Asked) -> Result<Req, PathFault> {
    let head = LentHead {
        method: asked.0,
        target: asked.1,
        minor: 1,
        host: "localhost",
        port: 80,
        slash: false,
        query: Some(asked.2.as_bytes()),
        close: false,
    };
    let path = Path::read(alloc, asked.1)?;
    Ok(Req::of(alloc, &head, path, b"", Vec::new(alloc))?)
}

fn is_row(alloc: Global, row: &Row) -> Result<bool, PathFault> {
    let text = farm_text(alloc, row.0)?;
    let Ok(file) = read_any(alloc, text.as_bytes()) else {
        return Ok(false);
    };
    let Ok(farm) = farm_of(alloc, &file) else {
        return Ok(false);
    };
    let held = admits(alloc, &farm, &request(alloc, &row.1)?)?;
    let apart = admits(alloc, &farm, &request(alloc, &row.2)?)?;
    Ok(held && !apart)
}

fn is_bad_kind(fault: &FarmFault, name: &str) -> bool {
    match fault {
        FarmFault::BadKind(own) => own.text() == name,
        _ => false,
    }
}

fn is_refused(alloc: Global, members: &str, name: &str) -> Mem<bool> {
    let text = farm_text(alloc, members)?;
    let Ok(file) = read_any(alloc, text.as_bytes()) else {
        return Ok(false);
    };
    let Err(fault) = farm_of(alloc, &file) else {
        return Ok(false);
    };
    Ok(is_bad_kind(&fault, name))
}

#[test]
fn rows(rt: HostRuntime) {
    for row in &ROWS {
        assert!(rt; matches!(is_row(rt.alloc(), row), Ok(true)));
    }
}

#[test]
fn refused(rt: HostRuntime) {
    for (members, name) in &REFUSED {
        assert!(rt; matches!(is_refused(rt.alloc(), *members, *name), Ok(true)));
    }
}
