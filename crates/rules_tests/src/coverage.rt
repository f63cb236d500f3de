//! Keys of pages, what an invalidation covers, and what it touches.
use cover_rules::{Action, Invalidation, PageKey, StatRule, covers, page_key, touched};
use sp_base::{Path, PathFault, PathList};
use std::alloc::Global;

fn is_key(key: &Option<PageKey>, folder: &str, file: &str) -> bool {
    match key {
        Some(key) => key.folder.as_text() == folder && key.file.text() == file,
        None => file.is_empty(),
    }
}

fn has_key(alloc: Global, text: &str, folder: &str, file: &str) -> Result<bool, PathFault> {
    let path = Path::read(alloc, text)?;
    Ok(is_key(&page_key(alloc, &path)?, folder, file))
}

// A path, and the folder and the file of its page; nothing where it has none.
const KEYS: [(&str, &str, &str); 9] = [
    ("/content/en.html", "/content", "en.html"),
    ("/en.a4.html", "/", "en.a4.html"),
    ("/a/jcr:content/x.json", "/a/_jcr_content", "x.json"),
    (
        "/a/_jcr_content/sling:x.json",
        "/a/_jcr_content",
        "_sling_x.json",
    ),
    ("/", "", ""),
    ("/content/en", "", ""),
    ("/content/.html", "", ""),
    ("/content/en.", "", ""),
    ("/a.b/en.html", "", ""),
];

#[test]
fn finds_keys(rt: HostRuntime) {
    for (text, folder, file) in &KEYS {
        assert!(rt; matches!(has_key(rt.alloc(), *text, *folder, *file), Ok(true)));
    }
}

const OUTDATED: StatRule = StatRule {
    level: 2,
    auto: true,
};

fn is_covered(alloc: Global, inv: &Invalidation, page: &str) -> Result<bool, PathFault> {
    let page = Path::read(alloc, page)?;
    Ok(matches!(page_key(alloc, &page)?, Some(key) if covers(OUTDATED, inv, &key)))
}

fn covers_as_wanted(
    alloc: Global,
    action: Action,
    only: bool,
    handle: &str,
    page: &str,
    wanted: bool,
) -> Result<bool, PathFault> {
    let handle = Path::read(alloc, handle)?;
    let inv = Invalidation {
        action,
        handle,
        only,
    };
    Ok(is_covered(alloc, &inv, page)? == wanted)
}

// What was done, whether to the node alone, its path, a page, and whether it is covered.
const COVERED: [(Action, bool, &str, &str, bool); 24] = [
    (
        Action::Activate,
        false,
        "/content/site/en/p",
        "/content/site/fr/x.html",
        true,
    ),
    (
        Action::Activate,
        true,
        "/content/site/en/p",
        "/content/site/fr/x.html",
        false,
    ),
    (
        Action::Activate,
        false,
        "/content/site/en/p",
        "/content/z.html",
        true,
    ),
    (
        Action::Activate,
        true,
        "/content/site/en/p",
        "/content/z.html",
        false,
    ),
    (
        Action::Activate,
        false,
        "/content/site/en/p",
        "/content/other/y.html",
        false,
    ),
    (
        Action::Activate,
        true,
        "/content/site/en/p",
        "/content/other/y.html",
        false,
    ),
    (
        Action::Activate,
        false,
        "/content/site/en/p",
        "/content/site/en/p.a4.html",
        true,
    ),
    (
        Action::Activate,
        true,
        "/content/site/en/p",
        "/content/site/en/p.a4.html",
        true,
    ),
    (Action::Activate, true, "/a/en", "/a/en.html", true),
    (Action::Delete, true, "/a/en", "/a/en.html", true),
    (Action::Activate, true, "/a/en", "/a/enx.html", false),
    (Action::Delete, true, "/a/en", "/a/enx.html", false),
    (
        Action::Activate,
        true,
        "/a/en",
        "/a/en/_jcr_content/p.html",
        true,
    ),
    (
        Action::Delete,
        true,
        "/a/en",
        "/a/en/_jcr_content/p.html",
        true,
    ),
    (
        Action::Activate,
        true,
        "/a/en",
        "/a/en/jcr:content/p/q.html",
        true,
    ),
    (
        Action::Delete,
        true,
        "/a/en",
        "/a/en/jcr:content/p/q.html",
        true,
    ),
    (
        Action::Activate,
        true,
        "/a/en",
        "/a/en/_jcr_contents/p.html",
        false,
    ),
    (
        Action::Delete,
        true,
        "/a/en",
        "/a/en/_jcr_contents/p.html",
        true,
    ),
    (Action::Activate, true, "/a/en", "/a/en/b/c.html", false),
    (Action::Delete, true, "/a/en", "/a/en/b/c.html", true),
    (Action::Activate, true, "/a/en", "/a/b.html", false),
    (Action::Delete, true, "/a/en", "/a/b.html", false),
    (Action::Activate, true, "/logo.txt", "/logo.txt", true),
    (Action::Activate, true, "/", "/a.html", false),
];

#[test]
fn covers_by_touch_and_by_name(rt: HostRuntime) {
    for (action, only, handle, page, wanted) in &COVERED {
        let told = covers_as_wanted(rt.alloc(), *action, *only, *handle, *page, *wanted);
        assert!(rt; matches!(told, Ok(true)));
    }
}

fn are_listed(folders: &PathList, wanted: &[&str]) -> bool {
    if folders.len() != wanted.len() {
        return false;
    }
    for (folder, text) in folders.as_slice().iter().zip(wanted.iter()) {
        if folder.as_text() != *text {
            return false;
        }
    }
    true
}

fn touches(alloc: Global, level: usize, handle: &str, wanted: &[&str]) -> Result<bool, PathFault> {
    let handle = Path::read(alloc, handle)?;
    let inv = Invalidation {
        action: Action::Activate,
        handle,
        only: false,
    };
    Ok(are_listed(&touched(alloc, level, &inv)?, wanted))
}

// A folder whose name is longer in a file's name than that may be stands before `/b/c`.
const LONG: &str = "/a/                                                                   /b/c";

// The level, the handle, and the folders that are touched.
const TOUCHED: [(usize, &str, &[&str]); 7] = [
    (2, "/content/site/en/p", &["/", "/content", "/content/site"]),
    (2, "/content/en", &["/", "/content"]),
    (2, "/jcr:a/b", &["/", "/_jcr_a"]),
    (2, "/", &["/"]),
    (9, LONG, &["/", "/a"]),
    (
        4,
        "/content/dam/logo.png/x",
        &["/", "/content", "/content/dam"],
    ),
    (4, "/content/.a/b/c", &["/", "/content"]),
];

#[test]
fn touches_folders(rt: HostRuntime) {
    for (level, handle, folders) in &TOUCHED {
        assert!(rt; matches!(touches(rt.alloc(), *level, *handle, *folders), Ok(true)));
    }
}
