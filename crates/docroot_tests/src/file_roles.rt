//! What files are, by their names.
use docroot_format::{is_page_file, is_stat_file};

// A name, whether it is that of a page file, and whether it is that of a .stat file.
type NameRow<'a> = (&'a str, bool, bool);

const NAMES: &[NameRow<'_>] = &[
    ("en.html", true, false),
    ("content/en.html", true, false),
    ("content/en.html%h", true, false),
    ("content/a", true, false),
    (".stat", false, true),
    ("content/.stat", false, true),
    ("content/.stat%h", false, false),
    ("content/x.stat", true, false),
    (".epoch", false, false),
    ("", false, false),
    ("content/", false, false),
    ("/en.html", false, false),
    ("content//.stat", false, false),
    ("../en.html", false, false),
    ("content/./.stat", false, false),
];

fn are_told(rows: &[NameRow<'_>]) -> bool {
    rows.iter().all(|(name, page, stat)| is_page_file(*name) == *page
        && is_stat_file(*name) == *stat)
}

#[test]
fn files_are_told_by_their_names(rt: HostRuntime) {
    assert!(rt; are_told(NAMES));
}
