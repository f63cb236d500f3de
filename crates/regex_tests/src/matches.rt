//! Patterns against texts: the rows are worked out by hand from the language.
use regex_rules::{Pattern, PatternFault};
use std::alloc::Global;

// A pattern, a text that it matches, and one that it doesn't.
const ROWS: [(&str, &str, &str); 60] = [
    ("(GET|HEAD)", "HEAD", "HEADS"),
    ("/a.*", "/abc", "HEAD"),
    (
        "localhost\\.(80|8080)/old",
        "localhost.80/old",
        "localhost.8/old",
    ),
    ("[a-c]+x?", "abx", ""),
    ("", "", "a"),
    ("a", "a", "A"),
    ("^a", "a", "^a"),
    ("a$", "a", "a$"),
    ("^$", "", "^$"),
    ("^", "", "^"),
    ("$", "", "$"),
    ("ab", "ab", "a"),
    ("a|b", "b", "ab"),
    ("a|bc", "bc", "ac"),
    ("ab|cd", "cd", "abd"),
    ("a|", "", "b"),
    ("|a", "", "aa"),
    ("a||b", "", "ab"),
    ("a*", "aaa", "aab"),
    ("a*", "", "b"),
    ("a+", "a", ""),
    ("a+", "aaaa", "aaba"),
    ("a?", "", "aa"),
    ("a?b", "ab", "aab"),
    ("ab*", "abbb", "abab"),
    ("(ab)*", "abab", "aba"),
    ("(ab)+", "ab", ""),
    ("(ab)?c", "abc", "ababc"),
    ("()", "", "a"),
    ("()*", "", "a"),
    ("(|a)+", "aaa", "ab"),
    ("(a|b)*", "abba", "abca"),
    ("(a*)*", "aaa", "ab"),
    ("(a*)*b", "aab", "aaba"),
    ("(a|a)*b", "aaab", "aaa"),
    ("(a?)+b", "b", "bb"),
    ("(a+b?)+c", "abaabc", "bac"),
    ("((a|b)c)*d", "acbcd", "abcd"),
    ("(a(b|c)*)+", "abcbaa", "ba"),
    ("a(bc|b)c", "abc", "abbc"),
    ("(a|ab)(c|bcd)", "abcd", "abd"),
    (".", "a", ""),
    (".", "ä", "ab"),
    (".*", "a/b?c", "a\nb"),
    ("a.c", "a.c", "a\nc"),
    ("[abc]", "b", "d"),
    ("[a-c0-9]*", "a0b9", "a-b"),
    ("[^a-c]", "d", "b"),
    ("[^a]", "\n", "a"),
    ("[a-]", "-", "b"),
    ("[a-c-]", "-", "d"),
    ("[a\\-c]", "-", "b"),
    ("[\\]]", "]", "\\"),
    ("[\\^a]", "^", "b"),
    ("[.*]", "*", "a"),
    ("[\\[-\\]]", "\\", "Z"),
    ("[ä-ü]", "ö", "a"),
    ("\\.\\*\\+\\?", ".*+?", "...."),
    ("\\/a\\-b", "/a-b", "/ab"),
    (
        "/content(/[a-z]+)*\\.html",
        "/content/en/home.html",
        "/content/en/.html",
    ),
];

// The same of patterns with 64 characters, with 65 and with more: those above 64 are matched by a walk over their places.
const LONG_ROWS: [(&str, &str, &str); 6] = [
    (
        "aaaaaaaaaaaaaaaabbbbbbbbbbbbbbbbccccccccccccccccddddddddddddddd(d|e)*",
        "aaaaaaaaaaaaaaaabbbbbbbbbbbbbbbbccccccccccccccccddddddddddddddd",
        "aaaaaaaaaaaaaaaabbbbbbbbbbbbbbbbccccccccccccccccdddddddddddddde",
    ),
    (
        "aaaaaaaaaaaaaaaabbbbbbbbbbbbbbbbccccccccccccccccdddddddddddddddd",
        "aaaaaaaaaaaaaaaabbbbbbbbbbbbbbbbccccccccccccccccdddddddddddddddd",
        "aaaaaaaaaaaaaaaabbbbbbbbbbbbbbbbccccccccccccccccddddddddddddddd",
    ),
    (
        "aaaaaaaaaaaaaaaabbbbbbbbbbbbbbbbccccccccccccccccdddddddddddddddde?",
        "aaaaaaaaaaaaaaaabbbbbbbbbbbbbbbbccccccccccccccccdddddddddddddddde",
        "aaaaaaaaaaaaaaaabbbbbbbbbbbbbbbbccccccccccccccccddddddddddddddddee",
    ),
    (
        "/content/([a-z]|[0-9]|-)+/aaaaaaaaaabbbbbbbbbbccccccccccddddddddddeeeeeeeeeeffffffffff(x|y)*",
        "/content/a-1/aaaaaaaaaabbbbbbbbbbccccccccccddddddddddeeeeeeeeeeffffffffffxyx",
        "/content//aaaaaaaaaabbbbbbbbbbccccccccccddddddddddeeeeeeeeeeffffffffffxyx",
    ),
    (
        "(aaaaaaaaaaaaaaaaaaaaaaaaaaaaaaaaaa|bbbbbbbbbbbbbbbbbbbbbbbbbbbbbbbbbb)+",
        "bbbbbbbbbbbbbbbbbbbbbbbbbbbbbbbbbbaaaaaaaaaaaaaaaaaaaaaaaaaaaaaaaaaa",
        "bbbbbbbbbbbbbbbbbbbbbbbbbbbbbbbbbbaaaaaaaaaaaaaaaaaaaaaaaaaaaaaaaaa",
    ),
    (
        "(a?b?c?d?e?f?g?h?i?j?k?l?m?n?o?p?q?r?s?t?u?v?w?x?y?z?A?B?C?D?E?F?G?H?I?J?K?L?M?N?O?P?Q?R?S?T?U?V?W?X?Y?Z?0?1?2?3?4?5?6?7?8?9?ä?ö?ü?)",
        "",
        "ba",
    ),
];

// A pattern, a text, a place of it, and how far its longest beginning goes that the pattern matches.
const FRONTS: [(&str, &str, usize, Option<usize>); 8] = [
    ("localhost\\.80/old", "localhost.80/old/x", 12, Some(16)),
    ("localhost\\.80/old", "localhost.80/old.html", 12, Some(16)),
    ("localhost\\.80/old", "localhost.80/old", 12, Some(16)),
    ("localhost\\.80/o", "localhost.80/old", 12, None),
    ("localhost\\.80/o.*", "localhost.80/old.html", 12, Some(21)),
    (
        "localhost\\.80(/[a-z]+)*",
        "localhost.80/a/b.html",
        12,
        Some(16),
    ),
    ("localhost", "localhost.80/a", 12, None),
    ("localhost\\.80", "localhost.80/a", 12, Some(12)),
];

fn are_answers(
    alloc: Global,
    pattern: &str,
    held: &str,
    apart: &str,
) -> Result<bool, PatternFault> {
    let read = Pattern::read(alloc, pattern)?;
    Ok(read.matches(alloc, held)? && !read.matches(alloc, apart)?)
}

#[test]
fn rows(rt: HostRuntime) {
    for (pattern, held, apart) in &ROWS {
        assert!(rt; matches!(are_answers(rt.alloc(), *pattern, *held, *apart), Ok(true)));
    }
}

#[test]
fn long_rows(rt: HostRuntime) {
    for (pattern, held, apart) in &LONG_ROWS {
        assert!(rt; matches!(are_answers(rt.alloc(), *pattern, *held, *apart), Ok(true)));
    }
}

fn is_front(
    alloc: Global,
    pattern: &str,
    text: &str,
    from: usize,
    end: Option<usize>,
) -> Result<bool, PatternFault> {
    let read = Pattern::read(alloc, pattern)?;
    Ok(read.longest_front(alloc, text, from)? == end)
}

#[test]
fn fronts(rt: HostRuntime) {
    for (pattern, text, from, end) in &FRONTS {
        assert!(rt; matches!(is_front(rt.alloc(), *pattern, *text, *from, *end), Ok(true)));
    }
}
