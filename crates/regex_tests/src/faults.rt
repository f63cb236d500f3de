//! Texts that are no patterns, and where.
use regex_rules::{Pattern, PatternFault};
use std::alloc::Global;

const DEEPEST: &str = "((((((((((((((((((((((((((((((((a))))))))))))))))))))))))))))))))";

const TOO_DEEP: &str = "(((((((((((((((((((((((((((((((((";

// A text, and the byte from which no pattern goes on.
const ROWS: [(&str, usize); 45] = [
    ("a{2}", 1),
    ("(a", 2),
    ("*a", 0),
    ("a**", 2),
    ("a*?", 2),
    ("a+*", 2),
    ("(*a)", 1),
    ("a|*", 2),
    ("a)", 1),
    (")", 0),
    ("(a))", 3),
    ("]", 0),
    ("a]", 1),
    ("}", 0),
    ("a^", 1),
    ("^^", 1),
    ("(^a)", 1),
    ("^*", 1),
    ("(a$)", 2),
    ("a$b", 2),
    ("a$$", 2),
    ("$*", 1),
    ("\\", 1),
    ("\\d", 1),
    ("ä\\n", 3),
    ("(?:a)", 1),
    ("[", 1),
    ("[]", 1),
    ("[^]", 2),
    ("[^", 2),
    ("[-a]", 1),
    ("[a", 2),
    ("[a-", 3),
    ("[a--]", 3),
    ("[a-b-c]", 5),
    ("[a^]", 2),
    ("[^^]", 2),
    ("[[:alpha:]]", 1),
    ("[\\a]", 2),
    ("[a\\]", 4),
    ("[z-a]", 1),
    ("[az-yb]", 2),
    ("[z-\\]]", 1),
    ("[z-\\a]", 4),
    ("(((b[9-0]", 5),
];

fn is_bad_at(alloc: Global, text: &str, place: usize) -> bool {
    matches!(Pattern::read(alloc, text), Err(PatternFault::BadPattern(found)) if found == place)
}

#[test]
fn rows(rt: HostRuntime) {
    for (text, place) in &ROWS {
        assert!(rt; is_bad_at(rt.alloc(), *text, *place));
    }
}

#[test]
fn how_deep_brackets_nest(rt: HostRuntime) {
    assert!(rt; Pattern::read(rt.alloc(), DEEPEST).is_ok());
    assert!(rt;
        matches!(
            Pattern::read(rt.alloc(), TOO_DEEP),
            Err(PatternFault::TooDeep(32))
        )
    );
}
