//! A match answers what the kit's `regex` does for the pattern as one of a whole text.
use regex::Regex;
use regex_rules::{Pattern, PatternFault};
use sp_base::Mem;
use std::alloc::Global;

const PATTERNS: [&str; 4] = [
    "(GET|HEAD)",
    "/a.*",
    "localhost\\.(80|8080)/old",
    "[a-c]+x?",
];

const TEXTS: [&str; 6] = ["HEAD", "HEADS", "/abc", "localhost.80/old", "abx", ""];

// The pattern as one that `regex` matches with a whole text.
fn whole(alloc: Global, pattern: &str) -> Mem<String> {
    let mut text = String::new(alloc);
    text.push_str("^(?:")?;
    text.push_str(pattern)?;
    text.push_str(")$")?;
    Ok(text)
}

fn agrees(alloc: Global, pattern: &str, text: &str) -> Result<bool, PatternFault> {
    let Ok(regex) = Regex::new(alloc, whole(alloc, pattern)?.as_str()) else {
        return Ok(false);
    };
    let mut matcher = regex.matcher(alloc)?;
    let answer = Pattern::read(alloc, pattern)?.matches(alloc, text)?;
    Ok(answer == matcher.is_match(text))
}

fn agree(alloc: Global, pattern: &str) -> bool {
    for text in &TEXTS {
        if !matches!(agrees(alloc, pattern, *text), Ok(true)) {
            return false;
        }
    }
    true
}

#[test]
fn rows(rt: HostRuntime) {
    for pattern in &PATTERNS {
        assert!(rt; agree(rt.alloc(), *pattern));
    }
}
