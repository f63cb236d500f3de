//! A text for each pattern that it matches, if one is easily found.

use regex_rules::Pattern;
use sp_base::{Mem, TextBuf};
use std::alloc::Global;

/// The host that is tried where a pattern matches none at which the publisher is asked, and names none.
const USUAL_HOST: &str = "localhost.80";

/// What stands for any character.
const ANY: char = 'a';

// Where a character of a pattern stands.
#[derive(Clone, Copy, Drop)]
enum Within {
    Row,
    Escape,
    /// After the `[` of a class.
    ClassStart,
    ClassStartEscape,
    Class,
    ClassEscape,
}

// What a pattern's characters spell, with each sign for a repeat taken for once, and of rows and classes the first.
#[derive(Drop)]
struct Sampler {
    text: String,
    within: Within,
    // Where a row that isn't the first is passed over, how many brackets are open in it.
    passed: Option<usize>,
    // How many brackets are open, and whether a second row begins outside of all.
    depth: usize,
    has_rows: bool,
}

impl Sampler {
    fn put(&mut self, character: char) -> Mem<()> {
        if self.passed.is_none() {
            self.text.push(character)?;
        }
        Ok(())
    }

    fn open(&mut self) {
        self.depth = self.depth.saturating_add(1);
        self.passed = self.passed.map(|depth| depth.saturating_add(1));
    }

    fn close(&mut self) {
        self.depth = self.depth.saturating_sub(1);
        self.passed = match self.passed {
            Some(0) | None => None,
            Some(depth) => Some(depth - 1),
        };
    }

    fn part(&mut self) {
        self.has_rows = self.has_rows || self.depth == 0;
        if self.passed.is_none() {
            self.passed = Some(0);
        }
    }

    // Takes a character that stands in a row.
    fn take_in_row(&mut self, character: char) -> Mem<Within> {
        match character {
            '\\' => return Ok(Within::Escape),
            '[' => return Ok(Within::ClassStart),
            '(' => self.open(),
            ')' => self.close(),
            '|' => self.part(),
            '*' | '+' | '?' | '^' | '$' => {}
            '.' => self.put(ANY)?,
            _ => self.put(character)?,
        }
        Ok(Within::Row)
    }

    fn take(&mut self, character: char) -> Mem<()> {
        self.within = match (self.within, character) {
            (Within::Row, _) => self.take_in_row(character)?,
            (Within::Escape, _) => {
                self.put(character)?;
                Within::Row
            }
            (Within::ClassStart, '\\') => Within::ClassStartEscape,
            (Within::ClassStart, '^') => {
                self.put(ANY)?;
                Within::Class
            }
            (Within::ClassStart, _) | (Within::ClassStartEscape, _) => {
                self.put(character)?;
                Within::Class
            }
            (Within::Class, ']') => Within::Row,
            (Within::Class, '\\') => Within::ClassEscape,
            (Within::Class, _) | (Within::ClassEscape, _) => Within::Class,
        };
        Ok(())
    }
}

// What is put together from a pattern's text.
fn sampled(alloc: Global, pattern: &str) -> Mem<Sampler> {
    let mut sampler = Sampler {
        text: String::new(alloc),
        within: Within::Row,
        passed: None,
        depth: 0,
        has_rows: false,
    };
    for character in pattern.chars() {
        sampler.take(character)?;
    }
    Ok(sampler)
}

/// Whether each text that a pattern matches begins with a slash, as far as that is plain. The text is that of the pattern.
pub fn begins_with_slash(alloc: Global, text: &str) -> Mem<bool> {
    let row = text.strip_prefix('^').unwrap_or(text);
    let Some(rest) = row.strip_prefix('/') else {
        return Ok(false);
    };
    if rest.starts_with('*') || rest.starts_with('?') {
        return Ok(false);
    }
    let sampler = sampled(alloc, text)?;
    Ok(!sampler.has_rows)
}

/// A host with its port, and a path at it.
#[derive(Drop)]
pub struct Sample {
    pub host: TextBuf,
    pub path: TextBuf,
}

fn sample_at(alloc: Global, pattern: &Pattern, host: &str, path: &str) -> Mem<Option<Sample>> {
    let mut whole = String::from_str(alloc, host)?;
    whole.push_str(path)?;
    if !pattern.matches(alloc, whole.as_str())? {
        return Ok(None);
    }
    Ok(Some(Sample {
        host: TextBuf::of(alloc, host)?,
        path: TextBuf::of(alloc, path)?,
    }))
}

fn has_port(host: &str) -> bool {
    match host.rfind('.') {
        Some(at) => host[at + 1..].parse::<u16>().is_ok(),
        None => false,
    }
}

/// A host with its port and a path that the pattern matches, if the first rows spell one. The host at which the publisher is asked is
/// tried first, and then the one that the rows spell, in lower case as requests have it. The text is that of the pattern.
pub fn sample_of(alloc: Global, pattern: &Pattern, text: &str, asked: &str) -> Mem<Option<Sample>> {
    let sampler = sampled(alloc, text)?;
    let whole = sampler.text.as_str();
    let (host, path) = match whole.find('/') {
        Some(at) => (&whole[..at], &whole[at..]),
        None => (whole, ""),
    };
    let sample = sample_at(alloc, pattern, asked, path)?;
    if sample.is_some() {
        return Ok(sample);
    }
    if !has_port(host) {
        return sample_at(alloc, pattern, USUAL_HOST, path);
    }
    let host = host.to_ascii_lowercase(alloc)?;
    sample_at(alloc, pattern, host.as_str(), path)
}
