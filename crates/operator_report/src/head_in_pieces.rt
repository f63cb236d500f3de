//! The head of a request that comes in pieces.

use crate::request_head::{length_text, number_in};
use std::alloc::Global;

/// The most bytes of a line that are looked at.
const LONGEST_LINE: usize = 4_096;

// What is known of the length of the body.
#[derive(Clone, Copy, Drop)]
enum BodyLength {
    Untold,
    Told(usize),
    /// It was told twice, or in a line that can't be read.
    Unclear,
}

/// What a line is whose end came.
#[derive(Clone, Copy, Drop)]
pub enum HeadLine {
    First,
    Field,
    /// The empty one, which ends the head.
    Last,
}

/// What came of a head up to here.
#[derive(Drop)]
pub struct HeadInPieces {
    // The line that goes on, without what is beyond the longest that is looked at.
    line: Vec<u8>,
    // Whether not all of it was kept.
    is_cut: bool,
    is_first: bool,
    length: BodyLength,
}

impl HeadInPieces {
    pub fn new(alloc: Global) -> HeadInPieces {
        HeadInPieces {
            line: Vec::new(alloc),
            is_cut: false,
            is_first: true,
            length: BodyLength::Untold,
        }
    }

    /// Before the first byte of a head.
    pub fn begin(&mut self) {
        self.line.clear();
        self.is_cut = false;
        self.is_first = true;
        self.length = BodyLength::Untold;
    }

    /// Takes what comes of the line that goes on.
    pub fn keep(&mut self, part: &[u8]) {
        let room = LONGEST_LINE.saturating_sub(self.line.len());
        let kept = part.get(..room).unwrap_or(part);
        self.is_cut = self.is_cut || kept.len() < part.len();
        if self.line.extend_from_slice(kept).is_err() {
            // Without memory for it a line may be that of the length.
            self.is_cut = true;
            self.length = BodyLength::Unclear;
        }
    }

    /// The line whose end came, where all of it was kept.
    pub fn line(&self) -> Option<&[u8]> {
        if self.is_cut {
            return None;
        }
        let line = self.line.as_slice();
        Some(line.strip_suffix(b"\r".as_slice()).unwrap_or(line))
    }

    /// What the line is whose end came.
    pub fn kind(&self) -> HeadLine {
        match self.line() {
            _ if self.is_first => HeadLine::First,
            Some([]) => HeadLine::Last,
            _ => HeadLine::Field,
        }
    }

    /// Goes on to the next line.
    pub fn pass(&mut self) {
        if let HeadLine::Field = self.kind() {
            self.note_length();
        }
        self.line.clear();
        self.is_cut = false;
        self.is_first = false;
    }

    fn note_length(&mut self) {
        if let Some(text) = length_text(self.line.as_slice()) {
            self.length = match (self.length, number_in(text)) {
                (BodyLength::Untold, Some(number)) if !self.is_cut => BodyLength::Told(number),
                _ => BodyLength::Unclear,
            };
        }
    }

    /// How many bytes of the body are to come, where so many came after the head. None where more than the request came, and where the
    /// length can't be told.
    pub fn body_to_come(&self, after: usize) -> Option<usize> {
        match self.length {
            BodyLength::Untold => 0usize.checked_sub(after),
            BodyLength::Told(length) => length.checked_sub(after),
            BodyLength::Unclear => None,
        }
    }
}
