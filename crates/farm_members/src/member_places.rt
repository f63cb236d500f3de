//! Where the members of a farm's file stand.

use sp_base::Mem;
use std::alloc::Global;

/// Where a member stands: its line, counted from 1, and how many groups are open before it.
#[derive(Clone, Copy, Drop)]
struct MemberPlace {
    line: usize,
    depth: usize,
}

/// The places of the members of a file that can be read, in the order in which they stand: each before those of its group.
#[derive(Drop)]
pub struct MemberPlaces {
    places: Vec<MemberPlace>,
}

impl MemberPlaces {
    /// The places of the members of this file.
    pub fn of(alloc: Global, text: &[u8]) -> Mem<MemberPlaces> {
        let mut places = Vec::new(alloc);
        let mut reading = Reading {
            next: Next::Member,
            run: Run::Blank,
            place: MemberPlace { line: 1, depth: 0 },
            is_after_return: false,
        };
        for byte in text {
            if reading.begins_member(*byte) {
                places.push(reading.place)?;
            }
            reading = reading.after(*byte);
        }
        Ok(MemberPlaces { places })
    }

    /// The line of the member with this number.
    pub fn line(&self, member: usize) -> usize {
        match self.places.get(member) {
            Some(place) => place.line,
            None => 0,
        }
    }

    /// The number of the first member after this one that isn't in its group.
    pub fn after(&self, member: usize) -> usize {
        let Some(own) = self.places.get(member) else {
            return member;
        };
        let first = member.saturating_add(1);
        for later in first..self.places.len() {
            if self.places[later].depth <= own.depth {
                return later;
            }
        }
        self.places.len()
    }
}

// What comes next, beside blanks and comments.
#[derive(Clone, Copy, Drop)]
enum Next {
    Member,
    /// The value of a member whose name was read.
    Value,
}

// What a byte may belong to.
#[derive(Clone, Copy, Drop)]
enum Run {
    Blank,
    Comment,
    Name,
    Word,
    Quoted(u8),
}

// What is known before a byte of the file.
#[derive(Clone, Copy, Drop)]
struct Reading {
    next: Next,
    run: Run,
    place: MemberPlace,
    // Whether the byte before was a carriage return: with a line feed it ends one line.
    is_after_return: bool,
}

fn is_name_byte(byte: u8) -> bool {
    byte.is_ascii_alphanumeric() || matches!(byte, b'_' | b'-' | b'.')
}

impl Reading {
    // Whether the byte belongs to the run.
    fn goes_on(self, byte: u8) -> bool {
        match self.run {
            Run::Blank => false,
            Run::Comment => !matches!(byte, b'\n' | b'\r'),
            Run::Name => is_name_byte(byte),
            Run::Word => is_name_byte(byte) || matches!(byte, b':' | b'*'),
            Run::Quoted(_) => true,
        }
    }

    // Whether a member begins with the byte.
    fn begins_member(self, byte: u8) -> bool {
        let is_blank = matches!(byte, b' ' | b'\t' | b'\n' | b'\r' | b'#' | b'}');
        matches!(self.next, Next::Member) && !self.goes_on(byte) && !is_blank
    }

    fn after(self, byte: u8) -> Reading {
        let mut after = match self.run {
            Run::Quoted(mark) if mark == byte => self.with(Next::Member, Run::Blank),
            _ if self.goes_on(byte) => self,
            _ => self.begun(byte),
        };
        if byte == b'\r' || (byte == b'\n' && !self.is_after_return) {
            after.place.line = after.place.line.saturating_add(1);
        }
        after.is_after_return = byte == b'\r';
        after
    }

    fn with(self, next: Next, run: Run) -> Reading {
        Reading {
            next,
            run,
            place: self.place,
            is_after_return: self.is_after_return,
        }
    }

    // After a byte that belongs to no run before it.
    fn begun(self, byte: u8) -> Reading {
        match byte {
            b' ' | b'\t' | b'\n' | b'\r' => self.with(self.next, Run::Blank),
            b'#' => self.with(self.next, Run::Comment),
            b'{' => self.within(self.place.depth.saturating_add(1)),
            b'}' => self.within(self.place.depth.saturating_sub(1)),
            b'/' => self.with(Next::Value, Run::Name),
            b'"' | b'\'' => self.with(Next::Member, Run::Quoted(byte)),
            _ => self.with(Next::Member, Run::Word),
        }
    }

    // Between the members of a group.
    fn within(self, depth: usize) -> Reading {
        let mut between = self.with(Next::Member, Run::Blank);
        between.place.depth = depth;
        between
    }
}
