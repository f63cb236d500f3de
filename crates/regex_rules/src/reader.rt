//! A pattern that is being read, a character at a time.
ghost use Rattle.std.specs.Prelude.{◌≡◌, ◌≢◌, [], false, Ok, Err, OnOk, IfErr, IfOk};
ghost use Rattle.regex_rules.specs.Reading as spec;
ghost use Rattle.regex_rules.specs.Spelling.{is_special, is_meant, strict};
ghost use Rattle.regex_rules.specs.declared.mode.Mode.TheVariants as modes;

use crate::mode::Mode;
use crate::place_list::PlaceList;
use crate::{CharRange, OneChar, PatternFault, PatternPlace, Repeat};
use sp_base::Items;
use std::alloc::Global;

/// How deep brackets may nest.
const DEEPEST: usize = 32;

/// What of a pattern is read: its places, how many brackets are open, and of a class that is open whether it is negated and its
/// ranges.
#[derive(Drop)]
pub(crate) struct Reader {
    pub(crate) places: PlaceList,
    pub(crate) depth: usize,
    pub(crate) negated: bool,
    pub(crate) ranges: Items<CharRange>,
    pub(crate) mode: Mode,
}

fn is_special(c: char) -> bool
    ensures { result ≡ is_special c }
{
    matches!(
        c,
        '\\' | '.' | '[' | ']' | '(' | ')' | '{' | '}' | '*' | '+' | '?' | '|' | '^' | '$'
    )
}

fn is_meant(c: char) -> bool
    ensures { result ≡ is_meant c }
{
    is_special(c) || c == '/' || c == '-'
}

impl Reader {
    pub(crate) fn new(alloc: Global) -> Reader
        ensures { result ≡ spec.unread }
    {
        Reader {
            places: PlaceList::new(alloc),
            depth: 0,
            negated: false,
            ranges: Items::new(alloc),
            mode: Mode::Begin,
        }
    }

    pub(crate) fn push(&mut self, place: PatternPlace) -> Result<(), PatternFault>
        ensures ok { OnOk result (self.new ≡ spec.with_place self.old place) }
        ensures err { IfErr result (λ e. e ≡ PatternFault.NoMemory) }
    {
        self.places.push(place)?;
        self.mode = Mode::Row;
        Ok(())
    }

    fn repeat(&mut self, at: usize, repeat: Repeat) -> Result<(), PatternFault>
        ensures ok { OnOk result (spec.row_repeated at self.old (spec.with_repeat repeat self.old.places) ≡ Ok self.new) }
        ensures err { IfErr result (λ e. e ≢ PatternFault.NoMemory → spec.row_repeated at self.old (spec.with_repeat repeat self.old.places) ≡ Err e) }
    {
        if !self.places.repeat_last(repeat)? {
            return Err(PatternFault::BadPattern(at));
        }
        self.mode = Mode::Row;
        Ok(())
    }

    fn open(&mut self, at: usize) -> Result<(), PatternFault>
        ensures ok { OnOk result (spec.opened strict at self.old ≡ Ok self.new) }
        ensures err { IfErr result (λ e. e ≢ PatternFault.NoMemory → spec.opened strict at self.old ≡ Err e) }
    {
        if self.depth >= DEEPEST {
            return Err(PatternFault::TooDeep(at));
        }
        self.push(PatternPlace::Open)?;
        self.depth += 1;
        Ok(())
    }

    fn close(&mut self, at: usize) -> Result<(), PatternFault>
        ensures ok { OnOk result (spec.bracket_closed at self.old ≡ Ok self.new) }
        ensures err { IfErr result (λ e. e ≢ PatternFault.NoMemory → spec.bracket_closed at self.old ≡ Err e) }
    {
        if self.depth == 0 {
            return Err(PatternFault::BadPattern(at));
        }
        self.push(PatternPlace::Close(Repeat::Once))?;
        self.depth -= 1;
        Ok(())
    }

    fn end(&mut self, at: usize) -> Result<(), PatternFault>
        ensures ok { OnOk result (spec.ended at self.old ≡ Ok self.new) }
        ensures err { IfErr result (λ e. e ≢ PatternFault.NoMemory → spec.ended at self.old ≡ Err e) }
    {
        if self.depth != 0 {
            return Err(PatternFault::BadPattern(at));
        }
        self.mode = Mode::End;
        Ok(())
    }

    fn begin_class(&mut self, alloc: Global)
        ensures { self.new ≡ spec.reader_in_class self.old false [] modes.ClassBegin }
    {
        self.negated = false;
        self.ranges = Items::new(alloc);
        self.mode = Mode::ClassBegin;
    }

    fn special(&mut self, alloc: Global, at: usize, c: char) -> Result<(), PatternFault>
        ensures ok { OnOk result (spec.special strict at c self.old ≡ Ok self.new) }
        ensures err { IfErr result (λ e. e ≢ PatternFault.NoMemory → spec.special strict at c self.old ≡ Err e) }
    {
        match c {
            '.' => self.push(PatternPlace::One(OneChar::AnyButNewline, Repeat::Once)),
            '(' => self.open(at),
            ')' => self.close(at),
            '|' => self.push(PatternPlace::Bar),
            '*' => self.repeat(at, Repeat::Any),
            '+' => self.repeat(at, Repeat::AtLeastOnce),
            '?' => self.repeat(at, Repeat::Optional),
            '[' => {
                self.begin_class(alloc);
                Ok(())
            }
            '\\' => {
                self.mode = Mode::Escape;
                Ok(())
            }
            '$' => self.end(at),
            _ => Err(PatternFault::BadPattern(at)),
        }
    }

    fn row(&mut self, alloc: Global, at: usize, c: char) -> Result<(), PatternFault>
        ensures ok { OnOk result (spec.in_a_row strict at c self.old ≡ Ok self.new) }
        ensures err { IfErr result (λ e. e ≢ PatternFault.NoMemory → spec.in_a_row strict at c self.old ≡ Err e) }
    {
        if is_special(c) {
            self.special(alloc, at, c)
        } else {
            self.push(PatternPlace::One(OneChar::Literal(c), Repeat::Once))
        }
    }

    fn begin(&mut self, alloc: Global, at: usize, c: char) -> Result<(), PatternFault>
        ensures ok { OnOk result (spec.step_in strict modes.Begin at c self.old ≡ Ok self.new) }
        ensures err { IfErr result (λ e. e ≢ PatternFault.NoMemory → spec.step_in strict modes.Begin at c self.old ≡ Err e) }
    {
        if c == '^' {
            self.mode = Mode::Row;
            return Ok(());
        }
        self.row(alloc, at, c)
    }

    fn escaped(&mut self, at: usize, c: char) -> Result<(), PatternFault>
        ensures ok { OnOk result (spec.escaped at c self.old ≡ Ok self.new) }
        ensures err { IfErr result (λ e. e ≢ PatternFault.NoMemory → spec.escaped at c self.old ≡ Err e) }
    {
        if !is_meant(c) {
            return Err(PatternFault::BadPattern(at));
        }
        self.push(PatternPlace::One(OneChar::Literal(c), Repeat::Once))
    }

    /// Takes the next character, whose first byte stands at this place.
    pub(crate) fn step(&mut self, alloc: Global, at: usize, c: char) -> Result<(), PatternFault>
        ensures ok { OnOk result (spec.step strict at c self.old ≡ Ok self.new) }
        ensures err { IfErr result (λ e. e ≢ PatternFault.NoMemory → spec.step strict at c self.old ≡ Err e) }
    {
        match self.mode {
            Mode::Begin => self.begin(alloc, at, c),
            Mode::Row => self.row(alloc, at, c),
            Mode::Escape => self.escaped(at, c),
            Mode::End => Err(PatternFault::BadPattern(at)),
            Mode::ClassBegin => self.class_begun(alloc, at, c),
            Mode::ClassFirst => self.class_first(at, c),
            Mode::Member(first, place) => self.class_member(alloc, at, c, first, place),
            Mode::Hyphen(first, place) => self.class_hyphen(alloc, at, c, first, place),
            Mode::Spanned => self.class_spanned(alloc, at, c),
            Mode::LastHyphen => self.class_last(alloc, at, c),
            Mode::MemberEscape(place) => self.class_escaped(at, c, place),
            Mode::LastEscape(first, place) => self.class_last_escaped(at, c, first, place),
        }
    }

    /// The places, if a pattern may end at this place.
    pub(crate) fn finish(self, at: usize) -> Result<Vec<PatternPlace>, PatternFault>
        ensures ok { IfOk result (λ places. spec.finished at self ≡ Ok places.items) }
        ensures err { IfErr result (λ e. spec.finished at self ≡ Err e) }
    {
        let may_end = matches!(self.mode, Mode::Begin | Mode::Row | Mode::End);
        if !may_end || self.depth != 0 {
            return Err(PatternFault::BadPattern(at));
        }
        Ok(self.places.into_places())
    }
}
