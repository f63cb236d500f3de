//! A class that is being read.
ghost use Rattle.std.specs.Prelude.{◌≡◌, ◌≢◌, ◌++◌, ◌∷◌, [], Ok, Err, OnOk, IfErr};
ghost use Rattle.regex_rules.specs.Reading as spec;
ghost use Rattle.regex_rules.specs.Spelling.{is_reserved, range, strict};
ghost use Rattle.regex_rules.specs.declared.mode.Mode.TheVariants as modes;

use crate::mode::Mode;
use crate::reader::Reader;
use crate::{CharClass, CharRange, OneChar, PatternFault, PatternPlace, Repeat};
use sp_base::Items;
use std::alloc::Global;
use std::mem;

fn is_reserved(c: char) -> bool
    ensures { result ≡ is_reserved c }
{
    matches!(c, '\\' | '[' | ']' | '^' | '-')
}

impl Reader {
    fn add_range(&mut self, first: char, last: char) -> Result<(), PatternFault>
        ensures ok { OnOk result (self.new ≡ spec.reader_in_class self.old self.old.negated (self.old.ranges ++ range first last ∷ []) self.old.mode) }
        ensures err { IfErr result (λ e. e ≡ PatternFault.NoMemory) }
    {
        self.ranges.push(CharRange { first, last })?;
        Ok(())
    }

    fn close_class(&mut self, alloc: Global) -> Result<(), PatternFault>
        ensures ok { OnOk result (spec.class_closed self.old self.old.ranges ≡ Ok self.new) }
        ensures err { IfErr result (λ e. e ≡ PatternFault.NoMemory) }
    {
        let ranges = mem::replace(&mut self.ranges, Items::new(alloc));
        let negated = self.negated;
        self.negated = false;
        self.push(PatternPlace::One(OneChar::Class(CharClass { negated, ranges }), Repeat::Once))
    }

    pub(crate) fn class_first(&mut self, at: usize, c: char) -> Result<(), PatternFault>
        ensures ok { OnOk result (spec.class_first at c self.old ≡ Ok self.new) }
        ensures err { IfErr result (λ e. e ≢ PatternFault.NoMemory → spec.class_first at c self.old ≡ Err e) }
    {
        if !is_reserved(c) {
            self.mode = Mode::Member(c, at);
        } else if c == '\\' {
            self.mode = Mode::MemberEscape(at);
        } else {
            return Err(PatternFault::BadPattern(at));
        }
        Ok(())
    }

    pub(crate) fn class_begun(
        &mut self,
        alloc: Global,
        at: usize,
        c: char,
    ) -> Result<(), PatternFault>
        ensures ok { OnOk result (spec.class_begun at c self.old ≡ Ok self.new) }
        ensures err { IfErr result (λ e. e ≢ PatternFault.NoMemory → spec.class_begun at c self.old ≡ Err e) }
    {
        if c != '^' {
            return self.class_first(at, c);
        }
        self.negated = true;
        self.ranges = Items::new(alloc);
        self.mode = Mode::ClassFirst;
        Ok(())
    }

    // Where another character or range may begin, and a `-` may not stand.
    fn class_next(&mut self, alloc: Global, at: usize, c: char) -> Result<(), PatternFault>
        ensures ok { OnOk result (spec.class_next at c self.old self.old.ranges (Err (PatternFault.BadPattern at)) ≡ Ok self.new) }
        ensures err { IfErr result (λ e. e ≢ PatternFault.NoMemory → spec.class_next at c self.old self.old.ranges (Err (PatternFault.BadPattern at)) ≡ Err e) }
    {
        if c == ']' {
            return self.close_class(alloc);
        }
        self.class_first(at, c)
    }

    pub(crate) fn class_member(
        &mut self,
        alloc: Global,
        at: usize,
        c: char,
        first: char,
        offset: usize,
    ) -> Result<(), PatternFault>
        ensures ok { OnOk result (spec.step_in strict (modes.Member first offset) at c self.old ≡ Ok self.new) }
        ensures err { IfErr result (λ e. e ≢ PatternFault.NoMemory → spec.step_in strict (modes.Member first offset) at c self.old ≡ Err e) }
    {
        if c == '-' {
            self.mode = Mode::Hyphen(first, offset);
            return Ok(());
        }
        self.add_range(first, first)?;
        self.class_next(alloc, at, c)
    }

    pub(crate) fn class_spanned(
        &mut self,
        alloc: Global,
        at: usize,
        c: char,
    ) -> Result<(), PatternFault>
        ensures ok { OnOk result (spec.step_in strict modes.Spanned at c self.old ≡ Ok self.new) }
        ensures err { IfErr result (λ e. e ≢ PatternFault.NoMemory → spec.step_in strict modes.Spanned at c self.old ≡ Err e) }
    {
        if c == '-' {
            self.mode = Mode::LastHyphen;
            return Ok(());
        }
        self.class_next(alloc, at, c)
    }

    fn span(&mut self, first: char, offset: usize, c: char) -> Result<(), PatternFault>
        ensures ok { OnOk result (spec.spanned strict first offset c self.old ≡ Ok self.new) }
        ensures err { IfErr result (λ e. e ≢ PatternFault.NoMemory → spec.spanned strict first offset c self.old ≡ Err e) }
    {
        if first > c {
            return Err(PatternFault::BadPattern(offset));
        }
        self.add_range(first, c)?;
        self.mode = Mode::Spanned;
        Ok(())
    }

    pub(crate) fn class_hyphen(
        &mut self,
        alloc: Global,
        at: usize,
        c: char,
        first: char,
        offset: usize,
    ) -> Result<(), PatternFault>
        ensures ok { OnOk result (spec.class_hyphen strict at c first offset self.old ≡ Ok self.new) }
        ensures err { IfErr result (λ e. e ≢ PatternFault.NoMemory → spec.class_hyphen strict at c first offset self.old ≡ Err e) }
    {
        if !is_reserved(c) {
            return self.span(first, offset, c);
        }
        if c == '\\' {
            self.mode = Mode::LastEscape(first, offset);
            return Ok(());
        }
        if c != ']' {
            return Err(PatternFault::BadPattern(at));
        }
        self.add_range(first, first)?;
        self.add_range('-', '-')?;
        self.close_class(alloc)
    }

    pub(crate) fn class_last(
        &mut self,
        alloc: Global,
        at: usize,
        c: char,
    ) -> Result<(), PatternFault>
        ensures ok { OnOk result (spec.class_last at c self.old ≡ Ok self.new) }
        ensures err { IfErr result (λ e. e ≢ PatternFault.NoMemory → spec.class_last at c self.old ≡ Err e) }
    {
        if c != ']' {
            return Err(PatternFault::BadPattern(at));
        }
        self.add_range('-', '-')?;
        self.close_class(alloc)
    }

    pub(crate) fn class_escaped(
        &mut self,
        at: usize,
        c: char,
        offset: usize,
    ) -> Result<(), PatternFault>
        ensures ok { OnOk result (spec.class_escaped at c offset self.old ≡ Ok self.new) }
        ensures err { IfErr result (λ e. e ≢ PatternFault.NoMemory → spec.class_escaped at c offset self.old ≡ Err e) }
    {
        if !is_reserved(c) {
            return Err(PatternFault::BadPattern(at));
        }
        self.mode = Mode::Member(c, offset);
        Ok(())
    }

    pub(crate) fn class_last_escaped(
        &mut self,
        at: usize,
        c: char,
        first: char,
        offset: usize,
    ) -> Result<(), PatternFault>
        ensures ok { OnOk result (spec.class_last_escaped strict at c first offset self.old ≡ Ok self.new) }
        ensures err { IfErr result (λ e. e ≢ PatternFault.NoMemory → spec.class_last_escaped strict at c first offset self.old ≡ Err e) }
    {
        if !is_reserved(c) {
            return Err(PatternFault::BadPattern(at));
        }
        self.span(first, offset, c)
    }
}
