//! One step of a match: over the places of a pattern once, with one more character of the text.
ghost use Rattle.std.specs.Prelude.{◌≡◌, ◌≤◌, [], OnOk, length};
ghost use Rattle.regex_rules.specs.Languages.{is_one};
ghost use Rattle.regex_rules.specs.Walks as spec;

use crate::frames::Frames;
use crate::level::{Frame, Level};
use crate::marks::Marks;
use crate::{OneChar, PatternPlace, Repeat};
use sp_base::Mem;

/// A walk over the places of a pattern: what is known of the innermost open rows and of those around them, and the marks of the
/// places passed. A place's mark says whether the text reaches the end of the piece there by taking more than nothing; that of a
/// `(` whether what it opens may begin again.
#[derive(Drop)]
pub(crate) struct Walk {
    pub(crate) level: Level,
    pub(crate) around: Frames,
    pub(crate) marks: Marks,
}

/// Rows at their beginning.
pub(crate) fn begun(enters: bool) -> Level
    ensures { result ≡ spec.begun enters }
{
    Level {
        enters,
        here: enters,
        arrives: false,
        lacks: true,
        earlier_arrives: false,
        earlier_lacks: false,
    }
}

fn past_piece(level: Level, lacks: bool, old: bool, arrives: bool) -> Level
    ensures { result ≡ spec.past_piece level lacks old arrives }
{
    Level {
        enters: level.enters,
        here: (level.here && lacks) || old,
        arrives: (level.arrives && lacks) || arrives,
        lacks: level.lacks && lacks,
        earlier_arrives: level.earlier_arrives,
        earlier_lacks: level.earlier_lacks,
    }
}

fn next_row(level: Level) -> Level
    ensures { result ≡ spec.next_row level }
{
    Level {
        enters: level.enters,
        here: level.enters,
        arrives: false,
        lacks: true,
        earlier_arrives: level.earlier_arrives || level.arrives,
        earlier_lacks: level.earlier_lacks || level.lacks,
    }
}

impl Walk {
    // The character is looked at only where the text reaches the place.
    fn pass_one(&mut self, c: char, one: &OneChar, repeat: Repeat, old: bool) -> Mem<()>
        ensures { OnOk result (self.new ≡ spec.past_one (is_one one.now c) repeat old self.old) }
    {
        let arrives = (self.level.here || (repeat.may_go_on() && old)) && one.is_one(c);
        self.level = past_piece(self.level, repeat.may_lack(), old, arrives);
        self.marks.push(arrives)
    }

    fn pass_open(&mut self, old: bool) -> Mem<()>
        ensures { OnOk result (self.new ≡ spec.past_open old self.old) }
    {
        let frame = Frame {
            level: self.level,
            slot: self.marks.len(),
        };
        self.level = begun(self.level.here || old);
        self.around.push(frame)?;
        self.marks.push(false)
    }

    fn pass_bar(&mut self) -> Mem<()>
        ensures { OnOk result (self.new ≡ spec.past_bar self.old) }
    {
        self.level = next_row(self.level);
        self.marks.push(false)
    }

    fn pass_close(&mut self, repeat: Repeat, old: bool) -> Mem<()>
        ensures { OnOk result (self.new ≡ spec.past_close repeat old self.old) }
    {
        let Some(frame) = self.around.pop() else {
            return Ok(());
        };
        let level = self.level;
        let arrives = level.earlier_arrives || level.arrives;
        let lacks = repeat.may_lack() || (level.earlier_lacks || level.lacks);
        self.level = past_piece(frame.level, lacks, old, arrives);
        self.marks.put(frame.slot, repeat.may_go_on() && arrives);
        self.marks.push(arrives)
    }

    fn pass(&mut self, c: char, place: &PatternPlace, old: bool) -> Mem<()>
        ensures { OnOk result (self.new ≡ spec.past_place c place.now old self.old) }
    {
        match place {
            PatternPlace::One(one, repeat) => self.pass_one(c, one, *repeat, old),
            PatternPlace::Open => self.pass_open(old),
            PatternPlace::Bar => self.pass_bar(),
            PatternPlace::Close(repeat) => self.pass_close(*repeat, old),
        }
    }

    /// Goes over all places with this character, from the marks of the text before it.
    pub(crate) fn go(
        &mut self,
        c: char,
        places: &[PatternPlace],
        olds: &[bool],
        enters: bool,
    ) -> Mem<()>
        ensures { OnOk result (self.new ≡ spec.walked c places.now olds.now (spec.at (spec.begun enters) [] [])) }
    {
        self.level = begun(enters);
        self.around.clear();
        self.marks.clear();
        let mut at = 0;
        while at < places.len() && at < olds.len() {
            self.pass(c, &places[at], olds[at])?;
            at += 1;
        }
        Ok(())
    }
}
