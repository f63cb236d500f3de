//! Which characters of a pattern may come after which, by its places in their order.
ghost use Rattle.std.specs.Prelude.{◌≡◌, ◌∷◌, OnOk, IfOk, bit_or, if◌then◌else◌};
ghost use Rattle.regex_rules.specs.Positions as sets;
ghost use Rattle.regex_rules.specs.Linkings as spec;

use crate::follow_table::FollowTable;
use crate::open_rows::OpenRows;
use crate::{PatternPlace, Repeat};
use sp_base::Mem;
use std::alloc::Global;

/// Of a piece, or of rows: with which characters of the pattern its texts may begin, with which they may end, and whether nothing is one
/// of them. A set of characters has a bit for each of them, in the pattern's order.
#[derive(Clone, Copy, Drop)]
pub(crate) struct Piece {
    pub(crate) first: u64,
    pub(crate) last: u64,
    pub(crate) lacks: bool,
}

// A row before its first piece.
fn empty_row() -> Piece
    ensures { result ≡ sets.empty_row }
{
    Piece {
        first: 0,
        last: 0,
        lacks: true,
    }
}

fn no_rows() -> Piece
    ensures { result ≡ sets.no_rows }
{
    Piece {
        first: 0,
        last: 0,
        lacks: false,
    }
}

// One of both.
fn either(one: Piece, other: Piece) -> Piece
    ensures { result ≡ sets.either one other }
{
    Piece {
        first: one.first | other.first,
        last: one.last | other.last,
        lacks: one.lacks || other.lacks,
    }
}

// A set, and where something holds those of another one too.
fn with(set: u64, more: bool, others: u64) -> u64
    ensures { result ≡ (if more then bit_or set others else set) }
{
    if more { set | others } else { set }
}

// The one after the other.
fn followed(row: Piece, next: Piece) -> Piece
    ensures { result ≡ sets.followed row next }
{
    Piece {
        first: with(row.first, row.lacks, next.first),
        last: with(next.last, next.lacks, row.last),
        lacks: row.lacks && next.lacks,
    }
}

fn so_often(repeat: Repeat, one: Piece) -> Piece
    ensures { result ≡ sets.so_often repeat one }
{
    Piece {
        first: one.first,
        last: one.last,
        lacks: repeat.may_lack() || one.lacks,
    }
}

/// Some rows: those before the last one together, and the last one.
#[derive(Clone, Copy, Drop)]
pub(crate) struct Rows {
    pub(crate) earlier: Piece,
    pub(crate) row: Piece,
}

fn begun_rows() -> Rows
    ensures { result ≡ spec.begun_rows }
{
    Rows {
        earlier: no_rows(),
        row: empty_row(),
    }
}

/// A pattern whose places are gone over: what may come after each of its characters, the innermost open rows and those around them, and
/// the bit of the next character.
#[derive(Drop)]
pub(crate) struct Linking {
    pub(crate) follow: FollowTable,
    pub(crate) rows: Rows,
    pub(crate) around: OpenRows,
    pub(crate) bit: u64,
}

impl Linking {
    /// No places yet, of a pattern with so many characters.
    pub(crate) fn new(alloc: Global, number: usize) -> Mem<Linking>
        ensures { IfOk result (λ linking. linking ≡ spec.unlinked number) }
    {
        Ok(Linking {
            follow: FollowTable::new(alloc, number)?,
            rows: begun_rows(),
            around: OpenRows::new(alloc),
            bit: 1,
        })
    }

    // The last row goes on with this piece.
    fn add(&mut self, piece: Piece, repeat: Repeat)
        ensures { self.new ≡ spec.piece_added piece repeat self.old.follow self.old.rows self.old.around self.old.bit }
    {
        if repeat.may_go_on() {
            self.follow.link(piece.last, piece.first);
        }
        self.follow.link(self.rows.row.last, piece.first);
        self.rows.row = followed(self.rows.row, so_often(repeat, piece));
    }

    fn pass_one(&mut self, repeat: Repeat)
        ensures { self.new ≡ spec.linked_past_one repeat self.old }
    {
        let piece = Piece {
            first: self.bit,
            last: self.bit,
            lacks: false,
        };
        self.add(piece, repeat);
        self.bit = self.bit.wrapping_mul(2);
    }

    fn pass_open(&mut self) -> Mem<()>
        ensures { OnOk result (self.new ≡ spec.linking_at self.old.follow spec.begun_rows (self.old.rows ∷ self.old.around) self.old.bit) }
    {
        self.around.push(self.rows)?;
        self.rows = begun_rows();
        Ok(())
    }

    fn pass_bar(&mut self)
        ensures { self.new ≡ spec.linked_past_bar self.old }
    {
        self.rows = Rows {
            earlier: self.whole(),
            row: empty_row(),
        };
    }

    fn pass_close(&mut self, repeat: Repeat)
        ensures { self.new ≡ spec.closed repeat self.old self.old.around }
    {
        let Some(outer) = self.around.pop() else {
            return;
        };
        let piece = self.whole();
        self.rows = outer;
        self.add(piece, repeat);
    }

    fn pass(&mut self, place: &PatternPlace) -> Mem<()>
        ensures { OnOk result (self.new ≡ spec.past place.now self.old) }
    {
        match place {
            PatternPlace::One(_, repeat) => self.pass_one(*repeat),
            PatternPlace::Open => self.pass_open()?,
            PatternPlace::Bar => self.pass_bar(),
            PatternPlace::Close(repeat) => self.pass_close(*repeat),
        }
        Ok(())
    }

    /// Goes over all these places.
    pub(crate) fn go(&mut self, places: &[PatternPlace]) -> Mem<()>
        ensures { OnOk result (self.new ≡ spec.linked places.now self.old) }
    {
        let mut at = 0;
        while at < places.len() {
            self.pass(&places[at])?;
            at += 1;
        }
        Ok(())
    }

    /// The open rows together.
    pub(crate) fn whole(&self) -> Piece
        ensures { result ≡ sets.either self.now.rows.earlier self.now.rows.row }
    {
        either(self.rows.earlier, self.rows.row)
    }

    /// What may come after each of the characters.
    pub(crate) fn into_follow(self) -> FollowTable
        ensures { result ≡ self.follow }
    {
        self.follow
    }
}
