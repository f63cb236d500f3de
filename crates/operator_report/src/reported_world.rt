//! A world that is told of.
ghost use Rattle.std.specs.Prelude.{◌≡◌};

use crate::open_requests::OpenRequests;
use crate::report::Report;
use connection_ids::ConnectionId;
use outside_world::{Happening, SendFault, Work, World, WorldFault};
use sp_outside::Words;
use std::alloc::Global;
use std::env::Env;
use std::fs::Files;
use std::io::Eprint;

/// The place of the word that says how a server begins.
const BEGINNING: usize = 4;

/// A world for the server that these words ask for. It tells what the world in it does.
#[derive(Drop)]
pub struct ReportedWorld<'a, W: World + Drop, L: Words + Drop, R: Eprint + Files + Env + Drop> {
    world: W,
    words: &'a L,
    report: &'a Report<R>,
    open: OpenRequests,
    // Whether `next` was called, and whether it answered.
    was_asked: bool,
    is_open: bool,
}

impl<'a, W: World + Drop, L: Words + Drop, R: Eprint + Files + Env + Drop> ReportedWorld<
    'a,
    W,
    L,
    R,
> {
    pub fn new(
        alloc: Global,
        world: W,
        words: &'a L,
        report: &'a Report<R>,
    ) -> ReportedWorld<'a, W, L, R>
        ensures next_faults { ⟦<ReportedWorld<'a, W, L, R> as World>⟧.next_faults result ≡ W.next_faults world }
        ensures send_faults { ⟦<ReportedWorld<'a, W, L, R> as World>⟧.send_faults result ≡ W.send_faults world }
        ensures log { ⟦<ReportedWorld<'a, W, L, R> as World>⟧.log result ≡ W.log world }
    {
        ReportedWorld {
            world,
            words,
            report,
            open: OpenRequests::new(alloc),
            was_asked: false,
            is_open: false,
        }
    }

    /// The world in it, once it was told how serving ended, where it began.
    pub fn end(self, status: u8) -> W
        ensures { result ≡ self.entry.world }
    {
        if self.was_asked {
            self.report.end(status);
        }
        self.world
    }

    // Tells that clients may come.
    fn tell_opening(&self, alloc: Global) {
        if let Ok(Some(word)) = self.words.word(alloc, BEGINNING) {
            if let Ok(beginning) = str::from_utf8(word.bytes()) {
                self.report.listens(alloc, beginning);
            }
        }
    }

    // Tells an answer that is about to be sent.
    fn tell_answer(&mut self, conn: ConnectionId, answer: &[u8])
        ensures { self.new.world ≡ self.old.world }
    {
        self.report.answer(conn, answer, &self.open);
        self.open.note_answer(conn, answer);
    }

    // Looks at what came.
    fn see(&mut self, alloc: Global, happening: &Happening)
        ensures { self.new.world ≡ self.old.world }
    {
        if !self.is_open {
            self.is_open = true;
            self.tell_opening(alloc);
        }
        match happening {
            Happening::Opened(conn, _) => self.open.open(alloc, *conn),
            Happening::Piece(conn, bytes) => self.open.see(*conn, bytes.bytes()),
            _ => {}
        }
    }
}

impl<'a, W: World + Drop, L: Words + Drop, R: Eprint + Files + Env + Drop> World
    for ReportedWorld<'a, W, L, R> {
    ghost next_faults = { λ w. W.next_faults w.world };

    ghost send_faults = { λ w. W.send_faults w.world };

    ghost log = { λ w. W.log w.world };

    fn expect(&mut self, work: Work) {
        self.world.expect(work);
    }

    fn next(&mut self, alloc: Global) -> Result<Happening, WorldFault> {
        self.was_asked = true;
        let came = self.world.next(alloc);
        if let Ok(happening) = &came {
            self.see(alloc, happening);
        }
        came
    }

    fn send(&mut self, alloc: Global, conn: ConnectionId, bytes: &[u8]) -> Result<(), SendFault> {
        self.tell_answer(conn, bytes);
        self.world.send(alloc, conn, bytes)
    }

    fn send_both(
        &mut self,
        alloc: Global,
        conn: ConnectionId,
        head: &[u8],
        body: &[u8],
    ) -> Result<(), SendFault> {
        self.tell_answer(conn, head);
        self.world.send_both(alloc, conn, head, body)
    }

    fn shut(&mut self, conn: ConnectionId) {
        self.world.shut(conn);
    }
}
