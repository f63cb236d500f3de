//! Bytes that a peer hasn't taken yet.
ghost use Rattle.std.specs.Prelude.{◌≡◌, ◌≤◌, ◌++◌, [], ℕ, List, Option, IfOk, OnOk, OnErr, IsTrue, ◌↔◌, length, drop, take};
ghost use Rattle.sp_outside.specs.Told.{held_after};
ghost use Rattle.sockets.specs.Given.{IsCutOff, IsGiven};

use sp_base::{Mem, NoMemory};
use std::alloc::{AllocError, Global};
use std::marker::Model;

/// Nothing more can be given to a peer: it is gone, or what it didn't take found no room.
#[derive(Clone, Copy, PartialEq, Eq, Debug, Drop)]
pub(crate) struct Broken;

impl From<NoMemory> for Broken {
    fn from(_fault: NoMemory) -> Broken {
        Broken
    }
}

impl From<AllocError> for Broken {
    fn from(_fault: AllocError) -> Broken {
        Broken
    }
}

/// A peer that takes bytes.
pub(crate) trait Peer {
    /// The bytes that it took, where it tells them.
    ghost taken: { Self → Option (List ℕ) };

    /// Gives a peer two parts as one. How many bytes it takes now: none where it would have to be waited for.
    fn give(&mut self, head: &[u8], body: &[u8]) -> Result<usize, Broken>
        ensures within { IfOk result (λ n. n ≤ length (head.now ++ body.now)) }
        ensures ok { IfOk result (λ n. taken self.new ≡ held_after (taken self.old) (take n (head.now ++ body.now))) }
        ensures err { OnErr result (taken self.new ≡ taken self.old) };
}

/// Bytes that wait for a peer to take them, in order. Contracts see these bytes.
#[derive(Drop)]
pub(crate) struct Unsent {
    bytes: Vec<u8>,
    // The bytes before this place are gone.
    start: usize,
}

impl Model for Unsent {
    ghost use Rattle.std.specs.Prelude.{◌≤◌, List, ℕ, drop, length};

    ghost Value = { List ℕ };

    ghost view = { λ u. drop u.start u.bytes.items };

    ghost invariant = { λ u. u.start ≤ length u.bytes.items };
}

impl Unsent {
    pub fn new(alloc: Global) -> Unsent
        ensures { result ≡ [] }
    {
        Unsent {
            bytes: Vec::new(alloc),
            start: 0,
        }
    }

    pub fn len(&self) -> usize
        ensures { result ≡ length self.now }
    {
        self.bytes.len() - self.start
    }

    pub fn is_empty(&self) -> bool
        ensures { IsTrue result ↔ (self.now ≡ []) }
    {
        self.len() == 0
    }

    // The bytes that wait.
    fn waiting(&self) -> &[u8]
        ensures { result.now ≡ self.now }
    {
        &self.bytes[self.start..]
    }

    /// Drops what waits, and frees its room.
    pub fn forget(&mut self)
        ensures { self.new ≡ [] }
    {
        self.bytes = Vec::new(*self.bytes.allocator());
        self.start = 0;
    }

    // Frees the room of the bytes that are gone, where it is no less than what waits needs: so a byte is copied about once.
    fn tidy(&mut self, alloc: Global) -> Mem<()>
        ensures { self.new ≡ self.old }
    {
        if self.start > 0 && self.start >= self.len() {
            self.bytes = Vec::from_slice(alloc, self.waiting())?;
            self.start = 0;
        }
        Ok(())
    }

    // Adds bytes behind those that wait.
    fn keep(&mut self, alloc: Global, bytes: &[u8]) -> Mem<()>
        ensures ok { OnOk result (self.new ≡ self.old ++ bytes.now) }
        ensures err { OnErr result (self.new ≡ self.old) }
    {
        self.tidy(alloc)?;
        self.bytes.extend_from_slice(bytes)?;
        Ok(())
    }

    // Keeps two parts without their first bytes.
    fn keep_rest(&mut self, alloc: Global, head: &[u8], body: &[u8], taken: usize) -> Mem<()>
        requires { taken ≤ length (head.now ++ body.now) }
        ensures { OnOk result (self.new ≡ self.old ++ drop taken (head.now ++ body.now)) }
    {
        if taken <= head.len() {
            self.keep(alloc, &head[taken..])?;
            self.keep(alloc, body)
        } else {
            self.keep(alloc, &body[taken - head.len()..])
        }
    }

    // The first bytes are gone.
    fn pass(&mut self, count: usize)
        requires { count ≤ length self.old }
        ensures { self.new ≡ drop count self.old }
    {
        self.start += count;
        if self.start == self.bytes.len() {
            self.forget();
        }
    }

    /// Gives a peer what waits, until all is gone or the peer would have to be waited for.
    pub fn flush<P: Peer>(&mut self, to: &mut P) -> Result<(), Broken>
        ensures { IsGiven (P.taken to.old) (P.taken to.new) self.old self.new }
    {
        while !self.is_empty() {
            let taken = to.give(self.waiting(), &[])?;
            if taken == 0 {
                return Ok(());
            }
            self.pass(taken);
        }
        Ok(())
    }

    // Gives two parts behind what waits, and keeps what isn't taken.
    fn pass_on<P: Peer>(
        &mut self,
        alloc: Global,
        to: &mut P,
        head: &[u8],
        body: &[u8],
    ) -> Result<(), Broken>
        ensures ok { OnOk result (IsGiven (P.taken to.old) (P.taken to.new) (self.old ++ (head.now ++ body.now)) self.new) }
        ensures err { OnErr result (IsCutOff (P.taken to.old) (P.taken to.new) (self.old ++ (head.now ++ body.now))) }
    {
        if self.is_empty() {
            let taken = to.give(head, body)?;
            self.keep_rest(alloc, head, body, taken)?;
            return self.flush(to);
        }
        self.keep_rest(alloc, head, body, 0)?;
        Ok(())
    }

    /// Gives a peer two parts behind what waits, and keeps what it doesn't take now. After an error nothing waits, since what follows
    /// would have a gap before it.
    pub fn send<P: Peer>(
        &mut self,
        alloc: Global,
        to: &mut P,
        head: &[u8],
        body: &[u8],
    ) -> Result<(), Broken>
        ensures ok { OnOk result (IsGiven (P.taken to.old) (P.taken to.new) (self.old ++ (head.now ++ body.now)) self.new) }
        ensures err { OnErr result (IsCutOff (P.taken to.old) (P.taken to.new) (self.old ++ (head.now ++ body.now))) }
        ensures dropped { OnErr result (self.new ≡ []) }
    {
        let sent = self.pass_on(alloc, to, head, body);
        if sent.is_err() {
            self.forget();
        }
        sent
    }
}
