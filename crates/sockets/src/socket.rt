//! One client's socket.
ghost use Rattle.std.specs.Prelude.{◌≡◌, ◌≤◌, length, IfSome, max};
ghost use Rattle.sockets.specs.Heard.{FillsFront, HasAtMost};

use crate::unsent::{Broken, Peer, Unsent};
use mio::event::Event;
use mio::net::TcpStream;
use std::alloc::Global;
use std::io::{ErrorKind, IoSlice, Read};
use std::net::Shutdown;
use std::time::Duration;

/// With more bytes than these unsent a client isn't read: it is to take its answers first.
const MOST_UNSENT_BESIDE_READING: usize = 65_536;

/// As many bytes a read may take of a client that was just answered: one happening then holds no more than the answers of these many bytes of
/// requests, for which all others wait. Most heads fit in, and some ten of the shortest requests.
const SHORTEST_READ: usize = 1_024;

/// How long what a client sends is dropped after the last byte went to it. A socket that is closed with bytes unread is reset, and the
/// reset may take the answer with it.
const DRAINING_SECONDS: u64 = 2;

/// How long a client may say nothing, with nothing unsent, while the places are crowded.
const MOST_SILENT_SECONDS: u64 = 5;

/// How long a client may take nothing of what is unsent.
const MOST_UNTAKEN_SECONDS: u64 = 30;

/// How far a socket has come.
#[derive(Clone, Copy, Drop)]
enum Stage {
    /// What the client sends is told.
    Open,
    /// The client was silent for too long: next is told that it is gone.
    Dismissed,
    /// The client sends nothing more. It gets what is unsent, and then the socket is closed.
    Leaving,
    /// The client gets what is unsent, and then nothing more.
    Closing,
    /// The client gets nothing more. What it sends is dropped until it ends, or until this time.
    Draining(Duration),
    /// Nothing comes or goes any more.
    Over,
}

/// What a read gave.
#[derive(Drop)]
pub(crate) enum Heard {
    /// So many bytes, at the beginning of the room.
    Bytes(usize),
    Gone,
    Nothing,
}

/// How crowded the places are.
#[derive(Clone, Copy, PartialEq, Eq, Drop)]
pub(crate) enum Crowding {
    Roomy,
    Crowded,
}

/// One client's socket, and what it hasn't taken yet.
#[derive(Drop)]
pub(crate) struct Socket {
    stream: TcpStream,
    unsent: Unsent,
    stage: Stage,
    // The client ended its sending, or its connection broke: reads come to an end, and the system tells nothing more.
    is_ending: bool,
    // It is to be heard without anything new that the system tells.
    is_due: bool,
    // When bytes last came or went.
    moved: Duration,
    // How many bytes were told since something was last sent.
    unanswered: usize,
}

impl Peer for TcpStream {
    ghost use Rattle.std.specs.Prelude.{None};

    ghost taken = { λ _. None };

    fn give(&mut self, head: &[u8], body: &[u8]) -> Result<usize, Broken> {
        let stream: &TcpStream = self;
        let parts = [IoSlice::new(head), IoSlice::new(body)];
        for _ in 0..u64::MAX {
            match stream.write_vectored(&parts) {
                Ok(taken) => return Ok(taken),
                Err(fault) => match fault.kind() {
                    ErrorKind::WouldBlock => return Ok(0),
                    ErrorKind::Interrupted => {}
                    _ => return Err(Broken),
                },
            }
        }
        Err(Broken)
    }
}

impl Socket {
    pub fn new(alloc: Global, stream: TcpStream, now: Duration) -> Socket {
        Socket {
            stream,
            unsent: Unsent::new(alloc),
            stage: Stage::Open,
            is_ending: false,
            is_due: false,
            moved: now,
            unanswered: 0,
        }
    }

    /// Whether what the client sends is told.
    pub fn is_open(&self) -> bool {
        matches!(&self.stage, Stage::Open | Stage::Dismissed)
    }

    pub fn is_over(&self) -> bool {
        matches!(&self.stage, Stage::Over)
    }

    /// Whether it is to be heard without anything new that the system tells.
    pub fn is_due(&self) -> bool {
        self.is_due
    }

    /// How many bytes it hasn't taken yet.
    pub fn unsent(&self) -> usize {
        self.unsent.len()
    }

    /// Takes what the system tells of it.
    pub fn notice(&mut self, event: &Event, now: Duration) {
        if event.is_read_closed() || event.is_error() {
            self.is_ending = true;
        }
        if event.is_writable() {
            self.flush(now);
        }
    }

    /// Gives the client what it takes now.
    pub fn flush(&mut self, now: Duration) {
        let before = self.unsent.len();
        if before == 0 {
            return;
        }
        if self.unsent.flush(&mut self.stream).is_err() {
            self.unsent.forget();
            self.is_ending = true;
        }
        if self.unsent.len() < before {
            self.moved = now;
        }
        if self.unsent.is_empty() {
            self.go_on(now);
        }
    }

    // All was sent.
    fn go_on(&mut self, now: Duration) {
        match self.stage {
            Stage::Leaving => self.stage = Stage::Over,
            Stage::Closing => self.end_sending(now),
            // It may have been left unread.
            Stage::Open => self.is_due = true,
            _ => {}
        }
    }

    // Tells the client that nothing more comes.
    fn end_sending(&mut self, now: Duration) {
        self.is_due = true;
        self.stage = match self.stream.shutdown(Shutdown::Write) {
            Ok(()) => Stage::Draining(now.saturating_add(Duration::from_secs(DRAINING_SECONDS))),
            Err(_) => Stage::Over,
        };
    }

    /// One read, as far as it is told or dropped. The room isn't empty.
    pub fn hear(&mut self, room: &mut [u8], now: Duration) -> Heard
        requires { 1 ≤ length room.old }
        ensures fills { FillsFront result room.new }
        ensures most { HasAtMost result (max 1024 self.old.unanswered) }
    {
        self.is_due = false;
        match self.stage {
            Stage::Open if self.unsent.len() > MOST_UNSENT_BESIDE_READING => Heard::Nothing,
            Stage::Open => self.listen(room, now),
            Stage::Dismissed => {
                self.shut(now);
                Heard::Gone
            }
            Stage::Draining(_) => {
                self.drain(room);
                Heard::Nothing
            }
            Stage::Leaving | Stage::Closing | Stage::Over => Heard::Nothing,
        }
    }

    // One read. None where nothing is there now, and 0 bytes where nothing will be.
    fn read(&mut self, room: &mut [u8]) -> Option<usize>
        requires { 1 ≤ length room.old }
        ensures { IfSome result (λ count. count ≤ length room.new) }
    {
        match self.stream.read(room) {
            Ok(count) => {
                self.is_due = count == room.len() || self.is_ending;
                Some(count)
            }
            Err(fault) => match fault.kind() {
                ErrorKind::WouldBlock => None,
                ErrorKind::Interrupted => {
                    self.is_due = true;
                    None
                }
                _ => {
                    // Whatever waits can't be given any more.
                    self.unsent.forget();
                    Some(0)
                }
            },
        }
    }

    // One read whose bytes are told. It takes no more than were told since something was last sent, where these are many: so a long body is
    // read by large pieces, and requests that are answered by small ones.
    fn listen(&mut self, room: &mut [u8], now: Duration) -> Heard
        requires { 1 ≤ length room.old }
        ensures fills { FillsFront result room.new }
        ensures most { HasAtMost result (max 1024 self.old.unanswered) }
    {
        let most = self.unanswered.max(SHORTEST_READ).min(room.len());
        match self.read(&mut room[..most]) {
            None => Heard::Nothing,
            Some(0) => {
                self.stage = if self.unsent.is_empty() {
                    Stage::Over
                } else {
                    Stage::Leaving
                };
                Heard::Gone
            }
            Some(count) => {
                self.moved = now;
                self.unanswered = self.unanswered.saturating_add(count);
                Heard::Bytes(count)
            }
        }
    }

    // One read whose bytes are dropped.
    fn drain(&mut self, room: &mut [u8])
        requires { 1 ≤ length room.old }
    {
        if let Some(0) = self.read(room) {
            self.stage = Stage::Over;
        }
    }

    /// Sends two parts behind what is unsent. What the client doesn't take now is kept.
    pub fn send(
        &mut self,
        alloc: Global,
        head: &[u8],
        body: &[u8],
        now: Duration,
    ) -> Result<(), Broken>
        ensures { self.new.unanswered ≡ 0 }
    {
        self.unanswered = 0;
        let waits = !self.unsent.is_empty();
        let sent = self.unsent.send(alloc, &mut self.stream, head, body);
        if !waits {
            self.moved = now;
        }
        if sent.is_err() {
            self.is_ending = true;
            self.is_due = true;
        }
        sent
    }

    /// Once all is sent, nothing more goes, and what comes is dropped.
    pub fn shut(&mut self, now: Duration) {
        if self.unsent.is_empty() {
            self.end_sending(now);
        } else {
            self.stage = Stage::Closing;
        }
    }

    /// Looks at the time. One that was silent for too long is due, and next is told that it is gone.
    pub fn look(&mut self, crowding: Crowding, now: Duration) {
        let silent = now.saturating_sub(self.moved).as_secs();
        let stage = self.stage;
        self.stage = match stage {
            Stage::Open => self.after_silence(crowding, silent),
            Stage::Leaving | Stage::Closing if silent >= MOST_UNTAKEN_SECONDS => Stage::Over,
            Stage::Draining(until) => { if now < until { stage } else { Stage::Over } }
            stage => stage,
        };
        if matches!(&self.stage, Stage::Dismissed | Stage::Over) {
            self.is_due = true;
        }
    }

    // An open one that takes nothing for so many seconds, or is silent where others need its place, has to leave.
    fn after_silence(&self, crowding: Crowding, silent: u64) -> Stage {
        let most = if !self.unsent.is_empty() {
            MOST_UNTAKEN_SECONDS
        } else if crowding == Crowding::Crowded {
            MOST_SILENT_SECONDS
        } else {
            u64::MAX
        };
        if silent >= most {
            Stage::Dismissed
        } else {
            Stage::Open
        }
    }
}
