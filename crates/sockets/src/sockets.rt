//! The listener, the clients' sockets, and their turns.
ghost use Rattle.std.specs.Prelude.{◌≤◌, IfOk, length};
ghost use Rattle.outside_world.specs.Worlds.{HasSize};
ghost use Rattle.sockets.specs.Heard.{FillsFront};

use crate::listening::Listening;
use crate::places::{Fate, MOST_PLACES, Places};
use crate::read_buffer::ReadBuffer;
use crate::ready::Ready;
use crate::socket::{Heard, Socket};
use crate::unsent::Broken;
use connection_ids::ConnectionId;
use mio::event::Event;
use mio::net::TcpStream;
use mio::{Events, Interest, Poll, Token};
use outside_world::{Happening, Work, WorldFault};
use sp_base::{ByteBuf, Mem, TextBuf};
use std::alloc::Global;
use std::io::{self, ErrorKind};
use std::net::{Net, SocketAddr};
use std::time::{Clock, Duration};

/// The place of the listener in the turns, and its token.
const LISTENER: u32 = MOST_PLACES;

/// The most events that one wait tells of.
const MOST_EVENTS: usize = 256;

/// How long one wait may be, in milliseconds.
const LONGEST_WAIT: u64 = 100;

/// The least time between two looks at who is silent, in milliseconds.
const BETWEEN_LOOKS: u64 = 500;

/// The listener, the clients' sockets, and those of them that are ready, in turn.
#[derive(Drop)]
pub(crate) struct Sockets {
    poll: Poll,
    events: Events,
    listening: Listening,
    places: Places,
    ready: Ready,
    // The places whose turn is to come again after the next wait, behind those that it tells of, so that none has two turns before another
    // that is ready has one.
    again: Ready,
    buffer: ReadBuffer,
    // The time at the last wait.
    now: Duration,
    // The time of the last look at who is silent.
    looked: Duration,
}

// What tells of a listener at a port, and the listener.
fn listened<R: Net>(rt: &R, port: u16) -> io::Result<(Poll, Listening)> {
    let poll = Poll::new(rt)?;
    let token = Token(LISTENER as usize);
    let listening = Listening::open(rt, poll.registry(), token, port)?;
    Ok((poll, listening))
}

// A fault of the system is one of the world, but for want of memory.
fn world_fault(fault: &io::Error) -> WorldFault {
    match fault.kind() {
        ErrorKind::OutOfMemory => WorldFault::NoMemory,
        _ => WorldFault::Failed,
    }
}

impl Sockets {
    /// Listens at a port of this machine.
    pub fn open<R: Net>(rt: &R, alloc: Global, port: u16) -> Result<Sockets, WorldFault> {
        let (poll, listening) = match listened(rt, port) {
            Ok(opened) => opened,
            Err(fault) => return Err(world_fault(&fault)),
        };
        Ok(Sockets {
            poll,
            events: Events::with_capacity(alloc, MOST_EVENTS)?,
            listening,
            places: Places::new(alloc)?,
            ready: Ready::new(alloc, MOST_PLACES + 1)?,
            again: Ready::new(alloc, MOST_PLACES + 1)?,
            buffer: ReadBuffer::new(alloc)?,
            now: Duration::ZERO,
            looked: Duration::ZERO,
        })
    }

    /// The next turn: one client is let in, or one socket read. A fault is one of the wait.
    pub fn next<C: Clock>(
        &mut self,
        clock: &C,
        alloc: Global,
        work: Work,
    ) -> Result<Happening, WorldFault>
        ensures { IfOk result HasSize }
    {
        if self.ready.is_empty() {
            self.wait(clock, self.patience(work))?;
            self.look_round()?;
            self.ready.take_all(&mut self.again)?;
        }
        match self.ready.pop() {
            None => Ok(Happening::Quiet),
            Some(LISTENER) => Ok(self.accept(alloc)?),
            Some(place) => Ok(self.hear(alloc, place)?),
        }
    }

    // How long the next wait may be.
    fn patience(&self, work: Work) -> Duration {
        match work {
            Work::Idle if self.again.is_empty() => Duration::from_millis(LONGEST_WAIT),
            _ => Duration::ZERO,
        }
    }

    // Waits for what the system tells, and takes it.
    fn wait<C: Clock>(&mut self, clock: &C, longest: Duration) -> Result<(), WorldFault> {
        if let Err(fault) = self.poll.poll(&mut self.events, Some(longest)) {
            return Err(world_fault(&fault));
        }
        // Without a clock it stays as late as it was.
        if let Ok(now) = clock.monotonic() {
            self.now = now;
        }
        for event in &self.events {
            notice(&mut self.places, &mut self.ready, event, self.now)?;
        }
        Ok(())
    }

    // Looks who was silent for too long, now and then, and whether the listener is to go on.
    fn look_round(&mut self) -> Mem<()> {
        self.listen_again()?;
        if self.now.saturating_sub(self.looked) < Duration::from_millis(BETWEEN_LOOKS) {
            return Ok(());
        }
        self.looked = self.now;
        let crowding = self.places.crowding();
        for place in 0..MOST_PLACES {
            if let Fate::Due = self.places.look(place, crowding, self.now) {
                self.ready.push(place)?;
            }
        }
        Ok(())
    }

    // Gives the listener a turn, where it paused.
    fn listen_again(&mut self) -> Mem<()> {
        if self.listening.resume() {
            self.ready.push(LISTENER)?;
        }
        Ok(())
    }

    // The turn of the listener: one client is let in.
    fn accept(&mut self, alloc: Global) -> Mem<Happening>
        ensures { IfOk result HasSize }
    {
        let Some(place) = self.places.free() else {
            self.listening.pause();
            return Ok(Happening::Quiet);
        };
        let Some((stream, address)) = self.listening.accept() else {
            return Ok(Happening::Quiet);
        };
        self.again.push(LISTENER)?;
        self.let_in(alloc, place, stream, address)
    }

    fn let_in(
        &mut self,
        alloc: Global,
        place: u32,
        mut stream: TcpStream,
        address: SocketAddr,
    ) -> Mem<Happening>
        ensures { IfOk result HasSize }
    {
        let both = Interest::READABLE | Interest::WRITABLE;
        let token = Token(place as usize);
        if self
            .poll
            .registry()
            .register(&mut stream, token, both)
            .is_err()
        {
            // The client is sent away.
            return Ok(Happening::Quiet);
        }
        // An answer isn't to wait for the client to say that it got the one before.
        let _ = stream.set_nodelay(true);
        let peer = format!(in alloc; "{}", address.ip())?;
        self.places.put(place, Socket::new(alloc, stream, self.now));
        Ok(Happening::Opened(ConnectionId::new(place), TextBuf::from(peer)))
    }

    // The turn of a socket: one read.
    fn hear(&mut self, alloc: Global, place: u32) -> Mem<Happening>
        ensures { IfOk result HasSize }
    {
        let heard = self.places.hear(place, &mut self.buffer.bytes, self.now);
        let happening = told(alloc, place, heard, &self.buffer.bytes)?;
        match self.places.settle(place) {
            Fate::Rests => {}
            Fate::Due => self.again.push(place)?,
            Fate::Free => self.listen_again()?,
        }
        Ok(happening)
    }

    /// Sends two parts to an open connection.
    pub fn send(
        &mut self,
        alloc: Global,
        place: u32,
        head: &[u8],
        body: &[u8],
    ) -> Result<(), Broken> {
        self.places.send(alloc, place, head, body, self.now)
    }

    /// Shuts a connection, where it is open.
    pub fn shut(&mut self, place: u32) {
        self.places.shut(place, self.now);
    }

    /// Sends what is unsent, for so long at most.
    pub fn finish<C: Clock>(&mut self, clock: &C, longest: Duration) {
        let Ok(began) = clock.monotonic() else {
            return;
        };
        for _ in 0..u64::MAX {
            let late = self.now.saturating_sub(began) >= longest;
            if late
                || self.places.unsent() == 0
                || self
                    .wait(clock, Duration::from_millis(LONGEST_WAIT))
                    .is_err()
            {
                return;
            }
        }
    }
}

// Takes what the system tells, and gives that place a turn.
fn notice(places: &mut Places, ready: &mut Ready, event: &Event, now: Duration) -> Mem<()> {
    let Token(token) = event.token();
    let Ok(place) = u32::try_from(token) else {
        return Ok(());
    };
    places.notice(place, event, now);
    ready.push(place)
}

// What a read gave at a place, as what came from there.
fn told(alloc: Global, place: u32, heard: Heard, room: &[u8]) -> Mem<Happening>
    requires fills { FillsFront heard room.now }
    requires within { length room.now ≤ 65536 }
    ensures { IfOk result HasSize }
{
    match heard {
        Heard::Bytes(count) => Ok(Happening::Piece(
            ConnectionId::new(place),
            ByteBuf::of(alloc, &room[..count])?,
        )),
        Heard::Gone => Ok(Happening::Gone(ConnectionId::new(place))),
        Heard::Nothing => Ok(Happening::Quiet),
    }
}
