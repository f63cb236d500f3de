//! The places of the sockets.
ghost use Rattle.std.specs.Prelude.{◌≤◌, length};
ghost use Rattle.sockets.specs.Heard.{FillsFront};

use crate::socket::{Crowding, Heard, Socket};
use crate::unsent::Broken;
use mio::event::Event;
use sp_base::Mem;
use std::alloc::Global;
use std::time::Duration;

/// The most sockets: as many as there may be connections, and as many more whose connections are over and that only drain.
pub(crate) const MOST_PLACES: u32 = 512;

/// With more open connections than these, one that is silent for long has to leave.
const MOST_OPEN_AT_LEISURE: usize = 192;

/// With more bytes than these unsent a client gets no more.
const MOST_UNSENT: usize = 16_777_216;

/// With more bytes than these unsent to all clients none gets more.
const MOST_UNSENT_IN_ALL: usize = 268_435_456;

/// Sockets, each at its place. A place is given anew only when its socket is closed.
#[derive(Drop)]
pub(crate) struct Places {
    sockets: Vec<Option<Socket>>,
    // How many bytes are unsent at all of them.
    unsent: usize,
}

/// What is to be done with a place after its turn.
#[derive(Drop)]
pub(crate) enum Fate {
    Rests,
    /// Its turn is to come again.
    Due,
    /// Its socket was closed.
    Free,
}

impl Places {
    pub fn new(alloc: Global) -> Mem<Places> {
        let mut sockets = Vec::with_capacity(alloc, MOST_PLACES as usize)?;
        for _ in 0..MOST_PLACES {
            sockets.push(None)?;
        }
        Ok(Places { sockets, unsent: 0 })
    }

    fn socket(&mut self, place: u32) -> Option<&mut Socket> {
        match self.sockets.get_mut(place as usize) {
            Some(Some(socket)) => Some(socket),
            _ => None,
        }
    }

    /// The lowest place that is free.
    pub fn free(&self) -> Option<u32> {
        for place in 0..MOST_PLACES {
            if let Some(None) = self.sockets.get(place as usize) {
                return Some(place);
            }
        }
        None
    }

    pub fn put(&mut self, place: u32, socket: Socket) {
        if let Some(free) = self.sockets.get_mut(place as usize) {
            *free = Some(socket);
        }
    }

    /// How many bytes are unsent at all of them.
    pub fn unsent(&self) -> usize {
        self.unsent
    }

    fn recount(&mut self, before: usize, after: usize) {
        self.unsent = self.unsent.saturating_sub(before).saturating_add(after);
    }

    /// Takes what the system tells of a place.
    pub fn notice(&mut self, place: u32, event: &Event, now: Duration) {
        let Some(socket) = self.socket(place) else {
            return;
        };
        let before = socket.unsent();
        socket.notice(event, now);
        let after = socket.unsent();
        self.recount(before, after);
    }

    /// The turn of a place: one read of its socket.
    pub fn hear(&mut self, place: u32, room: &mut [u8], now: Duration) -> Heard
        requires { 1 ≤ length room.old }
        ensures { FillsFront result room.new }
    {
        let Some(socket) = self.socket(place) else {
            return Heard::Nothing;
        };
        let before = socket.unsent();
        let heard = socket.hear(room, now);
        let after = socket.unsent();
        self.recount(before, after);
        heard
    }

    /// Closes the socket of a place, where nothing comes or goes there any more.
    pub fn settle(&mut self, place: u32) -> Fate {
        let Some(socket) = self.socket(place) else {
            return Fate::Rests;
        };
        if socket.is_over() {
            let before = socket.unsent();
            self.recount(before, 0);
            self.clear(place);
            return Fate::Free;
        }
        if socket.is_due() {
            return Fate::Due;
        }
        Fate::Rests
    }

    fn clear(&mut self, place: u32) {
        if let Some(held) = self.sockets.get_mut(place as usize) {
            *held = None;
        }
    }

    /// Sends two parts to an open connection. Too much that is unsent before it breaks it too.
    pub fn send(
        &mut self,
        alloc: Global,
        place: u32,
        head: &[u8],
        body: &[u8],
        now: Duration,
    ) -> Result<(), Broken> {
        let in_all = self.unsent;
        let Some(socket) = self.socket(place) else {
            return Err(Broken);
        };
        let before = socket.unsent();
        if !socket.is_open() || before > MOST_UNSENT || in_all > MOST_UNSENT_IN_ALL {
            return Err(Broken);
        }
        let sent = socket.send(alloc, head, body, now);
        let after = socket.unsent();
        self.recount(before, after);
        sent
    }

    /// Shuts a connection, where it is open.
    pub fn shut(&mut self, place: u32, now: Duration) {
        if let Some(socket) = self.socket(place) {
            if socket.is_open() {
                socket.shut(now);
            }
        }
    }

    /// Looks at the time at a place, and says whether its turn is to come.
    pub fn look(&mut self, place: u32, crowding: Crowding, now: Duration) -> Fate {
        match self.socket(place) {
            Some(socket) => {
                socket.look(crowding, now);
                if socket.is_due() {
                    Fate::Due
                } else {
                    Fate::Rests
                }
            }
            None => Fate::Rests,
        }
    }

    /// How crowded the places are.
    pub fn crowding(&self) -> Crowding {
        let mut open = 0usize;
        for held in &self.sockets {
            if let Some(socket) = held {
                if socket.is_open() {
                    open = open.saturating_add(1);
                }
            }
        }
        if open > MOST_OPEN_AT_LEISURE {
            Crowding::Crowded
        } else {
            Crowding::Roomy
        }
    }
}
