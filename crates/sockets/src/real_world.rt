//! The real world: clients at a port of this machine.
ghost use Rattle.std.specs.Prelude.{◌≡◌, None, IfOk};
ghost use Rattle.outside_world.specs.Worlds.{HasSize};
ghost use Rattle.outside_world.specs.Faults.{HasSendCause};

use crate::sockets::Sockets;
use crate::unsent::Broken;
use connection_ids::ConnectionId;
use outside_world::{Happening, SendFault, Work, World, WorldFault};
use std::alloc::Global;
use std::net::Net;
use std::time::{Clock, Duration};

/// How long what is unsent may take at the end.
const FINISHING_SECONDS: u64 = 2;

/// Clients at a TCP port of this machine (127.0.0.1), tried in turn. It tells nothing.
#[derive(Drop)]
pub struct RealWorld<R: Net + Clock + Drop> {
    rt: R,
    port: u16,
    work: Work,
    // The first `next` opens them.
    sockets: Option<Sockets>,
    next_failed: u64,
    send_failed: u64,
}

impl<R: Net + Clock + Drop> RealWorld<R> {
    /// Clients at this port. Nothing is opened.
    pub fn new(rt: R, port: u16) -> RealWorld<R>
        ensures next_faults { ⟦<RealWorld<R> as World>⟧.next_faults result ≡ 0 }
        ensures send_faults { ⟦<RealWorld<R> as World>⟧.send_faults result ≡ 0 }
    {
        RealWorld {
            rt,
            port,
            work: Work::Idle,
            sockets: None,
            next_failed: 0,
            send_failed: 0,
        }
    }

    // What comes next, at sockets that are opened where they aren't yet.
    fn come(&mut self, alloc: Global) -> Result<Happening, WorldFault>
        ensures size { IfOk result HasSize }
        ensures next_count { self.new.next_failed ≡ self.old.next_failed }
        ensures send_count { self.new.send_failed ≡ self.old.send_failed }
    {
        match &mut self.sockets {
            Some(sockets) => sockets.next(&self.rt, alloc, self.work),
            None => {
                let mut sockets = Sockets::open(&self.rt, alloc, self.port)?;
                let first = sockets.next(&self.rt, alloc, self.work);
                self.sockets = Some(sockets);
                first
            }
        }
    }

    // Sends two parts at the sockets.
    fn give(
        &mut self,
        alloc: Global,
        conn: ConnectionId,
        head: &[u8],
        body: &[u8],
    ) -> Result<(), SendFault>
        ensures cause { HasSendCause self.old.send_failed self.new.send_failed result }
        ensures next_count { self.new.next_failed ≡ self.old.next_failed }
    {
        let sent = match &mut self.sockets {
            Some(sockets) => sockets.send(alloc, conn.number(), head, body),
            None => Err(Broken),
        };
        match sent {
            Ok(()) => Ok(()),
            Err(Broken) => {
                self.send_failed = self.send_failed.saturating_add(1);
                Err(SendFault::Failed)
            }
        }
    }

    /// Sends what is still unsent, for two seconds at most. To be called at the end, when nothing more is asked of it.
    pub fn finish(&mut self) {
        if let Some(sockets) = &mut self.sockets {
            sockets.finish(&self.rt, Duration::from_secs(FINISHING_SECONDS));
        }
    }
}

impl<R: Net + Clock + Drop> World for RealWorld<R> {
    ghost next_faults = { λ w. w.next_failed };

    ghost send_faults = { λ w. w.send_failed };

    ghost log = { λ _. None };

    fn expect(&mut self, work: Work) {
        self.work = work;
    }

    fn next(&mut self, alloc: Global) -> Result<Happening, WorldFault> {
        match self.come(alloc) {
            Ok(happening) => Ok(happening),
            Err(WorldFault::Failed) => {
                self.next_failed = self.next_failed.saturating_add(1);
                Err(WorldFault::Failed)
            }
            Err(WorldFault::NoMemory) => Err(WorldFault::NoMemory),
        }
    }

    fn send(&mut self, alloc: Global, conn: ConnectionId, bytes: &[u8]) -> Result<(), SendFault> {
        self.give(alloc, conn, bytes, &[])
    }

    fn send_both(
        &mut self,
        alloc: Global,
        conn: ConnectionId,
        head: &[u8],
        body: &[u8],
    ) -> Result<(), SendFault> {
        self.give(alloc, conn, head, body)
    }

    fn shut(&mut self, conn: ConnectionId) {
        if let Some(sockets) = &mut self.sockets {
            sockets.shut(conn.number());
        }
    }
}
