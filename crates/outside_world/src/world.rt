//! The world of clients: they open connections, send bytes and go.
ghost use Rattle.std.specs.Prelude.{◌≡◌, ◌++◌, ℕ, List, Option, IfOk, OnErr};
ghost use Rattle.outside_world.specs.Worlds.{IsNewsTo, told_after_send, told_came, told_shut};
ghost use Rattle.outside_world.specs.Faults.{HasNextCause, HasSendCause};
ghost use Rattle.outside_world.specs.declared.world.WorldFault.TheVariants.{NoMemory as next_memory};
ghost use Rattle.outside_world.specs.declared.world.SendFault.TheVariants.{NoMemory as send_memory};

use connection_ids::ConnectionId;
use sp_base::{ByteBuf, Items, Mem, NoMemory, TextBuf};
use std::alloc::{AllocError, Global};

/// The most bytes of a piece.
pub const LONGEST_PIECE: usize = 65_536;

/// What comes from clients.
#[derive(Drop)]
pub enum Happening {
    /// A connection is open, from this address: the peer's IP address as text, without its port.
    Opened(ConnectionId, TextBuf),
    /// Bytes came on a connection, at least one and at most `LONGEST_PIECE`.
    Piece(ConnectionId, ByteBuf),
    /// The client sends nothing more.
    Gone(ConnectionId),
    /// Nothing came.
    Quiet,
}

pub type HappeningList = Items<Happening>;

impl Happening {
    pub fn duplicate(&self, alloc: Global) -> Mem<Happening>
        ensures { IfOk result (λ happening. happening ≡ self.now) }
    {
        Ok(match self {
            Happening::Opened(conn, peer) => Happening::Opened(*conn, peer.duplicate(alloc)?),
            Happening::Piece(conn, bytes) => {
                Happening::Piece(*conn, ByteBuf::of(alloc, bytes.bytes())?)
            }
            Happening::Gone(conn) => Happening::Gone(*conn),
            Happening::Quiet => Happening::Quiet,
        })
    }
}

/// What a world tells of: what came, and what was done.
#[derive(Drop)]
pub enum WorldEntry {
    Came(Happening),
    Sent(ConnectionId, ByteBuf),
    /// A sending failed.
    Unsent(ConnectionId),
    Shut(ConnectionId),
}

/// Whether there is something to do while nothing comes.
#[derive(Clone, Copy, Drop)]
pub enum Work {
    Idle,
    Busy,
}

#[derive(Clone, Copy, PartialEq, Eq, Debug, Drop)]
pub enum WorldFault {
    Failed,
    NoMemory,
}

impl From<NoMemory> for WorldFault {
    ghost from_gives = { λ _ e. e ≡ next_memory };

    fn from(_fault: NoMemory) -> WorldFault {
        WorldFault::NoMemory
    }
}

impl From<AllocError> for WorldFault {
    ghost from_gives = { λ _ e. e ≡ next_memory };

    fn from(_fault: AllocError) -> WorldFault {
        WorldFault::NoMemory
    }
}

#[derive(Clone, Copy, PartialEq, Eq, Debug, Drop)]
pub enum SendFault {
    Failed,
    NoMemory,
}

impl From<NoMemory> for SendFault {
    ghost from_gives = { λ _ e. e ≡ send_memory };

    fn from(_fault: NoMemory) -> SendFault {
        SendFault::NoMemory
    }
}

impl From<AllocError> for SendFault {
    ghost from_gives = { λ _ e. e ≡ send_memory };

    fn from(_fault: AllocError) -> SendFault {
        SendFault::NoMemory
    }
}

/// Clients, each on its connection. A connection is open from its `Opened` until it is gone or shut.
pub trait World {
    ghost use Rattle.outside_world.specs.declared.world.WorldEntry.{WorldEntry};

    /// How often `next` has failed.
    ghost next_faults: { Self → ℕ };

    /// How often `send` or `send_both` has failed.
    ghost send_faults: { Self → ℕ };

    /// What came and what was done, the last of it at the end, where the world tells it.
    ghost log: { Self → Option (List WorldEntry) };

    /// Says before a `next` whether it may wait for what comes: with `Busy` it is not to.
    fn expect(&mut self, work: Work)
        ensures same { log self.new ≡ log self.old }
        ensures next_count { next_faults self.new ≡ next_faults self.old }
        ensures send_count { send_faults self.new ≡ send_faults self.old };

    /// What comes next; `Quiet` where nothing does.
    fn next(&mut self, alloc: Global) -> Result<Happening, WorldFault>
        ensures news { IfOk result (λ happening. IsNewsTo (log self.old) happening) }
        ensures ok { IfOk result (λ happening. log self.new ≡ told_came (log self.old) happening) }
        ensures err { OnErr result (log self.new ≡ log self.old) }
        ensures cause { HasNextCause (next_faults self.old) (next_faults self.new) result }
        ensures send_count { send_faults self.new ≡ send_faults self.old };

    /// Sends bytes on a connection. They may be on their way after the call.
    fn send(&mut self, alloc: Global, conn: ConnectionId, bytes: &[u8]) -> Result<(), SendFault>
        ensures after { log self.new ≡ told_after_send (log self.old) conn bytes.now result }
        ensures cause { HasSendCause (send_faults self.old) (send_faults self.new) result }
        ensures next_count { next_faults self.new ≡ next_faults self.old };

    /// Sends two parts one after the other, as `send` does the two together.
    fn send_both(
        &mut self,
        alloc: Global,
        conn: ConnectionId,
        head: &[u8],
        body: &[u8],
    ) -> Result<(), SendFault>
        ensures after { log self.new ≡ told_after_send (log self.old) conn (head.now ++ body.now) result }
        ensures cause { HasSendCause (send_faults self.old) (send_faults self.new) result }
        ensures next_count { next_faults self.new ≡ next_faults self.old };

    /// Shuts a connection, if it is open, once all that was sent on it is gone.
    fn shut(&mut self, conn: ConnectionId)
        ensures after { log self.new ≡ told_shut (log self.old) conn }
        ensures next_count { next_faults self.new ≡ next_faults self.old }
        ensures send_count { send_faults self.new ≡ send_faults self.old };
}
