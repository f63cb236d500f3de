//! The connections of a front, before what is behind them.
ghost use Rattle.std.specs.Prelude.{◌≡◌, IfOk, IsTrue, false, is_some};
ghost use Rattle.std.specs.BTreeMap.{btree_map_len, get};
ghost use Rattle.std.specs.Ordering.{nat_cmp};
ghost use Rattle.connections.specs.Connections as model;
ghost use Rattle.run_events.specs.declared.step.Step.TheVariants.{Opened, Piece, Gone, Deliver, Lose, Purge};
ghost use Rattle.front.specs.Boards.{ReadAt, BoardSteps, BoardStepsAlone, FillsConnection, FinishesEnded, SettlesConnection};
ghost use Rattle.front.specs.Uses.{UsesDisk};

use crate::answered::{Ended, not_out_of_memory};
use crate::cache::Cache;
use crate::connection::Connection;
use crate::effect::Effect;
use crate::serve::{AllServed, serve_all};
use connections::{Awaited, ConnectionId, Reply};
use run_events::{Note, Pick};
use sp_base::{ByteBuf, Mem, TextBuf};
use sp_outside::Disk;
use std::alloc::Global;
use std::collections::BTreeMap;

const MOST_CONNECTIONS: usize = 256;

/// The open connections by number, and what is behind them.
pub(crate) struct Board {
    pub(crate) open_connections: BTreeMap<ConnectionId, Connection>,
    pub(crate) cache: Cache,
}

impl Board {
    // Gives a connection all that it is owed.
    fn settle<D: Disk>(&mut self, alloc: Global, disk: &mut D, c: ConnectionId) -> Mem<Effect>
        ensures given { IfOk result (SettlesConnection D.files D.faults c self.old disk.old self.new disk.new) }
        ensures disk { UsesDisk (D.faults disk.old) (D.faults disk.new) (D.calls disk.old) (D.calls disk.new) }
    {
        let Some(connection) = self.open_connections.get_mut(&c) else {
            return Ok(Effect::nothing(alloc));
        };
        let AllServed { mut effect, over } = serve_all(
            alloc,
            disk,
            c,
            connection,
            &mut self.cache,
        )?;
        if over {
            self.open_connections.remove(&c);
            effect.push(Note::Shut(c), not_out_of_memory(false))?;
        }
        Ok(effect)
    }

    /// A connection is there, where there is room for it.
    pub(crate) fn open(&mut self, alloc: Global, c: ConnectionId, peer: &TextBuf) -> Mem<Effect>
        ensures { IfOk result (BoardStepsAlone (Opened c peer.now) self.old self.new) }
    {
        if self.open_connections.contains_key(&c) {
            return Effect::idle(alloc);
        }
        if self.open_connections.len() >= MOST_CONNECTIONS {
            return Effect::one(alloc, Note::Refused(c), not_out_of_memory(false));
        }
        self.open_connections
            .insert(c, Connection::new(alloc, peer)?)?;
        Ok(Effect::nothing(alloc))
    }

    // Bytes come on a connection, if it is there.
    fn read(&mut self, alloc: Global, c: ConnectionId, bytes: &[u8]) -> Mem<bool>
        ensures there { IfOk result (λ there. there ≡ is_some (get nat_cmp self.old.open_connections c)) }
        ensures reads { IfOk result (λ there. IsTrue there → ReadAt self.old self.new c bytes.now) }
        ensures same { IfOk result (λ there. there ≡ false → self.new ≡ self.old) }
    {
        let Some(connection) = self.open_connections.get_mut(&c) else {
            return Ok(false);
        };
        connection.read(alloc, bytes)?;
        Ok(true)
    }

    /// Bytes come on a connection.
    pub(crate) fn take_piece<D: Disk>(
        &mut self,
        alloc: Global,
        disk: &mut D,
        c: ConnectionId,
        bytes: &ByteBuf,
    ) -> Mem<Effect>
        ensures event { IfOk result (BoardSteps D.files D.faults (Piece c bytes.now) self.old disk.old self.new disk.new) }
        ensures disk { UsesDisk (D.faults disk.old) (D.faults disk.new) (D.calls disk.old) (D.calls disk.new) }
    {
        if !self.read(alloc, c, bytes.bytes())? {
            return Effect::idle(alloc);
        }
        let effect = self.settle(alloc, disk, c)?;
        Ok(effect)
    }

    /// A connection is gone.
    pub(crate) fn close(&mut self, alloc: Global, c: ConnectionId) -> Mem<Effect>
        ensures { IfOk result (BoardStepsAlone (Gone c) self.old self.new) }
    {
        if !self.open_connections.contains_key(&c) {
            return Effect::idle(alloc);
        }
        self.open_connections.remove(&c);
        Ok(Effect::nothing(alloc))
    }

    // Gives a connection what it waited for, if it is there.
    fn fill(&mut self, c: ConnectionId, awaited: Awaited, reply: Option<Reply>)
        ensures connection { FillsConnection c awaited reply self.old self.new }
        ensures count { btree_map_len self.new.open_connections ≡ btree_map_len self.old.open_connections }
        ensures cache { self.new.cache ≡ self.old.cache }
    {
        if let Some(connection) = self.open_connections.get_mut(&c) {
            connection.end_wait(awaited, reply);
        }
    }

    // Gives a connection what it waited for, and then all that it is owed.
    fn finish<D: Disk>(&mut self, alloc: Global, disk: &mut D, ended: Ended) -> Mem<Effect>
        ensures given { IfOk result (FinishesEnded D.files D.faults ended self.old disk.old self.new disk.new) }
        ensures disk { UsesDisk (D.faults disk.old) (D.faults disk.new) (D.calls disk.old) (D.calls disk.new) }
    {
        let Ended {
            note,
            conditions,
            connection,
            awaited,
            reply,
        } = ended;
        self.fill(connection, awaited, reply);
        let effect = self.settle(alloc, disk, connection)?;
        let effect = effect.preceded_by(alloc, note, conditions)?;
        Ok(effect)
    }

    /// A rendered flight lands.
    pub(crate) fn deliver<D: Disk>(
        &mut self,
        alloc: Global,
        disk: &mut D,
        pick: &Pick,
    ) -> Mem<Effect>
        ensures event { IfOk result (BoardSteps D.files D.faults (Deliver pick.now) self.old disk.old self.new disk.new) }
        ensures disk { UsesDisk (D.faults disk.old) (D.faults disk.new) (D.calls disk.old) (D.calls disk.new) }
    {
        let Some(ended) = self.cache.deliver(alloc, disk, pick) else {
            return Effect::idle(alloc);
        };
        let effect = self.finish(alloc, disk, ended)?;
        Ok(effect)
    }

    /// A flight is lost.
    pub(crate) fn lose<D: Disk>(&mut self, alloc: Global, disk: &mut D, pick: &Pick) -> Mem<Effect>
        ensures event { IfOk result (BoardSteps D.files D.faults (Lose pick.now) self.old disk.old self.new disk.new) }
        ensures disk { UsesDisk (D.faults disk.old) (D.faults disk.new) (D.calls disk.old) (D.calls disk.new) }
    {
        let Some(ended) = self.cache.lose(pick) else {
            return Effect::idle(alloc);
        };
        let effect = self.finish(alloc, disk, ended)?;
        Ok(effect)
    }

    /// The oldest unfinished flush gets a slice.
    pub(crate) fn purge<D: Disk>(&mut self, alloc: Global, disk: &mut D) -> Mem<Effect>
        ensures event { IfOk result (BoardSteps D.files D.faults Purge self.old disk.old self.new disk.new) }
        ensures disk { UsesDisk (D.faults disk.old) (D.faults disk.new) (D.calls disk.old) (D.calls disk.new) }
    {
        let Some(ended) = self.cache.slice(alloc, disk) else {
            return Effect::idle(alloc);
        };
        let effect = self.finish(alloc, disk, ended)?;
        Ok(effect)
    }
}
