//! The log of a world in memory.
ghost use Rattle.std.specs.Prelude.{◌≡◌, ◌≤◌, ◌<◌, ◌==◌, ◌+◌, ◌++◌, ◌∷◌, [], false, if◌then◌else◌, IsTrue, OnErr, OnOk, length, option_copied, slice_get, vec_capacity};
ghost use Rattle.connection_ids.specs.Ids as ids;
ghost use Rattle.outside_world.specs.Comings.{has_connection};
ghost use Rattle.outside_world.specs.Worlds.{open_after, shut_entries};

use crate::{Happening, WorldEntry};
use connection_ids::ConnectionId;
use sp_base::Mem;
use std::alloc::Global;
use std::marker::Model;

/// What came and what was done, in order. The room for a `Shut` of each connection that is open is kept.
#[derive(Drop)]
pub struct WorldLog {
    entries: Vec<WorldEntry>,
    // The connections that are open.
    opened: Vec<ConnectionId>,
}

impl Model for WorldLog {
    ghost use Rattle.std.specs.Prelude.{List, vec_capacity};
    ghost use Rattle.outside_world.specs.declared.world.WorldEntry.{WorldEntry};
    ghost use Rattle.outside_world.specs.Comings.{KeepsRoom};

    ghost Value = { List WorldEntry };

    ghost view = { λ log. log.entries.items };

    ghost invariant = { λ log. KeepsRoom (vec_capacity log.entries) log.entries.items log.opened.items };
}

impl WorldLog {
    pub fn new(alloc: Global) -> WorldLog
        ensures { result ≡ [] }
    {
        WorldLog {
            entries: Vec::new(alloc),
            opened: Vec::new(alloc),
        }
    }

    /// Adds an entry at the end.
    pub fn push(&mut self, entry: WorldEntry) -> Mem<()>
        ensures ok { OnOk result (self.new ≡ self.old ++ entry ∷ []) }
        ensures err { OnErr result (self.new ≡ self.old) }
    {
        // The entry, and with a connection that it opens one more.
        self.entries.reserve(self.opened.len() + 2)?;
        follow(&mut self.opened, &entry)?;
        self.entries.push_reserved(entry);
        Ok(())
    }

    /// Adds that a connection is shut, if it is open. This takes no memory.
    pub fn shut(&mut self, conn: ConnectionId)
        ensures { self.new ≡ self.old ++ shut_entries self.old conn }
    {
        if self.opened.as_slice().contains(&conn) {
            take_out(&mut self.opened, conn);
            self.entries.push_reserved(WorldEntry::Shut(conn));
        }
    }

    pub fn len(&self) -> usize
        ensures { result ≡ length self.now }
    {
        self.entries.len()
    }

    /// The entry at a place, counted from 0.
    pub fn get(&self, place: usize) -> Option<&WorldEntry>
        ensures { option_copied result ≡ slice_get self.now place }
    {
        self.entries.get(place)
    }

    pub fn as_slice(&self) -> &[WorldEntry]
        ensures { result.now ≡ self.now }
    {
        self.entries.as_slice()
    }
}

// Makes the open connections those after an entry.
fn follow(opened: &mut Vec<ConnectionId>, entry: &WorldEntry) -> Mem<()>
    ensures ok { OnOk result ((c : ids.ConnectionId) → has_connection c opened.new.items ≡ open_after c (has_connection c opened.old.items) entry.now) }
    ensures few { OnOk result (length opened.new.items ≤ length opened.old.items + 1) }
    ensures err { OnErr result (opened.new.items ≡ opened.old.items) }
{
    match entry {
        WorldEntry::Came(Happening::Opened(conn, _)) => opened.push(*conn)?,
        WorldEntry::Came(Happening::Gone(conn)) => take_out(opened, *conn),
        WorldEntry::Shut(conn) => take_out(opened, *conn),
        _ => {}
    }
    Ok(())
}

// Takes a connection out.
fn take_out(opened: &mut Vec<ConnectionId>, conn: ConnectionId)
    ensures left { (c : ids.ConnectionId) → has_connection c opened.new.items ≡ (if conn == c then false else has_connection c opened.old.items) }
    ensures few { length opened.new.items ≤ length opened.old.items }
    ensures fewer { IsTrue (has_connection conn opened.old.items) → length opened.new.items < length opened.old.items }
{
    opened.retain(|open| *open != conn);
}
