//! What a restart does, and how a front is given up.
ghost use Rattle.std.specs.Prelude.{◌≡◌, ◌++◌, [], ℕ, Option, IfOk, OnOk, map};
ghost use Rattle.std.specs.BTreeMap.{keys};
ghost use Rattle.sp_outside.specs.Files.{Files};
ghost use Rattle.coherence_core.specs.Cores.{flights_of};
ghost use Rattle.run_events.specs.declared.note.Note.TheVariants.{Shut};
ghost use Rattle.run_events.specs.declared.step.Step.TheVariants.{Restart};
ghost use Rattle.front.specs.Boards.{BoardSteps};
ghost use Rattle.front.specs.Caches.{behind};
ghost use Rattle.front.specs.Restarts.{AreKeys, IsReopened, LosesFlights, failed_notes, lost_notes, reopened_by};
ghost use Rattle.front.specs.Uses.{UsesDisk};

use crate::answered::{not_out_of_memory, out_of_memory};
use crate::board::Board;
use crate::cache::Cache;
use crate::connection::Connection;
use crate::effect::Effect;
use cache_files::OpenFault;
use connections::ConnectionId;
use run_events::{Conditions, Failure, Note, Pick};
use sp_base::Mem;
use sp_outside::Disk;
use std::alloc::Global;
use std::collections::BTreeMap;

/// How a restart ended.
#[derive(Drop)]
pub(crate) struct Reopened {
    pub(crate) note: Note,
    pub(crate) conditions: Conditions,
}

impl Cache {
    // Loses each flight in the air, the oldest first, and says so.
    fn lose_flights(&mut self, notes: &mut Vec<Note>) -> Mem<()>
        ensures notes { OnOk result (notes.new.items ≡ notes.old.items ++ lost_notes self.old.flying) }
        ensures none { OnOk result ((flights_of self.new.core ≡ []) × (self.new.flying ≡ [])) }
        ensures flushes { OnOk result (self.new.flushes ≡ self.old.flushes) }
        ensures loses { OnOk result ((files : Option Files) (faults : ℕ) → LosesFlights (behind self.old files faults) (behind self.new files faults)) }
    {
        while let Some(ended) = self.lose(&Pick::First) {
            notes.push(ended.note)?;
        }
        let _core = &self.core;
        Ok(())
    }

    // Says of each unfinished flush that it is cut off, the oldest first.
    fn note_flushes(&self, notes: &mut Vec<Note>) -> Mem<()>
        ensures { OnOk result (notes.new.items ≡ notes.old.items ++ failed_notes self.now.flushes) }
    {
        for flush in self.flushes.iter() {
            notes.push(Note::Failed(flush.number, Failure::Restart))?;
        }
        Ok(())
    }

    // Cuts off the flushes, and goes on in a new epoch, or goes down.
    fn restart<D: Disk>(&mut self, alloc: Global, disk: &mut D) -> Reopened
        requires { flights_of self.old.core ≡ [] }
        ensures given { IsReopened (behind self.old (D.files disk.old) (D.faults disk.old)) (behind self.new (D.files disk.new) (D.faults disk.new)) result }
        ensures disk { UsesDisk (D.faults disk.old) (D.faults disk.new) (D.calls disk.old) (D.calls disk.new) }
    {
        let opened = self.core.restart(alloc, disk);
        self.flushes.clear();
        restart_end(opened)
    }

    /// Loses each flight in the air, and gives the cache up.
    pub(crate) fn end(mut self) {
        while let Some(_) = self.lose(&Pick::First) {}
        let Cache {
            core: _,
            flights,
            flushes: _,
        } = self;
        flights.destroy_empty();
    }
}

// How a restart ended whose opening answered this.
fn restart_end(opened: Result<u64, OpenFault>) -> Reopened
    ensures { result ≡ reopened_by opened }
{
    match opened {
        Ok(epoch) => Reopened {
            note: Note::Up(epoch),
            conditions: not_out_of_memory(false),
        },
        Err(OpenFault::Disk) => Reopened {
            note: Note::Down,
            conditions: not_out_of_memory(true),
        },
        Err(OpenFault::NoMemory) => Reopened {
            note: Note::Down,
            conditions: out_of_memory(false),
        },
        Err(OpenFault::Foreign | OpenFault::EpochEnd) => Reopened {
            note: Note::Down,
            conditions: not_out_of_memory(false),
        },
    }
}

impl Board {
    /// The cache and its connections begin anew.
    pub(crate) fn restart<D: Disk>(&mut self, alloc: Global, disk: &mut D) -> Mem<Effect>
        ensures event { IfOk result (BoardSteps D.files D.faults Restart self.old disk.old self.new disk.new) }
        ensures disk { UsesDisk (D.faults disk.old) (D.faults disk.new) (D.calls disk.old) (D.calls disk.new) }
    {
        let mut notes = Vec::new(alloc);
        self.cache.lose_flights(&mut notes)?;
        self.cache.note_flushes(&mut notes)?;
        note_connections(&self.open_connections, &mut notes)?;
        self.open_connections.clear();
        let Reopened { note, conditions } = self.cache.restart(alloc, disk);
        notes.push(note)?;
        Ok(Effect { notes, conditions })
    }
}

// Says of each open connection that it is shut, in their order.
fn note_connections(
    open_connections: &BTreeMap<ConnectionId, Connection>,
    notes: &mut Vec<Note>,
) -> Mem<()>
    ensures notes { OnOk result (notes.new.items ≡ notes.old.items ++ map Shut (keys open_connections.now)) }
    ensures open { OnOk result (AreKeys open_connections.now) }
{
    for c in open_connections.keys() {
        notes.push(Note::Shut(*c))?;
    }
    Ok(())
}
