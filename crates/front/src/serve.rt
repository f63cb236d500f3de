//! What a connection is owed, given to it note by note.
ghost use Rattle.std.specs.Prelude.{◌≡◌, ◌≤◌, ◌<◌, ◌+◌, ℕ, IfOk, OnOk};
ghost use Rattle.connections.specs.Ids as ids;
ghost use Rattle.run_events.specs.States.{RunState};
ghost use Rattle.front.specs.Boards.{IsLess, ServedAs, TreatedAs, RefusesFault, ServesAll, ServesNext, ServesTurn};
ghost use Rattle.front.specs.Caches.{Behind};
ghost use Rattle.front.specs.declared.connection.Connection.{Connection as KeptConnection};
ghost use Rattle.front.specs.KeptConnections.{work_of};
ghost use Rattle.front.specs.Serving.{SlicesFirst};
ghost use Rattle.front.specs.Uses.{UsesDisk};

use crate::answered::{Ended, local_reply, not_out_of_memory};
use crate::cache::Cache;
use crate::connection::{Connection, Taken};
use crate::effect::Effect;
use crate::treat::{Treated, treat};
use connections::{AnswerPlace, ConnectionId};
use http_front::InFault;
use run_events::{Conditions, Note};
use sp_base::Mem;
use sp_outside::Disk;
use std::alloc::Global;

/// What a connection was owed.
#[derive(Drop)]
pub(crate) enum Served {
    /// This note, and what its call ran under.
    Said(Note, Conditions),
    /// The same of a flush whose first slice is due.
    Begun(Note, Conditions),
    /// Nothing.
    Quiet,
    /// Its end.
    Ended,
}

/// What a connection was owed up to now, and whether its end is next.
#[derive(Drop)]
pub(crate) struct AllServed {
    pub(crate) effect: Effect,
    pub(crate) over: bool,
}

// Gives a connection the next thing that it is owed.
fn serve_one<D: Disk>(
    alloc: Global,
    disk: &mut D,
    c: ConnectionId,
    connection: &mut Connection,
    cache: &mut Cache,
) -> Mem<Served>
    ensures served { IfOk result (ServesNext D.files D.faults c connection.old cache.old disk.old connection.new cache.new disk.new) }
    ensures less { IfOk result (λ served. IsLess served (work_of connection.new) (work_of connection.old)) }
    ensures disk { UsesDisk (D.faults disk.old) (D.faults disk.new) (D.calls disk.old) (D.calls disk.new) }
{
    match connection.send(alloc) {
        Some(sending) => Ok(Served::Said(
            Note::Sent(c, sending.bytes),
            Conditions {
                disk_failed: false,
                out_of_memory: sending.out_of_memory,
            },
        )),
        None => serve_turn(alloc, disk, c, connection, cache),
    }
}

// The same where nothing can be sent.
fn serve_turn<D: Disk>(
    alloc: Global,
    disk: &mut D,
    c: ConnectionId,
    connection: &mut Connection,
    cache: &mut Cache,
) -> Mem<Served>
    ensures served { IfOk result (ServesTurn D.files D.faults c connection.old cache.old disk.old connection.new cache.new disk.new) }
    ensures less { IfOk result (λ served. IsLess served (work_of connection.new) (work_of connection.old)) }
    ensures disk { UsesDisk (D.faults disk.old) (D.faults disk.new) (D.calls disk.old) (D.calls disk.new) }
{
    match connection.take() {
        Taken::Request(request) => {
            let treated = treat(alloc, disk, c, request, connection, cache)?;
            Ok(treated.into_served())
        }
        Taken::Fault(fault) => {
            let note = refuse(c, fault, connection)?;
            Ok(Served::Said(note, not_out_of_memory(false)))
        }
        Taken::Waiting => Ok(Served::Quiet),
        Taken::Over => Ok(Served::Ended),
    }
}

impl Treated {
    fn into_served(self) -> Served
        ensures served { (w : RunState) (c : ids.ConnectionId) (k : KeptConnection) (old new : Behind) → TreatedAs self w c k old new → ServedAs result w c k old new }
        ensures less { (left before : ℕ) → left < before → IsLess result left before }
    {
        if self.slices {
            Served::Begun(self.note, self.conditions)
        } else {
            Served::Said(self.note, self.conditions)
        }
    }
}

// Answers the fault of a stream.
fn refuse(c: ConnectionId, fault: InFault, connection: &mut Connection) -> Mem<Note>
    ensures given { IfOk result (RefusesFault c fault connection.old connection.new) }
    ensures work { OnOk result (work_of connection.new ≤ work_of connection.old + 1) }
{
    let status = fault.status();
    connection.push(AnswerPlace::of_fault(local_reply(status)))?;
    Ok(Note::Local(c, status))
}

// Gives a connection the first slice of the flush that just began for it, and the end of that flush, if the slice ends it.
fn push_first_slice<D: Disk>(
    alloc: Global,
    disk: &mut D,
    connection: &mut Connection,
    cache: &mut Cache,
    effect: &mut Effect,
) -> Mem<()>
    ensures given { OnOk result (SlicesFirst D.files D.faults effect.old connection.old cache.old disk.old effect.new connection.new cache.new disk.new) }
    ensures work { work_of connection.new ≡ work_of connection.old }
    ensures disk { UsesDisk (D.faults disk.old) (D.faults disk.new) (D.calls disk.old) (D.calls disk.new) }
{
    let Some(ended) = cache.slice(alloc, disk) else {
        return Ok(());
    };
    let Ended {
        note,
        conditions,
        connection: _,
        awaited,
        reply,
    } = ended;
    connection.end_wait(awaited, reply);
    effect.push(note, conditions)
}

/// Gives a connection all that it is owed, but for its end.
pub(crate) fn serve_all<D: Disk>(
    alloc: Global,
    disk: &mut D,
    c: ConnectionId,
    connection: &mut Connection,
    cache: &mut Cache,
) -> Mem<AllServed>
    ensures given { IfOk result (ServesAll D.files D.faults c connection.old cache.old disk.old connection.new cache.new disk.new) }
    ensures disk { UsesDisk (D.faults disk.old) (D.faults disk.new) (D.calls disk.old) (D.calls disk.new) }
{
    let mut effect = Effect::nothing(alloc);
    loop {
        match serve_one(alloc, disk, c, connection, cache)? {
            Served::Said(note, conditions) => effect.push(note, conditions)?,
            Served::Begun(note, conditions) => {
                effect.push(note, conditions)?;
                push_first_slice(alloc, disk, connection, cache, &mut effect)?;
            }
            Served::Quiet => return Ok(AllServed {
                effect,
                over: false,
            }),
            Served::Ended => return Ok(AllServed { effect, over: true }),
        }
    }
}
