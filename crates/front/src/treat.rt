//! How a request is answered: by the front itself, or through the cache.
ghost use Rattle.std.specs.Prelude.{◌≤◌, ◌+◌, IfOk, OnOk};
ghost use Rattle.connections.specs.Connections as model;
ghost use Rattle.front.specs.Boards.{TreatsRequest, TurnsAway};
ghost use Rattle.front.specs.KeptConnections.{work_of};
ghost use Rattle.front.specs.Uses.{UsesDisk};

use crate::answered::{Answered, local_reply, not_out_of_memory};
use crate::cache::Cache;
use crate::connection::Connection;
use connections::{AnswerPlace, ConnectionId, Reply};
use run_events::{Conditions, Note};
use sp_base::{Mem, Req};
use sp_outside::Disk;
use std::alloc::Global;

/// The note of a request that has its place, whether it is a flush whose first slice is due, and what its call ran under.
#[derive(Drop)]
pub(crate) struct Treated {
    pub(crate) note: Note,
    pub(crate) slices: bool,
    pub(crate) conditions: Conditions,
}

/// Gives a request its place, which the front answers itself, or the cache, a flight or a flush will.
pub(crate) fn treat<D: Disk>(
    alloc: Global,
    disk: &mut D,
    c: ConnectionId,
    request: Req,
    connection: &mut Connection,
    cache: &mut Cache,
) -> Mem<Treated>
    ensures given { IfOk result (TreatsRequest D.files D.faults c request connection.old cache.old disk.old connection.new cache.new disk.new) }
    ensures work { OnOk result (work_of connection.new ≤ work_of connection.old + 1) }
    ensures disk { UsesDisk (D.faults disk.old) (D.faults disk.new) (D.calls disk.old) (D.calls disk.new) }
{
    if connection.is_crowded() {
        return turn_away(c, &request, connection);
    }
    let place = AnswerPlace::of_request(&request, Reply::Fixed);
    let Answered {
        note,
        reply,
        closes,
        slices,
        conditions,
    } = cache.request(alloc, disk, c, request, connection.peer());
    connection.push(AnswerPlace {
        head_only: place.head_only,
        closes: closes || place.closes,
        reply,
    })?;
    Ok(Treated {
        note,
        slices,
        conditions,
    })
}

// Turns away a request of a connection that is crowded, which closes.
fn turn_away(c: ConnectionId, request: &Req, connection: &mut Connection) -> Mem<Treated>
    ensures given { IfOk result (TurnsAway c request.now connection.old connection.new) }
    ensures work { OnOk result (work_of connection.new ≤ work_of connection.old + 1) }
{
    connection.push(AnswerPlace::of_last_request(request, local_reply(503)))?;
    Ok(Treated {
        note: Note::Local(c, 503),
        slices: false,
        conditions: not_out_of_memory(false),
    })
}
