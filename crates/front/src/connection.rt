//! One connection, as the front keeps it.
ghost use Rattle.std.specs.Prelude.{◌≡◌, ◌≢◌, ◌+◌, ◌≤◌, ◌<◌, false, IfSome, IfNone, IfOk, OnOk, OnSome};
ghost use Rattle.http_front.specs.declared.fault.InFault.TheVariants as variant;
ghost use Rattle.http_front.specs.declared.turn.Turn.{Turn};
ghost use Rattle.connections.specs.Connections as model;
ghost use Rattle.connections.specs.Connections.{with_due_continue, due, due_without_sending, fresh};
ghost use Rattle.connections.specs.Histories.{SendsDue, SendsInPlaceOfDue};
ghost use Rattle.connections.specs.AnswerQueues.{QueueStandsFor, FillsSlot};
ghost use Rattle.front.specs.KeptConnections as kept;
ghost use Rattle.front.specs.KeptConnections.{ConnectionStandsFor, StandsForButContinue, ConnectionReads, TakenAs, TellsTurns, taken_work, work_of, FillsSlotIf, TakesLastSlot, TakesSlot};

use connections::{AnswerPlace, AnswerQueue, Awaited, Reply, Sending};
use http_front::{InFault, Intake, Turn};
use sp_base::{Mem, NoMemory, Req, TextBuf};
use std::alloc::Global;
use std::collections::VecDeque;

/// A connection: the address of its client, the bytes that no turn has taken, the turns that have no slot yet, how they end, and the
/// answers that are owed.
#[derive(Drop)]
pub(crate) struct Connection {
    peer: TextBuf,
    intake: Intake,
    turns: VecDeque<Turn>,
    // The stream is read no further, and why, unless that is answered already.
    fault: Option<InFault>,
    answers: AnswerQueue,
}

/// What is to be answered next.
#[derive(Drop)]
pub(crate) enum Taken {
    Request(Req),
    Fault(InFault),
    /// Nothing.
    Waiting,
    /// Nothing, and all is sent.
    Over,
}

impl Connection {
    /// A connection of this client, of which nothing came.
    pub(crate) fn new(alloc: Global, peer: &TextBuf) -> Mem<Connection>
        ensures { IfOk result (λ connection. ConnectionStandsFor connection (fresh peer.now)) }
    {
        Ok(Connection {
            peer: peer.duplicate(alloc)?,
            intake: Intake::new(alloc)?,
            turns: VecDeque::new(alloc),
            fault: None,
            answers: AnswerQueue::new(alloc)?,
        })
    }

    pub(crate) fn peer(&self) -> &TextBuf
        ensures { result.now ≡ self.now.peer }
    {
        &self.peer
    }

    /// Takes the next bytes of its stream, unless that is read no further.
    pub(crate) fn read(&mut self, alloc: Global, bytes: &[u8]) -> Mem<()>
        ensures { OnOk result ((c : model.Connection) → ConnectionStandsFor self.old c → ConnectionReads bytes.now c self.new) }
    {
        if self.answers.is_closing() {
            return Ok(());
        }
        self.intake.feed(bytes)?;
        self.fault = read_turns(alloc, &mut self.intake, &mut self.turns)?;
        self.advance()?;
        Ok(())
    }

    // A sender that waits next for 100 Continue gets it. Once the connection closes, the turns that came after are let go.
    fn advance(&mut self) -> Mem<()>
        ensures holds { OnOk result ((c : model.Connection) → StandsForButContinue self.old c → ConnectionStandsFor self.new (with_due_continue c)) }
        ensures work { OnOk result (work_of self.new ≤ work_of self.old) }
    {
        if self.answers.is_closing() {
            self.turns.clear();
            return Ok(());
        }
        if !begins_with_continue(&self.turns) {
            return Ok(());
        }
        self.turns.pop_front();
        self.answers.push(AnswerPlace::interim())?;
        Ok(())
    }

    /// What is sent next, if anything can be.
    pub(crate) fn send(&mut self, alloc: Global) -> Option<Sending>
        ensures sends { IfSome result (SendsDue (ConnectionStandsFor self.old) (ConnectionStandsFor self.new)) }
        ensures out_of_memory { IfSome result (SendsInPlaceOfDue (ConnectionStandsFor self.old)) }
        ensures waits { IfNone result ((c : model.Connection) → ConnectionStandsFor self.old c → due c ≡ due_without_sending c) }
        ensures less { OnSome result (work_of self.new < work_of self.old) }
        ensures same { IfNone result (self.new ≡ self.old) }
    {
        self.answers.send(alloc)
    }

    /// Takes the next turn, where nothing can be sent. A slot is owed for it.
    pub(crate) fn take(&mut self) -> Taken
        ensures taken { (c : model.Connection) → ConnectionStandsFor self.old c → due c ≡ due_without_sending c → TakenAs result c self.new }
        ensures less { work_of self.new + taken_work result ≤ work_of self.old }
    {
        if self.answers.is_over() {
            return Taken::Over;
        }
        if self.answers.is_closing() {
            return Taken::Waiting;
        }
        match self.turns.pop_front() {
            Some(Turn::Whole(request)) => Taken::Request(request),
            Some(Turn::Continue) => Taken::Waiting,
            None => match self.fault.take() {
                Some(fault) => Taken::Fault(fault),
                None => Taken::Waiting,
            },
        }
    }

    /// Gives the turn that was taken its place.
    pub(crate) fn push(&mut self, place: AnswerPlace) -> Mem<()>
        ensures request { OnOk result (TakesSlot place self.old self.new) }
        ensures fault { OnOk result (TakesLastSlot place self.old self.new) }
        ensures work { OnOk result (work_of self.new ≤ work_of self.old + 1) }
    {
        self.answers.push(place)?;
        self.advance()?;
        Ok(())
    }

    /// Gives the slot that awaits this flight, or the end of this flush, its reply.
    pub(crate) fn fill(&mut self, awaited: Awaited, reply: Reply)
        ensures filled { FillsSlot awaited reply (ConnectionStandsFor self.old) (ConnectionStandsFor self.new) }
        ensures work { work_of self.new ≡ work_of self.old }
    {
        self.answers.fill(awaited, reply);
    }

    /// The same of what may go on: without a reply the slot waits on.
    pub(crate) fn end_wait(&mut self, awaited: Awaited, reply: Option<Reply>)
        ensures filled { FillsSlotIf awaited reply self.old self.new }
        ensures work { work_of self.new ≡ work_of self.old }
    {
        if let Some(reply) = reply {
            self.fill(awaited, reply);
        }
    }

    pub(crate) fn is_crowded(&self) -> bool
        ensures { (c : model.Connection) → QueueStandsFor self.now.answers c → result ≡ model.is_crowded c }
    {
        self.answers.is_crowded()
    }
}

fn begins_with_continue(turns: &VecDeque<Turn>) -> bool
    ensures { result ≡ kept.begins_with_continue turns.now.items }
{
    match turns.front() {
        Some(Turn::Continue) => true,
        _ => false,
    }
}

// Reads the turns that are whole, to the end or to a fault.
fn read_turns(
    alloc: Global,
    intake: &mut Intake,
    turns: &mut VecDeque<Turn>,
) -> Mem<Option<InFault>>
    ensures { IfOk result (λ fault. TellsTurns intake.old turns.old.items intake.new turns.new.items fault) }
{
    loop {
        match intake.next(alloc) {
            Ok(Some(turn)) => turns.push_back(turn)?,
            Ok(None) => return Ok(None),
            Err(fault) => {
                let stream_fault = fault_or_memory(fault)?;
                return Ok(Some(stream_fault));
            }
        }
    }
}

// A fault that the stream has. Out of memory isn't one.
fn fault_or_memory(fault: InFault) -> Mem<InFault>
    ensures same { IfOk result (λ stream_fault. stream_fault ≡ fault) }
    ensures other { IfOk result (λ stream_fault. fault ≢ variant.NoMemory) }
{
    match fault {
        InFault::NoMemory => Err(NoMemory),
        other => Ok(other),
    }
}
