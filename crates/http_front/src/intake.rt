//! Reads the requests of a connection, from its bytes in any cutting.
ghost use Rattle.std.specs.Prelude.{◌≡◌, ◌≤◌, ◌+◌, ◌-◌, drop, take, length};
ghost use Rattle.http_front.specs.Turns.{with_request_body};

use crate::fault::InFault;
use crate::head::AskedHead;
use crate::turn::Turn;
use crate::window::{StreamStart, read_front};
use httparse::spans::{EMPTY_HEADER_SPAN, HeaderSpan};
use sp_base::{ByteBuf, Mem, Req};
use std::alloc::Global;
use std::mem;

// Places for the fields of a head, unless it has more.
const USUAL_SPANS: usize = 100;

// What an intake reads next.
#[derive(Drop)]
enum Phase {
    Heading,
    Body(AskedHead),
    Failed(InFault),
}

// What comes of looking for a head.
#[derive(Drop)]
enum Advance {
    // A head was read whose sender waits for 100 Continue.
    Asked,
    // The body comes next.
    Ready,
    // No whole head is there.
    Waiting,
}

/// The requests of a connection. It holds the bytes that no turn has taken.
#[derive(Drop)]
pub struct Intake {
    buffer: Vec<u8>,
    // Turns have taken the bytes before this one.
    start: usize,
    spans: Vec<HeaderSpan>,
    phase: Phase,
    ghost taken: { start ≤ length buffer.items },
}

impl Intake {
    ghost use Rattle.std.specs.Prelude.{◌≢◌, ◌<◌, [], IfOk, OnOk, OnErr, IfErr, IfSome, IfNone, OnSome, Some, Err};
    ghost use Rattle.http_front.specs.declared.fault.InFault.{InFault};
    ghost use Rattle.http_front.specs.declared.fault.InFault.TheVariants.{NoMemory};
    ghost use Rattle.http_front.specs.Turns.{Waits, Breaks};
    ghost use Rattle.http_front.specs.Intakes.{StandsFor, GrowsIfStoodFor, KeepsIfStoodFor, TellsIfStoodFor, EndsIfStoodFor, weight, told_fault, rest_of, IntakeLeads, LeadsByTurn, HasNothingLeft, IsBody, IsAtHead, Advances};

    pub fn new(alloc: Global) -> Mem<Intake>
        ensures { IfOk result (λ intake. StandsFor intake [] []) }
    {
        Ok(Intake {
            buffer: Vec::new(alloc),
            start: 0,
            spans: vec![in alloc; EMPTY_HEADER_SPAN; USUAL_SPANS]?,
            phase: Phase::Heading,
        })
    }

    /// Takes the next bytes of the stream.
    pub fn feed(&mut self, piece: &[u8]) -> Mem<()>
        ensures ok { OnOk result (GrowsIfStoodFor self.old self.new piece.now) }
        ensures err { OnErr result (KeepsIfStoodFor self.old self.new) }
    {
        self.drop_taken();
        self.buffer.extend_from_slice(piece)?;
        Ok(())
    }

    // Gives back the room of bytes that turns have taken, where they are half of those held, so that each byte is moved once at most
    // for each that was taken.
    fn drop_taken(&mut self)
        ensures rest { rest_of self.new ≡ rest_of self.old }
        ensures phase { self.new.phase ≡ self.old.phase }
    {
        let left = self.buffer.len() - self.start;
        if self.start >= left {
            move_to_front(self.buffer.as_mut_slice(), self.start);
            self.buffer.truncate(left);
            self.start = 0;
        }
    }

    /// The next turn of the stream; none where no whole one is there yet. After a fault other than out of memory it answers that
    /// fault again, whatever comes.
    pub fn next(&mut self, alloc: Global) -> Result<Option<Turn>, InFault>
        ensures turn { IfOk result (λ o. IfSome o (TellsIfStoodFor self.old self.new)) }
        ensures waits { IfOk result (λ o. IfNone o (EndsIfStoodFor self.old Waits)) }
        ensures kept { IfOk result (λ o. IfNone o (KeepsIfStoodFor self.old self.new)) }
        ensures breaks { IfErr result (λ fault. fault ≢ NoMemory → EndsIfStoodFor self.old (Breaks fault)) }
        ensures err { OnErr result (KeepsIfStoodFor self.old self.new) }
        ensures latched { IfErr result (λ fault. fault ≢ NoMemory → told_fault self.new ≡ Some fault) }
        ensures again { (fault : InFault) → told_fault self.old ≡ Some fault → result ≡ Err fault }
        ensures less { IfOk result (λ o. OnSome o (weight self.new < weight self.old)) }
    {
        match self.advance(alloc)? {
            Advance::Asked => Ok(Some(Turn::Continue)),
            Advance::Ready => self.take_body(alloc),
            Advance::Waiting => Ok(None),
        }
    }

    // Reads the next head, unless one was read already.
    fn advance(&mut self, alloc: Global) -> Result<Advance, InFault>
        ensures ok { IfOk result (Advances self.old self.new) }
        ensures breaks { IfErr result (λ fault. fault ≢ NoMemory → HasNothingLeft self.old (Breaks fault)) }
        ensures kept { OnErr result (IntakeLeads self.old self.new) }
        ensures latched { IfErr result (λ fault. fault ≢ NoMemory → told_fault self.new ≡ Some fault) }
        ensures again { (fault : InFault) → told_fault self.old ≡ Some fault → result ≡ Err fault }
    {
        match &self.phase {
            Phase::Heading => {}
            Phase::Body(_) => return Ok(Advance::Ready),
            Phase::Failed(fault) => return Err(*fault),
        }
        let rest = left(&self.buffer, self.start);
        match read_front(alloc, rest, self.spans.as_mut_slice())? {
            StreamStart::Whole(head, len) => Ok(self.begin_body(head, len)),
            StreamStart::Partial | StreamStart::Crowded => Ok(Advance::Waiting),
            StreamStart::Refused(fault) => {
                self.phase = Phase::Failed(fault);
                Err(fault)
            }
        }
    }

    fn begin_body(&mut self, head: AskedHead, len: usize) -> Advance
        requires { IsAtHead self.old head len }
        ensures { Advances self.old self.new result }
    {
        let awaits = head.awaits_continue;
        self.start += len;
        self.phase = Phase::Body(head);
        if awaits {
            Advance::Asked
        } else {
            Advance::Ready
        }
    }

    // The request whose head was read, once its body is whole.
    fn take_body(&mut self, alloc: Global) -> Result<Option<Turn>, InFault>
        requires { IsBody self.old.phase }
        ensures turn { IfOk result (λ o. IfSome o (LeadsByTurn self.old self.new)) }
        ensures less { IfOk result (λ o. OnSome o (weight self.new < weight self.old)) }
        ensures waits { IfOk result (λ o. IfNone o ((self.new ≡ self.old) × HasNothingLeft self.old Waits)) }
        ensures err { IfErr result (λ fault. (self.new ≡ self.old) × (fault ≡ NoMemory)) }
    {
        let Phase::Body(head) = &self.phase else {
            return Ok(None);
        };
        let length = head.body_length;
        let rest = left(&self.buffer, self.start);
        if rest.len() < length {
            return Ok(None);
        }
        let body = ByteBuf::of(alloc, &rest[..length])?;
        match mem::replace(&mut self.phase, Phase::Heading) {
            Phase::Body(head) => {
                self.start += length;
                Ok(Some(Turn::Whole(with_body(head, body))))
            }
            Phase::Heading | Phase::Failed(_) => Ok(None),
        }
    }
}

// Copies the bytes from a place on to the beginning, where there are as many before that place.
fn move_to_front(bytes: &mut [u8], start: usize)
    requires within { start ≤ length bytes.old }
    requires apart { length bytes.old ≤ start + start }
    ensures len { length bytes.new ≡ length bytes.old }
    ensures front { take (length bytes.old - start) bytes.new ≡ drop start bytes.old }
{
    let (front, rest) = bytes.split_at_mut(start);
    front[..rest.len()].copy_from_slice(rest);
}

// The bytes that no turn has taken.
fn left(buffer: &Vec<u8>, start: usize) -> &[u8]
    requires { start ≤ length buffer.now.items }
    ensures { result.now ≡ drop start buffer.now.items }
{
    &buffer[start..]
}

fn with_body(head: AskedHead, body: ByteBuf) -> Req
    ensures { result ≡ with_request_body head body }
{
    head.request.with_body(body)
}
