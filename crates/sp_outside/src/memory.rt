//! Sources and sinks in memory, which tell what they hold, and of which chosen calls fail.
ghost use Rattle.std.specs.Prelude.{◌≡◌, ◌↔◌, ◌<◌, ◌≤◌, ◌+◌, ◌++◌, [], Some, Err, IfOk, OnErr, is_err, min, take, drop, length};
ghost use Rattle.sp_outside.specs.Told.{held_after, before_taking};
ghost use Rattle.sp_outside.specs.Causes.{HasSourceCause, HasSinkCause};
ghost use Rattle.sp_outside.specs.Memory.{fails_next, has_failed, source_after, sink_after};

use crate::{Sink, SinkFault, Source, SourceFault};
use sp_base::{ByteBuf, CallList};
use std::alloc::Global;
use std::marker::Model;

/// A source over bytes in memory. Its calls are counted from 1, in a count that stands still at its type's end; exactly
/// those in the list fail.
#[derive(Drop)]
pub struct MemSource {
    bytes: ByteBuf,
    at: usize,
    most: usize,
    fails: CallList,
    calls: u64,
    failed: u64,
}

impl Model for MemSource {
    ghost use Rattle.std.specs.Prelude.{◌<◌, drop};
    ghost use Rattle.sp_outside.specs.Memory.{SourceState};

    ghost Value = { SourceState };

    ghost view = { λ s. record {
      left = drop s.at s.bytes;
      most = s.most;
      fails = s.fails;
      calls = s.calls;
      failed = s.failed;
    } };

    ghost invariant = { λ s. 0 < s.most };
}

impl MemSource {
    /// Each read gives as many bytes as there is room for.
    pub fn new(bytes: ByteBuf, fails: CallList) -> MemSource
        ensures { result ≡ record { left = bytes; most = usize.MAX; fails = fails; calls = 0; failed = 0 } }
    {
        MemSource::in_parts(bytes, usize::MAX, fails)
    }

    /// Each read gives at most `most` bytes.
    pub fn in_parts(bytes: ByteBuf, most: usize, fails: CallList) -> MemSource
        requires { 0 < most }
        ensures { result ≡ record { left = bytes; most = most; fails = fails; calls = 0; failed = 0 } }
    {
        MemSource {
            bytes,
            at: 0,
            most,
            fails,
            calls: 0,
            failed: 0,
        }
    }
}

impl Source for MemSource {
    ghost faults = { λ s. s.failed };

    ghost left = { λ s. Some s.left };

    fn read(&mut self, into: &mut [u8]) -> Result<usize, SourceFault>
        requires { 0 < length into.old }
        ensures fails { is_err result ≡ fails_next self.old.fails self.old.calls }
        ensures given { IfOk result (λ n. n ≡ min (min (length self.old.left) self.old.most) (length into.old)) }
        ensures bytes { IfOk result (λ n. into.new ≡ take n self.old.left ++ drop n into.old) }
        ensures after { self.new ≡ source_after self.old result }
        ensures unread { OnErr result (into.new ≡ into.old) }

        // What every source promises.
        ensures within { IfOk result (λ n. n ≤ length into.old) }
        ensures taken { IfOk result (λ n. Some self.old.left ≡ before_taking (take n into.new) (Some self.new.left)) }
        ensures end { IfOk result (λ n. (n ≡ 0) ↔ (self.old.left ≡ [])) }
        ensures err { OnErr result (Some self.new.left ≡ Some self.old.left) }
        ensures cause { HasSourceCause self.old.failed self.new.failed result }
    {
        self.calls = self.calls.saturating_add(1);
        if self.fails.as_slice().contains(&self.calls) {
            self.failed = self.failed.saturating_add(1);
            return Err(SourceFault::Failed);
        }
        let n = give(self.bytes.bytes(), self.at, self.most, into);
        self.at += n;
        Ok(n)
    }
}

// Copies bytes from place `at` on to the beginning of the buffer, at most `most` and as many as there is room for.
fn give(bytes: &[u8], at: usize, most: usize, into: &mut [u8]) -> usize
    ensures given { result ≡ min (min (length (drop at bytes.now)) most) (length into.old) }
    ensures bytes { into.new ≡ take result (drop at bytes.now) ++ drop result into.old }
    ensures within { at + result ≤ length bytes.now + at }
    ensures left { 0 < result → at + result ≤ length bytes.now }
{
    if at >= bytes.len() {
        return 0;
    }
    let n = (bytes.len() - at).min(most).min(into.len());
    into[..n].copy_from_slice(&bytes[at..at + n]);
    n
}

/// A sink in memory. Its calls are counted from 1, in a count that stands still at its type's end; exactly those in the
/// list fail.
#[derive(Drop)]
pub struct MemSink {
    bytes: Vec<u8>,
    most: usize,
    fails: CallList,
    calls: u64,
    failed: u64,
}

impl Model for MemSink {
    ghost use Rattle.std.specs.Prelude.{◌<◌};
    ghost use Rattle.sp_outside.specs.Memory.{SinkState};

    ghost Value = { SinkState };

    ghost view = { λ s. record {
      held = s.bytes.items;
      most = s.most;
      fails = s.fails;
      calls = s.calls;
      failed = s.failed;
    } };

    ghost invariant = { λ s. 0 < s.most };
}

impl MemSink {
    /// Each write takes all the bytes.
    pub fn new(alloc: Global, fails: CallList) -> MemSink
        ensures { result ≡ record { held = []; most = usize.MAX; fails = fails; calls = 0; failed = 0 } }
    {
        MemSink::in_parts(alloc, usize::MAX, fails)
    }

    /// Each write takes at most `most` bytes.
    pub fn in_parts(alloc: Global, most: usize, fails: CallList) -> MemSink
        requires { 0 < most }
        ensures { result ≡ record { held = []; most = most; fails = fails; calls = 0; failed = 0 } }
    {
        MemSink {
            bytes: Vec::new(alloc),
            most,
            fails,
            calls: 0,
            failed: 0,
        }
    }

    /// The bytes that were written.
    pub fn bytes(&self) -> &[u8]
        ensures { result.now ≡ self.now.held }
    {
        self.bytes.as_slice()
    }
}

impl Sink for MemSink {
    ghost faults = { λ s. s.failed };

    ghost held = { λ s. Some s.held };

    fn write(&mut self, bytes: &[u8]) -> Result<usize, SinkFault>
        requires { 0 < length bytes.now }
        ensures fails { has_failed result ≡ fails_next self.old.fails self.old.calls }
        ensures given { IfOk result (λ n. n ≡ min (length bytes.now) self.old.most) }
        ensures after { self.new ≡ sink_after self.old bytes.now result }

        // What every sink promises.
        ensures some { IfOk result (λ n. 0 < n) }
        ensures within { IfOk result (λ n. n ≤ length bytes.now) }
        ensures ok { IfOk result (λ n. Some self.new.held ≡ held_after (Some self.old.held) (take n bytes.now)) }
        ensures err { OnErr result (Some self.new.held ≡ Some self.old.held) }
        ensures cause { HasSinkCause self.old.failed self.new.failed result }
    {
        self.calls = self.calls.saturating_add(1);
        if self.fails.as_slice().contains(&self.calls) {
            self.failed = self.failed.saturating_add(1);
            return Err(SinkFault::Failed);
        }
        let n = bytes.len().min(self.most);
        let Ok(()) = self.bytes.extend_from_slice(&bytes[..n]) else {
            return Err(SinkFault::NoMemory);
        };
        Ok(n)
    }
}
