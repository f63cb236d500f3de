//! Sinks: what is written to.
ghost use Rattle.std.specs.Prelude.{◌≡◌, ◌<◌, ◌≤◌, ℕ, List, Option, IfOk, OnErr, take, length};
ghost use Rattle.sp_outside.specs.Told.{held_after};
ghost use Rattle.sp_outside.specs.Causes.{HasSinkCause};

#[derive(Clone, Copy, PartialEq, Eq, Debug, Drop)]
pub enum SinkFault {
    Failed,
    NoMemory,
}

/// Bytes are written to its end.
pub trait Sink {
    /// How often a write has failed.
    ghost faults: { Self → ℕ };

    /// The bytes that it holds, where the sink tells them.
    ghost held: { Self → Option (List ℕ) };

    /// Takes bytes from the beginning of those given, at least one. A sink that would take none fails.
    fn write(&mut self, bytes: &[u8]) -> Result<usize, SinkFault>
        requires { 0 < length bytes.now }
        ensures some { IfOk result (λ n. 0 < n) }
        ensures within { IfOk result (λ n. n ≤ length bytes.now) }
        ensures ok { IfOk result (λ n. held self.new ≡ held_after (held self.old) (take n bytes.now)) }
        ensures err { OnErr result (held self.new ≡ held self.old) }
        ensures cause { HasSinkCause (faults self.old) (faults self.new) result };
}
