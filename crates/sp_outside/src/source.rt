//! Sources: what is read from.
ghost use Rattle.std.specs.Prelude.{◌≡◌, ◌↔◌, ◌<◌, ◌≤◌, ℕ, List, [], Option, IfSome, IfOk, OnErr, take, length};
ghost use Rattle.sp_outside.specs.Told.{before_taking};
ghost use Rattle.sp_outside.specs.Causes.{HasSourceCause};

#[derive(Clone, Copy, PartialEq, Eq, Debug, Drop)]
pub enum SourceFault {
    Failed,
}

/// Bytes that are read from the beginning to the end.
pub trait Source {
    /// How often a read has failed.
    ghost faults: { Self → ℕ };

    /// The bytes that are left, where the source tells them.
    ghost left: { Self → Option (List ℕ) };

    /// Reads bytes into the beginning of the buffer: at least one, or none exactly where none is left.
    fn read(&mut self, into: &mut [u8]) -> Result<usize, SourceFault>
        requires { 0 < length into.old }
        ensures within { IfOk result (λ n. n ≤ length into.old) }
        ensures taken { IfOk result (λ n. left self.old ≡ before_taking (take n into.new) (left self.new)) }
        ensures end { IfOk result (λ n. IfSome (left self.old) (λ rest. (n ≡ 0) ↔ (rest ≡ []))) }
        ensures err { OnErr result (left self.new ≡ left self.old) }
        ensures cause { HasSourceCause (faults self.old) (faults self.new) result };
}
