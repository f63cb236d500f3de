//! Inputs in memory, which tell their files, and of which chosen calls fail.
ghost use Rattle.std.specs.Prelude.{◌≡◌, ◌≤◌, Some, IfOk, OnErr, OnOk, length, option_copied};
ghost use Rattle.std.specs.FinMap.{empty};
ghost use Rattle.sp_outside.specs.Causes.{Rose, next};
ghost use Rattle.sp_outside.specs.Files.{file_at, with_file};
ghost use Rattle.sp_outside.specs.Memory.{fails_next};
ghost use Rattle.outside_world.specs.Faults.{HasInputCause};
ghost use Rattle.outside_world.specs.InputFiles.{IsAnswerFor, longest_input};
ghost use Rattle.outside_world.specs.InputMemory.{has_input_failed, inputs_after, must_fail};

use crate::{InputFault, Inputs, LONGEST_INPUT};
use sp_base::{ByteBuf, CallList, Mem};
use std::alloc::Global;
use std::collections::BTreeMap;
use std::marker::Model;

/// Files in memory. The calls of `whole` are counted from 1, in a count that stands still at its type's end; those in the list fail, and
/// those for a name that has no file, and no other.
#[derive(Drop)]
pub struct MemInputs {
    alloc: Global,
    files: BTreeMap<String, ByteBuf>,
    fails: CallList,
    calls: u64,
    failed: u64,
}

impl Model for MemInputs {
    ghost use Rattle.std.specs.Coded.{codes};
    ghost use Rattle.sp_outside.specs.Files.{files_code};
    ghost use Rattle.sp_outside.specs.NameEntries.{kept_by_name};
    ghost use Rattle.outside_world.specs.InputMemory.{InputsState};

    ghost Value = { InputsState };

    ghost coded = { Prim.hlevel (codes, files_code) };

    ghost view = { λ i. record {
      files = kept_by_name i.files.entries;
      fails = i.fails;
      calls = i.calls;
      failed = i.failed;
    } };
}

impl MemInputs {
    /// No file.
    pub fn new(alloc: Global, fails: CallList) -> MemInputs
        ensures { result ≡ record { files = empty; fails = fails; calls = 0; failed = 0 } }
    {
        MemInputs {
            alloc,
            files: BTreeMap::new(alloc),
            fails,
            calls: 0,
            failed: 0,
        }
    }

    /// Makes the file of this name exactly these bytes.
    pub fn add(&mut self, name: &str, bytes: &[u8]) -> Mem<()>
        ensures ok { OnOk result (self.new ≡ record self.old { files = with_file self.old.files name.now bytes.now }) }
        ensures err { OnErr result (self.new ≡ self.old) }
    {
        let name = String::from_str(self.alloc, name)?;
        let bytes = ByteBuf::of(self.alloc, bytes)?;
        self.files.insert(name, bytes)?;
        Ok(())
    }
}

impl MemInputs {
    // Counts a call, and answers whether it is listed.
    fn begin(&mut self) -> bool
        ensures listed { result ≡ fails_next self.old.fails self.old.calls }
        ensures after { self.new ≡ record self.old { calls = next self.old.calls } }
    {
        self.calls = self.calls.saturating_add(1);
        self.fails.as_slice().contains(&self.calls)
    }

    fn fault(&mut self) -> InputFault
        ensures fault { result ≡ InputFault.Failed }
        ensures after { self.new ≡ record self.old { failed = next self.old.failed } }
        ensures rose { Rose self.old.failed self.new.failed }
    {
        self.failed = self.failed.saturating_add(1);
        InputFault::Failed
    }

    // The bytes of a file, if there is one.
    fn lent(&self, name: &str) -> Option<&[u8]>
        ensures { option_copied result ≡ file_at self.now.files name.now }
    {
        match self.files.get(name) {
            Some(bytes) => Some(bytes.bytes()),
            None => None,
        }
    }
}

impl Inputs for MemInputs {
    ghost faults = { λ i. i.failed };

    ghost contents = { λ i. Some i.files };

    fn whole(&mut self, alloc: Global, name: &str) -> Result<ByteBuf, InputFault>
        ensures fails { has_input_failed result ≡ must_fail self.old name.now }
        ensures after { self.new ≡ inputs_after self.old result }

        // What all inputs promise.
        ensures value { IsAnswerFor self.old.files name.now result }
        ensures size { IfOk result (λ bytes. length bytes ≤ longest_input) }
        ensures same { Some self.new.files ≡ Some self.old.files }
        ensures cause { HasInputCause self.old.failed self.new.failed result }
    {
        if self.begin() {
            return Err(self.fault());
        }
        let Some(bytes) = self.lent(name) else {
            return Err(self.fault());
        };
        if bytes.len() > LONGEST_INPUT {
            return Err(InputFault::TooLong);
        }
        Ok(ByteBuf::of(alloc, bytes)?)
    }
}
