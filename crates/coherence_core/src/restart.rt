//! A restart of the cache.
ghost use Rattle.std.specs.Prelude.{◌≡◌, ◌≢◌, [], false, true, Err, IfErr, IfOk, IfSome, Ok, OnErr, OnOk};
ghost use Rattle.cache_files.specs.Epochs.{HasOpenCause, next_epoch};
ghost use Rattle.docroot_changes.specs.Changes.{BesideNumber, Told};
ghost use Rattle.docroot_changes.specs.DocrootCalls.{MakesDocrootCalls};
ghost use Rattle.coherence_core.specs.Cores.{FlightsRise};
ghost use Rattle.coherence_core.specs.Notes.{KnowsDisk};
ghost use Rattle.coherence_core.specs.Sessions.{RestartsAs};

use crate::core_state::Core;
use crate::laws::{coverage_by_three_facts, puts_and_openings_keep_stat_files};
use cache_files::{OpenFault, open_epoch};
use docroot_changes::{an_opening_takes_docroot_calls, what_an_opening_sets};
use page_index::no_notes_agree_with_any_files;
use sp_outside::Disk;
use std::alloc::Global;

impl Core {
    /// Cuts off each unfinished flush, forgets what is known of the files, and goes on in a new epoch, which it answers. After an `Err` the cache is
    /// down.
    pub fn restart<D: Disk>(&mut self, alloc: Global, disk: &mut D) -> Result<u64, OpenFault>
        requires { self.old.flights ≡ [] }
        ensures log { RestartsAs (D.files disk.old) self.old (D.files disk.new) self.new result }
        ensures ok { IfOk result (λ epoch. IfSome (D.files disk.old) (λ files. next_epoch files ≡ Ok epoch)) }
        ensures epoch { IfOk result (λ epoch. self.new.epoch ≡ epoch) }
        ensures up { OnOk result (self.new.down ≡ false) }
        ensures down { OnErr result (self.new.down ≡ true) }
        ensures empty { (self.new.flights ≡ []) × (self.new.queue.items ≡ []) }
        ensures rising { FlightsRise self.old → FlightsRise self.new }
        ensures farm { self.new.farm ≡ self.old.farm }
        ensures err { IfErr result (λ e. e ≢ OpenFault.NoMemory → e ≢ OpenFault.Disk → IfSome (D.files disk.old) (λ files. next_epoch files ≡ Err e)) }
        ensures files { Told BesideNumber (D.files disk.old) (D.files disk.new) }
        ensures cause { HasOpenCause (D.faults disk.old) (D.faults disk.new) result }
        ensures calls { MakesDocrootCalls (D.calls disk.old) (D.calls disk.new) }
        ensures knows { KnowsDisk (D.files disk.new) self.new }
    {
        coverage_by_three_facts();
        what_an_opening_sets();
        puts_and_openings_keep_stat_files();
        an_opening_takes_docroot_calls();
        no_notes_agree_with_any_files();
        self.queue.clear();
        self.pages.forget_all();
        match open_epoch(alloc, disk) {
            Ok(epoch) => {
                self.epoch = epoch;
                self.down = false;
                Ok(epoch)
            }
            Err(fault) => {
                self.down = true;
                Err(fault)
            }
        }
    }
}
