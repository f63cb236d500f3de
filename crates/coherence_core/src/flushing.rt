//! The work on flushes, slice by slice.
ghost use Rattle.std.specs.Prelude.{◌≡◌, ◌<◌, length};
ghost use Rattle.docroot_changes.specs.DocrootCalls.{MakesDocrootCalls};
ghost use Rattle.coherence_core.specs.Cores.{ExtendsCore, KeepsFarm, flush_numbers};
ghost use Rattle.coherence_core.specs.Flushes.{IsFirstSliced, MakesOneSlice, PurgedAs, flushes_left_by, purged_entries, purged_under};
ghost use Rattle.coherence_core.specs.Notes.{KnowsDisk};
ghost use Rattle.sp_outside.specs.Causes.{IsDiskFailure};

use crate::answers::Purged;
use crate::core_state::Core;
use crate::laws::coverage_by_three_facts;
use crate::pending::Pending;
use docroot_changes::docroot_calls_add_up;
use docroot_format::{texts_are_read_back, what_reads_is_its_text};
use invalidation::PurgeStep;
use page_index::a_flush_leaves_what_it_does_not_cover;
use sp_outside::Disk;
use std::alloc::Global;

impl Core {
    /// Makes a slice of the oldest unfinished flush.
    pub fn purge_step<D: Disk>(&mut self, alloc: Global, disk: &mut D) -> Purged
        ensures log { ExtendsCore (D.files disk.old) self.old (D.files disk.new) self.new (purged_under result) (purged_entries result) }
        ensures flushes { PurgedAs result (flush_numbers self.old.queue.items) (flush_numbers self.new.queue.items) }
        ensures slice { MakesOneSlice (D.files disk.old) (D.files disk.new) self.old.queue.items self.new.queue.items result }
        ensures idle { result ≡ Purged.Idle → (self.new ≡ self.old) × (D.files disk.new ≡ D.files disk.old) }
        ensures disk_failed { IsDiskFailure (D.faults disk.old) (D.faults disk.new) (purged_under result).disk_failed }
        ensures calls { MakesDocrootCalls (D.calls disk.old) (D.calls disk.new) }
        ensures uncalled { result ≡ Purged.Idle → D.calls disk.new ≡ D.calls disk.old }
        ensures flights { self.new.flights ≡ self.old.flights }
        ensures asked { self.new.asked ≡ self.old.asked }
        ensures kept { KeepsFarm self.old self.new }
        ensures knows { KnowsDisk (D.files disk.old) self.old → KnowsDisk (D.files disk.new) self.new }
    {
        coverage_by_three_facts();
        docroot_calls_add_up();
        a_flush_leaves_what_it_does_not_cover();
        texts_are_read_back();
        what_reads_is_its_text();
        if self.queue.is_empty() {
            return Purged::Idle;
        }
        let purged = slice_first(&mut self.queue, alloc, disk);
        retire(&mut self.queue, &purged);
        purged
    }
}

// Makes a slice of the oldest flush.
fn slice_first<D: Disk>(queue: &mut Vec<Pending>, alloc: Global, disk: &mut D) -> Purged
    requires { 0 < length queue.old.items }
    ensures sliced { IsFirstSliced (D.files disk.old) (D.files disk.new) queue.old.items queue.new.items result }
    ensures disk_failed { IsDiskFailure (D.faults disk.old) (D.faults disk.new) (purged_under result).disk_failed }
    ensures calls { MakesDocrootCalls (D.calls disk.old) (D.calls disk.new) }
{
    let number = queue[0].number;
    match queue[0].purge.slice(alloc, disk) {
        PurgeStep::More => Purged::More(number),
        PurgeStep::Done => Purged::Done(number),
        PurgeStep::DiskFailed => Purged::Failed(number),
        PurgeStep::NoMemory => Purged::NoMemory(number),
    }
}

// Takes the oldest flush out of the queue, where it has ended.
fn retire(queue: &mut Vec<Pending>, purged: &Purged)
    requires { 0 < length queue.old.items }
    ensures { queue.new.items ≡ flushes_left_by purged.now queue.old.items }
{
    match purged {
        Purged::Idle | Purged::More(_) => {}
        Purged::Done(_) | Purged::Failed(_) | Purged::NoMemory(_) => drop(queue.remove(0)),
    }
}
