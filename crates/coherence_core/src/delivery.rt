//! A flight that lands or is lost.
ghost use Rattle.std.specs.Prelude.{◌≡◌, ◌<◌, ◌^◌, ◌∷◌, [], Option, Some, IfSome, IsSome, IsTrue, length};
ghost use Rattle.sp_base.specs.MediaTypes.{is_kind};
ghost use Rattle.sp_outside.specs.Files.{Files};
ghost use Rattle.docroot_changes.specs.Changes.{Told};
ghost use Rattle.docroot_changes.specs.DocrootCalls.{MakesDocrootCalls};
ghost use Rattle.flights.specs.Flights.{flight_at, without};
ghost use Rattle.cache_log.specs.Entries.{Lost};
ghost use Rattle.cache_log.specs.Rules.{CallConditions};
ghost use Rattle.coherence_core.specs.Cores.{ExtendsCore, FlightsRise, KeepsFarm};
ghost use Rattle.coherence_core.specs.Holds.{KeepsStatFiles};
ghost use Rattle.coherence_core.specs.Landings.{DeliveredAs, ForgetsFor, ForgetsFrom, IsKeptAs, IsKeptFrom, IsStored, landed_under, LandsFlight};
ghost use Rattle.coherence_core.specs.Notes.{KnowsDisk};
ghost use Rattle.sp_outside.specs.Causes.{IsDiskFailure};

use crate::answers::Landed;
use crate::core_state::Core;
use crate::laws::{coverage_by_three_facts, puts_and_openings_keep_stat_files};
use cache_files::put_page;
use cover_rules::Stamp;
use dispatch_rules::storable;
use docroot_changes::{docroot_calls_add_up, pages_take_docroot_calls, what_a_put_sets};
use docroot_format::FileFault;
use flights::{Clear, Landing, Ticket, the_numbers_of_flights_rise};
use page_index::{
    PageIndex, a_changed_page_leaves_other_notes, fewer_notes_agree, forgotten_notes_agree,
};
use sp_base::Answer;
use sp_outside::Disk;
use std::alloc::Global;

impl Core {
    /// Lands a flight. Its answer is stored where it may be.
    pub fn deliver<D: Disk>(
        &mut self,
        alloc: Global,
        disk: &mut D,
        ticket: Ticket,
        answer: &Answer,
    ) -> Landed
        requires flight { IsSome (flight_at ticket self.old.flights) }
        requires kind { IsTrue (is_kind answer.now.kind) }
        ensures log { IfSome (flight_at ticket self.old.flights) (LandsFlight (D.files disk.old) self.old (D.files disk.new) self.new ticket answer.now result) }
        ensures delivered { IfSome (flight_at ticket self.old.flights) (λ flight. DeliveredAs flight answer.now result (D.files disk.old) (D.files disk.new)) }
        ensures key { IfSome (flight_at ticket self.old.flights) (λ flight. IsKeptAs flight.key result) }
        ensures disk_failed { IsDiskFailure (D.faults disk.old) (D.faults disk.new) (landed_under result).disk_failed }
        ensures calls { MakesDocrootCalls (D.calls disk.old) (D.calls disk.new) }
        ensures flights { self.new.flights ≡ without ticket self.old.flights }
        ensures queue { self.new.queue ≡ self.old.queue }
        ensures rising { FlightsRise self.old → FlightsRise self.new }
        ensures kept { KeepsFarm self.old self.new }
        ensures knows { KnowsDisk (D.files disk.old) self.old → KnowsDisk (D.files disk.new) self.new }
    {
        coverage_by_three_facts();
        the_numbers_of_flights_rise();
        a_changed_page_leaves_other_notes();
        forgotten_notes_agree();
        fewer_notes_agree();
        let landing = self.flights.land(ticket);
        keep(alloc, disk, &mut self.pages, landing, answer)
    }

    /// Loses a flight.
    pub fn lose(&mut self, ticket: Ticket)
        requires { IsSome (flight_at ticket self.old.flights) }
        ensures log { (told : Option Files) (under : CallConditions) → ExtendsCore told self.old told self.new under (Lost ticket ∷ []) }
        ensures flights { self.new.flights ≡ without ticket self.old.flights }
        ensures queue { self.new.queue ≡ self.old.queue }
        ensures rising { FlightsRise self.old → FlightsRise self.new }
        ensures kept { KeepsFarm self.old self.new }
        ensures knows { (told : Option Files) → KnowsDisk told self.old → KnowsDisk told self.new }
    {
        the_numbers_of_flights_rise();
        self.flights.lose(ticket);
    }
}

// Stores the answer of a landing, where its flight gives leave.
fn keep<D: Disk>(
    alloc: Global,
    disk: &mut D,
    pages: &mut PageIndex,
    landing: Landing,
    answer: &Answer,
) -> Landed
    requires { IsTrue (is_kind answer.now.kind) }
    ensures kept { IsKeptFrom landing answer.now result (D.files disk.old) (D.files disk.new) }
    ensures stats { Told KeepsStatFiles (D.files disk.old) (D.files disk.new) }
    ensures notes { ForgetsFrom landing result pages.old pages.new }
    ensures disk_failed { IsDiskFailure (D.faults disk.old) (D.faults disk.new) (landed_under result).disk_failed }
    ensures calls { MakesDocrootCalls (D.calls disk.old) (D.calls disk.new) }
{
    docroot_calls_add_up();
    match landing {
        Landing::Unkeyed => Landed::Passed,
        Landing::Voided(_) => Landed::Passed,
        Landing::Clear(clear) => store(alloc, disk, pages, clear, answer),
    }
}

// Stores the answer of a landing, where it is storable. It is the one place where an answer is stored. What is noted of its page is forgotten
// before.
fn store<D: Disk>(
    alloc: Global,
    disk: &mut D,
    pages: &mut PageIndex,
    clear: Clear,
    answer: &Answer,
) -> Landed
    requires { IsTrue (is_kind answer.now.kind) }
    ensures stored { IsStored clear.key clear.stamp answer.now result (D.files disk.old) (D.files disk.new) }
    ensures stats { Told KeepsStatFiles (D.files disk.old) (D.files disk.new) }
    ensures notes { ForgetsFor clear.key result pages.old pages.new }
    ensures key { IsKeptAs (Some clear.key) result }
    ensures disk_failed { IsDiskFailure (D.faults disk.old) (D.faults disk.new) (landed_under result).disk_failed }
    ensures calls { MakesDocrootCalls (D.calls disk.old) (D.calls disk.new) }
{
    what_a_put_sets();
    puts_and_openings_keep_stat_files();
    pages_take_docroot_calls();
    docroot_calls_add_up();
    let stamp = clear.stamp();
    let key = clear.into_key();
    if !storable(answer) {
        return Landed::Passed;
    }
    stamp_fits(stamp);
    body_fits(answer);
    pages.forget(&key);
    match put_page(alloc, disk, &key, stamp, answer) {
        Ok(()) => Landed::Kept(key),
        Err(FileFault::Disk) => Landed::DiskFailed,
        Err(FileFault::NoMemory) => Landed::NoMemory,
    }
}

// The numbers of a stamp have 64 bits.
fn stamp_fits(stamp: Stamp)
    ensures epoch { stamp.epoch < 2 ^ 64 }
    ensures count { stamp.count < 2 ^ 64 }
{}

// So has the length of a body.
fn body_fits(answer: &Answer)
    ensures { length answer.now.body < 2 ^ 64 }
{
    let _size = answer.body.bytes().len();
}
