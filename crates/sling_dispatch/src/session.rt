//! A scenario's session: a front before the publisher, the disk of its cache, and what was played so far.
ghost use Rattle.std.specs.Prelude.{◌≡◌, ◌≢◌, ◌+◌, ◌≤◌, ◌<◌, ◌^◌, [], false, IfOk, OnOk, length};
ghost use Rattle.run_events.specs.States.{start_of};
ghost use Rattle.run_laws.specs.Logs.{is_restart};
ghost use Rattle.sling_dispatch.specs.Fronts.{IsNext, IsNextEvent, MakesNext, SessionStandsFor, lines_of_event, FrontMakesNext};
ghost use Rattle.sling_dispatch.specs.InnerEndings.{AreActLines};
ghost use Rattle.sling_dispatch.specs.Runs.{Unarmed, asked_publisher_host, sling_start};
ghost use Rattle.sling_dispatch.specs.ScriptedDisks.{arming_of_disk, disk_in, files_of_disk};

use crate::renderer::PublisherRenderer;
use crate::scripted_disk::{FailingDisk, ScriptedDisk};
use crate::steps::{Task, asked_host, task_of};
use any_config::Farm;
use cache_files::empty_files_hold_no_page;
use coherence_core::no_files_hold_the_empty_log;
use front::{Front, NoteList, Step, a_front_stands_whatever_the_count};
use publisher::Publisher;
use replay_text::{acts_are_told_by_their_lines, first_act, write_notes};
use sp_base::{Mem, NoMemory};
use sp_outside::Way;
use std::alloc::Global;
use std::mem::replace;

/// What a scenario is played on. A front can't be dropped: `end` gives the session up.
pub struct Session {
    front: Front<PublisherRenderer>,
    disk: ScriptedDisk,
    // The host that the requests of its lines are for.
    host: Vec<u8>,
    // How many events came.
    event: u64,
}

impl Session {
    /// No event came yet, and the disk has no files. (Over no files only memory can be wanting.)
    pub fn begin(alloc: Global, publisher: Publisher, farm: Farm) -> Mem<Session>
        ensures stands { IfOk result (λ s. SessionStandsFor s (start_of (sling_start farm publisher))) }
        ensures unarmed { IfOk result (λ s. arming_of_disk s.disk ≡ Unarmed) }
        ensures host { IfOk result (λ s. s.host.items ≡ asked_publisher_host farm) }
        ensures event { IfOk result (λ s. s.event ≡ 0) }
    {
        empty_files_hold_no_page();
        no_files_hold_the_empty_log();
        let host = asked_host(alloc, &farm)?;
        a_front_stands_whatever_the_count();
        let mut disk = FailingDisk::new(alloc);
        let Ok(front) = Front::new(alloc, PublisherRenderer { publisher }, farm, &mut disk) else {
            return Err(NoMemory);
        };
        Ok(Session {
            front,
            disk: ScriptedDisk::Failing(disk),
            host,
            event: 0,
        })
    }

    /// Plays the act whose line stands first: the text that is to be written of it, and the lines after that one.
    pub fn play_line<'a>(&mut self, alloc: Global, lines: &'a [u8]) -> Mem<(Vec<u8>, &'a [u8])>
        requires acts { AreActLines lines.now × (lines.now ≢ []) }
        requires room { self.old.event + length lines.now < 2 ^ 64 }
        ensures next { IfOk result (λ p. IsNext self.old.host.items lines.now p.1.now self.old self.new p.0.items) }
        ensures host { self.new.host.items ≡ self.old.host.items }
        ensures counted { OnOk result (self.new.event ≤ self.old.event + 1) }
    {
        let (notes, rest) = self.play_next(alloc, lines)?;
        let text = event_lines(alloc, self.event, &notes)?;
        Ok((text, rest))
    }

    /// Plays the act whose line stands first: the notes of its event, where it has one, and the lines after that one.
    #[tactic(auto, using(crate::proofs::FrontLemmas::arms_failure, crate::proofs::FrontLemmas::arms_stop))]
    pub fn play_next<'a>(
        &mut self,
        alloc: Global,
        lines: &'a [u8],
    ) -> Mem<(Option<NoteList>, &'a [u8])>
        requires acts { AreActLines lines.now × (lines.now ≢ []) }
        requires room { self.old.event + length lines.now < 2 ^ 64 }
        ensures next { IfOk result (λ p. IsNextEvent self.old.host.items lines.now p.1.now self.old self.new p.0) }
        ensures host { self.new.host.items ≡ self.old.host.items }
        ensures counted { OnOk result (self.new.event ≤ self.old.event + 1) }
    {
        acts_are_told_by_their_lines();
        let Some((act, rest)) = first_act(alloc, lines)? else {
            unreachable!();
        };
        match task_of(alloc, &self.host, act)? {
            Task::Step(step) => Ok((Some(self.event_of(alloc, &step)?), rest)),
            Task::Fail(n, way) => {
                self.fail(alloc, n, way);
                Ok((None, rest))
            }
            Task::Stop(n, way) => {
                self.stop(alloc, n, way);
                Ok((None, rest))
            }
        }
    }

    // One of the disk's next calls fails.
    fn fail(&mut self, alloc: Global, n: u64, way: Way)
        ensures { self.new ≡ record self.old { disk = ScriptedDisk.Failing (record { files = files_of_disk self.old.disk; spent = false }) } }
    {
        self.disk = replace(&mut self.disk, ScriptedDisk::new(alloc)).fail(n, way);
    }

    // Each of the disk's next calls from one on fails, until a restart.
    fn stop(&mut self, alloc: Global, n: u64, way: Way)
        ensures { self.new ≡ record self.old { disk = ScriptedDisk.Stopped (record { files = files_of_disk self.old.disk; failed = 0 }) } }
    {
        self.disk = replace(&mut self.disk, ScriptedDisk::new(alloc)).stop(n, way);
    }

    // A restart finds the disk running again.
    fn make_ready(&mut self, alloc: Global, step: &Step)
        ensures { self.new ≡ record self.old { disk = disk_in self.old.disk step.now } }
    {
        if is_restart(step) {
            self.disk = replace(&mut self.disk, ScriptedDisk::new(alloc)).go();
        }
    }

    // The notes of a step's event.
    fn event_of(&mut self, alloc: Global, step: &Step) -> Mem<NoteList>
        requires { self.old.event + 1 < 2 ^ 64 }
        ensures made { IfOk result (λ notes. MakesNext self.old self.new step.now notes) }
        ensures host { self.new.host.items ≡ self.old.host.items }
    {
        self.make_ready(alloc, step);
        let notes = step_over(alloc, &mut self.front, &mut self.disk, step)?;
        self.event += 1;
        Ok(notes)
    }

    /// Gives the publisher back.
    pub fn end(self) -> Publisher {
        let Session {
            front,
            disk: _,
            host: _,
            event: _,
        } = self;
        let PublisherRenderer { publisher } = front.end();
        publisher
    }
}

fn is_restart(step: &Step) -> bool
    ensures { result ≡ is_restart step.now }
{
    matches!(step, Step::Restart)
}

// The notes of a step that a front takes over the disk of a scenario.
#[tactic(auto, using(crate::proofs::FrontLemmas::failing_step, crate::proofs::FrontLemmas::stopped_step))]
fn step_over(
    alloc: Global,
    front: &mut Front<PublisherRenderer>,
    disk: &mut ScriptedDisk,
    step: &Step,
) -> Mem<NoteList>
    ensures { IfOk result (FrontMakesNext front.old disk.old front.new disk.new step.now) }
{
    a_front_stands_whatever_the_count();
    match disk {
        ScriptedDisk::Failing(disk) => front.step(alloc, disk, step),
        ScriptedDisk::Stopped(disk) => {
            disk.forget_faults();
            front.step(alloc, disk, step)
        }
    }
}

// The lines of an event with this number, where there is one.
fn event_lines(alloc: Global, event: u64, notes: &Option<NoteList>) -> Mem<Vec<u8>>
    ensures { IfOk result (λ text. text.items ≡ lines_of_event event notes.now) }
{
    match notes {
        Some(notes) => write_notes(alloc, event, notes.as_slice()),
        None => Ok(Vec::new(alloc)),
    }
}
