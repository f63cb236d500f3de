//! The front: one call for each step.
ghost use Rattle.std.specs.Prelude.{◌≡◌, ◌≢◌, ◌<◌, ◌≤◌, [], false, Ok, Err, IfErr, IfOk, IfSome, IsTrue, OnErr, OnOk, length, option_map};
ghost use Rattle.std.specs.List.{find};
ghost use Rattle.sp_base.specs.MediaTypes.{is_kind};
ghost use Rattle.cache_files.specs.declared.epoch.OpenFault.TheVariants as fault;
ghost use Rattle.cache_files.specs.Epochs.{HasOpenCause, next_epoch, told_with_epoch};
ghost use Rattle.docroot_changes.specs.Changes.{Told};
ghost use Rattle.docroot_changes.specs.DocrootCalls.{MakesDocrootCalls};
ghost use Rattle.coherence_core.specs.Sessions.{KeepsHolds};
ghost use Rattle.http_front.specs.Faults.{insufficient_storage};
ghost use Rattle.run_events.specs.declared.flying.Flying as model;
ghost use Rattle.run_events.specs.declared.step.Step.TheVariants.{Direct, Render};
ghost use Rattle.run_events.specs.Events.{is_unrendered};
ghost use Rattle.run_events.specs.Publishers.{direct_answer};
ghost use Rattle.front.specs.Fronts.{IsRenderGiven, OpensFront, FrontBegins, FrontExtends, FrontMakesEvent, FrontMakesEventAlone, InEachState, IsAnswerAt, IsContentAfter, epoch_of_front};
ghost use Rattle.front.specs.Uses.{UsesDisk};

use crate::asking::{fixed_answer, get_of, shared};
use crate::board::Board;
use crate::cache::Cache;
use crate::effect::Effect;
use crate::renderer::Renderer;
use any_config::Farm;
use cache_files::OpenFault;
use coherence_core::the_files_hold_what_stands;
use connections::FlightId;
use error_answers::error_answer;
use http_front::read_target;
use run_events::{Conditions, Note, NoteList, Pick, Step};
use sp_base::{Answer, Mem};
use sp_outside::Disk;
use std::alloc::Global;
use std::collections::BTreeMap;

/// Connections before a cache before a publisher. It holds tickets of flights, so it can't be dropped: `end` gives it up.
pub struct Front<R: Renderer + Drop> {
    renderer: R,
    pub(crate) board: Board,
}

/// An answer, and whether it is the fixed one since memory ran out.
#[derive(Drop)]
pub(crate) struct OrFixed {
    answer: Answer,
    out_of_memory: bool,
}

impl<R: Renderer + Drop> Front<R> {
    /// A front without a connection, whose cache begins a session over the files of the disk. Over files that hold a closed log it stands
    /// for the state in which a run begins with that log and the session.
    pub fn new<D: Disk>(
        alloc: Global,
        renderer: R,
        farm: Farm,
        disk: &mut D,
    ) -> Result<Self, OpenFault>
        ensures stands { IfOk result (FrontBegins R.publishing R.content D.files D.faults renderer farm disk.old disk.new) }
        ensures left { IfErr result (λ fault. Told (KeepsHolds farm) (D.files disk.old) (D.files disk.new)) }
        ensures err { IfErr result (λ e. e ≢ fault.NoMemory → e ≢ fault.Disk → IfSome (D.files disk.old) (λ files. next_epoch files ≡ Err e)) }
        ensures epoch { IfOk result (λ front. IfSome (D.files disk.old) (λ files. next_epoch files ≡ Ok (epoch_of_front front))) }
        ensures renderer { IfOk result (λ front. front.renderer ≡ renderer) }
        ensures after { IfOk result (λ front. D.files disk.new ≡ told_with_epoch (D.files disk.old) (epoch_of_front front)) }
        ensures opened { IfOk result (λ front. OpensFront farm (D.files disk.old) (D.files disk.new) front.board) }
        ensures unopened { IfErr result (λ e. e ≢ fault.Disk → D.files disk.new ≡ D.files disk.old) }
        ensures cause { HasOpenCause (D.faults disk.old) (D.faults disk.new) result }
        ensures calls { MakesDocrootCalls (D.calls disk.old) (D.calls disk.new) }
    {
        let cache = Cache::start(alloc, farm, disk)?;
        Ok(Front {
            renderer,
            board: Board {
                open_connections: BTreeMap::new(alloc),
                cache,
            },
        })
    }

    /// One step, with what happens in it: its event. An `Err` ends the run.
    pub fn step<D: Disk>(&mut self, alloc: Global, disk: &mut D, step: &Step) -> Mem<NoteList>
        ensures event { IfOk result (FrontExtends R.publishing R.content D.files D.faults step.now self.old disk.old self.new disk.new) }
        ensures count { D.faults disk.old ≤ D.faults disk.new }
        ensures calls { MakesDocrootCalls (D.calls disk.old) (D.calls disk.new) }
    {
        the_files_hold_what_stands();
        let effect = self.take_step(alloc, disk, step)?;
        let notes = effect.into_notes()?;
        Ok(notes)
    }

    /// The least number of a flight in the air that isn't rendered. This takes no memory.
    pub fn unrendered(&self) -> Option<FlightId>
        ensures { InEachState R.publishing self.now.board (λ w. result ≡ option_map (λ (flying : model.Flying). flying.number) (find is_unrendered w.flights)) }
    {
        self.board.cache.unrendered()
    }

    /// Whether a flush is unfinished. This takes no memory.
    pub fn purging(&self) -> bool
        ensures some { InEachState R.publishing self.now.board (λ w. IsTrue result → w.flushes ≢ []) }
        ensures none { InEachState R.publishing self.now.board (λ w. result ≡ false → w.flushes ≡ []) }
    {
        self.board.cache.is_purging()
    }

    /// Loses each flight in the air, and gives the front up. Its publisher is given back.
    pub fn end(self) -> R
        ensures { result ≡ self.renderer }
    {
        let Front { renderer, board } = self;
        let Board {
            open_connections: _,
            cache,
        } = board;
        cache.end();
        renderer
    }

    fn take_step<D: Disk>(&mut self, alloc: Global, disk: &mut D, step: &Step) -> Mem<Effect>
        ensures event { IfOk result (FrontMakesEvent R.publishing R.content D.files D.faults step.now self.old disk.old self.new disk.new) }
        ensures disk { UsesDisk (D.faults disk.old) (D.faults disk.new) (D.calls disk.old) (D.calls disk.new) }
    {
        match step {
            Step::Opened(c, peer) => self.board.open(alloc, *c, peer),
            Step::Piece(c, bytes) => self.board.take_piece(alloc, disk, *c, bytes),
            Step::Gone(c) => self.board.close(alloc, *c),
            Step::Direct(target) => self.answer_directly(alloc, target.text()),
            Step::Render(pick) => self.render(alloc, pick),
            Step::Deliver(pick) => self.board.deliver(alloc, disk, pick),
            Step::Lose(pick) => self.board.lose(alloc, disk, pick),
            Step::Purge => self.board.purge(alloc, disk),
            Step::Restart => self.board.restart(alloc, disk),
        }
    }

    fn answer_directly(&mut self, alloc: Global, target: &str) -> Mem<Effect>
        ensures { IfOk result (FrontMakesEventAlone R.publishing R.content (Direct target.now) self.old self.new) }
    {
        let answer = self.answer_target(alloc, target);
        let OrFixed {
            answer,
            out_of_memory,
        } = or_fixed(alloc, answer);
        Effect::one(alloc, Note::Answer(answer), if_out_of_memory(out_of_memory))
    }

    fn render(&mut self, alloc: Global, pick: &Pick) -> Mem<Effect>
        ensures { IfOk result (FrontMakesEventAlone R.publishing R.content (Render pick.now) self.old self.new) }
    {
        let Some(at) = self.board.cache.first_unrendered(pick) else {
            return Effect::idle(alloc);
        };
        let answer = self.answer_flight(alloc, at);
        let OrFixed {
            answer,
            out_of_memory,
        } = or_fixed(alloc, answer);
        let mut answer = answer;
        let copy = shared(alloc, &mut answer)?;
        let number = self.board.cache.render(at, copy);
        Effect::one(
            alloc,
            Note::Rendered(number, answer),
            if_out_of_memory(out_of_memory),
        )
    }

    // The publisher's answer to a target.
    fn answer_target(&mut self, alloc: Global, target: &str) -> Mem<Answer>
        ensures ok { IfOk result (λ a. a ≡ direct_answer R.publishing self.old.board.cache.core.farm (R.content self.old.renderer) target.now) }
        ensures content { R.content self.new.renderer ≡ R.content self.old.renderer }
        ensures board { self.new.board ≡ self.old.board }
    {
        match read_target(alloc, target)? {
            Some(target) => self
                .renderer
                .render(alloc, &get_of(alloc, self.board.cache.farm(), target)?),
            None => error_answer(alloc, 400),
        }
    }

    // The publisher's answer to the request of the flight that stands there.
    fn answer_flight(&mut self, alloc: Global, at: usize) -> Mem<Answer>
        requires { at < length self.old.board.cache.flying }
        ensures ok { IfOk result (IsAnswerAt R.publishing (R.content self.old.renderer) self.old.board at) }
        ensures after { OnOk result (IsContentAfter R.publishing (R.content self.old.renderer) self.old.board at (R.content self.new.renderer)) }
        ensures status { IfOk result (λ a. a.status ≢ insufficient_storage) }
        ensures kind { IfOk result (λ a. IsTrue (is_kind a.kind)) }
        ensures unchanged { OnErr result (R.content self.new.renderer ≡ R.content self.old.renderer) }
        ensures board { self.new.board ≡ self.old.board }
    {
        let ask = self.board.cache.ask_at(alloc, at)?;
        self.renderer.render(alloc, &ask)
    }
}

// The answer, or the fixed one where memory ran out.
fn or_fixed(alloc: Global, answer: Mem<Answer>) -> OrFixed
    ensures { IsRenderGiven answer result.answer result.out_of_memory }
{
    match answer {
        Ok(answer) => OrFixed {
            answer,
            out_of_memory: false,
        },
        Err(_) => OrFixed {
            answer: fixed_answer(alloc),
            out_of_memory: true,
        },
    }
}

fn if_out_of_memory(out_of_memory: bool) -> Conditions
    ensures { result ≡ record { disk_failed = false; out_of_memory = out_of_memory } }
{
    Conditions {
        disk_failed: false,
        out_of_memory,
    }
}
