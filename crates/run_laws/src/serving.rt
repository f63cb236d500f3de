//! Laws of single events, for a loop that makes one after another and hands its notes on: functions that do nothing.
ghost use Rattle.std.specs.Prelude.{◌≡◌, ◌⊎◌, ℕ, List, [], None};
ghost use Rattle.std.specs.List.{AllByRecursion};
ghost use Rattle.connections.specs.Ids.{ConnectionId};
ghost use Rattle.run_events.specs.declared.note.Note.{Note};
ghost use Rattle.run_events.specs.declared.note.Note.TheVariants.{Shut};
ghost use Rattle.run_events.specs.declared.step.Step.{Step};
ghost use Rattle.run_events.specs.declared.step.Step.TheVariants.{Gone};
ghost use Rattle.run_events.specs.Events.{Event, Happens, Run, after_event, state_after_events, state_before_notes};
ghost use Rattle.run_events.specs.Moves.{state_after_note};
ghost use Rattle.run_events.specs.States.{RunState, Start, start_of};
ghost use Rattle.run_laws.specs.Addressed.{AddsNoConnection, AreAddressed, WasThereOrOpenedIfThere, LeavesSession};
ghost use Rattle.run_laws.specs.Rounds.{AreUnrendered, BringsBytes, HasNothingDue, LandsTheFirst, LeavesFlights, LeavesUnrendered, RendersTheFirst, TreatsNoTurn};

/// Nothing is due when a run begins (`start`), and where nothing was due before an event nothing is after it (`event`), nor after a
/// run (`run`). So it is between the events of each run, with at most as many flights in the air as may be.
pub fn events_leave_nothing_due()
    ensures start { (s : Start) → HasNothingDue (start_of s) }
    ensures event { (w : RunState) (e : Event) → HasNothingDue w → Happens w e → HasNothingDue (after_event w e) }
    ensures run { (w : RunState) (events : List Event) → HasNothingDue w → Run w events → HasNothingDue (state_after_events w events) }
{}

/// Events leave the farm as it is, and how many files were found.
pub fn events_keep_the_farm()
    ensures farm { (w : RunState) (events : List Event) → (state_after_events w events).farm ≡ w.farm }
    ensures found { (w : RunState) (events : List Event) → (state_after_events w events).found ≡ w.found }
{}

/// A turn is treated only in the event of a piece, as it comes: a landing, a loss and a slice only send what waited, or shut a connection.
pub fn turns_are_treated_as_they_come()
    ensures { (w : RunState) (e : Event) → HasNothingDue w → Happens w e → BringsBytes e.step ⊎ AllByRecursion TreatsNoTurn e.body }
{}

/// What rounds of renders and landings make of the flights. A render of the first that isn't rendered gives it its answer (`rendered`), a
/// landing of it takes it out of the air (`landed`), and neither brings another. The steps that do nothing to flights leave them
/// (`same`), and none but a render gives one an answer (`unrendered`). So as many rounds as flights are in the air leave none there.
pub fn rounds_take_flights_out_of_the_air()
    ensures rendered { RendersTheFirst }
    ensures landed { LandsTheFirst }
    ensures same { (w : RunState) (e : Event) → HasNothingDue w → Happens w e → LeavesFlights e.step → (after_event w e).flights ≡ w.flights }
    ensures unrendered { (w : RunState) (e : Event) → Happens w e → LeavesUnrendered e.step → AreUnrendered w.flights → AreUnrendered (after_event w e).flights }
{}

/// Bytes are sent on a connection that is there, and one is shut that is there, but in a restart, which shuts all at once; and where there is
/// no room, it is for the one that the step is to open (`notes`). A connection is there before the notes of an event only where it was
/// before, or the step opens it (`begun`); no note brings one (`brings`), and one that is shut isn't there any more (`shut`).
pub fn notes_are_of_connections_that_are_there()
    ensures notes { (w : RunState) (e : Event) → Happens w e → LeavesSession e.step → AreAddressed e.step (state_before_notes w e e.step) e.body }
    ensures begun { (w : RunState) (e : Event) → WasThereOrOpenedIfThere e.step w (state_before_notes w e e.step) }
    ensures brings { (w : RunState) (note : Note) → AddsNoConnection w (state_after_note w note) }
    ensures shut { (w : RunState) (c : ConnectionId) → (state_after_note w (Shut c)).connection c ≡ None }
{}

/// A connection that is gone isn't there after the event.
pub fn connections_that_go_are_gone()
    ensures { (w : RunState) (e : Event) (c : ConnectionId) → Happens w e → e.step ≡ Gone c → (after_event w e).connection c ≡ None }
{}
