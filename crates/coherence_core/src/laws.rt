//! What the core takes of the layers below, and what follows from what a core stands for: laws, on functions that do nothing but to call
//! others.
ghost use Rattle.std.specs.Prelude.{◌≡◌, ◌++◌, ℕ, Contains, List, [], ◌∷◌, Option};
ghost use Rattle.std.specs.FinMap.{empty};
ghost use Rattle.sp_base.specs.declared.answer.Answer.{Answer};
ghost use Rattle.sp_outside.specs.Files.{Files};
ghost use Rattle.any_config.specs.declared.farm.Farm.{Farm};
ghost use Rattle.cover_rules.specs.declared.page.PageKey.{PageKey};
ghost use Rattle.cover_rules.specs.declared.stamp.Stamp.{Stamp};
ghost use Rattle.cache_files.specs.Epochs.{told_with_epoch};
ghost use Rattle.docroot_changes.specs.Changes.{Told};
ghost use Rattle.cache_log.specs.Entries.{LogEntry, Session};
ghost use Rattle.cache_log.specs.Rules.{CallConditions, IsIdle, IsLegal, KeepsBound};
ghost use Rattle.coherence_core.specs.Asking.{next_stamp};
ghost use Rattle.coherence_core.specs.Closings.{IsClosing};
ghost use Rattle.coherence_core.specs.Cores.{StandsOver};
ghost use Rattle.coherence_core.specs.Facts.{CoverageFacts};
ghost use Rattle.coherence_core.specs.Holds.{Holds, HoldsClosed, KeepsStatFiles};
ghost use Rattle.coherence_core.specs.Openings.{IsCleared, IsCoreOpened};
ghost use Rattle.coherence_core.specs.Sessions.{closing_entries};
ghost use Rattle.coherence_core.specs.StampTies.{IsStampOfSession, drawn_stamps, stamp_after};
ghost use Rattle.coherence_core.specs.declared.core_state.Core.{Core};
ghost use Rattle.coherence_core.specs.StatFilesKept.{PutsKeepStatFiles, FailedPutsKeepStatFiles, FailedOpeningsKeepStatFiles};
ghost use Rattle.coherence_core.specs.SessionEnds.{IsHeldClosed, IsHeldIfLanded, RestartsAllowClosing, AllowsClosing, HoldsOnceClosed, StandsForSession, CoresStayOpenedAsFilesGo, SessionsGoOn};
ghost use Rattle.coherence_core.specs.StampLaws.{FreshPagesHaveFlightStamps, MayHitIfOfStamp, FoldersHaveTouchStamps, HeadsAreBeforeNext, FoldersAreBeforeNext, FlightsAreBeforeNext, FlushesAreBeforeNext, DrawnAreBeforeNext, AreDrawnRising, WasDrawnInSession};

use cache_files::{
    a_failed_opening_leaves_the_old_number_or_the_next, a_failed_put_leaves_whole_pages,
    empty_files_hold_no_page,
};
use cover_rules::{a_touch_outdates_the_pages_of_its_folders, the_key_of_a_path_is_a_page_key};
use docroot_format::{folders_are_mangled, folders_of_stamps_are_paths, names_tell_their_files};
use flights::the_numbers_of_flights_rise;
use page_index::no_notes_agree_with_any_files;
use sp_outside::files_have_names;

/// What is covered is what is deleted or what a touched folder outdates.
pub fn coverage_by_three_facts()
    ensures { (farm : Farm) → CoverageFacts farm }
{
    a_touch_outdates_the_pages_of_its_folders();
    the_key_of_a_path_is_a_page_key();
    folders_are_mangled();
    folders_of_stamps_are_paths();
}

/// Neither a put of a page nor an opening changes a `.stat` file, whether it is done (`put`, `opened`) or fails (`put_failed`, `opening_failed`).
pub fn puts_and_openings_keep_stat_files()
    ensures put { PutsKeepStatFiles }
    ensures put_failed { FailedPutsKeepStatFiles }
    ensures opened { (before after : Option Files) (epoch : ℕ) → after ≡ told_with_epoch before epoch → Told KeepsStatFiles before after }
    ensures opening_failed { FailedOpeningsKeepStatFiles }
{
    files_have_names();
    names_tell_their_files();
    a_failed_put_leaves_whole_pages();
    a_failed_opening_leaves_the_old_number_or_the_next();
}

/// Where a core and the files stand for a log, the files hold it, and the slices of each flush keep the bound.
pub fn the_files_hold_what_stands()
    ensures holds { (found : ℕ) (files : Files) (core : Core) (log : List LogEntry) → StandsOver found files core log → Holds core.farm files log }
    ensures bound { (found : ℕ) (files : Files) (core : Core) (log : List LogEntry) → StandsOver found files core log → KeepsBound core.farm found log }
{}

/// Wherever a session ends, also in the middle of it, its files hold its log once that is closed: where each flight that is in the air is lost,
/// and then each unfinished flush is cut off. A restart allows this. With nothing in the air the flushes alone are cut off.
pub fn a_session_may_end_at_any_time()
    ensures closed { (found : ℕ) (files : Files) (core : Core) (log : List LogEntry) → StandsOver found files core log → IsHeldClosed files core log }
    ensures landed { (found : ℕ) (files : Files) (core : Core) (log : List LogEntry) → StandsOver found files core log → IsHeldIfLanded files core log }
    ensures allowed { RestartsAllowClosing }
{
    coverage_by_three_facts();
    the_numbers_of_flights_rise();
}

/// Wherever a log ends there is what closes it (`there`), in one way (`one`): each flight in the air is lost, and then each unfinished flush is
/// cut off. A restart allows that (`allowed`), so a legal log stays legal (`legal`). Files that hold the log hold it closed (`closed`), so a
/// session may go on with it. One that is closed stays as it is (`idle`), and what a core leaves to be closed is this (`core`).
pub fn a_log_is_closed_in_one_way()
    ensures there { (log : List LogEntry) → (entries : List LogEntry) × IsClosing log entries }
    ensures one { (log entries others : List LogEntry) → IsClosing log entries → IsClosing log others → entries ≡ others }
    ensures allowed { (farm : Farm) (log entries : List LogEntry) (under : CallConditions) → AllowsClosing farm log entries under }
    ensures legal { (farm : Farm) (log entries : List LogEntry) → IsClosing log entries → IsLegal farm log → IsLegal farm (entries ++ log) }
    ensures closed { (farm : Farm) (files : Files) (log entries : List LogEntry) → HoldsOnceClosed farm files log entries }
    ensures idle { (log : List LogEntry) → IsIdle log → IsClosing log [] }
    ensures core { (found : ℕ) (files : Files) (core : Core) (log : List LogEntry) → StandsOver found files core log → IsClosing log (closing_entries core) }
{}

/// What a session put into the files has a stamp that its log tells. A page that isn't outdated has the stamp that was drawn as its flight was
/// asked (`page`), and by this flight's landing a hit on it is permitted (`hit`). A .stat file has the stamp of a flush that touches its folder
/// (`folder`). What has a stamp of an epoch below the session's first was there before.
pub fn stamps_are_of_flights_and_flushes()
    ensures page { FreshPagesHaveFlightStamps }
    ensures hit { (farm : Farm) (log : List LogEntry) (key : PageKey) (answer : Answer) (stamp : Stamp) → MayHitIfOfStamp farm log key answer stamp }
    ensures folder { FoldersHaveTouchStamps }
{}

/// The stamp that is drawn next is after each that was drawn and still stands, also over a restart: that of each head in the files, whether or not
/// its page's body is there and fits (`head`), of each `.stat` file (`folder`), of each flight in the air (`flight`), and of each unfinished flush
/// (`flush`). It is the one that the log tells (`next`), and where that is legal it is after each that was drawn, also in sessions before, and
/// also after one that stands nowhere any more (`drawn`).
pub fn each_stamp_is_before_the_next()
    ensures head { HeadsAreBeforeNext }
    ensures folder { FoldersAreBeforeNext }
    ensures flight { FlightsAreBeforeNext }
    ensures flush { FlushesAreBeforeNext }
    ensures next { (found : ℕ) (files : Files) (core : Core) (log : List LogEntry) → StandsOver found files core log → next_stamp core ≡ stamp_after log }
    ensures drawn { DrawnAreBeforeNext }
{}

/// Of the stamps that were drawn in a legal log, and of the one that is drawn next, each is after all that were drawn before it, over restarts and
/// over sessions (`rising`). What was drawn is each stamp that a session of the log drew at any time, for a flight or for a flush (`each`), and no
/// other (`only`).
pub fn each_draw_is_after_those_before_it()
    ensures rising { (farm : Farm) (log : List LogEntry) → IsLegal farm log → AreDrawnRising log }
    ensures each { (since before : List LogEntry) (stamp : Stamp) → IsStampOfSession before stamp → Contains (drawn_stamps (since ++ before)) stamp }
    ensures only { (log : List LogEntry) (stamp : Stamp) → Contains (drawn_stamps log) stamp → WasDrawnInSession log stamp }
{}

/// Where a session was just opened, and no file is a page file or a .stat file, the core and the files stand for the log of this session alone.
/// It stays one that was just opened as files go, but for that of the number.
pub fn a_session_begins_without_pages()
    ensures stands { (found : ℕ) (files : Files) (core : Core) → IsCoreOpened found files core → IsCleared files → StandsForSession found files core }
    ensures kept { CoresStayOpenedAsFilesGo }
{
    names_tell_their_files();
    no_notes_agree_with_any_files();
}

/// A session that goes on from a legal log begins in a legal one: over files that hold the log, closed, with the number after the one that they
/// hold (`over`), and from the empty log with any number (`first`).
pub fn a_session_begins_in_a_legal_log()
    ensures over { SessionsGoOn }
    ensures first { (farm : Farm) (epoch : ℕ) → IsLegal farm (Session epoch ∷ []) }
{}

/// A document root without files holds the empty log.
pub fn no_files_hold_the_empty_log()
    ensures { (farm : Farm) → HoldsClosed farm empty [] }
{
    empty_files_hold_no_page();
}
