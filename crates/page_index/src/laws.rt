//! What follows from the definitions of notes: laws, on functions that do nothing.
ghost use Rattle.std.specs.Prelude.{◌≡◌, ℕ, None};
ghost use Rattle.sp_base.specs.Texts.{Segments};
ghost use Rattle.sp_outside.specs.Files.{Files};
ghost use Rattle.cover_rules.specs.declared.invalidation.Invalidation.{Invalidation};
ghost use Rattle.cover_rules.specs.declared.page.PageKey.{PageKey};
ghost use Rattle.docroot_changes.specs.Changes.{BesideNumber, BesidePage, BesideStamp};
ghost use Rattle.page_index.specs.Agreement.{Agrees, HasNoneCovered, AgreesStill};
ghost use Rattle.page_index.specs.Effects.{ForgetsCovered, ForgetsPage, ForgetsStamp, IsBare, IsFewer, SetsPage, SetsStamp};
ghost use Rattle.page_index.specs.Notes.{page_noted, stamp_noted};
ghost use Rattle.page_index.specs.declared.index.PageIndex.{PageIndex};
ghost use Rattle.page_index.specs.NotedFiles.{NotedHeadsAgree, NotedHeadsAreUncovered, NotedStampsAgree, NotedStampsAreUncovered, CountedHitsAgree, CountedHitsAreUncovered, FlushesLeaveUncoveredNotes};

use cache_files::a_page_is_its_head_and_its_body;

/// No notes agree with any files, and have nothing that an invalidation covers.
pub fn no_notes_agree_with_any_files()
    ensures agrees { (index : PageIndex) (files : Files) → IsBare index → Agrees index files }
    ensures covered { (index : PageIndex) (level : ℕ) (inv : Invalidation) → IsBare index → HasNoneCovered level inv index }
{}

/// Fewer notes agree with the same files, and have none covered where there was none.
pub fn fewer_notes_agree()
    ensures agrees { (old new : PageIndex) (files : Files) → IsFewer old new → Agrees old files → Agrees new files }
    ensures covered { (old new : PageIndex) (level : ℕ) (inv : Invalidation) → IsFewer old new → HasNoneCovered level inv old → HasNoneCovered level inv new }
{}

/// What is forgotten leaves fewer notes: a page, a stamp, what an invalidation covers, and a note that fell since there was no memory for it. So
/// does asking for a page. What an invalidation covers isn't noted once that was forgotten.
pub fn forgotten_notes_agree()
    ensures page { (key : PageKey) (old new : PageIndex) → ForgetsPage key old new → IsFewer old new }
    ensures stamp { (folder : Segments) (old new : PageIndex) → ForgetsStamp folder old new → IsFewer old new }
    ensures covered { (level : ℕ) (inv : Invalidation) (old new : PageIndex) → ForgetsCovered level inv old new → IsFewer old new }
    ensures none_covered { (level : ℕ) (inv : Invalidation) (old new : PageIndex) → ForgetsCovered level inv old new → HasNoneCovered level inv new }
    ensures lost { (key : PageKey) (bytes : ℕ) (old new : PageIndex) → SetsPage key bytes None old new → IsFewer old new }
    ensures lost_stamp { (folder : Segments) (old new : PageIndex) → SetsStamp folder None old new → IsFewer old new }
    ensures asked { (key : PageKey) (bytes : ℕ) (old new : PageIndex) → SetsPage key bytes (page_noted old key) old new → IsFewer old new }
{}

/// Where the head of a page is noted as the files have it, or that it has none, the notes agree with them still. The note isn't covered where the page
/// isn't.
pub fn a_noted_head_agrees()
    ensures agrees { NotedHeadsAgree }
    ensures covered { NotedHeadsAreUncovered }
{}

/// The same of a stamp.
pub fn a_noted_stamp_agrees()
    ensures agrees { NotedStampsAgree }
    ensures covered { NotedStampsAreUncovered }
{}

/// Where a hit is counted that read the body of the page that the files have, the notes agree with them still.
pub fn a_counted_hit_agrees()
    ensures agrees { CountedHitsAgree }
    ensures covered { CountedHitsAreUncovered }
{
    a_page_is_its_head_and_its_body();
}

/// Where a page changes that isn't noted, by a put or a drop, the notes agree with the files still.
pub fn a_changed_page_leaves_other_notes()
    ensures { (index : PageIndex) (key : PageKey) (old new : Files) → BesidePage key old new → page_noted index key ≡ None → AgreesStill index old new }
{}

/// Where a folder gets a stamp that isn't noted, the notes agree with the files still.
pub fn a_touch_leaves_other_notes()
    ensures { (index : PageIndex) (folder : Segments) (old new : Files) → BesideStamp folder old new → stamp_noted index folder ≡ None → AgreesStill index old new }
{}

/// Where the files change in what an invalidation covers, as in each slice of a flush, however it ends, and nothing covered is noted, the notes agree
/// with the files still.
pub fn a_flush_leaves_what_it_does_not_cover()
    ensures { FlushesLeaveUncoveredNotes }
{}

/// Where a session is opened, the notes agree with the files still.
pub fn an_opening_leaves_notes()
    ensures { (index : PageIndex) (old new : Files) → BesideNumber old new → Agrees index old → Agrees index new }
{}
