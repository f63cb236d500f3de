//! Which calls of the disk are made for the files of the cache: laws, on functions that do nothing.
ghost use Rattle.std.specs.Prelude.{ℕ, Bool, List, Option, Some, IsTrue};
ghost use Rattle.sp_base.specs.Texts.{Text};
ghost use Rattle.sp_outside.specs.Calls.{Call, Get, Names, Put, Remove, told_call};
ghost use Rattle.sp_outside.specs.FileNames.{has_segments, is_inside};
ghost use Rattle.cover_rules.specs.Pages.{IsPageKey};
ghost use Rattle.cover_rules.specs.declared.page.PageKey.{PageKey};
ghost use Rattle.docroot_changes.specs.DocrootCalls.{IsDocrootCall, MakesDocrootCalls, leads_in, CallsAddUp, FollowsByDocrootCalls, PutsTakeDocrootCalls, DropsTakeDocrootCalls, ReadsHeadFirst, HeadReadingsTakeDocrootCalls, BodyReadingsTakeDocrootCalls, TouchesTakeDocrootCalls, StampReadingsTakeDocrootCalls, OpeningsTakeDocrootCalls};

use docroot_format::{names_lie_in_the_docroot, names_tell_their_files};

/// Calls that the cache may make stay such calls when more of them follow. Where the disk tells its calls, those before stay the first.
pub fn docroot_calls_add_up()
    ensures none { (calls : Option (List Call)) → MakesDocrootCalls calls calls }
    ensures one { (before : Option (List Call)) (call : Call) → IsDocrootCall call → MakesDocrootCalls before (told_call before call) }
    ensures more { (before between after : Option (List Call)) → CallsAddUp before between after }
    ensures told { (before after : List Call) → MakesDocrootCalls (Some before) (Some after) → FollowsByDocrootCalls before after }
{}

/// No call that the cache may make leads out of the folder of a disk. A name that is read or written may have a file (`is_inside` of
/// `sp_outside`). No segment of a name that is taken away is empty, `.` or `..`, and none of a prefix before its last slash is.
pub fn docroot_calls_lead_nowhere_out()
    ensures got { (name : Text) (answered : Bool) → IsDocrootCall (Get name answered) → IsTrue (is_inside name) }
    ensures put { (name bytes : Text) (answered : Bool) → IsDocrootCall (Put name bytes answered) → IsTrue (is_inside name) }
    ensures removed { (name : Text) (answered : Bool) → IsDocrootCall (Remove name answered) → IsTrue (has_segments name) }
    ensures listed { (prefix after : Text) (most : ℕ) (answered : Bool) → IsDocrootCall (Names prefix after most answered) → IsTrue (leads_in prefix) }
{}

/// A put and a drop of a page make only calls that the cache may make, whatever they answer (`put_page` and `drop_page`: `made`, `err`),
/// and so do the three calls that read one (`get_page`: `asked`; `get_head`, `get_known`: `made`, `left`).
pub fn pages_take_docroot_calls()
    ensures put { PutsTakeDocrootCalls }
    ensures dropped { DropsTakeDocrootCalls }
    ensures got { (asked made : Option (List Call)) (key : PageKey) → IsPageKey key → ReadsHeadFirst asked made key → MakesDocrootCalls asked made }
    ensures head { HeadReadingsTakeDocrootCalls }
    ensures known { BodyReadingsTakeDocrootCalls }
{
    names_lie_in_the_docroot();
    names_tell_their_files();
}

/// A touch of a folder, and a reading of its stamp, make only calls that the cache may make, whatever they answer (`touch` and `stamp_of`:
/// `made`).
pub fn stamps_take_docroot_calls()
    ensures touched { TouchesTakeDocrootCalls }
    ensures read { StampReadingsTakeDocrootCalls }
{
    names_lie_in_the_docroot();
    names_tell_their_files();
}

/// An opening makes only calls that the cache may make, whatever it answers (`open_epoch`: `made`, `left`).
pub fn an_opening_takes_docroot_calls()
    ensures { OpeningsTakeDocrootCalls }
{
    names_lie_in_the_docroot();
    names_tell_their_files();
}
