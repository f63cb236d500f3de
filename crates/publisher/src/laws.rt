//! Laws of the rendering, on functions that do nothing.
ghost use Rattle.std.specs.Prelude.{◌≡◌, ◌≢◌, ◌<◌, ℕ, IsTrue, List, true};
ghost use Rattle.sp_base.specs.MediaTypes.{is_kind};
ghost use Rattle.sp_base.specs.Texts.{Text};
ghost use Rattle.sp_base.specs.declared.answer.Answer.{Answer};
ghost use Rattle.sp_base.specs.declared.answer.Ask.{Ask};
ghost use Rattle.resource_tree.specs.Content.{Content, IsGood};
ghost use Rattle.resource_tree.specs.Seen.{Resource};
ghost use Rattle.htl_text.specs.declared.piece.TemplatePiece.{TemplatePiece};
ghost use Rattle.htl_blocks.specs.declared.block.Block.{Block};
ghost use Rattle.error_answers.specs.Errors.{error_answer};
ghost use Rattle.publisher.specs.AnswerLaws.{AreReadsOfOnePath, FitsIfReadAndAnswered, IsRedirectIfAway, KeepsContentIfAway, KeepsContentIfRefused};
ghost use Rattle.publisher.specs.AnswerLaws.{WritesPageIfSpelled, IsWrittenIfNoBlock};
ghost use Rattle.publisher.specs.Cases.{IsAnswer};
ghost use Rattle.publisher.specs.PostLaws.{PostsAreRefusedForCauses, RequestsKeepContentGood};
ghost use Rattle.publisher.specs.Rendering.{content_after_request, is_read, answer_to_request};

use form_input::forms_are_refused_for_causes;
use get_servlet::{over_is_the_greatest_depth, streams_have_media_types};
use htl_blocks::{a_text_writes_its_template, the_blocks_are_the_text};
use htl_text::the_pieces_are_the_text;
use post_apply::{operations_keep_content_good, refusals_have_causes};
use post_plan::operations_name_paths;
use script_rank::{one_script_is_first, search_finds_the_first};
use sp_base::a_path_and_its_text;
use url_maps::{away_is_a_redirect, the_answer_is_mapped};
use url_split::the_split_is_the_longest;

/// A GET and a HEAD of one path are answered alike at one host and port, whatever body they bring.
pub fn reads_depend_on_host_port_and_path()
    ensures { (tree : Content) (a b : Ask) → AreReadsOfOnePath a b → answer_to_request tree a ≡ answer_to_request tree b }
{}

/// A GET and a HEAD change nothing (RFC 9110, section 9.2.1).
pub fn reads_change_nothing()
    ensures { (tree : Content) (ask : Ask) → is_read ask.method ≡ true → content_after_request tree ask ≡ tree }
{}

/// What is answered neither 200 nor 201 changes nothing: a POST is done whole or not at all.
pub fn refusals_change_nothing()
    ensures { (tree : Content) (ask : Ask) → KeepsContentIfRefused tree ask }
{}

/// Whatever the request, the content after it is one that a tree has.
pub fn requests_keep_content_good()
    ensures { RequestsKeepContentGood }
{
    a_path_and_its_text();
    the_split_is_the_longest();
    operations_name_paths();
    operations_keep_content_good();
}

/// A POST that is refused has a cause in the request or the content: by definition none is refused because memory ran out, so where
/// `Publisher::answer` answers at all it answers for that cause.
pub fn posts_are_refused_for_causes()
    ensures { PostsAreRefusedForCauses }
{
    forms_are_refused_for_causes();
    refusals_have_causes();
}

/// A representation has at most 4,194,304 bytes. (That a 200 to a POST has no more either is a clause of `Publisher::answer`.)
pub fn representations_fit()
    ensures { (tree : Content) (ask : Ask) → FitsIfReadAndAnswered tree ask }
{}

/// Every status has three digits at most, and none is 507 (Insufficient Storage): out of memory is no answer of the content.
pub fn statuses_are_short()
    ensures rendered { (tree : Content) (ask : Ask) → (answer_to_request tree ask).status < 1000 }
    ensures memory { (tree : Content) (ask : Ask) → (answer_to_request tree ask).status ≢ 507 }
    ensures error { (status : ℕ) → (error_answer status).status ≡ status }
{
    away_is_a_redirect();
}

/// The media type of each answer may be kept with a page and sent: it is empty, or at most 100 printable bytes of ASCII.
pub fn kinds_are_short()
    ensures rendered { (tree : Content) (ask : Ask) → IsTrue (is_kind (answer_to_request tree ask).kind) }
    ensures error { (status : ℕ) → IsTrue (is_kind (error_answer status).kind) }
{
    streams_have_media_types();
}

/// A GET, a HEAD or a POST of a path whose text is mapped away is a redirect to the escaped reference. Whatever the method, it changes
/// nothing.
pub fn what_leads_away_is_a_redirect()
    ensures answer { (tree : Content) (ask : Ask) (status : ℕ) (reference : Text) → IsGood tree → IsRedirectIfAway tree ask status reference }
    ensures content { (tree : Content) (ask : Ask) (status : ℕ) (reference : Text) → IsGood tree → KeepsContentIfAway tree ask status reference }
{
    the_answer_is_mapped();
}

/// A page that a script gives is what the blocks write that its text spells, for the resource, with what is put in: the resource is the one
/// that the text is taken apart into to which the path's text is mapped, and the script the one that ranks first for its types.
pub fn a_script_writes_its_page()
    ensures { (tree : Content) (ask : Ask) (res : Resource) (text : Text) (blocks : List Block) → IsGood tree → WritesPageIfSpelled tree ask res text blocks }
{
    an_answer_is_one_of_the_cases();
}

/// The page of a script without a block tag is what the pieces write that its text spells, for the resource and without variables.
pub fn a_script_without_blocks_writes_its_pieces()
    ensures { (tree : Content) (ask : Ask) (res : Resource) (text : Text) (pieces : List TemplatePiece) → IsGood tree → IsWrittenIfNoBlock tree ask res text pieces }
{
    a_script_writes_its_page();
    the_pieces_are_the_text();
    a_text_writes_its_template();
}

/// The answer to a request is the one of the cases of `specs/Cases.antt` that applies, and none of the others applies with another answer:
/// what the publisher answers, by relations alone but for what a page puts in (`page_of`, `specs/Pages.antt`).
pub fn an_answer_is_one_of_the_cases()
    ensures is { (tree : Content) (ask : Ask) → IsGood tree → IsAnswer tree ask (answer_to_request tree ask) }
    ensures only { (tree : Content) (ask : Ask) (answer : Answer) → IsGood tree → IsAnswer tree ask answer → answer ≡ answer_to_request tree ask }
{
    the_answer_is_mapped();
    the_split_is_the_longest();
    search_finds_the_first();
    one_script_is_first();
    the_blocks_are_the_text();
    over_is_the_greatest_depth();
}
