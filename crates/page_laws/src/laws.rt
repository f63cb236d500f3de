//! What a page puts in, where it is refused, and what a slash changes: laws of the definitions, on functions that do nothing.

ghost use Rattle.page_laws.specs.Inclusions.{ScriptsStandForTheSameResource, ResourcesStandByTheirFirstScript, NothingStandsForMissingScripts, NothingStandsForMissingResources, PagesOfOneIncludeAreThatScripts, PagesOfOneResourceAreThatResources, MissingScriptsAreCounted, MissingResourcesAreCounted};
ghost use Rattle.page_laws.specs.Limits.{PagesAreRefusedWhereTheyPassALimit};
ghost use Rattle.page_laws.specs.Slashes.{ReadsAreAnsweredAlike};

use htl_blocks::the_blocks_are_the_text;
use publisher::an_answer_is_one_of_the_cases;
use script_rank::{one_script_is_first, search_finds_the_first};

/// For a script that is put in stands its page for the same resource with the variables of the setting (`script`), and for a resource that of the
/// resource by the script that ranks first for it, without variables (`resource`); where none is there, nothing (`no_script`, `no_resource`). So
/// the page of a script that is one include is that script's page, and one inclusion more (`include_page`), and likewise of a resource
/// (`resource_page`); where it leads nowhere, the page is one inclusion and no text, so that what isn't there is counted too (`no_include_page`,
/// `no_resource_page`).
pub fn what_is_put_in_is_its_own_page()
    ensures script { ScriptsStandForTheSameResource }
    ensures resource { ResourcesStandByTheirFirstScript }
    ensures no_script { NothingStandsForMissingScripts }
    ensures no_resource { NothingStandsForMissingResources }
    ensures include_page { PagesOfOneIncludeAreThatScripts }
    ensures resource_page { PagesOfOneResourceAreThatResources }
    ensures no_include_page { MissingScriptsAreCounted }
    ensures no_resource_page { MissingResourcesAreCounted }
{
    search_finds_the_first();
    one_script_is_first();
    the_blocks_are_the_text();
}

/// A page by a script is answered 500 exactly where it passes a limit: of its text, of how much is to be put in, of the contents of lists, or
/// of how deep scripts and resources stand one in another.
pub fn a_page_is_refused_where_a_limit_is_passed()
    ensures { PagesAreRefusedWhereTheyPassALimit }
{
    an_answer_is_one_of_the_cases();
}

/// A GET or HEAD is answered alike with a slash at the path's end and without one. What two requests for one page are asked differs in no more
/// (`requests_for_one_page_are_asked_alike` of `dispatch_rules`), so a page that was kept for one is the answer to the other on that content.
pub fn a_slash_changes_no_answer_to_a_read()
    ensures { ReadsAreAnsweredAlike }
{}
