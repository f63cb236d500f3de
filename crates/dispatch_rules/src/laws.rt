//! What follows from the definitions of keys and of what the publisher is asked: laws, on functions that do nothing.
ghost use Rattle.std.specs.Prelude.{◌≡◌, Some};
ghost use Rattle.sp_base.specs.Requests.{Request};
ghost use Rattle.any_config.specs.declared.farm.Farm.{Farm};
ghost use Rattle.cover_rules.specs.declared.page.PageKey.{PageKey};
ghost use Rattle.cover_rules.specs.Pages.{page_key_of};
ghost use Rattle.dispatch_rules.specs.Asking.{PagesAreAskedAlike};
ghost use Rattle.dispatch_rules.specs.Caching.{cache_key};

use cover_rules::a_page_has_one_key;
use sp_base::mangling_and_unmangling;

/// Two requests for one page are asked of the publisher alike, but for a slash at the path's end, so that the page that was kept for one
/// answers the other. Their paths are unmangled, as those of requests that were read are.
pub fn requests_for_one_page_are_asked_alike()
    ensures { PagesAreAskedAlike }
{
    a_page_has_one_key();
    mangling_and_unmangling();
}

/// The page of a request is the one at its path.
pub fn a_request_has_the_page_at_its_path()
    ensures { (farm : Farm) (request : Request) (key : PageKey) → cache_key farm request ≡ Some key → page_key_of request.path ≡ Some key }
{}
