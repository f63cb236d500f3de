// What a request's method and a resource's mark say.
ghost use Rattle.std.specs.Prelude.{◌≡◌};
ghost use Rattle.std.specs.Option.{option_copied};
ghost use Rattle.publisher.specs.Rendering.{is_post, is_read, mark_in, mark_of};

use resource_tree::Res;
use sp_base::{Mark, TextBuf};

/// Whether a method asks for a representation.
pub(crate) fn is_read(method: &str) -> bool
    ensures { result ≡ is_read method.now }
{
    method == "GET" || method == "HEAD"
}

/// Whether a method asks for a change of the content.
pub(crate) fn is_post(method: &str) -> bool
    ensures { result ≡ is_post method.now }
{
    method == "POST"
}

fn mark_in(name: Option<&TextBuf>) -> Mark
    ensures { result ≡ mark_in (option_copied name.entry) }
{
    let Some(name) = name else {
        return Mark::Plain;
    };
    match name.text() {
        "no-cache" => Mark::NoCache,
        "no-store" => Mark::NoStore,
        "must-revalidate" => Mark::MustRevalidate,
        _ => Mark::Plain,
    }
}

/// The mark of the answers that show a resource.
pub(crate) fn mark_of(res: &Res) -> Mark
    ensures { result ≡ mark_of res.now }
{
    mark_in(res.props().text("sp:mark"))
}
