// Which script renders a resource that is put in.

ghost use Rattle.std.specs.Prelude.{◌≡◌, IfOk};
ghost use Rattle.type_chain.specs.Chain.{chain_of};
ghost use Rattle.script_rank.specs.Search.{search_result as first_script};
ghost use Rattle.publisher.specs.Pages.{html_parts};

use crate::lent_content::LentContent;
use resource_tree::Res;
use sp_base::{Mem, Path, TextBuf, TextList};
use std::alloc::Global;
use url_split::Parts;

fn html_parts(alloc: Global, path: &Path) -> Mem<Parts>
    ensures { IfOk result (λ parts. parts ≡ html_parts path.now) }
{
    Ok(Parts {
        path: path.duplicate(alloc)?,
        selectors: TextList::new(alloc),
        extension: TextBuf::of(alloc, "html")?,
        suffix: TextBuf::of(alloc, "")?,
    })
}

/// The script that ranks first for a resource that is put in.
pub(crate) fn html_script(alloc: Global, content: &LentContent, res: &Res) -> Mem<Option<Path>>
    ensures { IfOk result (λ o. o ≡ first_script content.now (chain_of content.now res.now.props) (html_parts res.now.path)) }
{
    let parts = html_parts(alloc, res.path())?;
    content.first_script(alloc, res.props(), &parts)
}
