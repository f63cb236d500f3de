// Rendering by a script.
ghost use Rattle.std.specs.Prelude.{◌≡◌, IfOk};
ghost use Rattle.publisher.specs.Kept.{AreReadings};
ghost use Rattle.publisher.specs.Pages.{page_of, setting_for};
ghost use Rattle.publisher.specs.Rendering.{mark_of, page_answer, script_representation};

use crate::lent_content::LentContent;
use crate::methods::mark_of;
use crate::page_fault::PageFault;
use crate::page_text::PageText;
use crate::pages::write_blocks;
use crate::representations::representation_of;
use crate::setting::Setting;
use crate::templates::{Reading, Templates};
use crate::waiting::Waiting;
use error_answers::error_answer;
use htl_blocks::Blocks;
use htl_expr::Variables;
use resource_tree::Res;
use sp_base::{Answer, Mem, NoMemory, Path};
use std::alloc::Global;

const HTML_KIND: &str = "text/html;charset=utf-8";

/// How many scripts and resources may stand one in another, in the script of the page itself.
const MOST_LEVELS: usize = 16;

// The page that a script's blocks write for a resource.
fn page_representation(
    alloc: Global,
    content: &LentContent,
    templates: &mut Templates,
    script: &Path,
    blocks: &Blocks,
    res: &Res,
) -> Mem<Answer>
    requires kept { AreReadings content.now templates.old }
    ensures answer { IfOk result (λ a. a ≡ page_answer (mark_of res.now) (page_of content.now (setting_for script.now res.now) blocks.now)) }
    ensures kept { AreReadings content.now templates.new }
{
    let setting = Setting {
        content,
        script,
        path: res.path(),
        props: res.props(),
        vars: &Variables::None,
        levels: MOST_LEVELS,
        waiting: Waiting::nothing(),
    };
    let mut page = PageText::new(alloc);
    match write_blocks(&mut page, alloc, templates, &setting, blocks) {
        Ok(()) => representation_of(alloc, HTML_KIND, mark_of(res), page.into_text()),
        Err(PageFault::Over) => error_answer(alloc, 500),
        Err(PageFault::NoMemory) => Err(NoMemory),
    }
}

/// What a script writes for a resource; an error where the script's text has no reading.
pub(crate) fn script_representation(
    alloc: Global,
    content: &LentContent,
    templates: &mut Templates,
    script: &Path,
    reading: &Reading,
    res: &Res,
) -> Mem<Answer>
    requires kept { AreReadings content.now templates.old }
    ensures answer { IfOk result (λ a. a ≡ script_representation content.now res.now script.now reading.now) }
    ensures kept { AreReadings content.now templates.new }
{
    match reading {
        Reading::Parsed(blocks) => {
            page_representation(alloc, content, templates, script, blocks.get(), res)
        }
        Reading::Refused => error_answer(alloc, 500),
    }
}
