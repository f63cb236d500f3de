//! A publisher that gives one page.
ghost use Rattle.serve_tests.specs.Pages.{one_page_publisher};

use front::Renderer;
use resource_tree::Tree;
use sp_base::{Answer, Ask, ByteBuf, Mark, Mem, TextBuf};
use std::alloc::Global;

/// Gives one page, whatever it is asked for.
#[derive(Drop)]
pub(crate) struct OnePage {
    pub(crate) tree: Tree,
}

impl Renderer for OnePage {
    ghost publishing = { one_page_publisher };

    ghost content = { λ renderer. renderer.tree };

    fn render(&mut self, alloc: Global, _ask: &Ask) -> Mem<Answer> {
        Ok(Answer {
            status: 200,
            kind: TextBuf::of(alloc, "text/plain")?,
            location: TextBuf::of(alloc, "")?,
            mark: Mark::Plain,
            body: ByteBuf::of(alloc, b"page")?,
        })
    }
}
