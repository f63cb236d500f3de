//! The publisher as a front asks it.
ghost use Rattle.sling_dispatch.specs.Runs.{sling_publisher};

use front::Renderer;
use publisher::{Publisher, kinds_are_short, reads_change_nothing, statuses_are_short};
use sp_base::{Answer, Ask, Mem};
use std::alloc::Global;

/// A publisher as the renderer of a front.
#[derive(Drop)]
pub struct PublisherRenderer {
    pub publisher: Publisher,
}

impl Renderer for PublisherRenderer {
    ghost publishing = { sling_publisher };

    ghost content = { λ renderer. renderer.publisher };

    fn render(&mut self, alloc: Global, ask: &Ask) -> Mem<Answer> {
        reads_change_nothing();
        statuses_are_short();
        kinds_are_short();
        self.publisher.answer(alloc, ask)
    }
}
