//! The publisher: a content tree, what is kept beside it, and the answer to a request.
ghost use Rattle.std.specs.Prelude.{◌≡◌, ◌≤◌, IfOk, OnOk, OnErr, length};
ghost use Rattle.sp_base.specs.Limits.{most_rendered_bytes};
ghost use Rattle.resource_tree.specs.Content.{IsGood};
ghost use Rattle.publisher.specs.Rendering.{answer_to_request, content_after_request};

use crate::held_content::HeldContent;
use resource_tree::Tree;
use sp_base::{Answer, Ask, Mem};
use std::alloc::Global;
use std::hash::RandomState;
use std::marker::Model;

/// Answers requests on a content tree. Contracts see the tree.
#[derive(Drop)]
pub struct Publisher {
    held: HeldContent,
}

impl Model for Publisher {
    ghost use Rattle.resource_tree.specs.Content.{Content};

    ghost Value = { Content };

    ghost view = { λ p. p.held.tree };
}

impl Publisher {
    /// A publisher of a tree. Readings of its scripts are kept in a map that is hashed by the seeds.
    pub fn new(alloc: Global, seeds: RandomState, tree: Tree) -> Publisher
        ensures { result ≡ tree }
    {
        Publisher {
            held: HeldContent::new(alloc, seeds, tree),
        }
    }

    pub fn tree(&self) -> &Tree
        ensures { result.now ≡ self.now }
    {
        self.held.tree()
    }

    /// What a request is answered. A POST that isn't refused changes the tree.
    pub fn answer(&mut self, alloc: Global, ask: &Ask) -> Mem<Answer>
        ensures ok { IfOk result (λ a. a ≡ answer_to_request self.old ask.now) }
        ensures after { OnOk result (self.new ≡ content_after_request self.old ask.now) }
        ensures unchanged { OnErr result (self.new ≡ self.old) }
        ensures good { IsGood self.new }
        ensures fits { IfOk result (λ a. a.status ≡ 200 → length a.body ≤ most_rendered_bytes) }
    {
        let answer = self.held.answer(alloc, ask);
        // `len` says that the tree is good.
        let _nodes = self.held.tree().len();
        answer
    }
}
