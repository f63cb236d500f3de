//! POSTs, which change the tree.
ghost use Rattle.std.specs.Prelude.{◌≡◌, ◌≤◌, IfOk, IsTrue, OnOk, OnErr, length};
ghost use Rattle.sp_base.specs.Limits.{most_rendered_bytes};
ghost use Rattle.resource_tree.specs.Content.{IsGood};
ghost use Rattle.resource_tree.specs.Patches.{patching};
ghost use Rattle.publisher.specs.Posting.{posting, posting_answer, posting_content, report_answer};
ghost use Rattle.publisher.specs.Rendering.{mapping, posted_answer, posted_content};

use crate::errors::redirect;
use crate::held_content::HeldContent;
use crate::kept_index::put_with_indexes;
use crate::posting::{planned, report_answer};
use crate::refusal::Refusal;
use error_answers::error_answer;
use post_apply::Planned;
use resource_tree::Patch;
use sp_base::{Answer, Ask, Mem, NoMemory};
use std::alloc::Global;
use url_maps::MapAnswer;

impl HeldContent {
    /// The answer to a POST, which is done here.
    pub(crate) fn posted_answer(&mut self, alloc: Global, ask: &Ask) -> Mem<Answer>
        ensures answer { IfOk result (λ a. a ≡ posted_answer self.old.tree ask.now (mapping self.old.tree ask.now)) }
        ensures fits { IfOk result (λ a. a.status ≡ 200 → length a.body ≤ most_rendered_bytes) }
        ensures after { OnOk result (self.new.tree ≡ posted_content self.old.tree ask.now (mapping self.old.tree ask.now)) }
        ensures unchanged { OnErr result (self.new.tree ≡ self.old.tree) }
        ensures made { OnOk result (IsTrue self.new.is_indexed) }
        ensures kept { IsTrue self.old.is_indexed → IsTrue self.new.is_indexed }
    {
        match self.mapping(alloc, ask)? {
            MapAnswer::Inside(text) => self.posting(alloc, ask, text.text()),
            MapAnswer::Away(status, reference) => redirect(alloc, status, reference.text()),
        }
    }

    // Does a POST to a text within the content.
    fn posting(&mut self, alloc: Global, ask: &Ask, text: &str) -> Mem<Answer>
        ensures answer { IfOk result (λ a. a ≡ posting_answer (posting self.old.tree ask.now text.now)) }
        ensures fits { IfOk result (λ a. a.status ≡ 200 → length a.body ≤ most_rendered_bytes) }
        ensures after { OnOk result (self.new.tree ≡ posting_content self.old.tree (posting self.old.tree ask.now text.now)) }
        ensures unchanged { OnErr result (self.new.tree ≡ self.old.tree) }
        ensures kept { IsTrue self.old.is_indexed → IsTrue self.new.is_indexed }
    {
        match planned(alloc, &self.tree, ask, text) {
            Ok(plan) => self.carry_out(alloc, plan),
            Err(Refusal::Status(status)) => error_answer(alloc, status),
            Err(Refusal::NoMemory) => Err(NoMemory),
        }
    }

    // Does what a POST puts over the tree. Its answer is made before, so that nothing changes where there is no memory for it.
    fn carry_out(&mut self, alloc: Global, planned: Planned) -> Mem<Answer>
        requires { IsGood (patching self.old.tree planned.patch) }
        ensures answer { IfOk result (λ a. a ≡ report_answer planned.report) }
        ensures fits { IfOk result (λ a. length a.body ≤ most_rendered_bytes) }
        ensures after { OnOk result (self.new.tree ≡ patching self.old.tree planned.patch) }
        ensures unchanged { OnErr result (self.new.tree ≡ self.old.tree) }
        ensures kept { IsTrue self.old.is_indexed → IsTrue self.new.is_indexed }
    {
        let Planned { patch, report } = planned;
        let answer = report_answer(alloc, &report)?;
        self.put(alloc, patch)?;
        Ok(answer)
    }

    // Puts a patch over the tree, and keeps what of the readings, the first scripts and the indexes is still right.
    fn put(&mut self, alloc: Global, patch: Patch) -> Mem<()>
        requires { IsGood (patching self.old.tree patch) }
        ensures ok { OnOk result (self.new.tree ≡ patching self.old.tree patch) }
        ensures unchanged { OnErr result (self.new.tree ≡ self.old.tree) }
        ensures kept { IsTrue self.old.is_indexed → IsTrue self.new.is_indexed }
    {
        put_with_indexes(
            alloc,
            &mut self.tree,
            &mut self.templates,
            &mut self.firsts,
            &mut self.indexes,
            patch,
        )
    }
}
