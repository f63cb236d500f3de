//! What a publisher holds: a content tree, what is kept beside it, and the answers by both.
ghost use Rattle.std.specs.Prelude.{◌≡◌, ◌≤◌, ◌||◌, IfOk, IsTrue, OnOk, OnErr, length, true};
ghost use Rattle.sp_base.specs.Limits.{most_rendered_bytes};
ghost use Rattle.publisher.specs.Rendering.{seen_resources, mapped_answer, mapping, text_answer, resource_answer, answer_to_request, content_after_request, is_post, is_read};

use crate::errors::redirect;
use crate::first_scripts::{FirstScripts, first_script};
use crate::kept_index::{Indexes, mapped};
use crate::lent_content::LentContent;
use crate::methods::{is_post, is_read};
use crate::parts::parts_of;
use crate::representations::resource_answer;
use crate::templates::Templates;
use error_answers::error_answer;
use overlay_merge::merged_alone;
use resource_tree::Tree;
use sp_base::{Answer, Ask, Mem};
use std::alloc::Global;
use std::hash::RandomState;
use std::marker::Model;
use url_maps::MapAnswer;
use url_split::Parts;

/// A content tree, with the readings of its scripts, the scripts that were found to rank first, and its indexes. Contracts see the tree, and
/// whether the indexes are there: an answer makes them, and from then on they stay.
#[derive(Drop)]
pub(crate) struct HeldContent {
    pub(crate) tree: Tree,
    pub(crate) templates: Templates,
    pub(crate) firsts: FirstScripts,
    /// The indexes of the tree, made at the first answer.
    pub(crate) indexes: Option<Indexes>,
}

impl Model for HeldContent {
    ghost use Rattle.std.specs.Prelude.{is_some};
    ghost use Rattle.publisher.specs.FirstScripts.{AreFirst};
    ghost use Rattle.publisher.specs.Kept.{AreIndexesFor, AreReadings, IndexedTree};

    ghost Value = { IndexedTree };

    ghost view = { λ s. record { tree = s.tree; is_indexed = is_some s.indexes } };

    ghost invariant = { λ s. AreReadings s.tree s.templates × (AreFirst s.tree s.firsts × AreIndexesFor s.tree s.indexes) };
}

impl HeldContent {
    pub(crate) fn new(alloc: Global, seeds: RandomState, tree: Tree) -> HeldContent
        ensures { result.tree ≡ tree }
    {
        HeldContent {
            tree,
            templates: Templates::new(alloc, seeds),
            firsts: FirstScripts::new(alloc, seeds),
            indexes: None,
        }
    }

    pub(crate) fn tree(&self) -> &Tree
        ensures { result.now ≡ self.now.tree }
    {
        &self.tree
    }

    /// What a request is answered.
    #[tactic(auto, unfolding(crate::specs::Rendering::answer_to_request, crate::specs::Rendering::content_after_request))]
    pub(crate) fn answer(&mut self, alloc: Global, ask: &Ask) -> Mem<Answer>
        ensures ok { IfOk result (λ a. a ≡ answer_to_request self.old.tree ask.now) }
        ensures after { OnOk result (self.new.tree ≡ content_after_request self.old.tree ask.now) }
        ensures unchanged { OnErr result (self.new.tree ≡ self.old.tree) }
        ensures fits { IfOk result (λ a. a.status ≡ 200 → length a.body ≤ most_rendered_bytes) }
        ensures made { (is_read ask.now.method || is_post ask.now.method) ≡ true → OnOk result (IsTrue self.new.is_indexed) }
        ensures kept { IsTrue self.old.is_indexed → IsTrue self.new.is_indexed }
    {
        let method = ask.method.text();
        if is_read(method) {
            return self.read_answer(alloc, ask);
        }
        if is_post(method) {
            return self.posted_answer(alloc, ask);
        }
        error_answer(alloc, 405)
    }

    // The answer to a GET or a HEAD.
    fn read_answer(&mut self, alloc: Global, ask: &Ask) -> Mem<Answer>
        ensures answer { IfOk result (λ a. a ≡ mapped_answer self.old.tree (mapping self.old.tree ask.now)) }
        ensures fits { IfOk result (λ a. a.status ≡ 200 → length a.body ≤ most_rendered_bytes) }
        ensures unchanged { self.new.tree ≡ self.old.tree }
        ensures made { OnOk result (IsTrue self.new.is_indexed) }
        ensures kept { IsTrue self.old.is_indexed → IsTrue self.new.is_indexed }
    {
        match self.mapping(alloc, ask)? {
            MapAnswer::Inside(text) => self.text_answer(alloc, text.text()),
            MapAnswer::Away(status, reference) => redirect(alloc, status, reference.text()),
        }
    }

    /// What the text of a request's path is mapped to.
    pub(crate) fn mapping(&mut self, alloc: Global, ask: &Ask) -> Mem<MapAnswer>
        ensures answer { IfOk result (λ a. a ≡ mapping self.old.tree ask.now) }
        ensures unchanged { self.new.tree ≡ self.old.tree }
        ensures made { OnOk result (IsTrue self.new.is_indexed) }
        ensures kept { IsTrue self.old.is_indexed → IsTrue self.new.is_indexed }
    {
        mapped(alloc, &self.tree, &mut self.indexes, ask)
    }

    // The answer to a text within the content.
    fn text_answer(&mut self, alloc: Global, text: &str) -> Mem<Answer>
        ensures answer { IfOk result (λ a. a ≡ text_answer self.old.tree text.now) }
        ensures unchanged { self.new ≡ self.old }
    {
        match parts_of(alloc, &self.tree, text)? {
            Some(parts) => self.named(alloc, &parts),
            None => error_answer(alloc, 404),
        }
    }

    // The answer of the resource that the parts of a URL name.
    fn named(&mut self, alloc: Global, parts: &Parts) -> Mem<Answer>
        ensures answer { IfOk result (λ a. a ≡ resource_answer self.old.tree parts.now (seen_resources self.old.tree parts.now.path)) }
        ensures unchanged { self.new ≡ self.old }
    {
        match merged_alone(alloc, &self.tree, &parts.path)? {
            Some(res) => {
                let script = first_script(
                    alloc,
                    &self.tree,
                    &self.indexes,
                    &mut self.firsts,
                    res.props(),
                    parts,
                )?;
                let content = LentContent::of(&self.tree, &self.indexes);
                resource_answer(alloc, &content, &mut self.templates, parts, &res, script)
            }
            None => error_answer(alloc, 404),
        }
    }
}
