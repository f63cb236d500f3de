//! What is noted of a page's head.
ghost use Rattle.std.specs.Prelude.{◌≡◌, IfOk, IfSome};
ghost use Rattle.cache_files.specs.Pages as pages;

use crate::known_page::KnownPage;
use cache_files::{HeadNote, Page};
use http_front::{OPEN_GET, PreparedAnswer, answer_head};
use sp_base::{Answer, ByteBuf, Mark, Mem, TextBuf};
use std::alloc::Global;
use std::marker::Model;

/// The head of a page, and maybe the bytes with which the page's answer begins. Contracts see what the head says alone: that, and nothing
/// else of a page, these bytes are made of.
#[derive(Drop)]
pub(crate) struct NotedHead {
    head: HeadNote,
    bytes: Option<ByteBuf>,
}

impl Model for NotedHead {
    ghost use Rattle.std.specs.Prelude.{IfSome};
    ghost use Rattle.cache_files.specs.declared.head_note.HeadNote.{HeadNote};
    ghost use Rattle.page_index.specs.AnswerHeads.{IsAnswerHead};

    ghost Value = { HeadNote };

    ghost view = { λ h. h.head };

    ghost invariant = { λ h. IfSome h.bytes (IsAnswerHead h.head) };
}

impl NotedHead {
    pub(crate) fn of(head: HeadNote) -> NotedHead
        ensures { result ≡ head }
    {
        NotedHead { head, bytes: None }
    }

    pub(crate) fn head(&self) -> &HeadNote
        ensures { result.now ≡ self.now }
    {
        &self.head
    }

    /// The same with the bytes with which the answer of its page begins, where the page has this body.
    pub(crate) fn prepared(self, alloc: Global, body: ByteBuf) -> Mem<NotedHead>
        ensures { IfOk result (λ head. head ≡ self) }
    {
        if self.bytes.is_some() {
            return Ok(self);
        }
        let NotedHead { head, bytes: _ } = self;
        let Some(page) = page_under(alloc, &head, body)? else {
            return Ok(NotedHead::of(head));
        };
        let bytes = answer_head(alloc, OPEN_GET, &page.answer)?;
        Ok(NotedHead {
            head,
            bytes: Some(bytes),
        })
    }

    /// The page that it and a body make.
    pub(crate) fn page_under(&mut self, alloc: Global, body: ByteBuf) -> Mem<Option<KnownPage>>
        ensures page { IfOk result (λ page. page ≡ pages.page_under self.old body) }
        ensures body { IfOk result (λ page. IfSome page (λ page. page.answer.body ≡ body)) }
        ensures same { self.new ≡ self.old }
    {
        let Some(Page { stamp, answer }) = page_under(alloc, &self.head, body)? else {
            return Ok(None);
        };
        let answer = match &mut self.bytes {
            Some(bytes) => PreparedAnswer::under(bytes.share(alloc)?, answer),
            None => PreparedAnswer::of(answer),
        };
        Ok(Some(KnownPage::new(stamp, answer)))
    }
}

// The page that a head and a body make.
fn page_under(alloc: Global, head: &HeadNote, body: ByteBuf) -> Mem<Option<Page>>
    ensures page { IfOk result (λ page. page ≡ pages.page_under head.now body) }
    ensures body { IfOk result (λ page. IfSome page (λ page. page.answer.body ≡ body)) }
{
    if body.bytes().len() as u64 != head.length {
        return Ok(None);
    }
    Ok(Some(Page {
        stamp: head.stamp,
        answer: Answer {
            status: 200,
            kind: head.kind.duplicate(alloc)?,
            location: TextBuf::of(alloc, "")?,
            mark: Mark::Plain,
            body,
        },
    }))
}
