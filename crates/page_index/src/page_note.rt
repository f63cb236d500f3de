//! What is noted of one page.
ghost use Rattle.std.specs.Prelude.{◌≡◌, ◌≤◌, IfOk, IfSome, length, option_and_then, option_copied};
ghost use Rattle.page_index.specs.Held.{after_hit, body_after, fresh_note, of_key, same_key, weight_of};
ghost use Rattle.page_index.specs.Limits.{longest_kept};
ghost use Rattle.page_index.specs.Notes.{page_from};

use crate::kept_body::KeptBody;
use crate::known_page::KnownPage;
use crate::noted_head::NotedHead;
use cache_files::HeadNote;
use cover_rules::PageKey;
use sp_base::{ByteBuf, Mem};
use std::alloc::Global;

// After so many hits the body is kept at the next one.
const HITS_BEFORE_KEEPING: u8 = 2;

/// What is noted of the page of a key: its head, or that there is none, how many hits were counted since, and its body, where that is kept.
#[derive(Drop)]
pub(crate) struct PageNote {
    pub(crate) key: PageKey,
    pub(crate) head: Option<NotedHead>,
    pub(crate) hits: u8,
    pub(crate) body: Option<KeptBody>,
}

impl PageNote {
    /// A note that was just made.
    pub(crate) fn fresh(key: PageKey, head: Option<HeadNote>) -> PageNote
        ensures { result ≡ fresh_note key head }
    {
        PageNote {
            key,
            head: noted(head),
            hits: 0,
            body: None,
        }
    }

    pub(crate) fn is_of(&self, key: &PageKey) -> bool
        ensures { result ≡ same_key self.now.key key.now }
    {
        self.key.folder == key.folder && self.key.file == key.file
    }

    /// What the head says, or None where there is no head.
    pub(crate) fn head(&self) -> Option<&HeadNote>
        ensures { option_copied result ≡ self.now.head }
    {
        match &self.head {
            Some(head) => Some(head.head()),
            None => None,
        }
    }

    /// How many bytes of the body are kept.
    pub(crate) fn weight(&self) -> usize
        ensures value { result ≡ weight_of self.now }
        ensures few { result ≤ longest_kept }
    {
        match &self.body {
            Some(body) => body.len(),
            None => 0,
        }
    }

    /// The note after one more hit, which read this body.
    pub(crate) fn counted(self, alloc: Global, body: &mut ByteBuf) -> Mem<PageNote>
        ensures ok { IfOk result (λ note. note ≡ after_hit body.old self) }
        ensures same { body.new ≡ body.old }
    {
        let PageNote {
            key,
            head,
            hits,
            body: kept,
        } = self;
        let mut kept = body_after(alloc, hits, kept, body)?;
        let head = head_after(alloc, head, &mut kept)?;
        Ok(PageNote {
            key,
            head,
            hits: hits.min(HITS_BEFORE_KEEPING) + 1,
            body: kept,
        })
    }

    /// The page, where the note is of the key.
    pub(crate) fn page_of(&mut self, alloc: Global, key: &PageKey) -> Mem<Option<KnownPage>>
        ensures ok { IfOk result (λ page. page ≡ option_and_then page_from (of_key key.now self.old)) }
        ensures short { IfOk result (λ page. IfSome page (λ page. length page.answer.body ≤ longest_kept)) }
        ensures same { self.new ≡ self.old }
    {
        if self.is_of(key) {
            self.page(alloc)
        } else {
            Ok(None)
        }
    }

    // The page, where its head and its body are noted.
    fn page(&mut self, alloc: Global) -> Mem<Option<KnownPage>>
        ensures ok { IfOk result (λ page. page ≡ page_from self.old) }
        ensures short { IfOk result (λ page. IfSome page (λ page. length page.answer.body ≤ longest_kept)) }
        ensures same { self.new ≡ self.old }
    {
        let Some(head) = &mut self.head else {
            return Ok(None);
        };
        let Some(body) = &mut self.body else {
            return Ok(None);
        };
        let shared = body.share(alloc)?;
        head.page_under(alloc, shared)
    }
}

// A head that was just noted.
fn noted(head: Option<HeadNote>) -> Option<NotedHead>
    ensures { result ≡ head }
{
    match head {
        Some(head) => Some(NotedHead::of(head)),
        None => None,
    }
}

// The head after one more hit: where the body is kept, so are the bytes with which the answer begins.
fn head_after(
    alloc: Global,
    head: Option<NotedHead>,
    kept: &mut Option<KeptBody>,
) -> Mem<Option<NotedHead>>
    ensures ok { IfOk result (λ after. after ≡ head) }
    ensures same { kept.new ≡ kept.old }
{
    let Some(body) = kept else {
        return Ok(head);
    };
    let Some(head) = head else {
        return Ok(None);
    };
    Ok(Some(head.prepared(alloc, body.share(alloc)?)?))
}

// The body that is kept after one more hit.
fn body_after(
    alloc: Global,
    hits: u8,
    kept: Option<KeptBody>,
    body: &mut ByteBuf,
) -> Mem<Option<KeptBody>>
    ensures ok { IfOk result (λ after. after ≡ body_after hits kept body.old) }
    ensures same { body.new ≡ body.old }
{
    if kept.is_some() {
        return Ok(kept);
    }
    if hits < HITS_BEFORE_KEEPING {
        return Ok(None);
    }
    KeptBody::of(alloc, body)
}
