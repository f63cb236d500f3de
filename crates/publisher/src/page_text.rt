// The text of a page while it is put together.

ghost use Rattle.std.specs.Prelude.{◌≡◌, ◌≢◌, ◌≤◌, ◌<◌, IfErr, false, length, string_bytes};
ghost use Rattle.sp_base.specs.Limits.{most_rendered_bytes};
ghost use Rattle.htl_blocks.specs.Refused.{most_inclusions, most_rounds};
ghost use Rattle.publisher.specs.Gathering.{Gathered, IsPassed};
ghost use Rattle.publisher.specs.Waits.{nothing};
ghost use Rattle.publisher.specs.Pages.{blank, one_inclusion, rounds_page, text_page};

use crate::page_fault::PageFault;
use crate::waiting::Waiting;
use sp_base::{MOST_RENDERED_BYTES, TextBuf};
use std::alloc::Global;
use std::marker::Model;

/// How many scripts and resources may be put in.
const MOST_INCLUSIONS: usize = 1000;

/// How often the contents of lists may stand.
const MOST_ROUNDS: usize = 1_000_000;

/// What a page has so far, within its limits.
#[derive(Drop)]
pub(crate) struct PageText {
    text: String,
    inclusions: usize,
    rounds: usize,
}

impl Model for PageText {
    ghost use Rattle.std.specs.Prelude.{◌≤◌, false, length, string_bytes};
    ghost use Rattle.sp_base.specs.Limits.{most_rendered_bytes};
    ghost use Rattle.htl_blocks.specs.Refused.{most_inclusions, most_rounds};
    ghost use Rattle.publisher.specs.Pages.{GatheredPage};

    ghost Value = { GatheredPage };

    ghost view = { λ p. record { text = string_bytes p.text; inclusions = p.inclusions; rounds = p.rounds; is_deep = false } };

    ghost invariant = { λ p. (length (string_bytes p.text) ≤ most_rendered_bytes) × (p.inclusions ≤ most_inclusions) × (p.rounds ≤ most_rounds) };
}

impl PageText {
    pub(crate) fn new(alloc: Global) -> PageText
        ensures { result ≡ blank }
    {
        PageText {
            text: String::new(alloc),
            inclusions: 0,
            rounds: 0,
        }
    }

    /// Refuses where there is no room for what waits.
    pub(crate) fn needs_room(&self, waiting: Waiting) -> Result<(), PageFault>
        ensures { IfErr result (λ f. f ≢ PageFault.NoMemory → IsPassed waiting self.now) }
    {
        if waiting.text > MOST_RENDERED_BYTES - self.text.as_str().len()
            || waiting.inclusions > MOST_INCLUSIONS - self.inclusions
        {
            return Err(PageFault::Over);
        }
        Ok(())
    }

    /// Writes a text.
    pub(crate) fn push(&mut self, text: &str) -> Result<(), PageFault>
        ensures { Gathered nothing result self.old self.new (text_page text.now) }
    {
        if text.len() > MOST_RENDERED_BYTES - self.text.as_str().len() {
            return Err(PageFault::Over);
        }
        self.text.push_str(text)?;
        Ok(())
    }

    /// Counts something that is to be put in.
    pub(crate) fn count_inclusion(&mut self) -> Result<(), PageFault>
        ensures { Gathered nothing result self.old self.new one_inclusion }
    {
        if self.inclusions >= MOST_INCLUSIONS {
            return Err(PageFault::Over);
        }
        self.inclusions += 1;
        Ok(())
    }

    /// Counts the contents of lists.
    pub(crate) fn count_rounds(&mut self, rounds: usize) -> Result<(), PageFault>
        ensures { Gathered nothing result self.old self.new (rounds_page rounds) }
    {
        if rounds > MOST_ROUNDS - self.rounds {
            return Err(PageFault::Over);
        }
        self.rounds += rounds;
        Ok(())
    }

    /// The text by itself.
    pub(crate) fn into_text(self) -> TextBuf
        ensures text { result ≡ self.text }
        ensures inclusions { self.inclusions ≤ most_inclusions }
        ensures rounds { self.rounds ≤ most_rounds }
        ensures depth { self.is_deep ≡ false }
    {
        let PageText {
            text,
            inclusions: _,
            rounds: _,
        } = self;
        TextBuf::from(text)
    }
}
