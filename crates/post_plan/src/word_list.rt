//! Words that a form lends.
ghost use Rattle.std.specs.Prelude.{◌≡◌, ◌==◌, ◌∷◌, ◌++◌, [], IfOk, OnOk, OnErr, length, map, option_copied};
ghost use Rattle.post_plan.specs.Entries.{lone_word};

use sp_base::{Mem, TextBuf, TextList};
use std::alloc::Global;
use std::marker::Model;

/// Words in their order, lent by the form: `@ValueFrom` may name one long word for each of many properties.
#[derive(Drop)]
pub struct LentWords<'a> {
    words: Vec<&'a str>,
}

impl<'a> Model for LentWords<'a> {
    ghost use Rattle.std.specs.Prelude.{List, map};
    ghost use Rattle.sp_base.specs.Texts.{Text};

    ghost Value = { List Text };

    ghost view = { λ l. map (λ word. word.now) l.words.items };
}

impl<'a> LentWords<'a> {
    pub fn new(alloc: Global) -> LentWords<'a>
        ensures { result ≡ [] }
    {
        LentWords {
            words: Vec::new(alloc),
        }
    }

    pub fn len(&self) -> usize
        ensures { result ≡ length self.now }
    {
        self.words.len()
    }

    pub fn is_empty(&self) -> bool
        ensures { result ≡ (length self.now == 0) }
    {
        self.words.is_empty()
    }

    pub fn as_slice(&self) -> &[&'a str]
        ensures { map (λ word. word.now) result.now ≡ self.now }
    {
        self.words.as_slice()
    }

    /// The word, where there is one alone.
    pub fn lone(&self) -> Option<&'a str>
        ensures { option_copied result ≡ lone_word self.now }
    {
        match self.words.as_slice() {
            [word] => Some(word),
            _ => None,
        }
    }

    /// Adds a word at the end.
    pub fn push(&mut self, word: &'a str) -> Mem<()>
        ensures ok { OnOk result (self.new ≡ self.old ++ word.entry.now ∷ []) }
        ensures err { OnErr result (self.new ≡ self.old) }
    {
        self.words.push(word)?;
        Ok(())
    }

    /// A copy of the words.
    pub fn copied(&self, alloc: Global) -> Mem<TextList>
        ensures { IfOk result (λ l. l ≡ self.now) }
    {
        let mut copy = TextList::new(alloc);
        for word in self.as_slice() {
            copy.push(TextBuf::of(alloc, word)?)?;
        }
        Ok(copy)
    }
}
