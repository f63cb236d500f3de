//! Texts in UTF-8 that contracts see as their bytes.
ghost use Rattle.std.specs.Prelude.{◌≡◌, IfOk, nat_eq, Some, refl};
ghost use Rattle.std.specs.Cmp.{partial_equiv_from_equiv};
ghost use Rattle.std.specs.Cmp.Lexicographic.{pointwise, slice_cmp, nat_list_eq_equiv, nat_list_cmp_total, texts_ties, texts_po};
ghost use Rattle.std.specs.Ordering.{nat_cmp};

use crate::Mem;
use std::alloc::Global;
use std::cmp::Ordering;
use std::marker::Model;

/// An owned text in UTF-8. Contracts see its bytes. Texts are ordered by their bytes.
#[derive(Drop)]
pub struct TextBuf {
    text: String,
}

impl Model for TextBuf {
    ghost use Rattle.std.specs.Prelude.{List, ℕ, string_bytes};

    ghost Value = { List ℕ };

    ghost view = { λ t. string_bytes t.text };
}

impl TextBuf {
    /// A copy of a text.
    pub fn of(alloc: Global, text: &str) -> Mem<TextBuf>
        ensures { IfOk result (λ t. t ≡ text.now) }
    {
        Ok(TextBuf {
            text: String::from_str(alloc, text)?,
        })
    }

    pub fn text(&self) -> &str
        ensures { result.now ≡ self.now }
    {
        self.text.as_str()
    }

    pub(crate) fn into_bytes(self) -> Vec<u8>
        ensures { result.items ≡ self }
    {
        self.text.into_bytes()
    }

    pub fn duplicate(&self, alloc: Global) -> Mem<TextBuf>
        ensures { IfOk result (λ t. t ≡ self.now) }
    {
        TextBuf::of(alloc, self.text())
    }
}

impl From<String> for TextBuf {
    ghost use Rattle.std.specs.Prelude.{◌≡◌, string_bytes};

    ghost from_gives = { λ text t. t ≡ string_bytes text };

    fn from(text: String) -> TextBuf {
        TextBuf { text }
    }
}

impl PartialEq for TextBuf {
    ghost eq = { pointwise nat_eq };

    ghost laws = { partial_equiv_from_equiv nat_list_eq_equiv };

    fn eq(&self, other: &TextBuf) -> bool {
        self.text() == other.text()
    }
}

impl Eq for TextBuf {
    ghost laws = { nat_list_eq_equiv };
}

impl PartialOrd for TextBuf {
    ghost partial_cmp = { λ x y. Some (slice_cmp nat_cmp x y) };

    ghost laws = { texts_po };

    fn partial_cmp(&self, other: &TextBuf) -> Option<Ordering> {
        Some(self.cmp(other))
    }
}

impl Ord for TextBuf {
    ghost cmp = { slice_cmp nat_cmp };

    ghost total = { nat_list_cmp_total };

    ghost matches_partial_cmp = { λ x y. refl };

    ghost matches_eq = { texts_ties };

    fn cmp(&self, other: &TextBuf) -> Ordering {
        self.text().cmp(other.text())
    }
}
