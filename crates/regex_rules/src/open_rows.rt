//! The rows around the innermost open bracket, the innermost first.
ghost use Rattle.std.specs.Prelude.{◌≡◌, [], ◌∷◌, OnOk, MatchOption};

use crate::linking::Rows;
use sp_base::Mem;
use std::alloc::Global;
use std::marker::Model;

/// The rows around open brackets. Contracts see them from the innermost out.
#[derive(Drop)]
pub(crate) struct OpenRows {
    rows: Vec<Rows>,
}

impl Model for OpenRows {
    ghost use Rattle.std.specs.Prelude.{List, reverse};
    ghost use Rattle.regex_rules.specs.declared.linking.Rows.{Rows};

    ghost Value = { List Rows };

    ghost view = { λ s. reverse s.rows.items };
}

impl OpenRows {
    pub(crate) fn new(alloc: Global) -> OpenRows
        ensures { result ≡ [] }
    {
        OpenRows {
            rows: Vec::new(alloc),
        }
    }

    pub(crate) fn push(&mut self, rows: Rows) -> Mem<()>
        ensures { OnOk result (self.new ≡ rows ∷ self.old) }
    {
        self.rows.push(rows)?;
        Ok(())
    }

    pub(crate) fn pop(&mut self) -> Option<Rows>
        ensures { MatchOption result ((self.old ≡ []) × (self.new ≡ [])) (λ rows. self.old ≡ rows ∷ self.new) }
    {
        self.rows.pop()
    }
}
