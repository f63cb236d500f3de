//! Numbers by which compared values are told apart.

ghost use Rattle.std.specs.Prelude.{◌≡◌, [], IfOk, Some, None};
ghost use Rattle.htl_expr.specs.ComparedValue.{number_in, KeepsNumbers, TellsApart};

use crate::compared_value::ComparedValue;
use sp_base::{Mem, NoMemory};
use std::alloc::Global;
use std::collections::BTreeMap;
use std::marker::Model;

/// Compared values, each with a number of its own. They are kept in their order, so that one more is compared with few others to find
/// its number. Contracts see which number each has.
#[derive(Drop)]
pub(crate) struct Classes<'a> {
    numbers: BTreeMap<ComparedValue<'a>, u64>,
    next: u64,
}

impl<'a> Model for Classes<'a> {
    ghost use Rattle.std.specs.Prelude.{List, ℕ};
    ghost use Rattle.htl_expr.specs.ComparedValue.{AreNumbered};
    ghost use Rattle.sp_base.specs.Texts.{Text};

    ghost Value = { List (List Text × ℕ) };

    ghost view = { λ c. c.numbers.entries };

    ghost invariant = { λ c. AreNumbered c.numbers.entries c.next };
}

impl<'a> Classes<'a> {
    pub(crate) fn new(alloc: Global) -> Classes<'a>
        ensures { result ≡ [] }
    {
        Classes {
            numbers: BTreeMap::new(alloc),
            next: 0,
        }
    }

    // Gives a compared value the next number.
    fn add(&mut self, compared: ComparedValue<'a>) -> Mem<u64>
        requires { number_in self.old compared ≡ None }
        ensures number { IfOk result (λ number. number_in self.new compared.entry ≡ Some number) }
        ensures kept { KeepsNumbers self.old self.new }
    {
        let number = self.next;
        let Some(next) = number.checked_add(1) else {
            return Err(NoMemory);
        };
        self.numbers.insert(compared, number)?;
        self.next = next;
        Ok(number)
    }

    // The number of a compared value, if it has one.
    fn known(&self, compared: &ComparedValue<'a>) -> Option<u64>
        ensures { result ≡ number_in self.now compared.now }
    {
        self.numbers.get(compared).copied()
    }

    /// The number of a compared value. Those that have one keep it.
    pub(crate) fn number(&mut self, compared: ComparedValue<'a>) -> Mem<u64>
        ensures number { IfOk result (λ number. number_in self.new compared.entry ≡ Some number) }
        ensures kept { KeepsNumbers self.old self.new }
    {
        match self.known(&compared) {
            Some(number) => Ok(number),
            None => self.add(compared),
        }
    }

    /// No two compared values have one number.
    pub(crate) fn told_apart(&self)
        ensures { TellsApart self.now }
    {
        let _ = &self.numbers;
    }
}
