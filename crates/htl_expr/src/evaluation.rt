//! What is found out of a resource while expressions are evaluated for it.

ghost use Rattle.std.specs.Prelude.{◌≡◌, ◌≤◌, [], IfOk, IfSome, nat_eq, length};
ghost use Rattle.std.specs.Cmp.Lexicographic.{pointwise};
ghost use Rattle.htl_expr.specs.Cursors.{item_piece_left, AreSameFor};
ghost use Rattle.htl_expr.specs.Lent.{property_item, IsToldBy};
ghost use Rattle.htl_expr.specs.Pieces.{item_piece_text};
ghost use Rattle.htl_expr.specs.Remembered.{compared_by};
ghost use Rattle.htl_expr.specs.Print.{plain};
ghost use Rattle.htl_expr.specs.Value as spec;

use crate::compare::{SameBy, same_by};
use crate::cursor::{keep_pieces, pieces_same_behind};
use crate::kept::{is_item, item_len};
use crate::numbered::{Aspect, Numbering, has_one_number};
use crate::pieces::ItemPiece;
use crate::scope::{Scope, property};
use sp_base::{Mem, TextBuf};
use std::alloc::Global;
use std::collections::BTreeMap;
use std::marker::Model;

/// A resource that expressions are evaluated for one after another. What is compared of a property gets a number, once, so that what is
/// the same has the same number. A list whose items are written with nothing between them is looked through once, too, and so is one
/// whose text as an item is compared with other texts. Contracts see what the expressions see of the resource.
#[derive(Drop)]
pub struct Evaluation<'a> {
    scope: Scope<'a>,
    lists: Numbering<'a>,
    items: Numbering<'a>,
    joined: BTreeMap<TextBuf, TextBuf>,
    item_texts: BTreeMap<TextBuf, TextBuf>,
}

impl<'a> Model for Evaluation<'a> {
    ghost use Rattle.htl_expr.specs.Bindings.{Bindings};
    ghost use Rattle.htl_expr.specs.Remembered.{Remembers};

    ghost Value = { Bindings };

    ghost view = { λ e. e.scope };

    ghost invariant = { λ e. Remembers e.scope e.lists e.items e.joined e.item_texts };
}

// What tells whether two properties of the resource are the same.
fn properties_same_by(scope: &Scope, a: &TextBuf, b: &TextBuf) -> SameBy
    ensures { IsToldBy result (spec.property scope.now a.now) (spec.property scope.now b.now) }
{
    same_by(&property(scope, a.text()), &property(scope, b.text()))
}

impl<'a> Evaluation<'a> {
    /// Of a resource of which nothing is found out yet.
    pub fn of(alloc: Global, scope: &Scope<'a>) -> Evaluation<'a>
        ensures { result ≡ scope.now }
    {
        Evaluation {
            scope: Scope {
                props: scope.props,
                path: scope.path,
                name: scope.name,
                resource_type: scope.resource_type,
                vars: scope.vars,
            },
            lists: Numbering::new(alloc),
            items: Numbering::new(alloc),
            joined: BTreeMap::new(alloc),
            item_texts: BTreeMap::new(alloc),
        }
    }

    pub(crate) fn scope(&self) -> &Scope<'a>
        ensures { result.now ≡ self.now }
    {
        &self.scope
    }

    // Whether two lists have the same items.
    fn has_same_list(&mut self, alloc: Global, a: &TextBuf, b: &TextBuf) -> Mem<bool>
        ensures same { IfOk result (λ same. same ≡ pointwise (pointwise nat_eq) (compared_by self.old Aspect.List a.now) (compared_by self.old Aspect.List b.now)) }
        ensures scope { self.new ≡ self.old }
    {
        has_one_number(alloc, &self.scope, Aspect::List, &mut self.lists, a, b)
    }

    // Whether two properties have the same text as items of list literals, by their numbers.
    fn has_same_text(&mut self, alloc: Global, a: &TextBuf, b: &TextBuf) -> Mem<bool>
        ensures same { IfOk result (λ same. same ≡ pointwise (pointwise nat_eq) (compared_by self.old Aspect.Item a.now) (compared_by self.old Aspect.Item b.now)) }
        ensures scope { self.new ≡ self.old }
    {
        has_one_number(alloc, &self.scope, Aspect::Item, &mut self.items, a, b)
    }

    /// Whether two properties have the same text as items of list literals.
    #[tactic(auto, using(crate::proofs::Remembered::one_text))]
    pub(crate) fn has_same_item(&mut self, alloc: Global, a: &TextBuf, b: &TextBuf) -> Mem<bool>
        ensures same { IfOk result (λ same. same ≡ pointwise nat_eq (property_item self.old a.now) (property_item self.old b.now)) }
        ensures scope { self.new ≡ self.old }
    {
        if a == b {
            return Ok(true);
        }
        self.has_same_text(alloc, a, b)
    }

    /// How many bytes the text of a property as an item of a list literal has.
    pub(crate) fn item_len(&mut self, alloc: Global, name: &TextBuf) -> Mem<usize>
        ensures len { IfOk result (λ len. len ≡ length (property_item self.old name.now)) }
        ensures scope { self.new ≡ self.old }
    {
        item_len(alloc, &self.scope, &mut self.item_texts, name)
    }

    /// Whether a property has this text as an item of a list literal.
    pub(crate) fn is_item(&mut self, alloc: Global, name: &TextBuf, text: &str) -> Mem<bool>
        ensures same { IfOk result (λ same. same ≡ pointwise nat_eq (property_item self.old name.now) text.now) }
        ensures scope { self.new ≡ self.old }
    {
        is_item(alloc, &self.scope, &mut self.item_texts, name, text)
    }

    /// For how many bytes two pieces are the same, behind so many of each and up to the end of one of them or of its comma. Nothing where
    /// a byte differs.
    pub(crate) fn same_behind(
        &mut self,
        alloc: Global,
        a: &ItemPiece,
        bytes: usize,
        b: &ItemPiece,
        other_bytes: usize,
    ) -> Mem<Option<usize>>
        requires within { bytes ≤ length (item_piece_text self.old a.now) }
        requires within_other { other_bytes ≤ length (item_piece_text self.old b.now) }
        ensures same { IfOk result (λ same. AreSameFor same (item_piece_left self.old a.now bytes) (item_piece_left self.old b.now other_bytes)) }
        ensures scope { self.new ≡ self.old }
    {
        keep_pieces(alloc, &self.scope, &mut self.item_texts, a, b)?;
        Ok(pieces_same_behind(&self.scope, &self.item_texts, a, bytes, b, other_bytes))
    }

    /// Whether two properties have the same kind and the same content.
    #[tactic(auto, using(crate::proofs::SameItems::same_lists, crate::proofs::SameItems::same_texts))]
    pub(crate) fn has_same(&mut self, alloc: Global, a: &TextBuf, b: &TextBuf) -> Mem<bool>
        ensures same { IfOk result (λ same. same ≡ spec.is_same (spec.property self.old a.now) (spec.property self.old b.now)) }
        ensures scope { self.new ≡ self.old }
    {
        match properties_same_by(&self.scope, a, b) {
            SameBy::Items => self.has_same_list(alloc, a, b),
            SameBy::Text => self.has_same_item(alloc, a, b),
            SameBy::Value(same) => Ok(same),
        }
    }

    /// The items of a property with nothing between them, if they were put together before.
    pub(crate) fn joined(&self, name: &TextBuf) -> Option<&TextBuf>
        ensures { IfSome result (λ text. text.now ≡ plain [] (spec.property self.now name.now)) }
    {
        self.joined.get(name)
    }

    pub(crate) fn remember_joined(&mut self, name: TextBuf, text: TextBuf) -> Mem<()>
        requires { text ≡ plain [] (spec.property self.old name) }
        ensures { self.new ≡ self.old }
    {
        self.joined.insert(name, text)?;
        Ok(())
    }
}
