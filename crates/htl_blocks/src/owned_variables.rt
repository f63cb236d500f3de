//! Variables that are put in with a script.

ghost use Rattle.std.specs.Prelude.{◌≡◌, [], ◌∷◌, ◌++◌, IfOk, OnOk};
ghost use Rattle.std.specs.List.{slice_index_or};
ghost use Rattle.htl_expr.specs.Bindings.{with_vars};
ghost use Rattle.htl_expr.specs.Variables.{lent_pairs, vars_of};
ghost use Rattle.htl_blocks.specs.Pieces.{item_of, with_round, within};

use crate::piece::{Frame, Round};
use crate::statement_value::listed;
use htl_expr::{Evaluation, Listed, Scope, Variables};
use sp_base::{MOST_RENDERED_BYTES, Mem, NoMemory, TextBuf};
use sqlite_items::Items;
use std::alloc::Global;
use std::marker::Model;

/// Names with their texts, of which the first of a name counts: those of a script's rounds, before those that the script was given, which are
/// lent. Contracts see that list.
#[derive(Drop)]
pub struct OwnedVariables<'a> {
    own: Items<(TextBuf, TextBuf)>,
    outer: &'a Variables<'a>,
}

impl<'a> Model for OwnedVariables<'a> {
    ghost use Rattle.std.specs.Prelude.{◌++◌, List, ℕ};
    ghost use Rattle.htl_expr.specs.Variables.{vars_of};

    ghost Value = { List (List ℕ × List ℕ) };

    ghost view = { λ v. v.own ++ vars_of v.outer.now };
}

fn push_own<'v>(all: &mut Items<(&'v str, &'v str)>, pairs: &'v [(TextBuf, TextBuf)]) -> Mem<()>
    ensures { OnOk result (lent_pairs all.new ≡ lent_pairs all.old ++ pairs.now) }
{
    for pair in pairs {
        all.push((pair.0.text(), pair.1.text()))?;
    }
    Ok(())
}

fn push_pairs<'v>(all: &mut Items<(&'v str, &'v str)>, pairs: &[(&'v str, &'v str)]) -> Mem<()>
    ensures { OnOk result (lent_pairs all.new ≡ lent_pairs all.old ++ lent_pairs pairs.now) }
{
    for pair in pairs {
        all.push(*pair)?;
    }
    Ok(())
}

#[cycle(push_all)]
fn push_all<'v>(all: &mut Items<(&'v str, &'v str)>, vars: &Variables<'v>) -> Mem<()>
    ensures { OnOk result (lent_pairs all.new ≡ lent_pairs all.old ++ vars_of vars.now) }
{
    match vars {
        Variables::None => Ok(()),
        Variables::With(name, text, outer) => {
            all.push((*name, *text))?;
            push_all(all, outer)
        }
        Variables::Pairs(pairs) => push_pairs(all, pairs),
    }
}

impl<'a> OwnedVariables<'a> {
    /// The variables, lent, as `Variables::Pairs` takes them.
    pub fn lent(&self, alloc: Global) -> Mem<Items<(&str, &str)>>
        ensures { IfOk result (λ pairs. lent_pairs pairs ≡ self.now) }
    {
        let mut pairs = Items::new(alloc);
        push_own(&mut pairs, self.own.as_slice())?;
        push_all(&mut pairs, self.outer)?;
        Ok(pairs)
    }
}

// A variable before the others.
fn with_variable<'a>(
    alloc: Global,
    name: &str,
    text: TextBuf,
    vars: OwnedVariables<'a>,
) -> Mem<OwnedVariables<'a>>
    ensures { IfOk result (λ all. all ≡ (name.now, text) ∷ vars.entry) }
{
    let OwnedVariables { own, outer } = vars;
    let mut all = Items::new(alloc);
    all.push((TextBuf::of(alloc, name)?, text))?;
    all.append(own)?;
    Ok(OwnedVariables { own: all, outer })
}

// The text of the item at an index of a list, or an empty one. A piece's round has none that is longer than a text may be.
#[tactic(auto, using(crate::proofs::WrittenLemmas::item_is, crate::proofs::WrittenLemmas::no_item_is))]
fn text_at(alloc: Global, items: &Listed, index: usize) -> Mem<TextBuf>
    ensures { IfOk result (λ text. text ≡ slice_index_or items.now index []) }
{
    match items.item(alloc, index, MOST_RENDERED_BYTES) {
        Ok(Some(text)) => TextBuf::of(alloc, text.text()),
        Ok(None) => TextBuf::of(alloc, ""),
        Err(_) => Err(NoMemory),
    }
}

// The item of a round.
fn item<'a>(
    alloc: Global,
    of: &mut Evaluation<'a>,
    vars: &OwnedVariables<'a>,
    round: &Round<'a>,
) -> Mem<TextBuf>
    ensures item { IfOk result (λ text. text ≡ item_of (with_vars of.old vars.now) round.now) }
    ensures resource { of.new ≡ of.old }
{
    let lent = vars.lent(alloc)?;
    let outer = Variables::Pairs(lent.as_slice());
    let Some(items) = listed(alloc, of, &outer, round.list)? else {
        return TextBuf::of(alloc, "");
    };
    text_at(alloc, &items, round.index)
}

fn in_round<'a>(
    alloc: Global,
    of: &mut Evaluation<'a>,
    vars: OwnedVariables<'a>,
    round: &Round<'a>,
) -> Mem<OwnedVariables<'a>>
    ensures vars { IfOk result (λ all. with_vars of.old all ≡ with_round (with_vars of.old vars.entry) round.now) }
    ensures resource { of.new ≡ of.old }
{
    let text = item(alloc, of, &vars, round)?;
    with_variable(alloc, round.name, text, vars)
}

/// The variables of a setting, each with its text.
#[tactic(auto, using(crate::proofs::WrittenLemmas::rounds_more, crate::proofs::WrittenLemmas::rounds_done))]
pub fn variables_of<'a>(
    alloc: Global,
    scope: &Scope<'a>,
    frame: &Frame<'a>,
) -> Mem<OwnedVariables<'a>>
    ensures { IfOk result (λ all. all ≡ (within scope.now frame.now.rounds).vars) }
{
    let mut of = Evaluation::of(alloc, scope);
    let mut all = OwnedVariables {
        own: Items::new(alloc),
        outer: scope.variables(),
    };
    for round in frame.rounds.as_slice() {
        let more = in_round(alloc, &mut of, all, round)?;
        all = more;
    }
    Ok(all)
}
