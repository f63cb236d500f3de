//! Properties that are compared by numbers.

ghost use Rattle.std.specs.Prelude.{◌≡◌, [], IfOk, Some, nat_eq};
ghost use Rattle.std.specs.Cmp.Lexicographic.{pointwise};
ghost use Rattle.htl_expr.specs.ComparedValue.{number_in, KeepsNumbers};
ghost use Rattle.htl_expr.specs.Remembered.{compared_by, Knows};

use crate::classes::Classes;
use crate::compared_value::ComparedValue;
use crate::scope::{Scope, property};
use sp_base::{Mem, TextBuf};
use std::alloc::Global;
use std::collections::BTreeMap;

/// What of properties is compared.
#[derive(Clone, Copy)]
pub(crate) enum Aspect {
    /// The items of a list.
    List,
    /// The text as an item of a list literal.
    Item,
}

/// What is known of the properties of which one aspect is compared.
#[derive(Drop)]
pub(crate) struct Numbering<'a> {
    pub(crate) classes: Classes<'a>,
    /// The numbers of the properties that were looked through.
    pub(crate) known: BTreeMap<TextBuf, u64>,
}

impl<'a> Numbering<'a> {
    /// Of properties of which none is known.
    pub(crate) fn new(alloc: Global) -> Numbering<'a>
        ensures classes { result.classes ≡ [] }
        ensures known { result.known.entries ≡ [] }
    {
        Numbering {
            classes: Classes::new(alloc),
            known: BTreeMap::new(alloc),
        }
    }
}

fn compared_value<'a>(
    alloc: Global,
    scope: &Scope<'a>,
    aspect: Aspect,
    name: &TextBuf,
) -> Mem<ComparedValue<'a>>
    ensures { IfOk result (λ compared. compared ≡ compared_by scope.now aspect name.now) }
{
    match aspect {
        Aspect::List => Ok(ComparedValue::of_list(scope.props.get(name.text()))),
        Aspect::Item => ComparedValue::of_item(alloc, property(scope, name.text())),
    }
}

// The number of a property of which none is known.
fn new_number<'a>(
    alloc: Global,
    scope: &Scope<'a>,
    aspect: Aspect,
    numbering: &mut Numbering<'a>,
    name: &TextBuf,
) -> Mem<u64>
    requires { Knows scope.now aspect numbering.old.classes numbering.old.known }
    ensures number { IfOk result (λ number. number_in numbering.new.classes (compared_by scope.now aspect name.now) ≡ Some number) }
    ensures known { Knows scope.now aspect numbering.new.classes numbering.new.known }
    ensures kept { KeepsNumbers numbering.old.classes numbering.new.classes }
{
    let compared = compared_value(alloc, scope, aspect, name)?;
    let number = numbering.classes.number(compared)?;
    numbering.known.insert(name.duplicate(alloc)?, number)?;
    Ok(number)
}

// The number of a property, which is looked through once.
fn number<'a>(
    alloc: Global,
    scope: &Scope<'a>,
    aspect: Aspect,
    numbering: &mut Numbering<'a>,
    name: &TextBuf,
) -> Mem<u64>
    requires { Knows scope.now aspect numbering.old.classes numbering.old.known }
    ensures number { IfOk result (λ number. number_in numbering.new.classes (compared_by scope.now aspect name.now) ≡ Some number) }
    ensures known { Knows scope.now aspect numbering.new.classes numbering.new.known }
    ensures kept { KeepsNumbers numbering.old.classes numbering.new.classes }
{
    match numbering.known.get(name).copied() {
        Some(number) => Ok(number),
        None => new_number(alloc, scope, aspect, numbering, name),
    }
}

/// Whether what is compared of two properties is the same: whether it has one number.
pub(crate) fn has_one_number<'a>(
    alloc: Global,
    scope: &Scope<'a>,
    aspect: Aspect,
    numbering: &mut Numbering<'a>,
    a: &TextBuf,
    b: &TextBuf,
) -> Mem<bool>
    requires { Knows scope.now aspect numbering.old.classes numbering.old.known }
    ensures same { IfOk result (λ same. same ≡ pointwise (pointwise nat_eq) (compared_by scope.now aspect a.now) (compared_by scope.now aspect b.now)) }
    ensures known { Knows scope.now aspect numbering.new.classes numbering.new.known }
    ensures kept { KeepsNumbers numbering.old.classes numbering.new.classes }
{
    let first = number(alloc, scope, aspect, numbering, a)?;
    let second = number(alloc, scope, aspect, numbering, b)?;
    numbering.classes.told_apart();
    Ok(first == second)
}
