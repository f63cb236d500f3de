//! What an expression gives.

ghost use Rattle.std.specs.Prelude.{◌≡◌, ◌≤◌, IfOk, IfErr, map, length};
ghost use Rattle.std.specs.Fmt.{signed_decimal};
ghost use Rattle.htl_expr.specs.Print.{truth_text};
ghost use Rattle.htl_expr.specs.Lent.{out_of_lent, plain_item};
ghost use Rattle.htl_expr.specs.Writing.{WriteFailsAsTooLongIfMemory};

use crate::lent::Lent;
use crate::lists::{long_text, truth_text};
use crate::print::push_value;
use crate::room::WriteFault;
use htl_syntax::Context;
use sp_base::{Mem, NoMemory, TextBuf, TextList};
use std::alloc::Global;

/// The value of an expression.
#[derive(Drop)]
pub enum Out {
    Nothing,
    Truth(bool),
    Long(i64),
    Text(TextBuf),
    List(TextList),
}

pub(crate) fn long_texts(alloc: Global, numbers: &[i64]) -> Mem<TextList>
    ensures { IfOk result (λ texts. texts ≡ map signed_decimal numbers.now) }
{
    let mut texts = TextList::new(alloc);
    for number in numbers {
        texts.push(long_text(alloc, *number)?)?;
    }
    Ok(texts)
}

pub(crate) fn truth_texts(alloc: Global, truths: &[bool]) -> Mem<TextList>
    ensures { IfOk result (λ texts. texts ≡ map truth_text truths.now) }
{
    let mut texts = TextList::new(alloc);
    for truth in truths {
        texts.push(TextBuf::of(alloc, truth_text(*truth))?)?;
    }
    Ok(texts)
}

/// The text of an item of a list literal, where it has at most `most` bytes.
pub(crate) fn item_text_within(
    alloc: Global,
    item: &Lent,
    most: usize,
) -> Result<TextBuf, WriteFault>
    ensures ok { IfOk result (λ text. (text ≡ plain_item item.now) × (length text ≤ most)) }
    ensures err { IfErr result (WriteFailsAsTooLongIfMemory most (plain_item item.now)) }
{
    let mut text = String::new(alloc);
    push_value(&mut text, alloc, most, Some(Context::Unsafe), ",", item)?;
    Ok(TextBuf::from(text))
}

/// The text of an item of a list literal.
pub(crate) fn item_text(alloc: Global, item: &Lent) -> Mem<TextBuf>
    ensures { IfOk result (λ text. text ≡ plain_item item.now) }
{
    let mut text = String::new(alloc);
    match push_value(
        &mut text,
        alloc,
        usize::MAX,
        Some(Context::Unsafe),
        ",",
        item,
    ) {
        Ok(()) => Ok(TextBuf::from(text)),
        Err(_) => Err(NoMemory),
    }
}

pub(crate) fn item_texts(alloc: Global, items: &[Lent]) -> Mem<TextList>
    ensures { IfOk result (λ texts. texts ≡ map plain_item items.now) }
{
    let mut texts = TextList::new(alloc);
    for item in items {
        texts.push(item_text(alloc, item)?)?;
    }
    Ok(texts)
}

/// A value with copies of what it has lent.
#[tactic(auto, using(crate::proofs::Chains::items_out))]
pub(crate) fn owned(alloc: Global, value: &Lent) -> Mem<Out>
    ensures { IfOk result (λ v. v ≡ out_of_lent value.now) }
{
    match value {
        Lent::Nothing => Ok(Out::Nothing),
        Lent::Truth(truth) => Ok(Out::Truth(*truth)),
        Lent::Long(number) => Ok(Out::Long(*number)),
        Lent::Text(text) => Ok(Out::Text(TextBuf::of(alloc, text)?)),
        Lent::Texts(texts) => Ok(Out::List(texts.duplicate(alloc)?)),
        Lent::Longs(numbers) => Ok(Out::List(long_texts(alloc, numbers.as_slice())?)),
        Lent::Truths(truths) => Ok(Out::List(truth_texts(alloc, truths.as_slice())?)),
        Lent::Items(items) => Ok(Out::List(item_texts(alloc, items.as_slice())?)),
    }
}
