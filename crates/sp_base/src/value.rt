//! Values of properties.
ghost use Rattle.std.specs.Prelude.{◌≡◌, IfOk, option_copied};
ghost use Rattle.sp_base.specs.Properties.{value_texts};

use crate::items::{LongList, TextList, TruthList};
use crate::{Mem, TextBuf};
use std::alloc::Global;

/// The value of a property: a text, a number, a truth, or a list of one of these types.
#[derive(Drop)]
pub enum Value {
    Text(TextBuf),
    Long(i64),
    Truth(bool),
    Texts(TextList),
    Longs(LongList),
    Truths(TruthList),
}

impl Value {
    pub fn duplicate(&self, alloc: Global) -> Mem<Value>
        ensures { IfOk result (λ v. v ≡ self.now) }
    {
        Ok(match self {
            Value::Text(text) => Value::Text(text.duplicate(alloc)?),
            Value::Long(number) => Value::Long(*number),
            Value::Truth(truth) => Value::Truth(*truth),
            Value::Texts(texts) => Value::Texts(texts.duplicate(alloc)?),
            Value::Longs(numbers) => Value::Longs(numbers.duplicate(alloc)?),
            Value::Truths(truths) => Value::Truths(truths.duplicate(alloc)?),
        })
    }
}

/// The texts of a value: one text alone, or those of a list. Of any other value, and of none, there are none.
pub fn value_texts(value: Option<&Value>) -> &[TextBuf]
    ensures { result.now ≡ value_texts (option_copied value.entry) }
{
    match value {
        Some(Value::Text(text)) => std::slice::from_ref(text),
        Some(Value::Texts(texts)) => texts.as_slice(),
        _ => &[],
    }
}
