//! Values from words and a hint (Apache Sling, "SlingPostServlet", `@TypeHint`).
ghost use Rattle.std.specs.Prelude.{◌≡◌, ◌≢◌, map, IfOk, IfErr, Ok, Err};
ghost use Rattle.sp_base.specs.Typed.{number_of, truth_of, one_of, longs_of, many_of, typed_of};

use crate::hint::{Hint, HintedType, ValueFault};
use crate::items::{LongList, TextList, TruthList};
use crate::{Mem, TextBuf, Value};
use std::alloc::Global;

impl Value {
    /// The value of words by a hint. A number is an optional `-` and digits, within 64 bits; a truth is true exactly for `true`.
    pub fn typed(alloc: Global, hint: Hint, words: &TextList) -> Result<Value, ValueFault>
        ensures ok { IfOk result (λ v. typed_of hint words.now ≡ Ok v) }
        ensures err { IfErr result (λ e. e ≢ ValueFault.NoMemory → typed_of hint words.now ≡ Err e) }
    {
        if hint.many {
            return many(alloc, hint.hinted, words);
        }
        match words.as_slice() {
            [word] => one(alloc, hint.hinted, word.text()),
            _ => Err(ValueFault::WrongCount(words.len())),
        }
    }
}

fn many(alloc: Global, hinted: HintedType, words: &TextList) -> Result<Value, ValueFault>
    ensures ok { IfOk result (λ v. many_of hinted words.now ≡ Ok v) }
    ensures err { IfErr result (λ e. e ≢ ValueFault.NoMemory → many_of hinted words.now ≡ Err e) }
{
    match hinted {
        HintedType::Text => Ok(Value::Texts(words.duplicate(alloc)?)),
        HintedType::Long => Ok(Value::Longs(longs(alloc, words)?)),
        HintedType::Truth => Ok(Value::Truths(truths(alloc, words)?)),
    }
}

fn one(alloc: Global, hinted: HintedType, word: &str) -> Result<Value, ValueFault>
    ensures ok { IfOk result (λ v. one_of hinted word.now ≡ Ok v) }
    ensures err { IfErr result (λ e. e ≢ ValueFault.NoMemory → one_of hinted word.now ≡ Err e) }
{
    match hinted {
        HintedType::Text => Ok(Value::Text(TextBuf::of(alloc, word)?)),
        HintedType::Long => match number(word) {
            Some(n) => Ok(Value::Long(n)),
            None => Err(ValueFault::NotANumber(0)),
        },
        HintedType::Truth => Ok(Value::Truth(word == "true")),
    }
}

fn number(word: &str) -> Option<i64>
    ensures { result ≡ number_of word.now }
{
    if word.starts_with('+') {
        return None;
    }
    word.parse::<i64>().ok()
}

fn longs(alloc: Global, words: &TextList) -> Result<LongList, ValueFault>
    ensures ok { IfOk result (λ list. longs_of words.now ≡ Ok list) }
    ensures err { IfErr result (λ e. e ≢ ValueFault.NoMemory → longs_of words.now ≡ Err e) }
{
    let mut list = LongList::new(alloc);
    for (place, word) in words.as_slice().iter().enumerate() {
        match number(word.text()) {
            Some(n) => list.push(n)?,
            None => return Err(ValueFault::NotANumber(place)),
        }
    }
    Ok(list)
}

fn truths(alloc: Global, words: &TextList) -> Mem<TruthList>
    ensures { IfOk result (λ list. list ≡ map truth_of words.now) }
{
    let mut list = TruthList::new(alloc);
    for word in words.as_slice() {
        list.push(word.text() == "true")?;
    }
    Ok(list)
}
