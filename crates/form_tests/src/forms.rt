//! Forms of pairs, for the tests.
use form_input::Form;
use sp_base::{Mem, TextBuf};
use std::alloc::Global;

fn pair(alloc: Global, name: &str, word: &str) -> Mem<(TextBuf, TextBuf)> {
    let name = TextBuf::of(alloc, name)?;
    let word = TextBuf::of(alloc, word)?;
    Ok((name, word))
}

fn push_pairs(alloc: Global, form: &mut Form, pairs: &[(&str, &str)]) -> Mem<()> {
    for (name, word) in pairs {
        form.push(pair(alloc, *name, *word)?)?;
    }
    Ok(())
}

/// The form of these names and words.
pub fn form(alloc: Global, pairs: &[(&str, &str)]) -> Mem<Form> {
    let mut form = Form::new(alloc);
    push_pairs(alloc, &mut form, pairs)?;
    Ok(form)
}
