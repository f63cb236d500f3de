//! Lists whose items are written with nothing between them.

ghost use Rattle.std.specs.Prelude.{◌≡◌, ◌≢◌, ◌≤◌, ◌<◌, [], IfOk, IfErr, string_bytes, length};
ghost use Rattle.htl_expr.specs.Print as spec;
ghost use Rattle.htl_expr.specs.Value.{property};
ghost use Rattle.htl_expr.specs.Writing.{WroteAs};

use crate::escape::{Writing, push};
use crate::evaluation::Evaluation;
use crate::lists::push_texts;
use crate::room::WriteFault;
use htl_syntax::Context;
use sp_base::TextBuf;
use std::alloc::Global;

// Items with nothing between them, where they have at most `most` bytes.
fn joined(alloc: Global, most: usize, items: &[TextBuf]) -> Result<TextBuf, WriteFault>
    ensures ok { IfOk result (λ text. text ≡ spec.concatenation [] items.now) }
    ensures err { IfErr result (λ f. f ≢ WriteFault.NoMemory → (f ≡ WriteFault.TooLong) × (most < length (spec.concatenation [] items.now))) }
{
    let mut text = String::new(alloc);
    push_texts(&mut text, most, Some(Context::Unsafe), "", items)?;
    Ok(TextBuf::from(text))
}

// Puts the items together, writes them and remembers what they are together.
fn push_newly_joined(
    text: &mut String,
    alloc: Global,
    scope: &mut Evaluation,
    writing: Writing,
    name: &TextBuf,
    items: &[TextBuf],
) -> Result<(), WriteFault>
    requires room { length (string_bytes text.old) ≤ writing.most }
    requires items { spec.plain [] (property scope.old name.now) ≡ spec.concatenation [] items.now }
    ensures text { WroteAs writing result (string_bytes text.old) (spec.concatenation [] items.now) (string_bytes text.new) }
    ensures scope { scope.new ≡ scope.old }
{
    let joined = joined(alloc, writing.most - text.as_str().len(), items)?;
    push(text, writing.most, writing.context, joined.text())?;
    scope.remember_joined(name.duplicate(alloc)?, joined)?;
    Ok(())
}

/// Writes the items of a property with nothing between them. However many are empty, they are walked once in a render.
pub(crate) fn push_joined(
    text: &mut String,
    alloc: Global,
    scope: &mut Evaluation,
    writing: Writing,
    name: &TextBuf,
    items: &[TextBuf],
) -> Result<(), WriteFault>
    requires room { length (string_bytes text.old) ≤ writing.most }
    requires items { spec.plain [] (property scope.old name.now) ≡ spec.concatenation [] items.now }
    ensures text { WroteAs writing result (string_bytes text.old) (spec.concatenation [] items.now) (string_bytes text.new) }
    ensures scope { scope.new ≡ scope.old }
{
    if let Some(joined) = scope.joined(name) {
        return push(text, writing.most, writing.context, joined.text());
    }
    push_newly_joined(text, alloc, scope, writing, name, items)
}
