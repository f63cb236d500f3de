//! The texts that properties have as items of list literals. That of a text is lent, and that of any other value is made once.

ghost use Rattle.std.specs.Prelude.{◌≡◌, IfOk, IfSome, OnOk, IsSome, is_some, length, nat_eq};
ghost use Rattle.std.specs.Cmp.Lexicographic.{pointwise};
ghost use Rattle.std.specs.BTreeMap.{get};
ghost use Rattle.sp_base.specs.Names.{by_name};
ghost use Rattle.htl_expr.specs.Lent.{property_item, is_lent_text};
ghost use Rattle.htl_expr.specs.Remembered.{RemembersItemTexts, KeepsItemTexts, HasItemText};
ghost use Rattle.htl_expr.specs.Value as spec;

use crate::lent::Lent;
use crate::out::item_text;
use crate::scope::{Scope, property};
use sp_base::{Mem, TextBuf};
use std::alloc::Global;
use std::collections::BTreeMap;

// The text of a property that is a text.
fn lent_item<'t>(scope: &'t Scope, name: &TextBuf) -> Option<&'t str>
    ensures text { IfSome result (λ text. text.now ≡ property_item scope.now name.now) }
    ensures lent { is_some result ≡ is_lent_text (spec.property scope.now name.now) }
{
    match property(scope, name.text()) {
        Lent::Text(text) => Some(text),
        _ => None,
    }
}

// Makes the text of a property.
fn made_item(alloc: Global, scope: &Scope, name: &TextBuf) -> Mem<TextBuf>
    ensures { IfOk result (λ text. text ≡ property_item scope.now name.now) }
{
    item_text(alloc, &property(scope, name.text()))
}

/// Makes the text of a property, unless it is lent or was made before.
pub(crate) fn keep(
    alloc: Global,
    scope: &Scope,
    texts: &mut BTreeMap<TextBuf, TextBuf>,
    name: &TextBuf,
) -> Mem<()>
    requires { RemembersItemTexts scope.now texts.old }
    ensures has { OnOk result (HasItemText scope.now texts.new name.now) }
    ensures keeps { OnOk result (KeepsItemTexts texts.old texts.new) }
    ensures texts { RemembersItemTexts scope.now texts.new }
{
    if lent_item(scope, name).is_some() || texts.contains_key(name) {
        return Ok(());
    }
    let text = made_item(alloc, scope, name)?;
    texts.insert(name.duplicate(alloc)?, text)?;
    Ok(())
}

// The text that was made of a property.
#[tactic(auto, using(crate::proofs::Remembered::what_is_kept))]
fn kept<'t>(scope: &Scope, texts: &'t BTreeMap<TextBuf, TextBuf>, name: &TextBuf) -> &'t str
    requires texts { RemembersItemTexts scope.now texts.now }
    requires kept { IsSome (get by_name texts.now name.now) }
    ensures { result.now ≡ property_item scope.now name.now }
{
    // Only the contract needs the scope.
    let _ = scope;
    texts[name].text()
}

/// The text of a property, which is lent or was made before.
pub(crate) fn item<'t>(
    scope: &'t Scope,
    texts: &'t BTreeMap<TextBuf, TextBuf>,
    name: &TextBuf,
) -> &'t str
    requires texts { RemembersItemTexts scope.now texts.now }
    requires has { HasItemText scope.now texts.now name.now }
    ensures { result.now ≡ property_item scope.now name.now }
{
    match lent_item(scope, name) {
        Some(text) => text,
        None => kept(scope, texts, name),
    }
}

/// How many bytes the text of a property has.
pub(crate) fn item_len(
    alloc: Global,
    scope: &Scope,
    texts: &mut BTreeMap<TextBuf, TextBuf>,
    name: &TextBuf,
) -> Mem<usize>
    requires { RemembersItemTexts scope.now texts.old }
    ensures len { IfOk result (λ len. len ≡ length (property_item scope.now name.now)) }
    ensures texts { RemembersItemTexts scope.now texts.new }
{
    keep(alloc, scope, texts, name)?;
    Ok(item(scope, texts, name).len())
}

/// Whether a property has this text.
pub(crate) fn is_item(
    alloc: Global,
    scope: &Scope,
    texts: &mut BTreeMap<TextBuf, TextBuf>,
    name: &TextBuf,
    text: &str,
) -> Mem<bool>
    requires { RemembersItemTexts scope.now texts.old }
    ensures same { IfOk result (λ same. same ≡ pointwise nat_eq (property_item scope.now name.now) text.now) }
    ensures texts { RemembersItemTexts scope.now texts.new }
{
    keep(alloc, scope, texts, name)?;
    Ok(item(scope, texts, name) == text)
}
