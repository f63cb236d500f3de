//! The two parts of a content parameter's name: a path, and what follows its last `@`.
ghost use Rattle.std.specs.Prelude.{◌≡◌};
ghost use Rattle.post_plan.specs.Parameters as spec;

use crate::suffix::Suffix;

/// What stands before the last `@`, or all of it.
pub fn path_text(name: &str) -> &str
    ensures { result.now ≡ spec.path_text name.now }
{
    match name.rfind('@') {
        Some(at) => &name[..at],
        None => name,
    }
}

fn suffix_named(text: &str) -> Option<Suffix>
    ensures { result ≡ spec.suffix_named text.now }
{
    if text == "TypeHint" {
        Some(Suffix::TypeHint)
    } else if text == "DefaultValue" {
        Some(Suffix::DefaultValue)
    } else if text == "Delete" {
        Some(Suffix::Delete)
    } else if text == "MoveFrom" {
        Some(Suffix::MoveFrom)
    } else if text == "CopyFrom" {
        Some(Suffix::CopyFrom)
    } else if text == "ValueFrom" {
        Some(Suffix::ValueFrom)
    } else if text == "IgnoreBlanks" {
        Some(Suffix::IgnoreBlanks)
    } else {
        None
    }
}

/// The suffix of a name, where it has none or one that is known.
pub fn suffix_of(name: &str) -> Option<Suffix>
    ensures { result ≡ spec.parameter_suffix name.now }
{
    match name.rfind('@') {
        Some(at) => suffix_named(&name[at + 1..]),
        None => Some(Suffix::Plain),
    }
}
