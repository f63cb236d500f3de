//! The variables that an expression may name.

ghost use Rattle.std.specs.Prelude.{◌≡◌, option_map, nat_eq};
ghost use Rattle.std.specs.Cmp.Lexicographic.{pointwise};
ghost use Rattle.std.specs.Map.{lookup};
ghost use Rattle.htl_expr.specs.Variables.{lent_pairs, vars_of};
ghost use Rattle.htl_expr.specs.Lent.{out_of_lent};
ghost use Rattle.htl_expr.specs.Value.{text_or_nothing};

use crate::lent::Lent;

/// Names with texts, all lent: an inner one over the outer ones, so that of two with one name the inner counts.
#[derive(Drop)]
pub enum Variables<'v> {
    None,
    /// A name and its text, over further variables.
    With(&'v str, &'v str, &'v Variables<'v>),
    /// Names with their texts, of which the first of a name counts.
    Pairs(&'v [(&'v str, &'v str)]),
}

#[cycle(find_pair)]
fn find_pair<'v>(pairs: &[(&'v str, &'v str)], name: &str) -> Option<&'v str>
    ensures { option_map (λ text. text.now) result ≡ lookup (pointwise nat_eq name.now) (lent_pairs pairs.now) }
{
    match pairs {
        [] => None,
        [pair, outer @ ..] => {
            if name == pair.0 {
                Some(pair.1)
            } else {
                find_pair(outer, name)
            }
        }
    }
}

#[cycle(find)]
fn find<'v>(vars: &Variables<'v>, name: &str) -> Option<&'v str>
    ensures { option_map (λ text. text.now) result ≡ lookup (pointwise nat_eq name.now) (vars_of vars.now) }
{
    match vars {
        Variables::None => None,
        Variables::With(inner, text, outer) => {
            if name == *inner {
                Some(text)
            } else {
                find(outer, name)
            }
        }
        Variables::Pairs(pairs) => find_pair(pairs, name),
    }
}

/// The text of the variable of this name, or nothing.
pub(crate) fn variable<'v>(vars: &Variables<'v>, name: &str) -> Lent<'v>
    ensures { out_of_lent result ≡ text_or_nothing (lookup (pointwise nat_eq name.now) (vars_of vars.now)) }
{
    match find(vars, name) {
        Some(text) => Lent::Text(text),
        None => Lent::Nothing,
    }
}
