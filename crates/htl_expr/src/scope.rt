//! The resource that an expression is evaluated for.

ghost use Rattle.std.specs.Prelude.{◌≡◌, option_map};
ghost use Rattle.htl_expr.specs.Bindings.{with_vars};
ghost use Rattle.htl_expr.specs.Value as spec;
ghost use Rattle.htl_expr.specs.Variables.{vars_of};
ghost use Rattle.htl_expr.specs.Lent.{out_of_lent};

use crate::lent::Lent;
use crate::variables::Variables;
use sp_base::{PropList, Value};
use std::marker::Model;

/// The properties of a resource, its path, the last segment of its path, and its resource type, and the variables, all lent. Contracts
/// see them as a record of the same names.
#[derive(Drop)]
pub struct Scope<'a> {
    pub props: &'a PropList,
    pub path: &'a str,
    pub name: &'a str,
    pub resource_type: &'a str,
    pub vars: &'a Variables<'a>,
}

impl<'a> Model for Scope<'a> {
    ghost use Rattle.htl_expr.specs.Bindings.{Bindings};
    ghost use Rattle.htl_expr.specs.Variables.{vars_of};

    ghost Value = { Bindings };

    ghost view = { λ s. record { props = s.props.now; path = s.path.now; name = s.name.now; resource_type = s.resource_type.now; vars = vars_of s.vars.now } };
}

impl<'a> Scope<'a> {
    /// The variables by themselves.
    pub fn variables(&self) -> &'a Variables<'a>
        ensures { with_vars self.now (vars_of result.now) ≡ self.now }
    {
        self.vars
    }
}

/// A stored value.
pub(crate) fn lent(value: &Value) -> Lent<'_>
    ensures { out_of_lent result ≡ spec.out_of value.now }
{
    match value {
        Value::Text(text) => Lent::Text(text.text()),
        Value::Long(number) => Lent::Long(*number),
        Value::Truth(truth) => Lent::Truth(*truth),
        Value::Texts(texts) => Lent::Texts(texts),
        Value::Longs(numbers) => Lent::Longs(numbers),
        Value::Truths(truths) => Lent::Truths(truths),
    }
}

/// A property of the resource, or nothing.
pub(crate) fn property<'a>(scope: &Scope<'a>, name: &str) -> Lent<'a>
    ensures { out_of_lent result ≡ spec.property scope.now name.now }
{
    match scope.props.get(name) {
        Some(value) => lent(value),
        None => Lent::Nothing,
    }
}

pub(crate) fn field<'a>(scope: &Scope<'a>, name: &str) -> Option<&'a str>
    ensures { option_map (λ text. text.now) result ≡ spec.field scope.now name.now }
{
    match name {
        "path" => Some(scope.path),
        "name" => Some(scope.name),
        "resourceType" => Some(scope.resource_type),
        _ => None,
    }
}

/// What the resource has under a name of its own, or nothing.
pub(crate) fn resource<'a>(scope: &Scope<'a>, name: &str) -> Lent<'a>
    ensures { out_of_lent result ≡ spec.resource scope.now name.now }
{
    match field(scope, name) {
        Some(text) => Lent::Text(text),
        None => Lent::Nothing,
    }
}
