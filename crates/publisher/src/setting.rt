// Where a script stands while a page is put together.

ghost use Rattle.std.specs.Prelude.{◌≡◌};
ghost use Rattle.publisher.specs.Gathering.{bindings_in};

use crate::lent_content::LentContent;
use crate::waiting::Waiting;
use htl_expr::{Scope, Variables};
use sp_base::{Path, PropList};
use type_chain::type_text;

/// What a script is written in: the content, the script's path, the path and the properties of the resource, the variables, how many scripts and
/// resources may still stand one in another, and what waits behind it.
#[derive(Clone, Copy, Drop)]
pub(crate) struct Setting<'p> {
    pub(crate) content: &'p LentContent<'p>,
    pub(crate) script: &'p Path,
    pub(crate) path: &'p Path,
    pub(crate) props: &'p PropList,
    pub(crate) vars: &'p Variables<'p>,
    pub(crate) levels: usize,
    pub(crate) waiting: Waiting,
}

/// What the expressions of the script see.
pub(crate) fn scope_in<'p>(setting: &Setting<'p>) -> Scope<'p>
    ensures { result ≡ bindings_in setting.now }
{
    Scope {
        props: setting.props,
        path: setting.path.as_text(),
        name: setting.path.name(),
        resource_type: type_text(setting.props),
        vars: setting.vars,
    }
}
