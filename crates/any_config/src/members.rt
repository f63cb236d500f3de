//! Members of groups, and the shapes of their values.
ghost use Rattle.std.specs.Prelude.{◌≡◌, option_copied};
ghost use Rattle.any_config.specs.Farms as spec;
ghost use Rattle.any_config.specs.Farms.{FarmGives};

use crate::farm_fault::FarmFault;
use crate::node::AnyNode;
use sp_base::TextBuf;
use std::alloc::Global;

/// A member: its name, and its value.
pub type Member = (TextBuf, AnyNode);

fn is_name(name: &str, text: &TextBuf) -> bool
    ensures { result ≡ spec.is_member_name name.now text.now }
{
    text.text() == name
}

/// The value of the first member of a name.
pub fn value_of<'a>(name: &str, members: &'a [Member]) -> Option<&'a AnyNode>
    ensures { option_copied result ≡ spec.member_value name.now members.now }
{
    for member in members {
        if is_name(name, &member.0) {
            return Some(&member.1);
        }
    }
    None
}

/// The name by which a fault tells of a member.
pub fn name_or<'a>(name: &'a TextBuf, group: &'a str) -> &'a str
    ensures { result.now ≡ spec.name_or name.now group.now }
{
    let text = name.text();
    if text.is_empty() { group } else { text }
}

pub fn group_of<'a>(
    alloc: Global,
    name: &str,
    value: &'a AnyNode,
) -> Result<&'a [Member], FarmFault>
    ensures { FarmGives (λ ms. ms.now) result (spec.group_of name.now value.now) }
{
    match value {
        AnyNode::Word(_) => Err(FarmFault::BadKind(TextBuf::of(alloc, name)?)),
        AnyNode::Pattern(_) => Err(FarmFault::NotSupported(TextBuf::of(alloc, name)?)),
        AnyNode::Group(members) => Ok(members.as_slice()),
    }
}

pub fn word_of<'a>(alloc: Global, name: &str, value: &'a AnyNode) -> Result<&'a str, FarmFault>
    ensures { FarmGives (λ text. text.now) result (spec.member_word name.now value.now) }
{
    match value {
        AnyNode::Word(text) => Ok(text.text()),
        AnyNode::Pattern(_) => Err(FarmFault::NotSupported(TextBuf::of(alloc, name)?)),
        AnyNode::Group(_) => Err(FarmFault::BadKind(TextBuf::of(alloc, name)?)),
    }
}

/// A group that has to be there.
#[tactic(auto, unfolding(crate::specs::Farms::needed_group))]
pub fn needed_group<'a>(
    alloc: Global,
    name: &str,
    members: &'a [Member],
) -> Result<&'a [Member], FarmFault>
    ensures { FarmGives (λ ms. ms.now) result (spec.needed_group name.now members.now) }
{
    match value_of(name, members) {
        None => Err(FarmFault::Missing(TextBuf::of(alloc, name)?)),
        Some(value) => group_of(alloc, name, value),
    }
}

/// A group without members where there is none.
#[tactic(auto, unfolding(crate::specs::Farms::optional_group))]
pub fn optional_group<'a>(
    alloc: Global,
    name: &str,
    members: &'a [Member],
) -> Result<&'a [Member], FarmFault>
    ensures { FarmGives (λ ms. ms.now) result (spec.optional_group name.now members.now) }
{
    match value_of(name, members) {
        None => Ok(&[]),
        Some(value) => group_of(alloc, name, value),
    }
}
