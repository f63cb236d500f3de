//! The entries of rules and of the filter.
ghost use Rattle.std.specs.Prelude.{codes};
ghost use Rattle.any_config.specs.Farms as spec;
ghost use Rattle.any_config.specs.Farms.{FarmGives};

use crate::farm::{Filter, FilterList, Test};
use crate::farm_fault::FarmFault;
use crate::members::{Member, group_of, name_or, needed_group, optional_group, value_of, word_of};
use crate::node::AnyNode;
use glob_rules::{Glob, GlobFault, Rule, RuleList};
use regex_rules::{Pattern, PatternFault};
use sp_base::TextBuf;
use std::alloc::Global;

/// The glob that a word spells.
#[tactic(auto, unfolding(crate::specs::Farms::glob))]
pub fn glob(alloc: Global, name: &str, text: &str) -> Result<Glob, FarmFault>
    ensures { FarmGives (λ g. g) result (spec.glob name.now text.now) }
{
    match Glob::read(alloc, text) {
        Ok(glob) => Ok(glob),
        Err(GlobFault::NoMemory) => Err(FarmFault::NoMemory),
        Err(GlobFault::OpenClass(_)) => Err(FarmFault::BadKind(TextBuf::of(alloc, name)?)),
    }
}

/// The glob of a name, where there is one.
#[tactic(auto, unfolding(crate::specs::Farms::glob_at))]
fn glob_at(alloc: Global, name: &str, members: &[Member]) -> Result<Option<Glob>, FarmFault>
    ensures { FarmGives (λ g. g) result (spec.glob_at name.now members.now) }
{
    let Some(value) = value_of(name, members) else {
        return Ok(None);
    };
    let text = word_of(alloc, name, value)?;
    Ok(Some(glob(alloc, name, text)?))
}

/// The pattern that a text in single quotes spells.
#[tactic(auto, unfolding(crate::specs::Farms::pattern))]
fn pattern(alloc: Global, name: &str, text: &str) -> Result<Pattern, FarmFault>
    ensures { FarmGives (λ p. p) result (spec.pattern name.now text.now) }
{
    match Pattern::read(alloc, text) {
        Ok(pattern) => Ok(pattern),
        Err(PatternFault::NoMemory) => Err(FarmFault::NoMemory),
        Err(PatternFault::BadPattern(_) | PatternFault::TooDeep(_)) => {
            Err(FarmFault::BadKind(TextBuf::of(alloc, name)?))
        }
    }
}

/// What a value of the filter asks: a word is a glob, a text in single quotes a pattern.
#[tactic(auto, unfolding(crate::specs::Farms::test_of))]
fn test_of(alloc: Global, name: &str, value: &AnyNode) -> Result<Test, FarmFault>
    ensures { FarmGives (λ t. t) result (spec.test_of name.now value.now) }
{
    match value {
        AnyNode::Word(text) => Ok(Test::Glob(glob(alloc, name, text.text())?)),
        AnyNode::Pattern(text) => Ok(Test::Pattern(pattern(alloc, name, text.text())?)),
        AnyNode::Group(_) => Err(FarmFault::BadKind(TextBuf::of(alloc, name)?)),
    }
}

/// The test of a name, where there is one.
#[tactic(auto, unfolding(crate::specs::Farms::test_at))]
fn test_at(alloc: Global, name: &str, members: &[Member]) -> Result<Option<Test>, FarmFault>
    ensures { FarmGives (λ t. t) result (spec.test_at name.now members.now) }
{
    match value_of(name, members) {
        None => Ok(None),
        Some(value) => Ok(Some(test_of(alloc, name, value)?)),
    }
}

fn type_of(alloc: Global, text: &str) -> Result<bool, FarmFault>
    ensures { FarmGives (λ b. b) result (spec.rule_type text.now) }
{
    if text == "allow" {
        Ok(true)
    } else if text == "deny" {
        Ok(false)
    } else {
        Err(FarmFault::BadKind(TextBuf::of(alloc, "type")?))
    }
}

/// Whether an entry allows or denies.
#[tactic(auto, unfolding(crate::specs::Farms::allow))]
fn allow(alloc: Global, members: &[Member]) -> Result<bool, FarmFault>
    ensures { FarmGives (λ b. b) result (spec.allow members.now) }
{
    let Some(value) = value_of("type", members) else {
        return Err(FarmFault::BadKind(TextBuf::of(alloc, "type")?));
    };
    let text = word_of(alloc, "type", value)?;
    type_of(alloc, text)
}

#[tactic(auto, unfolding(crate::specs::Farms::rule))]
fn rule(alloc: Global, members: &[Member]) -> Result<Rule, FarmFault>
    ensures { FarmGives (λ r. r) result (spec.rule members.now) }
{
    let allow = allow(alloc, members)?;
    match glob_at(alloc, "glob", members)? {
        Some(glob) => Ok(Rule { allow, glob }),
        None => Err(FarmFault::BadKind(TextBuf::of(alloc, "glob")?)),
    }
}

#[tactic(auto, unfolding(crate::specs::Farms::filter))]
fn filter(alloc: Global, members: &[Member]) -> Result<Filter, FarmFault>
    ensures { FarmGives (λ f. f) result (spec.filter members.now) }
{
    Ok(Filter {
        allow: allow(alloc, members)?,
        request_line: test_at(alloc, "glob", members)?,
        method: test_at(alloc, "method", members)?,
        url: test_at(alloc, "url", members)?,
        path: test_at(alloc, "path", members)?,
        selectors: test_at(alloc, "selectors", members)?,
        extension: test_at(alloc, "extension", members)?,
        suffix: test_at(alloc, "suffix", members)?,
        query: test_at(alloc, "query", members)?,
    })
}

fn rule_entry(alloc: Global, group: &str, member: &Member) -> Result<Rule, FarmFault>
    ensures { FarmGives (λ r. r) result (spec.entry group.now spec.rule member.now) }
{
    let members = group_of(alloc, name_or(&member.0, group), &member.1)?;
    rule(alloc, members)
}

fn filter_entry(alloc: Global, member: &Member) -> Result<Filter, FarmFault>
    ensures { FarmGives (λ f. f) result (spec.entry (codes "filter") spec.filter member.now) }
{
    let members = group_of(alloc, name_or(&member.0, "filter"), &member.1)?;
    filter(alloc, members)
}

fn rules(alloc: Global, group: &str, entries: &[Member]) -> Result<RuleList, FarmFault>
    ensures { FarmGives (λ l. l) result (spec.each (spec.entry group.now spec.rule) entries.now) }
{
    let mut found = RuleList::new(alloc);
    for entry in entries {
        found.push(rule_entry(alloc, group, entry)?)?;
    }
    Ok(found)
}

/// Rules that have to be there.
#[tactic(auto, unfolding(crate::specs::Farms::needed_rules))]
pub fn needed_rules(alloc: Global, name: &str, members: &[Member]) -> Result<RuleList, FarmFault>
    ensures { FarmGives (λ l. l) result (spec.needed_rules name.now members.now) }
{
    let entries = needed_group(alloc, name, members)?;
    rules(alloc, name, entries)
}

/// Rules, none where the group isn't there.
#[tactic(auto, unfolding(crate::specs::Farms::optional_rules))]
pub fn optional_rules(alloc: Global, name: &str, members: &[Member]) -> Result<RuleList, FarmFault>
    ensures { FarmGives (λ l. l) result (spec.optional_rules name.now members.now) }
{
    let entries = optional_group(alloc, name, members)?;
    rules(alloc, name, entries)
}

fn filter_entries(alloc: Global, entries: &[Member]) -> Result<FilterList, FarmFault>
    ensures { FarmGives (λ l. l) result (spec.each (spec.entry (codes "filter") spec.filter) entries.now) }
{
    let mut found = FilterList::new(alloc);
    for entry in entries {
        found.push(filter_entry(alloc, entry)?)?;
    }
    Ok(found)
}

/// The entries of the filter.
#[tactic(auto, unfolding(crate::specs::Farms::filters))]
pub fn filters(alloc: Global, members: &[Member]) -> Result<FilterList, FarmFault>
    ensures { FarmGives (λ l. l) result (spec.filters members.now) }
{
    let entries = needed_group(alloc, "filter", members)?;
    filter_entries(alloc, entries)
}
