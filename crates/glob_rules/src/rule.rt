//! Rules, and what a list of them decides.
ghost use Rattle.std.specs.Prelude.{◌≡◌};
ghost use Rattle.glob_rules.specs.Rules.{allows as allows_lem};

use crate::Glob;
use sp_base::Items;

/// A rule for the texts that its glob matches.
#[derive(Drop)]
pub struct Rule {
    pub allow: bool,
    pub glob: Glob,
}

pub type RuleList = Items<Rule>;

/// Whether rules allow a text: the last rule that matches decides, and where none matches the text is denied.
pub fn allows(rules: &RuleList, text: &str) -> bool
    ensures { result ≡ allows_lem rules.now text.now }
{
    let rules = rules.as_slice();
    let mut left = rules.len();
    while left > 0 {
        left -= 1;
        let rule = &rules[left];
        if rule.glob.matches(text) {
            return rule.allow;
        }
    }
    false
}
