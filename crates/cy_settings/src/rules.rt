//! Lists of mapping rules.
ghost use Rattle.std.specs.Prelude.{◌≡◌, true};
ghost use Rattle.std.specs.List.{list_all};
ghost use Rattle.cy_settings.specs.Rules.{has_part, has_pattern, parts_of};

use cy_map::Rule;
use std::marker::Model;

/// The greatest number of a component.
pub const GREATEST_PART: u32 = 255;

/// Rules, as a list.
#[derive(Debug, Drop)]
pub struct Rules {
    items: Vec<Rule>,
}

impl Model for Rules {
    ghost use Rattle.cy_map.specs.declared.rule.Rule.{Rule};
    ghost use Rattle.std.specs.Prelude.{List};

    ghost Value = { List Rule };

    ghost view = { λ r. r.items.items };
}

impl Rules {
    /// These rules. It takes no memory.
    pub fn of(items: Vec<Rule>) -> Rules
        ensures { result ≡ items.items }
    {
        Rules { items }
    }

    /// The vector of the rules. It takes no memory.
    pub fn into_vec(self) -> Vec<Rule>
        ensures { result.items ≡ self }
    {
        let Rules { items } = self;
        items
    }

    /// The rules, lent.
    pub fn as_slice(&self) -> &[Rule]
        ensures { result.now ≡ self.now }
    {
        self.items.as_slice()
    }
}

/// Whether one of the rules has the pattern.
pub fn has_pattern(rules: &[Rule], pattern: &[u8]) -> bool
    ensures { result ≡ has_pattern rules.now pattern.now }
{
    rules.iter().any(|rule| rule.pattern.as_slice() == pattern)
}

/// One more than the greatest number of a component, or 0 without rules.
pub fn parts_of(rules: &[Rule]) -> u32
    requires { list_all has_part rules.now ≡ true }
    ensures { result ≡ parts_of rules.now }
{
    let mut parts = 0;
    for rule in rules {
        parts = parts.max(rule.part + 1);
    }
    parts
}
