//! Rules, and what is told of one that was found.
ghost use Rattle.std.specs.Prelude.{◌≡◌, IfOk, map, take};
ghost use Rattle.cy_map.specs.Mapping.{found_of};

use cy_bytes::Bytes;
use std::alloc::{AllocError, Global};

/// A rule: the component of the number `part` serves the paths of a pattern.
#[derive(Debug, Drop)]
pub struct Rule {
    /// `/` alone, an exact path, a prefix `/x/*` or `/*`, or an extension `*.e`.
    pub pattern: Bytes,
    /// The number of the component.
    pub part: u32,
    /// Whether the component may process a request asynchronously.
    pub can_async: bool,
}

/// What is told of the rule that a path finds.
#[derive(Clone, Copy, Debug, PartialEq, Eq)]
pub struct Found {
    /// The number of the component.
    pub part: u32,
    /// Whether the component may process a request asynchronously.
    pub can_async: bool,
}

impl Rule {
    pub(crate) fn found(&self) -> Found
        ensures { result ≡ found_of self.now }
    {
        Found {
            part: self.part,
            can_async: self.can_async,
        }
    }

    /// The same rule, with memory of its own.
    pub(crate) fn copied(&self, alloc: Global) -> Result<Rule, AllocError>
        ensures { IfOk result (λ rule. rule ≡ self.now) }
    {
        let pattern = Vec::from_slice(alloc, self.pattern.as_slice())?;
        Ok(Rule {
            pattern: Bytes::of(pattern),
            part: self.part,
            can_async: self.can_async,
        })
    }
}

/// The same rules, with memory of their own.
pub(crate) fn copied(alloc: Global, rules: &[Rule]) -> Result<Vec<Rule>, AllocError>
    ensures { IfOk result (λ copies. copies.items ≡ rules.now) }
{
    let mut copies = Vec::with_capacity(alloc, rules.len())?;
    for rule in rules {
        copies.push(rule.copied(alloc)?)?;
    }
    Ok(copies)
}
