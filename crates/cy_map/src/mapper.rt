//! The mapper: it is made of rules, and finds the rule for a path.
ghost use Rattle.std.specs.Prelude.{◌≡◌, ◌<◌, ◌≤◌, ◌↔◌, ℕ, length, position, option_copied, option_map, bytes_eq, IfSome, IfNone, IfOk, OnOk, Err, Some, None};
ghost use Rattle.cy_map.specs.declared.fault.MapFault.TheVariants.{BadPattern, RuleTwice};
ghost use Rattle.cy_map.specs.Mapping.{mapped, found_of, is_default_rule};
ghost use Rattle.cy_map.specs.Refusals.{first_bad, earlier_rule, IsFirstRepeat, IsTaken};
ghost use Rattle.cy_map.specs.Indexes.{AreBasesWithin};

use crate::fault::MapFault;
use crate::index::{Form, Index, rule_at};
use crate::patterns::{is_default, is_pattern, prefix_base};
use crate::rule::{Found, Rule, copied};
use std::alloc::{AllocError, Global};
use std::marker::Model;

/// How many rules a mapper has at most.
pub const MAX_RULES: usize = 1_024;

/// Rules, ready to find the one for a path. Contracts see the list of rules.
#[derive(Drop)]
pub struct Mapper {
    rules: Vec<Rule>,
    exact: Index,
    prefixes: Index,
    extensions: Index,
    default: Option<usize>,
    longest_base: usize,
}

impl Model for Mapper {
    ghost use Rattle.std.specs.Prelude.{List};
    ghost use Rattle.cy_map.specs.declared.rule.Rule.{Rule};

    ghost Value = { List Rule };

    ghost use Rattle.cy_map.specs.Mappers.{IsIndexed};

    ghost view = { λ m. m.rules.items };

    ghost invariant = { IsIndexed };
}

impl Mapper {
    /// A mapper of these rules, of which it keeps a copy.
    ///
    /// # Errors
    ///
    /// `BadPattern` for the first pattern that is none of the forms. Else `RuleTwice` for the first pattern that stands
    /// before. `NoMemory` where memory ran out.
    pub fn new(alloc: Global, rules: &[Rule]) -> Result<Mapper, MapFault>
        requires { length rules.now ≤ MAX_RULES }
        ensures rules { IfOk result (λ mapper. mapper ≡ rules.now) }
        ensures taken { OnOk result (IsTaken rules.now) }

        // A pattern is refused before any memory is taken.
        ensures bad_pattern { (i : ℕ) → (result ≡ Err (BadPattern i)) ↔ (first_bad rules.now ≡ Some i) }
        ensures rule_twice { (i j : ℕ) → (result ≡ Err (RuleTwice i j)) ↔ ((first_bad rules.now ≡ None) × IsFirstRepeat rules.now i j) }
    {
        if let Some(i) = first_bad(rules) {
            return Err(MapFault::BadPattern { i: i as u32 });
        }
        if let Some((i, j)) = first_repeat(rules) {
            return Err(MapFault::RuleTwice {
                i: i as u32,
                j: j as u32,
            });
        }
        Ok(Mapper::indexed(alloc, rules)?)
    }

    /// The rules with their indexes.
    fn indexed(alloc: Global, rules: &[Rule]) -> Result<Mapper, AllocError>
        ensures { IfOk result (λ mapper. mapper ≡ rules.now) }
    {
        Ok(Mapper {
            exact: Index::of(alloc, rules, Form::Exact)?,
            prefixes: Index::of(alloc, rules, Form::Prefix)?,
            extensions: Index::of(alloc, rules, Form::Extension)?,
            default: default_place(rules),
            longest_base: longest_base(rules),
            rules: copied(alloc, rules)?,
        })
    }

    /// The rule for a path: the exact one, else the longest prefix, else the extension, else the default
    /// (Servlet 3.1, section 12.1). The time that it takes grows with the path and the longest prefix, and not with the
    /// number of rules.
    pub fn find(&self, path: &[u8]) -> Option<Found>
        ensures { result ≡ option_map found_of (mapped self.now path.now) }
    {
        match self.rule(path) {
            Some(rule) => Some(rule.found()),
            None => None,
        }
    }

    fn rule(&self, path: &[u8]) -> Option<&Rule>
        ensures { option_copied result ≡ mapped self.now path.now }
    {
        let rules = self.rules.as_slice();
        if let Some(rule) = self.exact.rule(rules, path) {
            return Some(rule);
        }
        if let Some(rule) = self.prefixes.longest_prefix(rules, path, self.longest_base) {
            return Some(rule);
        }
        if let Some(rule) = self.extensions.extension(rules, path) {
            return Some(rule);
        }
        rule_at(rules, self.default)
    }
}

fn first_bad(rules: &[Rule]) -> Option<usize>
    ensures place { result ≡ first_bad rules.now }
    ensures within { IfSome result (λ i. i < length rules.now) }
{
    rules
        .iter()
        .position(|rule| !is_pattern(rule.pattern.as_slice()))
}

/// The first rule whose pattern stands before, as the place where that stands first and its own.
fn first_repeat(rules: &[Rule]) -> Option<(usize, usize)>
    ensures found { IfSome result (λ pair. IsFirstRepeat rules.now pair.0 pair.1) }
    ensures none { IfNone result ((place : ℕ) → earlier_rule rules.now place ≡ None) }
    ensures within { IfSome result (λ pair. (pair.0 < length rules.now) × (pair.1 < length rules.now)) }
{
    for (place, rule) in rules.iter().enumerate() {
        let pattern = rule.pattern.as_slice();
        if let Some(first) = place_of(&rules[..place], pattern) {
            return Some((first, place));
        }
    }
    None
}

/// Where a pattern stands first.
fn place_of(rules: &[Rule], pattern: &[u8]) -> Option<usize>
    ensures place { result ≡ position (λ rule. bytes_eq rule.pattern pattern.now) rules.now }
    ensures within { IfSome result (λ i. i < length rules.now) }
{
    rules
        .iter()
        .position(|rule| rule.pattern.as_slice() == pattern)
}

/// Where the default stands first.
fn default_place(rules: &[Rule]) -> Option<usize>
    ensures { result ≡ position is_default_rule rules.now }
{
    rules
        .iter()
        .position(|rule| is_default(rule.pattern.as_slice()))
}

/// The length of the longest base of a prefix.
fn longest_base(rules: &[Rule]) -> usize
    ensures { AreBasesWithin rules.now result }
{
    let mut longest = 0;
    for rule in rules {
        if let Some(base) = prefix_base(rule.pattern.as_slice()) {
            longest = longest.max(base.len());
        }
    }
    longest
}
