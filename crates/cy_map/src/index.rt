//! Rules by what their patterns say.
ghost use Rattle.std.specs.Prelude.{◌≡◌, ◌≤◌, ◌<◌, ℕ, length, find, IfOk, option_copied, option_map, option_and_then, slice_get};
ghost use Rattle.cy_map.specs.Mapping.{is_longest_for, is_extension_for};

use crate::patterns::{ends_base, exact_path, extension_name, extension_of, prefix_base};
use crate::rule::Rule;
use std::alloc::{AllocError, Global};
use std::collections::HashMap;

/// A form of pattern by which rules are looked up.
#[derive(Clone, Copy)]
pub enum Form {
    Exact,
    Prefix,
    Extension,
}

impl Form {
    ghost use Rattle.cy_map.specs.Indexes.{reading_of};

    /// How a pattern of this form is read: an exact path as itself, a prefix as its base, an extension as its name.
    pub fn read(self, pattern: &[u8]) -> Option<&[u8]>
        ensures { option_map (λ text. text.now) result ≡ reading_of self pattern.now }
    {
        match self {
            Form::Exact => exact_path(pattern),
            Form::Prefix => prefix_base(pattern),
            Form::Extension => extension_name(pattern),
        }
    }
}

/// The places of the rules of one form in a list of rules, by what their patterns are read as. Of rules that are read
/// alike it has the first.
#[derive(Drop)]
pub struct Index {
    places: HashMap<Vec<u8>, usize>,
}

impl Index {
    ghost use Rattle.cy_map.specs.Indexes.{IsIndexOf, AreBasesWithin, rule_at};
    ghost use Rattle.cy_map.specs.declared.index.Form.TheVariants.{Prefix, Extension};

    /// The index of the rules of one form. Later rules are put first, so an earlier one replaces them.
    pub fn of(alloc: Global, rules: &[Rule], form: Form) -> Result<Index, AllocError>
        ensures { IfOk result (IsIndexOf form rules.now) }
    {
        let mut places = HashMap::new(alloc);
        for place in (0..rules.len()).rev() {
            if let Some(text) = form.read(rules[place].pattern.as_slice()) {
                places.insert(Vec::from_slice(alloc, text)?, place)?;
            }
        }
        Ok(Index { places })
    }

    /// The rule whose place stands at this text, in the rules that the index was made of.
    pub fn rule<'r>(&self, rules: &'r [Rule], text: &[u8]) -> Option<&'r Rule>
        ensures { option_copied result ≡ rule_at self.now rules.now text.now }
    {
        rule_at(rules, self.places.get(text).copied())
    }

    /// The rule of the longest prefix that a path is under. Bases are looked up from the longest to the shortest, and
    /// none is longer than `longest`.
    pub fn longest_prefix<'r>(
        &self,
        rules: &'r [Rule],
        path: &[u8],
        longest: usize,
    ) -> Option<&'r Rule>
        requires index { IsIndexOf Prefix rules.now self.now }
        requires bases { AreBasesWithin rules.now longest }
        ensures { option_copied result ≡ find (is_longest_for rules.now path.now) rules.now }
    {
        for end in (0..longest.min(path.len()) + 1).rev() {
            if ends_base(path, end) {
                if let Some(rule) = self.rule(rules, &path[..end]) {
                    return Some(rule);
                }
            }
        }
        None
    }

    /// The rule of the extension of a path.
    pub fn extension<'r>(&self, rules: &'r [Rule], path: &[u8]) -> Option<&'r Rule>
        requires { IsIndexOf Extension rules.now self.now }
        ensures { option_copied result ≡ find (is_extension_for path.now) rules.now }
    {
        match extension_of(path) {
            Some(name) => self.rule(rules, name),
            None => None,
        }
    }
}

/// The rule at a place, if there is one.
pub fn rule_at(rules: &[Rule], place: Option<usize>) -> Option<&Rule>
    ensures { option_copied result ≡ option_and_then (slice_get rules.now) place }
{
    rules.get(place?)
}
