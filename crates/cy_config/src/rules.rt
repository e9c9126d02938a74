//! The list `rule`: its tables, and the rules that they are.
ghost use Rattle.std.specs.Prelude.{◌≡◌, ◌≤◌, [], length, map, vec_len, nat_le, ◌&&◌, true, false, All, IfOk, IsUtf8, IfSome, Some, pos, codes, is_some};
ghost use Rattle.std.specs.List.{filter_map, list_all};
ghost use Rattle.toml.specs.Data.{as_integer, get_member};
ghost use Rattle.toml.specs.View.{table_view, view};
ghost use Rattle.cy_map.specs.Patterns.{is_pattern};
ghost use Rattle.cy_settings.specs.Rules.{AreRules, has_part, most_part};
ghost use Rattle.cy_config.specs.declared.fault.SetFault.TheVariants.{BadSetting};
ghost use Rattle.cy_config.specs.Members.{async as async_key, is_flag, is_rule_key, is_table, is_text, in_rule, keys, members_in, part as part_key, pattern as pattern_key, rule as rule_key};
ghost use Rattle.cy_config.specs.Meaning.{can_async_of, elements_found, is_part, is_rule_list, part_of, pattern_of, read_rule, read_rules, refusals_of, unknown_in_rule};
ghost use Rattle.cy_config.specs.Texts.{Checks, Reads};

use crate::fault::SetFault;
use crate::members::{bad_value, bytes_of, in_rule, value_at};
use cy_map::{MAX_RULES, Rule, is_pattern};
use cy_settings::GREATEST_PART;
use std::alloc::{AllocError, Global};
use std::collections::BTreeSet;
use toml::{Table, Value};

/// The tables of the list `rule`, of which there are none where it is absent.
#[tactic(auto, using(crate::proofs::Refused::rule_list, crate::proofs::Refused::no_rule_list))]
pub(crate) fn rule_tables<'a>(alloc: Global, top: &'a Table) -> Result<&'a [Value], SetFault>
    ensures refused { Checks result (refusals_of rule_key is_rule_list false (get_member rule_key (table_view top.now))) }
    ensures found { IfOk result (λ values. map view values.now ≡ elements_found (get_member rule_key (table_view top.now))) }
    ensures tables { IfOk result (λ values. list_all is_table (map view values.now) ≡ true) }
    ensures few { IfOk result (λ values. length values.now ≤ MAX_RULES) }
{
    let Some(value) = value_at(top, "rule") else {
        return Ok(&[]);
    };
    match value.as_array() {
        Some(values) if are_rules(values) => Ok(values.as_slice()),
        _ => Err(bad_value(alloc, bytes_of(alloc, "rule")?, value)?),
    }
}

/// Whether the values are tables, and not too many.
fn are_rules(values: &[Value]) -> bool
    ensures { result ≡ (list_all (λ value. is_table (view value)) values.now && nat_le (length values.now) MAX_RULES) }
{
    are_tables(values) && values.len() <= MAX_RULES
}

fn are_tables(values: &[Value]) -> bool
    ensures { result ≡ list_all (λ value. is_table (view value)) values.now }
{
    values.iter().all(is_table)
}

fn is_table(value: &Value) -> bool
    ensures { result ≡ is_table (view value.now) }
{
    matches!(value, Value::Table(_))
}

/// The rules of tables, in their order.
pub(crate) fn read_rules(alloc: Global, values: &[Value]) -> Result<Vec<Rule>, SetFault>
    requires tables { list_all is_table (map view values.now) ≡ true }
    requires few { length values.now ≤ MAX_RULES }
    ensures read { Reads (λ rules. rules.items) result (read_rules [] (map view values.now)) }
    ensures taken { IfOk result (λ rules. AreRules rules.items) }
    ensures known_parts { IfOk result (λ rules. list_all has_part rules.items ≡ true) }
    ensures utf8 { IfOk result (λ rules. All (λ rule. IsUtf8 rule.pattern) rules.items) }
{
    let mut rules = Vec::new(alloc);
    let mut patterns = BTreeSet::new(alloc);
    for value in values {
        let table = table_in(value);
        let rule = read_rule(alloc, rules.len(), table)?;
        if !patterns.insert(pattern_at(table))? {
            return Err(SetFault::BadSetting {
                name: in_rule(alloc, rules.len(), "pattern")?,
                value: bytes_of(alloc, "twice")?,
            });
        }
        rules.push(rule)?;
    }
    Ok(rules)
}

/// The text at the key `pattern`, or the empty one.
fn pattern_at(table: &Table) -> &str
    ensures { result.now ≡ pattern_of (table_view table.now) }
{
    match value_at(table, "pattern") {
        Some(Value::String(pattern)) => pattern.as_str(),
        _ => "",
    }
}

/// The table that a value is.
fn table_in(value: &Value) -> &Table
    requires { is_table (view value.now) ≡ true }
    ensures { table_view result.now ≡ members_in (view value.now) }
{
    match value {
        Value::Table(table) => table,
        _ => unreachable!(),
    }
}

/// The rule of this number, of its table.
fn read_rule(alloc: Global, number: usize, table: &Table) -> Result<Rule, SetFault>
    ensures read { Reads (λ rule. rule) result (read_rule number (table_view table.now)) }
    ensures pattern { IfOk result (λ rule. rule.pattern ≡ pattern_of (table_view table.now)) }
    ensures good { IfOk result (λ rule. is_pattern rule.pattern ≡ true) }
    ensures part { IfOk result (λ rule. has_part rule ≡ true) }
    ensures utf8 { IfOk result (λ rule. IsUtf8 rule.pattern) }
{
    check_keys(alloc, number, table)?;
    let pattern = pattern_in(alloc, number, table)?;
    let part = part_in(alloc, number, table)?;
    let can_async = can_async_in(alloc, number, table)?;
    if !is_pattern(pattern.as_bytes()) {
        return Err(SetFault::BadSetting {
            name: in_rule(alloc, number, "pattern")?,
            value: bytes_of(alloc, "pattern")?,
        });
    }
    Ok(Rule {
        pattern: bytes_of(alloc, pattern)?,
        part,
        can_async,
    })
}

/// Refuses a key that no rule has.
fn check_keys(alloc: Global, number: usize, table: &Table) -> Result<(), SetFault>
    ensures { Checks result (filter_map (unknown_in_rule number) (keys (table_view table.now))) }
{
    for key in table.keys() {
        if !is_rule_key(key.as_str()) {
            let name = in_rule(alloc, number, key.as_str())?;
            return Err(SetFault::UnknownKey { name });
        }
    }
    Ok(())
}

fn is_rule_key(key: &str) -> bool
    ensures { result ≡ is_rule_key key.now }
{
    key == "pattern" || key == "part" || key == "async"
}

/// The refusal of a rule that lacks a key.
fn absent(alloc: Global, number: usize, key: &str) -> Result<SetFault, AllocError>
    ensures { IfOk result (λ fault. fault ≡ BadSetting (in_rule number key.now) (codes "absent")) }
{
    let name = in_rule(alloc, number, key)?;
    let value = bytes_of(alloc, "absent")?;
    Ok(SetFault::BadSetting { name, value })
}

/// The pattern of a rule.
fn pattern_in<'a>(alloc: Global, number: usize, table: &'a Table) -> Result<&'a str, SetFault>
    ensures refused { Checks result (refusals_of (in_rule number pattern_key) is_text true (get_member pattern_key (table_view table.now))) }
    ensures found { IfOk result (λ pattern. pattern.now ≡ pattern_of (table_view table.now)) }
{
    let Some(value) = value_at(table, "pattern") else {
        return Err(absent(alloc, number, "pattern")?);
    };
    match value.as_str() {
        Some(pattern) => Ok(pattern),
        None => Err(bad_value(alloc, in_rule(alloc, number, "pattern")?, value)?),
    }
}

/// The number of a rule's component.
fn part_in(alloc: Global, number: usize, table: &Table) -> Result<u32, SetFault>
    ensures refused { Checks result (refusals_of (in_rule number part_key) is_part true (get_member part_key (table_view table.now))) }
    ensures found { IfOk result (λ part. part ≡ part_of (table_view table.now)) }
    ensures small { IfOk result (λ part. part ≤ most_part) }
{
    let Some(value) = value_at(table, "part") else {
        return Err(absent(alloc, number, "part")?);
    };
    match part_of(value) {
        Some(part) => Ok(part),
        None => Err(bad_value(alloc, in_rule(alloc, number, "part")?, value)?),
    }
}

/// The number of a component that a value is.
fn part_of(value: &Value) -> Option<u32>
    ensures is { is_some result ≡ is_part (view value.now) }
    ensures number { IfSome result (λ part. as_integer (view value.now) ≡ Some (pos part)) }
    ensures small { IfSome result (λ part. part ≤ most_part) }
{
    let part = u32::try_from(value.as_integer()?).ok()?;
    (part <= GREATEST_PART).then_some(part)
}

/// Whether a rule's component may process asynchronously.
fn can_async_in(alloc: Global, number: usize, table: &Table) -> Result<bool, SetFault>
    ensures refused { Checks result (refusals_of (in_rule number async_key) is_flag false (get_member async_key (table_view table.now))) }
    ensures found { IfOk result (λ can_async. can_async ≡ can_async_of (table_view table.now)) }
{
    let Some(value) = value_at(table, "async") else {
        return Ok(false);
    };
    match value.as_bool() {
        Some(can_async) => Ok(can_async),
        None => Err(bad_value(alloc, in_rule(alloc, number, "async")?, value)?),
    }
}
