//! Writing settings as a text.
ghost use Rattle.std.specs.Prelude.{◌≡◌, All, IfOk, IsUtf8, OnOk, Ok, false, map};
ghost use Rattle.toml.specs.Data.{boolean, integer, string};
ghost use Rattle.toml.specs.Text.{IsDocumentText};
ghost use Rattle.toml.specs.View.{table_view, view};
ghost use Rattle.cy_config.specs.Meaning.{Values};
ghost use Rattle.cy_config.specs.Printing.{at_default_port, connector_of, insert, printed, rule_table, told, value_in};
ghost use Rattle.cy_config.specs.Texts.{Means, shown};

use crate::settings::{Settings, TOLD};
use cy_bytes::{Bytes, NoMemory};
use cy_map::Rule;
use std::alloc::{AllocError, Global};
use toml::ser::Error;
use toml::{Table, Value};

/// Writes settings as a TOML text: the table `connector` with all that `cyctl check` tells, and the list `rule`. The
/// port is not written.
pub fn print_settings(alloc: Global, settings: &Settings) -> Result<Bytes, NoMemory>
    requires utf8 { All (λ rule. IsUtf8 rule.pattern) settings.now.rules }

    // The text is read again as the same settings, with the default port.
    ensures reads_back { IfOk result (λ text. Means text (Ok (at_default_port (shown settings.now)))) }
    ensures text { IfOk result (IsDocumentText false (printed (shown settings.now))) }
{
    let top = table_of(alloc, settings)?;
    match toml::table_to_string(alloc, &top) {
        Ok(text) => Ok(Bytes::of(Vec::from_slice(alloc, text.as_str().as_bytes())?)),
        Err(Error::OutOfMemory) => Err(NoMemory),
        Err(Error::DateInvalid) => unreachable!(),
    }
}

/// The table of the whole text.
#[tactic(auto, unfolding(crate::specs::Printing::printed))]
fn table_of(alloc: Global, settings: &Settings) -> Result<Table, AllocError>
    requires utf8 { All (λ rule. IsUtf8 rule.pattern) settings.now.rules }
    ensures { IfOk result (λ top. table_view top ≡ printed (shown settings.now)) }
{
    let mut top = Table::new(alloc);
    let connector = connector_of(alloc, settings)?;
    insert(alloc, &mut top, "connector", Value::Table(connector))?;
    let rules = rules_of(alloc, settings.rules.as_slice())?;
    insert(alloc, &mut top, "rule", Value::Array(rules))?;
    Ok(top)
}

/// Puts a value at a key.
fn insert(alloc: Global, table: &mut Table, key: &str, value: Value) -> Result<(), AllocError>
    ensures { OnOk result (table_view table.new ≡ insert key.now (view value) (table_view table.old)) }
{
    table.insert(String::from_str(alloc, key)?, value)?;
    Ok(())
}

/// The table `connector`.
fn connector_of(alloc: Global, settings: &Settings) -> Result<Table, AllocError>
    ensures { IfOk result (λ table. table_view table ≡ connector_of (shown settings.now) told) }
{
    let mut table = Table::new(alloc);
    for setting in TOLD {
        let value = Value::Integer(settings.value(setting));
        insert(alloc, &mut table, setting.name(), value)?;
    }
    Ok(table)
}

/// The tables of rules.
fn rules_of(alloc: Global, rules: &[Rule]) -> Result<Vec<Value>, AllocError>
    requires utf8 { All (λ rule. IsUtf8 rule.pattern) rules.now }
    ensures { IfOk result (λ values. map view values.items ≡ map rule_table rules.now) }
{
    let mut values = Vec::with_capacity(alloc, rules.len())?;
    for rule in rules {
        values.push(rule_of(alloc, rule)?)?;
    }
    Ok(values)
}

/// The table of a rule.
fn rule_of(alloc: Global, rule: &Rule) -> Result<Value, AllocError>
    requires utf8 { IsUtf8 rule.now.pattern }
    ensures { IfOk result (λ value. view value ≡ rule_table rule.now) }
{
    let pattern = text_of(rule.pattern.as_slice());
    let mut table = Table::new(alloc);
    insert(alloc, &mut table, "async", Value::Boolean(rule.can_async))?;
    insert(
        alloc,
        &mut table,
        "part",
        Value::Integer(i64::from(rule.part)),
    )?;
    insert(alloc, &mut table, "pattern", Value::string(alloc, pattern)?)?;
    Ok(Value::Table(table))
}

/// Bytes as the text that they are.
fn text_of(bytes: &[u8]) -> &str
    requires utf8 { IsUtf8 bytes.now }
    ensures { result.now ≡ bytes.now }
{
    match std::str::from_utf8(bytes) {
        Ok(text) => text,
        Err(_) => unreachable!(),
    }
}
