//! What stands in a table of TOML.
ghost use Rattle.std.specs.Prelude.{◌≡◌, IfOk, IsUtf8, option_map};
ghost use Rattle.std.specs.Option.{option_and_then};
ghost use Rattle.toml.specs.Data.{get_member, as_integer};
ghost use Rattle.toml.specs.View.{table_view, view};
ghost use Rattle.cy_config.specs.declared.fault.SetFault.TheVariants.{BadSetting};
ghost use Rattle.cy_config.specs.Members.{in_connector, in_rule, value_word};

use crate::fault::SetFault;
use cy_bytes::Bytes;
use std::alloc::{AllocError, Global};
use toml::{Table, Value};

/// The value at a key.
pub(crate) fn value_at<'a>(table: &'a Table, key: &str) -> Option<&'a Value>
    ensures { option_map (λ value. view value.now) result ≡ get_member key.now (table_view table.now) }
{
    table.get(key)
}

/// The whole number at a key.
pub(crate) fn integer_at(table: &Table, key: &str) -> Option<i64>
    ensures { result ≡ option_and_then as_integer (get_member key.now (table_view table.now)) }
{
    match value_at(table, key) {
        Some(value) => value.as_integer(),
        None => None,
    }
}

/// How a value is told in a refusal: a whole number by its digits, anything else by its kind.
pub(crate) fn value_word(alloc: Global, value: &Value) -> Result<Bytes, AllocError>
    ensures { IfOk result (λ word. word ≡ value_word (view value.now)) }
{
    let word = match value {
        Value::Integer(number) => format!(in alloc; "{number}")?,
        Value::String(_) => String::from_str(alloc, "text")?,
        Value::Boolean(_) => String::from_str(alloc, "flag")?,
        Value::Float(_) => String::from_str(alloc, "float")?,
        Value::Datetime(_) => String::from_str(alloc, "date")?,
        Value::Array(_) => String::from_str(alloc, "list")?,
        Value::Table(_) => String::from_str(alloc, "table")?,
    };
    Ok(Bytes::of(word.into_bytes()))
}

/// How a key of the connector is told.
pub(crate) fn in_connector(alloc: Global, key: &str) -> Result<Bytes, AllocError>
    ensures { IfOk result (λ name. name ≡ in_connector key.now) }
{
    let name = format!(in alloc; "connector.{key}")?;
    Ok(Bytes::of(name.into_bytes()))
}

/// How a key of the rule of this number is told.
pub(crate) fn in_rule(alloc: Global, number: usize, key: &str) -> Result<Bytes, AllocError>
    ensures { IfOk result (λ name. name ≡ in_rule number key.now) }
{
    let name = format!(in alloc; "rule.{number}.{key}")?;
    Ok(Bytes::of(name.into_bytes()))
}

/// A text as bytes of its own.
pub(crate) fn bytes_of(alloc: Global, text: &str) -> Result<Bytes, AllocError>
    ensures same { IfOk result (λ bytes. bytes ≡ text.now) }
    ensures utf8 { IfOk result (λ bytes. IsUtf8 bytes) }
{
    Ok(Bytes::of(Vec::from_slice(alloc, text.as_bytes())?))
}

/// The refusal of a value that a setting may not have.
pub(crate) fn bad_value(alloc: Global, name: Bytes, value: &Value) -> Result<SetFault, AllocError>
    ensures { IfOk result (λ fault. fault ≡ BadSetting name (value_word (view value.now))) }
{
    let value = value_word(alloc, value)?;
    Ok(SetFault::BadSetting { name, value })
}
