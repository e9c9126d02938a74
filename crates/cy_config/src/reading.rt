//! Reading a text of settings.
ghost use Rattle.std.specs.Prelude.{◌≡◌, All, IfOk, IfErr, IsUtf8, Ok, Err};
ghost use Rattle.toml.specs.View.{table_view};
ghost use Rattle.cy_config.specs.declared.fault.SetFault.TheVariants.{NotToml, NoMemory};
ghost use Rattle.cy_config.specs.Meaning.{outcome};
ghost use Rattle.cy_config.specs.Texts.{IsNoToml, IsToml, Means, Reads, shown};

use crate::fault::SetFault;
use crate::rules::{read_rules, rule_tables};
use crate::settings::Settings;
use crate::values::{check_connector, check_threads, check_top, connector_in, settings_in};
use std::alloc::Global;
use toml::Table;

/// Reads a TOML text with an optional table `connector` of settings and an optional list `rule` of tables. What is absent
/// has its default.
///
/// # Errors
///
/// `NotToml` where the text is no TOML. Else the first of these refusals: a key at the top that is neither of the two; a
/// `connector` that is no table; each of its keys by byte order, unknown or of a value that it may not have;
/// `minSpareThreads` above `maxThreads`; a `rule` that is no list of at most 1,024 tables; and of each rule, by its
/// number from 0, its unknown keys by byte order, its pattern, its component, its flag, a text that is no pattern, and a
/// pattern that an earlier rule has. `NoMemory` where memory ran out.
pub fn read_settings(alloc: Global, bytes: &[u8]) -> Result<Settings, SetFault>
    // What is read is what the text means, and what is refused is its first refusal.
    ensures read { IfOk result (λ settings. Means bytes.now (Ok (shown settings))) }
    ensures refused { IfErr result (λ fault. ¬ (fault ≡ NoMemory) → Means bytes.now (Err fault)) }

    // Its patterns are text, so that it can be written again.
    ensures utf8 { IfOk result (λ settings. All (λ rule. IsUtf8 rule.pattern) settings.rules) }
{
    let top = table_of(alloc, bytes)?;
    read_table(alloc, &top)
}

/// The table at the top of a text.
fn table_of(alloc: Global, bytes: &[u8]) -> Result<Table, SetFault>
    ensures toml { IfOk result (λ top. IsToml bytes.now (table_view top)) }
    ensures refused { IfErr result (λ fault. ¬ (fault ≡ NoMemory) → (fault ≡ NotToml) × IsNoToml bytes.now) }
{
    match toml::table_from_slice(alloc, bytes) {
        Ok(top) => Ok(top),
        Err(refused) if refused.is_memory() => Err(SetFault::NoMemory),
        Err(_) => Err(SetFault::NotToml),
    }
}

/// The settings of the table at the top.
fn read_table(alloc: Global, top: &Table) -> Result<Settings, SetFault>
    ensures read { Reads shown result (outcome (table_view top.now)) }
    ensures utf8 { IfOk result (λ settings. All (λ rule. IsUtf8 rule.pattern) settings.rules) }
{
    check_top(alloc, top)?;
    let empty = Table::new(alloc);
    let connector = connector_in(alloc, top, &empty)?;
    check_connector(alloc, connector)?;
    check_threads(alloc, connector)?;
    let tables = rule_tables(alloc, top)?;
    let rules = read_rules(alloc, tables)?;
    Ok(settings_in(connector, rules))
}
