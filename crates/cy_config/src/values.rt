//! The table `connector`: its keys, and the values of settings.
ghost use Rattle.std.specs.Prelude.{◌≡◌, ◌≤◌, IfOk, OnOk, true, false, option_to_list};
ghost use Rattle.std.specs.List.{filter_map, list_all};
ghost use Rattle.toml.specs.Data.{no_members, get_member};
ghost use Rattle.toml.specs.View.{table_view, view};
ghost use Rattle.cy_settings.specs.declared.setting.Setting.TheVariants.{Limit as OfLimit};
ghost use Rattle.cy_settings.specs.Limits.{limits_of, number};
ghost use Rattle.cy_settings.specs.Rules.{AreRules, has_part};
ghost use Rattle.cy_settings.specs.Settings.{can_be};
ghost use Rattle.cy_config.specs.Members.{connector as connector_key, entries, is_table, is_top_key, keys};
ghost use Rattle.cy_config.specs.Meaning.{AreTaken, core_of, max_of, members_found, refusals_of, refused_key, takes, too_many_threads, unknown_at_top, value_at, values_of};
ghost use Rattle.cy_config.specs.Texts.{Checks, shown};

use crate::fault::SetFault;
use crate::members::{bad_value, bytes_of, in_connector, integer_at, value_at};
use crate::settings::Settings;
use cy_bytes::Bytes;
use cy_map::Rule;
use cy_settings::{Limit, Limits, Rules, Setting, parts_of};
use std::alloc::{AllocError, Global};
use toml::{Table, Value};

/// Refuses a key at the top that is neither `connector` nor `rule`.
pub(crate) fn check_top(alloc: Global, top: &Table) -> Result<(), SetFault>
    ensures { Checks result (filter_map unknown_at_top (keys (table_view top.now))) }
{
    for key in top.keys() {
        if !is_top_key(key.as_str()) {
            let name = bytes_of(alloc, key.as_str())?;
            return Err(SetFault::UnknownKey { name });
        }
    }
    Ok(())
}

fn is_top_key(key: &str) -> bool
    ensures { result ≡ is_top_key key.now }
{
    key == "connector" || key == "rule"
}

/// The table `connector`, or the empty one where it is absent.
pub(crate) fn connector_in<'a>(
    alloc: Global,
    top: &'a Table,
    empty: &'a Table,
) -> Result<&'a Table, SetFault>
    requires { table_view empty.now ≡ no_members }
    ensures refused { Checks result (refusals_of connector_key is_table false (get_member connector_key (table_view top.now))) }
    ensures found { IfOk result (λ table. table_view table.now ≡ members_found (get_member connector_key (table_view top.now))) }
{
    let Some(value) = value_at(top, "connector") else {
        return Ok(empty);
    };
    match value.as_table() {
        Some(table) => Ok(table),
        None => Err(bad_value(alloc, bytes_of(alloc, "connector")?, value)?),
    }
}

/// Refuses a key of the connector that is no setting, or a value that its setting may not have.
pub(crate) fn check_connector(alloc: Global, connector: &Table) -> Result<(), SetFault>
    ensures refused { Checks result (filter_map refused_key (entries (table_view connector.now))) }
    ensures taken { OnOk result (AreTaken (table_view connector.now)) }
{
    for (key, value) in connector.iter() {
        check_key(alloc, key.as_str(), value)?;
    }
    Ok(())
}

fn check_key(alloc: Global, key: &str, value: &Value) -> Result<(), SetFault>
    ensures { Checks result (option_to_list (refused_key (key.now, view value.now))) }
{
    let Some(setting) = Setting::named(key.as_bytes()) else {
        let name = in_connector(alloc, key)?;
        return Err(SetFault::UnknownKey { name });
    };
    if takes(setting, value) {
        return Ok(());
    }
    Err(bad_value(alloc, in_connector(alloc, key)?, value)?)
}

/// Whether the value is a whole number that the setting may have.
fn takes(setting: Setting, value: &Value) -> bool
    ensures { result ≡ takes setting (view value.now) }
{
    match value.as_integer() {
        Some(number) => setting.can_be(number),
        None => false,
    }
}

/// The value of a setting: the one that the connector gives it, or its default.
fn setting_in(connector: &Table, setting: Setting) -> i64
    ensures { result ≡ value_at (table_view connector.now) setting }
{
    match integer_at(connector, setting.name()) {
        Some(value) => value,
        None => i64::from(setting.standard()),
    }
}

/// The value of a setting, where it isn't -1.
fn number_in(connector: &Table, setting: Setting) -> u32
    requires { can_be setting (value_at (table_view connector.now) setting) ≡ true }
    ensures { result ≡ number (value_at (table_view connector.now) setting) }
{
    match u32::try_from(setting_in(connector, setting)) {
        Ok(number) => number,
        Err(_) => 0,
    }
}

/// Refuses more threads that are kept than there are at most.
pub(crate) fn check_threads(alloc: Global, connector: &Table) -> Result<(), SetFault>
    requires { AreTaken (table_view connector.now) }
    ensures refused { Checks result (too_many_threads (table_view connector.now)) }
    ensures ordered { OnOk result (core_of (table_view connector.now) ≤ max_of (table_view connector.now)) }
{
    let core = number_in(connector, Setting::MinSpareThreads);
    if core <= number_in(connector, Setting::MaxThreads) {
        return Ok(());
    }
    let name = in_connector(alloc, Setting::MinSpareThreads.name())?;
    let value = Bytes::of(format!(in alloc; "{core}")?.into_bytes());
    Err(SetFault::BadSetting { name, value })
}

/// The limits that a connector sets, for so many components.
fn limits_in(connector: &Table, parts: u32) -> Limits
    requires { AreTaken (table_view connector.now) }
    ensures { result ≡ limits_of (λ limit. value_at (table_view connector.now) (OfLimit limit)) parts }
{
    let number = |limit| number_in(connector, Setting::Limit(limit));
    Limits {
        max_connections: number(Limit::MaxConnections),
        max_head: number(Limit::MaxHttpHeaderSize),
        max_fields: number(Limit::MaxHeaderCount),
        max_keep_alive: setting_in(connector, Setting::Limit(Limit::MaxKeepAliveRequests)),
        connection_timeout: u64::from(number(Limit::ConnectionTimeout)),
        async_timeout: u64::from(number(Limit::AsyncTimeout)),
        max_swallow: u64::from(number(Limit::MaxSwallowSize)),
        max_trailer: number(Limit::MaxTrailerSize),
        parts,
    }
}

/// The settings that a connector sets, with these rules.
pub(crate) fn settings_in(connector: &Table, rules: Vec<Rule>) -> Settings
    requires taken { AreTaken (table_view connector.now) }
    requires ordered { core_of (table_view connector.now) ≤ max_of (table_view connector.now) }
    requires rules { AreRules rules.items }
    requires parts { list_all has_part rules.items ≡ true }
    ensures shown { shown result ≡ values_of (table_view connector.now) rules.items }
    ensures rules { result.rules ≡ rules.items }
{
    let parts = parts_of(&rules);
    Settings {
        limits: limits_in(connector, parts),
        port: number_in(connector, Setting::Port) as u16,
        core: number_in(connector, Setting::MinSpareThreads),
        max: number_in(connector, Setting::MaxThreads),
        rules: Rules::of(rules),
    }
}
