//! Settings are checked: they are read, and told in full or refused.
ghost use Rattle.std.specs.Prelude.{◌≡◌, ◌≢◌, ◌++◌, ◌<◌, ◌≤◌, ◌↔◌, Err, IfOk, IsTrue, OnOk};
ghost use Rattle.std.specs.List.{flat_map};
ghost use Rattle.cy_link.specs.Causes.{Rose};
ghost use Rattle.cy_config.specs.Texts.{shown};
ghost use Rattle.cyctl.specs.Causes.{WasRead};
ghost use Rattle.cyctl.specs.Check.{IsCheck, IsChecked, IsCheckedSource, TellsInput, fault_text, told_rule, told_setting, told_text};
ghost use Rattle.cyctl.specs.declared.input.TheConstants.{GREATEST_INPUT};

use crate::input::read_all;
use crate::output::write_all;
use crate::tool::{Refusal, refuse, tell};
use cy_config::{SetFault, Settings, TOLD, read_settings};
use cy_link::{Sink, Source};
use cy_map::Rule;
use cy_settings::Setting;
use std::alloc::{AllocError, Global};

/// Whether the words are `check` alone.
pub fn is_check(words: &Vec<String>) -> bool
    ensures { IsTrue result ↔ IsCheck words.now.items }
{
    match words.as_slice() {
        [word] => word.as_str() == "check",
        _ => false,
    }
}

/// What an input came to, as a text.
#[derive(Debug, Drop)]
pub enum Checked {
    /// Its settings in full.
    Settings(Vec<u8>),
    /// Why it is refused.
    Refused(Vec<u8>),
}

/// Appends a setting, by its name and its value.
fn push_setting(
    alloc: Global,
    out: &mut Vec<u8>,
    settings: &Settings,
    setting: Setting,
) -> Result<(), AllocError>
    ensures { OnOk result (out.new.items ≡ out.old.items ++ told_setting (shown settings.now) setting) }
{
    let value = format!(in alloc; "{}", settings.value(setting))?;
    out.extend_from_slice(setting.name().as_bytes())?;
    out.extend_from_slice(b" ")?;
    out.extend_from_slice(value.as_bytes())?;
    out.extend_from_slice(b"\n")?;
    Ok(())
}

/// Appends a rule.
fn push_rule(alloc: Global, out: &mut Vec<u8>, rule: &Rule) -> Result<(), AllocError>
    ensures { OnOk result (out.new.items ≡ out.old.items ++ told_rule rule.now) }
{
    let part = format!(in alloc; "{}", rule.part)?;
    let mode: &[u8] = if rule.can_async { b"async" } else { b"sync" };
    out.extend_from_slice(b"rule ")?;
    out.extend_from_slice(rule.pattern.as_slice())?;
    out.extend_from_slice(b" ")?;
    out.extend_from_slice(part.as_bytes())?;
    out.extend_from_slice(b" ")?;
    out.extend_from_slice(mode)?;
    out.extend_from_slice(b"\n")?;
    Ok(())
}

/// Settings in full: all but the port, and then the rules.
fn settings_text(alloc: Global, settings: &Settings) -> Result<Vec<u8>, AllocError>
    ensures { IfOk result (λ text. text.items ≡ told_text (shown settings.now)) }
{
    let mut out = Vec::new(alloc);
    push_settings(alloc, &mut out, settings, &TOLD)?;
    push_rules(alloc, &mut out, settings.rules.as_slice())?;
    Ok(out)
}

fn push_settings(
    alloc: Global,
    out: &mut Vec<u8>,
    settings: &Settings,
    told: &[Setting],
) -> Result<(), AllocError>
    ensures { OnOk result (out.new.items ≡ out.old.items ++ flat_map (told_setting (shown settings.now)) told.now) }
{
    for setting in told {
        push_setting(alloc, out, settings, *setting)?;
    }
    Ok(())
}

fn push_rules(alloc: Global, out: &mut Vec<u8>, rules: &[Rule]) -> Result<(), AllocError>
    ensures { OnOk result (out.new.items ≡ out.old.items ++ flat_map told_rule rules.now) }
{
    for rule in rules {
        push_rule(alloc, out, rule)?;
    }
    Ok(())
}

/// Why settings are refused, as a line.
fn fault_text(alloc: Global, fault: &SetFault) -> Result<Vec<u8>, AllocError>
    ensures { IfOk result (λ text. text.items ≡ fault_text fault.now) }
{
    match fault {
        SetFault::NotToml => Vec::from_slice(alloc, b"refused: not toml\n"),
        SetFault::UnknownKey { name } => {
            let mut text = Vec::from_slice(alloc, b"refused: unknown key ")?;
            text.extend_from_slice(name.as_slice())?;
            text.extend_from_slice(b"\n")?;
            Ok(text)
        }
        SetFault::BadSetting { name, value } => {
            let mut text = Vec::from_slice(alloc, b"refused: bad setting ")?;
            text.extend_from_slice(name.as_slice())?;
            text.extend_from_slice(b" ")?;
            text.extend_from_slice(value.as_slice())?;
            text.extend_from_slice(b"\n")?;
            Ok(text)
        }
        SetFault::NoMemory => Vec::from_slice(alloc, b"no memory\n"),
    }
}

/// What an input comes to.
fn check_input(alloc: Global, input: &[u8]) -> Result<Checked, AllocError>
    ensures { IfOk result (TellsInput input.now) }
{
    match read_settings(alloc, input) {
        Ok(settings) => Ok(Checked::Settings(settings_text(alloc, &settings)?)),
        Err(SetFault::NoMemory) => Err(AllocError),
        Err(fault) => Ok(Checked::Refused(fault_text(alloc, &fault)?)),
    }
}

/// What the input comes to that the source has left.
fn check_source<S: Source>(alloc: Global, source: &mut S) -> Result<Checked, Refusal>
    ensures checked { IfOk result (IsCheckedSource (S.left source.old) (S.left source.new)) }
    ensures script { result ≢ Err Refusal.Script }
    ensures failed { result ≡ Err Refusal.Source → Rose (S.faults source.old) (S.faults source.new) }
    ensures too_large { result ≡ Err Refusal.TooLarge → WasRead (λ n. GREATEST_INPUT < n) (S.left source.old) (S.left source.new) }
    ensures not_too_large { result ≢ Err Refusal.TooLarge → WasRead (λ n. n ≤ GREATEST_INPUT) (S.left source.old) (S.left source.new) }
{
    let input = read_all(alloc, source)?;
    Ok(check_input(alloc, &input)?)
}

/// Checks the settings that the source has: they are written in full, or why they are refused. The answer is the status.
pub fn check<S: Source, K: Sink>(alloc: Global, source: &mut S, sink: &mut K) -> u8
    ensures { IsChecked (S.left source.old) (S.left source.new) (K.held sink.old) (K.held sink.new)
        (S.faults source.old) (S.faults source.new) (K.faults sink.old) (K.faults sink.new) result }
{
    match check_source(alloc, source) {
        Ok(Checked::Settings(text)) => match write_all(sink, &text) {
            Ok(()) => 0,
            Err(_) => 5,
        },
        Ok(Checked::Refused(text)) => {
            tell(sink, &text);
            3
        }
        Err(refusal) => refuse(sink, refusal),
    }
}

#[cfg(test)]
mod tests;
