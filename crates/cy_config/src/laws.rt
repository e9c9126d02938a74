//! Laws of settings. Each function is its contract, and does nothing.
ghost use Rattle.std.specs.Prelude.{◌≡◌, ◌≤◌, ◌↔◌, ℕ, List, Result, Ok};
ghost use Rattle.toml.specs.Data.{Members};
ghost use Rattle.cy_settings.specs.Settings.{settings};
ghost use Rattle.cy_config.specs.declared.fault.SetFault.{SetFault as Refusal};
ghost use Rattle.cy_config.specs.Meaning.{Values, outcome, unless};
ghost use Rattle.cy_config.specs.Printing.{AreSettings, at_default_port, members_with, printed};
ghost use Rattle.cy_config.specs.Refusals.{HoldTheSame, refusals, settings_in};
ghost use Rattle.cy_config.specs.Texts.{IsToml, Means};

/// The outcome of a text is the first of its refusals, in the stated order; where there is none, the settings have the
/// values that stand at their keys, or their defaults.
pub fn outcome_is_the_first_refusal()
    ensures { (top : Members) → outcome top ≡ unless (refusals top) (Ok (settings_in top)) }
{}

/// A text that is TOML means just the outcome of its members.
pub fn texts_have_one_outcome()
    ensures { (text : List ℕ) (top : Members) (answer : Result Values Refusal) → IsToml text top →
        Means text answer ↔ (answer ≡ outcome top) }
{}

/// The order in which keys stand in a text changes no outcome: tables that hold the same at each key have the same.
pub fn keys_are_in_any_order()
    ensures { (one other : Members) → HoldTheSame one other → outcome one ≡ outcome other }
{}

/// What settings are written as is read as them, with the default port; and with the port written too all settings are
/// the outcome of some members.
pub fn settings_are_written()
    ensures printed { (values : Values) → AreSettings values → outcome (printed values) ≡ Ok (at_default_port values) }
    ensures each { (values : Values) → AreSettings values → values.port ≤ 65535 → outcome (members_with settings values) ≡ Ok values }
{}
