//! Laws of settings. Each function is its contract, and does nothing.
ghost use Rattle.std.specs.Prelude.{◌≡◌, ℕ, List, true, pos};
ghost use Rattle.cy_map.specs.declared.rule.Rule.{Rule as RuleValue};
ghost use Rattle.cy_settings.specs.declared.setting.Setting.{Setting as SettingValue};
ghost use Rattle.cy_settings.specs.Laws.{CountsParts, MinusOneIsNoLimit, NumbersAreInRange, SettingsAreTheTable};
ghost use Rattle.cy_settings.specs.Settings.{can_be, default_of};

/// Each setting has the name, the default and the range of the table.
pub fn settings_are_the_table()
    ensures { SettingsAreTheTable }
{}

/// A setting may have just the numbers of its range, and -1 where that is no limit. Its default is one of them.
pub fn values_are_in_range()
    ensures numbers { NumbersAreInRange }
    ensures no_limit { MinusOneIsNoLimit }
    ensures defaults { (setting : SettingValue) → can_be setting (pos (default_of setting)) ≡ true }
{}

/// There is one more component than the greatest number in the rules, and none without rules.
pub fn parts_are_counted()
    ensures { (rules : List RuleValue) → CountsParts rules }
{}
