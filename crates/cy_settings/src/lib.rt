//! What a connector is set to: the names, the defaults and the ranges of its settings, and lists of mapping rules. They
//! stand here once, for scripts and for files of settings.
#![tactic(auto)]

mod laws;
mod limit;
mod limits;
mod rules;
mod setting;

pub use laws::{parts_are_counted, settings_are_the_table, values_are_in_range};
pub use limit::{LIMITS, Limit};
pub use limits::Limits;
pub use rules::{GREATEST_PART, Rules, has_pattern, parts_of};
pub use setting::{SETTINGS, Setting};

#[cfg(test)]
mod tests;
