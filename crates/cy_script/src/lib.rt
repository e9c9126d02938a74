//! Scripts: a text of lines, read as the limits, the rules and the steps of a connector.
#![tactic(auto)]

mod draft;
mod fault;
mod fields;
mod laws;
mod reading;
mod script;
mod settings;
mod statements;

pub use cy_settings::Rules;
pub use fault::ScriptFault;
pub use laws::{example_is_read, reading_is_spelling, scripts_are_within_the_form};
pub use reading::read_script;
pub use script::{Script, Steps};

#[cfg(test)]
mod tests;
