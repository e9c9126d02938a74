//! Settings of a connector: a TOML text with the names of Tomcat's HTTP connector, read and written.
#![tactic(auto)]

mod fault;
mod laws;
mod members;
mod printing;
mod reading;
mod rules;
mod settings;
mod values;

pub use fault::SetFault;
pub use laws::{
    keys_are_in_any_order, outcome_is_the_first_refusal, settings_are_written,
    texts_have_one_outcome,
};
pub use printing::print_settings;
pub use reading::read_settings;
pub use settings::{Settings, TOLD};

#[cfg(test)]
mod tests;
