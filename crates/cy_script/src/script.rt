//! A script, and the list of its steps.

ghost use Rattle.std.specs.Prelude.{◌≡◌};

use cy_event::{Limits, Step};
use cy_settings::Rules;
use std::marker::Model;

/// The steps of a script, as a list.
#[derive(Debug, Drop)]
pub struct Steps {
    items: Vec<Step>,
}

impl Model for Steps {
    ghost use Rattle.cy_event.specs.declared.steps.Step.{Step};
    ghost use Rattle.std.specs.Prelude.{List};

    ghost Value = { List Step };

    ghost view = { λ s. s.items.items };
}

impl Steps {
    /// These steps. It takes no memory.
    pub fn of(items: Vec<Step>) -> Steps
        ensures { result ≡ items.items }
    {
        Steps { items }
    }

    /// The vector of the steps. It takes no memory.
    pub fn into_vec(self) -> Vec<Step>
        ensures { result.items ≡ self }
    {
        let Steps { items } = self;
        items
    }

    /// The steps, lent.
    pub fn as_slice(&self) -> &[Step]
        ensures { result.now ≡ self.now }
    {
        self.items.as_slice()
    }
}

/// What a script says.
#[derive(Debug, Drop)]
pub struct Script {
    pub limits: Limits,
    pub rules: Rules,
    pub steps: Steps,
}
