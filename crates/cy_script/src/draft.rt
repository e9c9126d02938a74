//! What the lines of a script have said so far.

ghost use Rattle.std.specs.Prelude.{◌≡◌, ◌≤◌, ◌++◌, ◌∷◌, [], ◌==◌, not, length};
ghost use Rattle.cy_script.specs.Answers.{Reads};
ghost use Rattle.cy_script.specs.Conditions.{is_of_a_connection, written_by};
ghost use Rattle.cy_settings.specs.Rules.{is_next_rule};

use crate::fault::ScriptFault;
use crate::script::{Script, Steps};
use crate::settings::with_setting;
use crate::statements::Statement;
use cy_event::{Act, Limits, Step};
use cy_map::{MAX_RULES, Rule, is_pattern};
use cy_settings::{Rules, has_pattern, parts_of};
use std::alloc::Global;
use std::collections::BTreeSet;
use std::marker::Model;

/// The most bytes that the steps of a script write.
const MOST_WRITTEN: u32 = 8192;

/// What lines have said so far, seen as a script.
#[derive(Drop)]
pub(crate) struct Draft {
    limits: Limits,
    rules: Vec<Rule>,
    steps: Vec<Step>,
    /// The numbers of the connections that steps admit.
    admitted: BTreeSet<u64>,
    /// How many bytes the steps write.
    written: u32,
}

impl Model for Draft {
    ghost use Rattle.cy_script.specs.declared.script.Script.{Script};
    ghost use Rattle.cy_script.specs.Drafts.{IsCounted};

    ghost Value = { Script };

    ghost view = { λ d. record { limits = d.limits; rules = d.rules.items; steps = d.steps.items } };

    ghost invariant = { IsCounted };
}

impl Draft {
    ghost use Rattle.cy_script.specs.Reading.{after_statement, before_steps, nothing_said};
    ghost use Rattle.cy_script.specs.Reading.{with_parts, with_step};
    ghost use Rattle.cy_script.specs.Drafts.{IsBounded};
    ghost use Rattle.cy_settings.specs.Rules.{most_part};
    ghost use Rattle.std.specs.Prelude.{if◌then◌else◌, None, Some};

    /// Nothing is said yet.
    pub(crate) fn new(alloc: Global) -> Draft
        ensures { result ≡ nothing_said }
    {
        Draft {
            limits: Limits::standard(0),
            rules: Vec::new(alloc),
            steps: Vec::new(alloc),
            admitted: BTreeSet::new(alloc),
            written: 0,
        }
    }

    /// The script, with the number of its components.
    pub(crate) fn finish(self) -> Script
        ensures { result ≡ with_parts self }
    {
        let parts = parts_of(self.rules.as_slice());
        Script {
            limits: Limits {
                parts,
                ..self.limits
            },
            rules: Rules::of(self.rules),
            steps: Steps::of(self.steps),
        }
    }

    /// Takes what a further line says.
    pub(crate) fn take(&mut self, statement: Statement) -> Result<(), ScriptFault>
        requires { IsBounded statement }
        ensures { Reads (λ _. self.new) result (after_statement self.old statement) }
    {
        match statement {
            Statement::Nothing => Ok(()),
            Statement::Set(setting, value) => self.set_limits(with_setting(
                setting,
                value,
                self.limits,
            )),
            Statement::NoLimit => self.set_limits(Limits {
                max_keep_alive: -1,
                ..self.limits
            }),
            Statement::Rule(rule) => self.add_rule(rule),
            Statement::Step(step) => self.add_step(step),
        }
    }

    fn has_steps(&self) -> bool
        ensures { result ≡ not (length self.now.steps == 0) }
    {
        !self.steps.is_empty()
    }

    /// Takes other limits, where no step stands before.
    fn set_limits(&mut self, limits: Limits) -> Result<(), ScriptFault>
        ensures { Reads (λ _. self.new) result (before_steps self.old (record self.old { limits = limits })) }
    {
        if self.has_steps() {
            return Err(ScriptFault::Refused);
        }
        self.limits = limits;
        Ok(())
    }

    /// Takes the next rule, where no step stands before.
    fn add_rule(&mut self, rule: Rule) -> Result<(), ScriptFault>
        requires { rule.part ≤ most_part }
        ensures { Reads (λ _. self.new) result
            (if is_next_rule self.old.rules rule then before_steps self.old (record self.old { rules = self.old.rules ++ rule ∷ [] }) else None) }
    {
        if self.has_steps() || !is_next_rule(self.rules.as_slice(), &rule) {
            return Err(ScriptFault::Refused);
        }
        self.rules.push(rule)?;
        Ok(())
    }

    /// Takes the next step. No number is admitted twice, and the steps write few enough bytes.
    fn add_step(&mut self, step: Step) -> Result<(), ScriptFault>
        ensures { Reads (λ _. self.new) result (with_step self.old step) }
    {
        let written = written_by(&step);
        if !is_of_a_connection(&step) || written > MOST_WRITTEN - self.written {
            return Err(ScriptFault::Refused);
        }
        self.steps.reserve(1)?;
        if let Step::Admit(conn) = step
            && !self.admitted.insert(conn)?
        {
            return Err(ScriptFault::Refused);
        }
        self.steps.push_reserved(step);
        self.written += written;
        Ok(())
    }
}

/// Whether the pattern is one and stands nowhere before, and there is room for the rule.
fn is_next_rule(rules: &[Rule], rule: &Rule) -> bool
    ensures { result ≡ is_next_rule rules.now rule.now }
{
    let pattern = rule.pattern.as_slice();
    is_pattern(pattern) && !has_pattern(rules, pattern) && rules.len() < MAX_RULES
}

/// Whether a step is of a connection, which has a number of 1 or more. A step of the clock is of
/// none.
fn is_of_a_connection(step: &Step) -> bool
    ensures { result ≡ is_of_a_connection step.now }
{
    match step {
        Step::At(_) => false,
        Step::Admit(conn) | Step::Run(conn) => *conn >= 1,
        Step::On { conn, .. } | Step::Act { conn, .. } => *conn >= 1,
    }
}

/// How many bytes of content a step writes.
fn written_by(step: &Step) -> u32
    ensures { result ≡ written_by step.now }
{
    match step {
        Step::Act {
            act: Act::Write(count),
            ..
        } => *count,
        _ => 0,
    }
}
