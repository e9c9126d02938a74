//! Laws of scripts. Each function is its contract, and does nothing.

ghost use Rattle.std.specs.Prelude.{◌≡◌, ℕ, ◌↔◌, List, Some};
ghost use Rattle.cy_script.specs.declared.script.Script.{Script as ScriptValue};
ghost use Rattle.cy_script.specs.Example.{example, example_text};
ghost use Rattle.cy_script.specs.Kept.{IsScript};
ghost use Rattle.cy_script.specs.Reading.{script_of};
ghost use Rattle.cy_script.specs.Spelling.{IsScriptText};

/// A text is read as a script exactly where it is that script.
pub fn reading_is_spelling()
    ensures { (text : List ℕ) (script : ScriptValue) →
        IsScriptText text script ↔ (script_of text ≡ Some script) }
{}

/// A script that is read is within what a text of the form may say.
pub fn scripts_are_within_the_form()
    ensures { (text : List ℕ) (script : ScriptValue) → script_of text ≡ Some script → IsScript script }
{}

/// A script that serves one short answer is read as its limits, its rule and its steps.
pub fn example_is_read()
    ensures { script_of example_text ≡ Some example }
{}
