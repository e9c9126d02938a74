//! Laws of the program's definitions: a function without parameters and without a body has the law as its contract.
ghost use Rattle.cyctl.specs.Tool.{ReadStepsAreValid};

/// The steps of a script that is read are a valid list: moments never fall, a number is admitted once, and the bytes
/// that an act counts stand beside it.
pub fn read_steps_are_valid()
    ensures { ReadStepsAreValid }
{}
