//! Laws of the definitions: a function without parameters and without a body has the law as its contract.
ghost use Rattle.cy_framing.specs.Laws.{BothFieldsAreRefused, LinesAreJoinedByCommas, LinesMayBeSplit};

/// The elements of a list field are those of one line that has the values of all lines, joined by commas.
pub fn lines_are_joined_by_commas()
    ensures { LinesAreJoinedByCommas }
{}

/// A line of a list field may be split at a comma, and two lines after each other may be joined by one.
pub fn lines_may_be_split()
    ensures { LinesMayBeSplit }
{}

/// A head with both a Content-Length and a Transfer-Encoding is refused, whatever their case, their order, their
/// number and their values.
pub fn both_fields_are_refused()
    ensures { BothFieldsAreRefused }
{}
