//! Laws of the texts: a function without parameters and without a body has the law as its contract.
ghost use Rattle.cy_tape.specs.Laws.{NumberedChartsAreTheReport};

/// Where the charts are those of the requests 1, 2 and so on, in this order, the lines of a connection are those that
/// the report has of it.
pub fn numbered_charts_are_the_report()
    ensures { NumberedChartsAreTheReport }
{}
