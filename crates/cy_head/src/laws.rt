//! Laws of heads. Each function is its contract, and does nothing.

ghost use Rattle.cy_head.specs.HeadGrammar.{FrontsAreShortest, FrontsStay, HeadsAreAwaited, HeadsAreTheGrammar, HeadsStay};

/// The definition of a head is the grammar that `httparse` reads, in both directions, and the front is the shortest
/// prefix that ends in an empty line behind a line that isn't empty.
pub fn heads_are_the_grammar()
    ensures found { HeadsAreTheGrammar }
    ensures awaited { HeadsAreAwaited }
    ensures front { FrontsAreShortest }
{}

/// A front that is found in the first bytes is the front in all of them, and what it is doesn't change either.
pub fn fronts_stay()
    ensures front { FrontsStay }
    ensures head { HeadsStay }
{}
