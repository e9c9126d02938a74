//! Laws of bodies: a function without parameters and without a body has the law as its contract.
ghost use Rattle.cy_in.specs.Continuations.{BadExactlyWhereNothingGoesOn, NoMoreContentStands, PartialBodiesGoOn, TheFirstBadByteDecides};
ghost use Rattle.cy_in.specs.Courses.{EveryCourseDelivers};
ghost use Rattle.cy_in.specs.GrammarLaws.{BadBodiesHaveNoContinuation, OneBodyStandsInFront, PartialContentStays, WholeBodiesAreWritten, WrittenBodiesAreWhole};
ghost use Rattle.cy_in.specs.Laws.{BodiesStay, ContentIsGivenInOrder, PiecesAreTheWhole, ReadsTakeTheFewest, ReadyTellsReads};

/// Scanning piece by piece is scanning at once, wherever the bytes are cut.
pub fn pieces_are_the_whole()
    ensures { PiecesAreTheWhole }
{}

/// What is whole or bad stays so, and no byte behind it changes it.
pub fn bodies_stay()
    ensures { BodiesStay }
{}

/// A read gives the first bytes of the content that waits, and the mark moves over the fewest bytes that hold them.
pub fn content_is_given_in_order()
    ensures { ContentIsGivenInOrder }
{}

/// What is written as a body is read as this body, whatever stands behind it.
pub fn written_bodies_are_whole()
    ensures { WrittenBodiesAreWhole }
{}

/// What is bad begins no body, however it goes on.
pub fn bad_bodies_have_no_continuation()
    ensures { BadBodiesHaveNoContinuation }
{}

/// A part of a body becomes a written body by some bytes behind it.
pub fn partial_bodies_go_on()
    ensures { PartialBodiesGoOn }
{}

/// Bytes are bad exactly where they don't go on to a written body.
pub fn bad_exactly_where_nothing_goes_on()
    ensures { BadExactlyWhereNothingGoesOn }
{}

/// The first byte behind which nothing goes on makes a body bad, and the trailers are too large exactly where a greater
/// limit would let it go on.
pub fn the_first_bad_byte_decides()
    ensures { TheFirstBadByteDecides }
{}

/// The content of a part of a body stands first in every body that goes on so.
pub fn partial_content_stays()
    ensures { PartialContentStays }
{}

/// No byte more of content stands in every body that the bytes go on to.
pub fn no_more_content_stands()
    ensures { NoMoreContentStands }
{}

/// At most one body stands at the front of the bytes, so that none of them belongs to two requests.
pub fn one_body_stands_in_front()
    ensures { OneBodyStandsInFront }
{}

/// What is read as a whole body is written as one.
pub fn whole_bodies_are_written()
    ensures { WholeBodiesAreWritten }
{}

/// Where content waits a read takes the fewest bytes that hold what it gives.
pub fn reads_take_the_fewest()
    ensures { ReadsTakeTheFewest }
{}

/// A body is ready exactly where a read of one byte would answer something other than `Again`.
pub fn ready_tells_reads()
    ensures { ReadyTellsReads }
{}

/// Over every list of calls the content that is delivered is a prefix of the body's, in order, and no byte behind the
/// body is taken. While nothing was swallowed the bytes taken hold just that content, and until they are the whole body
/// no fewer hold as much.
pub fn every_course_delivers()
    ensures { EveryCourseDelivers }
{}
