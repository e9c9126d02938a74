//! Laws of bodies: a function without parameters and without a body has the law as its contract.
ghost use Rattle.cy_bodies.specs.ContentLaws.{EndsAreToldLast, RequestsGetTheirContent};
ghost use Rattle.cy_bodies.specs.Laws.{BytesAreHeldWithin, HeadsFollowWrittenBodies, InputEndsWithin, WrongBodiesClose};

/// What the replies handed over to a request, joined in order, is a prefix of the content of its body: of what came of
/// it, and of the body that is written there.
pub fn requests_get_their_content()
    ensures { RequestsGetTheirContent }
{}

/// The end of the content is told only where the body is whole, and only after all of its content was handed over.
pub fn ends_are_told_last()
    ensures { EndsAreToldLast }
{}

/// At no point are more than 16,384 bytes held beyond those that are consumed.
pub fn bytes_are_held_within()
    ensures { BytesAreHeldWithin }
{}

/// The next head stands where the written body of the request before it ends, whatever was read or passed over,
/// whatever comes later and however the bytes were cut. No byte belongs to two requests.
pub fn heads_follow_written_bodies()
    ensures { HeadsFollowWrittenBodies }
{}

/// A connection closes for the end of its input only where the input has ended: within a body that isn't whole, or where
/// a head is awaited.
pub fn input_ends_within()
    ensures { InputEndsWithin }
{}

/// Once the bytes that came show that a body is bad, or more of it was passed over than may be, there is a cause to close.
pub fn wrong_bodies_close()
    ensures { WrongBodiesClose }
{}
