//! Laws of what each mark changes, and what follows: a function without parameters and without a body has the law as its contract.
ghost use Rattle.cy_rows.specs.Laws.{AnswerMarks, CallbackMarks, ConnectionMarks, ListenerMarks, NotFoundEndsAsAny, OutputIsSentInOrder, RequestMarks};

/// What the socket told, and why the connection closes, changes these and nothing else.
pub fn connection_marks()
    ensures { ConnectionMarks }
{}

/// A begin leaves what is kept of the connection and makes all that is kept of a request anew; a refused head makes
/// anew what a begin makes, but for what is kept of the body before it.
pub fn request_marks()
    ensures { RequestMarks }
{}

/// A call of the state table, and a callback that begins, waits or is over, changes these and nothing else.
pub fn callback_marks()
    ensures { CallbackMarks }
{}

/// What is read, and who is to hear of what, changes these and nothing else.
pub fn listener_marks()
    ensures { ListenerMarks }
{}

/// What is put into an answer changes these and nothing else.
pub fn answer_marks()
    ensures { AnswerMarks }
{}

/// What waits for the socket is all output without the bytes that it took, and nothing once the connection is broken.
pub fn output_is_sent_in_order()
    ensures { OutputIsSentInOrder }
{}

/// A request that no rule serves is answered 404 and ends as any other does: its connection closes behind the answer just
/// where that says so.
pub fn not_found_ends_as_any()
    ensures { NotFoundEndsAsAny }
{}
