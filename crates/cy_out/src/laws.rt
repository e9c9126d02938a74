//! Laws of answers: a function without parameters and without a body has the law as its contract.
ghost use Rattle.cy_out.specs.Laws.{AbortedGainsNothing, AllCallsAreRead, AllCallsFindRoom, AllCallsFrameAlike, AllCallsGoByTheLength, AllCallsKeepTheHead, AllCallsMakeOneAnswer, AllCallsWriteWhatIsCut, AnswersAreWhole, BeginningsFindRoom, ClientsReadTheContent, ClosesAreSaid, FinishesFindRoom, HeadIsFramedAsGet, HeadsSayTheMode, NoContentIsUnframed, PiecesAreTheContent, PiecesEndAtCuts, PiecesFollowTheHead, PiecesHaveBytes, RequestsAreKept, UncutAnswersAreOneText, WritesFillTheBuffer, WritesTakeTheMost};

/// A write takes the most bytes with which each new cut finds room.
#[tactic(auto, using(crate::proofs::LawLemmas::writes_take_the_most))]
pub fn writes_take_the_most()
    ensures { WritesTakeTheMost }
{}

/// Answers of the statuses 204 and 304 have neither Content-Length nor Transfer-Encoding.
#[tactic(auto, using(crate::proofs::LawLemmas::no_content_is_unframed))]
pub fn no_content_is_unframed()
    ensures { NoContentIsUnframed }
{}

/// Where an answer is given up, nothing more is written for it, whatever is called then.
#[tactic(auto, using(crate::proofs::CallsOneAnswer::aborted_gains_nothing))]
pub fn aborted_gains_nothing()
    ensures { AbortedGainsNothing }
{}

/// The pieces, one after another, are the content that was put.
#[tactic(auto, using(crate::proofs::PieceLemmas::pieces_are_the_content))]
pub fn pieces_are_the_content()
    ensures { PiecesAreTheContent }
{}

/// Each piece has 1 to 8,192 bytes.
#[tactic(auto, using(crate::proofs::PieceLemmas::pieces_have_bytes))]
pub fn pieces_have_bytes()
    ensures { PiecesHaveBytes }
{}

/// The pieces end at flushes, at the end of the content, and where 8,192 bytes waited and a further byte was put.
pub fn pieces_end_at_cuts()
    ensures { PiecesEndAtCuts }
{}

/// Behind a head that is out the pieces follow, and what ends the content.
#[tactic(auto, using(crate::proofs::ContentSent::pieces_follow_the_head))]
pub fn pieces_follow_the_head()
    ensures { PiecesFollowTheHead }
{}

/// An answer of which nothing is out becomes a head and its content in pieces, whatever is written and flushed.
#[tactic(auto, using(crate::proofs::WholeAnswers::answers_are_whole))]
pub fn answers_are_whole()
    ensures { AnswersAreWhole }
{}

/// Whatever is called from the beginning of a request to its end, one answer is written, or a front of one that was
/// given up.
pub fn all_calls_make_one_answer()
    ensures { AllCallsMakeOneAnswer }
{}

/// After any calls a write, a new length and the end go by the length that was set last, and by what was put since the
/// last reset or error.
pub fn all_calls_go_by_the_length()
    ensures { AllCallsGoByTheLength }
{}

/// After any calls, from the first cut on, the head is written and what was cut of the content, and no more.
pub fn all_calls_write_what_is_cut()
    ensures { AllCallsWriteWhatIsCut }
{}

/// No call changes what is known of the request but `set_close`, and that only before the head is out.
pub fn requests_are_kept()
    ensures { RequestsAreKept }
{}

/// Where nothing is cut before the end, the answer's own words say the bytes: its head with a length, and its content.
#[tactic(auto, using(crate::proofs::UncutAnswers::uncut_answers_are_one_text))]
pub fn uncut_answers_are_one_text()
    ensures { UncutAnswersAreOneText }
{}

/// Where no cut finds room, a write takes what the buffer has room for.
#[tactic(auto, using(crate::proofs::UncutAnswers::writes_fill_the_buffer))]
pub fn writes_fill_the_buffer()
    ensures { WritesFillTheBuffer }
{}

/// Where the same is written and flushed, a HEAD gets the fields that frame content which a GET would get, and the same
/// Date.
pub fn head_is_framed_as_get()
    ensures { HeadIsFramedAsGet }
{}

/// Whatever is called, a HEAD gets the head that a GET would get, of the same moment, but for what it says of the
/// connection.
pub fn all_calls_frame_alike()
    ensures { AllCallsFrameAlike }
{}

/// Where all of a length that was set was put, a client reads what was put, and nothing else.
#[tactic(auto, using(crate::proofs::ClientReading::clients_read_the_content))]
pub fn clients_read_the_content()
    ensures { ClientsReadTheContent }
{}

/// So it is after any calls: a client reads what was put since the last reset or error, and nothing else.
pub fn all_calls_are_read()
    ensures { AllCallsAreRead }
{}

/// A client that goes by the head reads in the mode in which the content is sent.
#[tactic(auto, using(crate::proofs::LawLemmas::heads_say_the_mode))]
pub fn heads_say_the_mode()
    ensures { HeadsSayTheMode }
{}

/// An end tells that the connection closes where the head says so, and nowhere else.
#[tactic(auto, using(crate::proofs::LawLemmas::closes_are_said))]
pub fn closes_are_said()
    ensures { ClosesAreSaid }
{}

/// An answer that can be finished where it begins can be finished after any writes and flushes, and its end fits.
pub fn finishes_find_room()
    ensures { FinishesFindRoom }
{}

/// An answer can be finished where it begins, if at most 16,000 bytes and what tells the client to go on wait for it.
#[tactic(auto, using(crate::proofs::RoomKept::beginnings_find_room))]
pub fn beginnings_find_room()
    ensures { BeginningsFindRoom }
{}

/// So an answer that begins there can be finished after any calls, and its end fits.
pub fn all_calls_find_room()
    ensures { AllCallsFindRoom }
{}

/// After any calls the head has a status and fields that a component may set, and its first empty line is its end.
pub fn all_calls_keep_the_head()
    ensures { AllCallsKeepTheHead }
{}
