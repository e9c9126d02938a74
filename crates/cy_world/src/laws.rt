//! Laws of the connector: a function without parameters and without a body has the law as its contract.
ghost use Rattle.cy_world.specs.Laws.{CountedNeverExceed, OwnStepsDecide, RecycledSlotsAnswerAsFresh, RepliesAreOwn, SlotsHoldOpenRequests, SlotsStandInNoReply, TenanciesAddUp, TwoSitInTwoSlots, ValidStepsCanBeTaken};

/// What a connection gets hangs on its own entries alone. Its replies, from its admission on, are those to its entries
/// when there is nothing else. And two connectors that stand for two lists of steps, in which it has the same own
/// entries, answered it alike and tell the same of it: its output, how much of it was taken, its cause to close, how many
/// requests there were and have ended, their charts, and its lines of the report. A step of the clock is an entry of each
/// connection, but has no reply of its own.
pub fn own_steps_decide()
    ensures replies { RepliesAreOwn }
    ensures told { OwnStepsDecide }
{}

/// Never more connections are counted than the limit says. An admission is answered `Full` exactly where as many are
/// counted, and `Entered` exactly where fewer are; then there is a place that is held for nobody, and the connection gets
/// into the book.
pub fn counted_never_exceed()
    ensures { CountedNeverExceed }
{}

/// Two connections have two places, and sit in two slots, each in that of its place. Each place that is held is held under the share of its own
/// number, which is out and below the limit, and for a connection that the book has with this place.
pub fn two_sit_in_two_slots()
    ensures { TwoSitInTwoSlots }
{}

/// A connection sits in a slot exactly while a request of it is open, and its line and processor there stand for its
/// trace. A slot in which nobody sits is as one that nobody has used, but for the number of the next tenant; the tenants
/// of each are numbered from 0.
pub fn slots_hold_open_requests()
    ensures { SlotsHoldOpenRequests }
{}

/// The numbers of the tenants add up: in all slots together as many have left as requests have ended and heads were
/// refused, on all connections. So each request, and each refused head, had a slot to itself. It holds while fewer than
/// 2^64 - 1 are done with; a slot is left for a new one when it has had so many.
pub fn tenancies_add_up()
    ensures { TenanciesAddUp }
{}

/// What the condition of `World::step` asks is no more than that the steps are valid, and none of the clock.
pub fn valid_steps_can_be_taken()
    ensures { ValidStepsCanBeTaken }
{}

/// Recycled slots answer as fresh ones. The definitions know of no slot; so two connectors that stand for the same steps
/// answer all further ones alike, whichever places their connections have, and however many tenants their slots had. And
/// where a connection has the same own entries in two connectors, its further steps are answered alike, whether it is the
/// first tenant of its slot or one of many.
pub fn slots_stand_in_no_reply()
    ensures steps { SlotsStandInNoReply }
    ensures recycled { RecycledSlotsAnswerAsFresh }
{}
