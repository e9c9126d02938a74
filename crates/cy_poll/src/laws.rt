//! Laws of the table: a function without parameters and without a body has the law as its contract.
ghost use Rattle.cy_poll.specs.Laws.{EventsGiveWhoWaits, NoEventIsLost, WantMissesNothing, WhatIsKeptIsUntold};

/// Over every list of calls, an event that came for a place of the table is still kept for it, or the place was told of
/// its kind by that call or a later one, or it was forgotten since.
pub fn no_event_is_lost()
    ensures { NoEventIsLost }
{}

/// Over every list of calls, the kinds kept for a place are exactly those of which an event came that the place wasn't
/// told of since, nor was it forgotten; and a place never waits for a kind that is kept for it.
pub fn what_is_kept_is_untold()
    ensures { WhatIsKeptIsUntold }
{}

/// Over every list of calls, a place that asks is told yes exactly where an event of such a kind came before, and it
/// wasn't told of that kind nor forgotten since: none is missed and none is told twice.
pub fn want_misses_nothing()
    ensures { WantMissesNothing }
{}

/// Over every list of calls, events give each place once that waits for one of its events, and no other place.
pub fn events_give_who_waits()
    ensures { EventsGiveWhoWaits }
{}
