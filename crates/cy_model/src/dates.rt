//! The text of a moment's date is the kit's.
ghost use Rattle.cy_event.specs.DateText.{DatesAreHttpdatesText};

/// The model counts the calendar by itself; that its text is `httpdate`'s, for each moment, is this law.
#[tactic(auto, using(cy_event::proofs::DatesWritten::httpdates_text))]
pub fn dates_are_httpdates_text()
    ensures { DatesAreHttpdatesText }
{}
