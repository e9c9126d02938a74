//! The Date field's text.
ghost use Rattle.std.specs.Prelude.{◌≡◌, ◌≤◌};
ghost use Rattle.cy_event.specs.Dates.{date_at};
ghost use Rattle.cy_event.specs.declared.limits.TheConstants.{GREATEST_MOMENT};

use httpdate::HttpDate;

/// The Date field's value for a moment, in milliseconds since 1970-01-01 00:00 UTC (RFC 9110, section 6.6.1).
#[tactic(auto, using(cy_event::proofs::DatesWritten::httpdates_text))]
pub fn date_of(at: u64) -> [u8; 29]
    requires { at ≤ GREATEST_MOMENT }
    ensures { result ≡ date_at at }
{
    match HttpDate::from_unix_secs(at / 1000) {
        Ok(date) => date.to_bytes(),
        // The year 10000 begins a millisecond after the last moment.
        Err(_) => unreachable!(),
    }
}
