//! Content out of the raw bytes behind a head: by a length or in chunks, however the bytes were cut. What nobody reads
//! is swallowed, and never taken for the next head.
#![tactic(auto)]

mod body_in;
mod fault;
mod laws;
mod marks;
mod stages;

pub use body_in::BodyIn;
pub use cy_event::Framing;
pub use fault::{BodyFault, Scan};
pub use laws::{
    bad_bodies_have_no_continuation, bad_exactly_where_nothing_goes_on, bodies_stay,
    content_is_given_in_order, every_course_delivers, no_more_content_stands,
    one_body_stands_in_front, partial_bodies_go_on, partial_content_stays, pieces_are_the_whole,
    reads_take_the_fewest, ready_tells_reads, the_first_bad_byte_decides, whole_bodies_are_written,
    written_bodies_are_whole,
};
pub use marks::GREATEST_RAW;
