//! What holds for every connection of a connector.

use cy_event::Limits;
use cy_map::Mapper;

/// The limits of the connections, and which component serves which path.
#[derive(Drop)]
pub struct Terms {
    pub limits: Limits,
    pub rules: Mapper,
}
