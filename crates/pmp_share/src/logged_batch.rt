//! One operation on the two copies of a version.

use crate::history::History;
use pmp_core::Event;

/// A batch, and the history up to it.
#[derive(Drop)]
pub struct LoggedBatch {
    pub events: Vec<Event>,
    pub history: History,
}
