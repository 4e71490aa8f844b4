//! What two copies of a version have in common.

use crate::knowledge::Unit;
use pmp_core::Event;
use std::collections::LinkedList;

/// The batches of a version, its unit, and its part of the unit's history. No value of it is ever made.
pub struct VersionState {
    pub unit: Unit,
    pub batches: LinkedList<LinkedList<Event>>,
    pub log: LinkedList<LinkedList<Event>>,
}
