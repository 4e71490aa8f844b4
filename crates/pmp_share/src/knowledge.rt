//! What is known about a unit's history.

use pmp_core::{Event, RegFile};
use std::collections::LinkedList;
use std::marker::Model;

/// Whose history it is: a contract sees the book that keeps it, and the initial register file of the unit. No value of
/// it is ever made.
pub struct Unit {
    number: u64,
    log: u64,
    cells: u64,
    base: RegFile,
}

impl Model for Unit {
    ghost use Rattle.pmp_share.specs.Tokens.{UnitId, unit_with};

    ghost Value = { UnitId };

    ghost view = { λ unit.
        unit_with (record { number = unit.number; log_name = unit.log; cells_name = unit.cells }) unit.base };
}

/// A prefix of one history. No value of it is ever made.
pub struct Known {
    pub unit: Unit,
    pub list: LinkedList<LinkedList<Event>>,
}

/// What a reader or the writer knows: nothing yet, or a prefix of its unit's history. No value of it is ever made.
pub type Knowledge = Option<Known>;
