//! The history of a unit, batch by batch. It takes no bytes, and makes what was seen and what was told comparable.

use logbook::{Gain, Plain, Play, Rule, Seen};
use pmp_core::Event;
use std::collections::LinkedList;

/// A prefix of the history.
pub type History = Seen<LinkedList<Event>, u64, Law>;

/// The book's first word is the length of the history.
pub struct Law;

impl Rule<LinkedList<Event>, u64> for Law {
    ghost use Rattle.std.specs.Prelude.{[]};
    ghost use base.Fml.{ftrue};
    ghost use Rattle.pmp_share.specs.History.{IsCounted};

    ghost holds = { λ cells log. IsCounted cells log };

    ghost first = { [] };

    ghost hinted = { λ n log. Unit {0} };

    ghost shows = { λ log. [] };

    ghost keeps = { λ names log. ftrue };

    ghost moves = { λ ask before after answer. Unit {0} };
}

/// Callers trade nothing.
pub struct Nothing;

impl Gain<LinkedList<Event>, u64> for Nothing {
    ghost use base.Fml.{ftrue};

    ghost after = { λ names about answer. ftrue };
}

/// A step that adds a batch.
pub struct Adds;

impl Play<LinkedList<Event>, u64> for Adds {
    ghost use Rattle.pmp_share.specs.History.{Added};

    ghost then = { Added };
}

impl Plain<Vec<Event>, LinkedList<Event>, u64> for Adds {
    ghost use Rattle.std.specs.Prelude.{None};

    ghost ask = { λ batch. batch.items };

    ghost state = { λ batch. None };
}
