//! The recorder: it alone may add to the history of a unit.

ghost use Rattle.std.specs.Prelude.{◌≡◌, [], ◌∷◌, ◌++◌, MatchBool};

use crate::history::{Adds, History, Law, Nothing};
use logbook::{Offer, Seen, Start, Word};
use pmp_core::Event;
use std::collections::LinkedList;
use std::marker::Model;

/// The whole history of a unit, and the right to add to it.
#[derive(Drop)]
pub struct Recorder {
    count: u64,
    head: Word<LinkedList<Event>, u64, Law>,
    history: History,
}

impl Model for Recorder {
    ghost use Rattle.std.specs.Prelude.{◌≡◌, length};
    ghost use Rattle.pmp_share.specs.History.{Noted, head_of};

    ghost Value = { Noted };

    ghost view = { λ recorder. record { book = recorder.history.book; list = recorder.history.log } };

    ghost invariant = { λ recorder. (recorder.count ≡ length recorder.history.log)
        × (recorder.head ≡ head_of recorder.history.book) };
}

impl Recorder {
    /// Returns the recorder of a new history, without batches.
    pub fn open() -> Recorder
        ensures { result.list ≡ [] }
    {
        let (history, mut first, _second) = Seen::open(Start::alone(), 0, 0);
        Recorder {
            count: 0,
            head: Word::tracked(0, &mut first),
            history,
        }
    }

    /// Returns what is in the history.
    pub fn history(&self) -> History
        ensures { (result.book ≡ self.now.book) × (result.log ≡ self.now.list) }
    {
        self.history.again()
    }

    /// Adds a batch, and returns whether it did. Nobody else adds, so it always does, which no type shows.
    pub fn add(&mut self, batch: &Vec<Event>) -> bool
        ensures book { self.new.book ≡ self.old.book }
        ensures added { MatchBool result (self.new.list ≡ self.old.list ++ batch.now.items ∷ [])
            (self.new.list ≡ self.old.list) }
    {
        let count = self.count;
        let Some(next) = count.checked_add(1) else {
            return false;
        };
        let mut history = self.history.again();
        let mut offer: Offer<LinkedList<Event>, u64, Law, Nothing> = history.plain::<
            Nothing,
            Vec<Event>,
            Adds,
        >(batch);
        let mut pen = history.no_pen();
        let found = self
            .head
            .compare_exchange::<Adds, Nothing>(count, next, &mut history, &mut offer, &mut pen);
        if found != count {
            return false;
        }
        self.count = next;
        self.history = history;
        true
    }
}
