//! A handle that waits only for the end of a publisher.

ghost use Rattle.std.specs.Prelude.{◌≡◌};

use crate::journal::Journal;
use crate::publisher::Publisher;
use std::sync::Wait;

#[derive(Drop)]
pub struct Ending<R: Wait + Drop> {
    rt: R,
}

impl<R: Wait + Drop> Ending<R> {
    pub fn new(rt: R) -> Ending<R> {
        Ending { rt }
    }

    /// Ends the publisher, and returns what was published before.
    pub fn end(self, publisher: Publisher) -> Journal
        ensures { result ≡ publisher.published }
    {
        publisher.into_journal(&self.rt)
    }
}
