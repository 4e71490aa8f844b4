//! A publisher that ends itself, so that a closure can take it to another thread.

ghost use Rattle.std.specs.Prelude.{◌≡◌};

use crate::ending::Ending;
use crate::publisher::Publisher;
use std::marker::Model;
use std::sync::Wait;

/// A publisher that is ended when the guard is dropped, which may wait for checkers. A closure may hold it, and so take
/// it to a thread: what a closure holds may be dropped. A contract sees the publisher. The end publishes nothing: what
/// is pending is lost.
pub struct PublisherGuard<R: Wait + Drop> {
    ending: Ending<R>,
    publisher: Publisher,
}

impl<R: Wait + Drop> Model for PublisherGuard<R> {
    ghost use Rattle.pmp_share.specs.Tokens.{PublisherToken};

    ghost Value = { PublisherToken };

    ghost view = { λ guard. guard.publisher };
}

impl<R: Wait + Drop> PublisherGuard<R> {
    /// Takes ownership of the publisher.
    pub fn new(rt: R, publisher: Publisher) -> PublisherGuard<R>
        ensures { result ≡ publisher }
    {
        PublisherGuard {
            ending: Ending::new(rt),
            publisher,
        }
    }

    /// Returns the publisher without ending it.
    pub fn into_publisher(self) -> Publisher
        ensures { result ≡ self }
    {
        let PublisherGuard {
            ending: _ending,
            publisher,
        } = self;
        publisher
    }
}

/// It has no handle with which it could publish.
impl<R: Wait + Drop> Drop for PublisherGuard<R> {
    fn drop(self) {
        let PublisherGuard { ending, publisher } = self;
        ending.end(publisher);
    }
}
