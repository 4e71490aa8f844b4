//! What a unit has published and pending, of the batches that `worked` has.

ghost use Rattle.std.specs.Prelude.{◌+◌, ◌<◌};

use crate::growths::stop::{Stop, Tried, expect};
use crate::growths::worked::{batch, decision_after, events, file_after, is_journal_of, page_load};
use pmp_share::{Checker, Notice, Publisher};
use std::sync::Wait;

/// Submits the batches of these places.
pub fn submit_all(publisher: &mut Publisher, first: u8, behind: u8) -> Tried {
    for place in first..behind {
        publisher.submit(&batch(place)?)?;
    }
    Ok(())
}

pub fn is_notice_of(notice: &Notice, batches: u8) -> bool {
    notice.len() == events(batches) && notice.file() == file_after(batches)
}

/// A publisher and the one checker of its unit.
pub struct Unit {
    pub publisher: Publisher,
    pub checker: Checker,
}

impl Unit {
    /// The unit has just the first batches published, and so many behind them pending.
    fn stands(&mut self, published: u8, pending: u8) -> Tried {
        let counts = (self.publisher.journal_len(), self.publisher.pending_len());
        expect(
            counts == (events(published), events(pending)),
            "how many events",
        )?;
        expect(is_notice_of(&self.publisher.tell()?, published), "a notice")?;
        let decided = self.checker.decide(&page_load()?);
        expect(
            decided == (decision_after(published), events(published)),
            "a decision",
        )?;
        expect(
            is_journal_of(&self.checker.copy_journal()?, published),
            "the journal",
        )
    }

    /// So it stands, and publishes what is pending.
    pub fn goes_on<R: Wait>(&mut self, rt: &R, published: u8, pending: u8) -> Tried
        requires { published + pending < 256 }
    {
        self.stands(published, pending)?;
        let all = published + pending;
        expect(self.publisher.publish(rt)? == events(all), "publish again")?;
        self.stands(all, 0)
    }
}
