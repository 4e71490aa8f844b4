//! How much one unit can hold.

ghost use Rattle.std.specs.Prelude.{◌≡◌, ◌+◌, nat_le};
ghost use Rattle.pmp_share.specs.declared.room.TheConstants.{HISTORY_LIMIT};
ghost use Rattle.pmp_share.specs.Room.{has_room};

use crate::journal::Journal;
use pmp_core::Event;

/// The greatest number of events of one unit, published and pending together, and its greatest number of batches.
pub const HISTORY_LIMIT: usize = 1 << 20;

/// Whether `more` further ones stay within the limit, computed without a sum that could overflow.
fn is_within(published: usize, pending: usize, more: usize) -> bool
    ensures { result ≡ nat_le (published + pending + more) HISTORY_LIMIT }
{
    published <= HISTORY_LIMIT
        && pending <= HISTORY_LIMIT - published
        && more <= HISTORY_LIMIT - published - pending
}

/// Whether there is room for the batch after the published and the pending ones.
pub fn has_room(published: &Journal, pending: &Journal, batch: &[Event]) -> bool
    ensures { result ≡ has_room published.now pending.now batch.now }
{
    is_within(
        published.events().len(),
        pending.events().len(),
        batch.len(),
    ) && is_within(published.batches(), pending.batches(), 1)
}
