//! A PMP unit that threads share: one publisher reprograms it in whole batches, while checkers decide accesses.
//!
//! A checker decides each access in the register file that published batches give. `start` creates the publisher and
//! checkers of a unit of sixteen entries, `start_of` those of either size, `start_on` those of any hart, and
//! `start_from` those of a unit that begins with saved registers. The definitions that contracts cite are in `specs/`.
#![tactic(auto)]

mod batch;
mod checker;
mod decider;
mod digest;
mod ending;
mod fault;
mod growth;
mod handing;
mod history;
mod journal;
mod knowledge;
pub mod laws;
mod logged_batch;
mod notice;
mod notice_ring;
mod opening;
mod publisher;
mod publisher_guard;
mod question;
mod reader_state;
mod recorder;
mod room;
mod rule;
mod version;
mod version_state;
mod writer_state;

pub use batch::{Batch, BatchFull};
pub use checker::{Checker, Moved};
pub use fault::ShareFault;
pub use journal::Journal;
pub use notice::Notice;
pub use notice_ring::{NoticeReceiver, NoticeSender};
pub use opening::{CHECKERS, start, start_from, start_of, start_on};
pub use publisher::Publisher;
pub use publisher_guard::PublisherGuard;
pub use question::GROUP_ACCESSES;
pub use room::HISTORY_LIMIT;
