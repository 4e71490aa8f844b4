//! Notices: how a publisher informs checkers.

ghost use Rattle.std.specs.Prelude.{◌≡◌};
ghost use Rattle.pmp_share.specs.Batches.{event_count};
ghost use Rattle.pmp_share.specs.Known.{file_of};

use crate::decider::Decider;
use crate::reader_state::ReaderState;
use pmp_core::RegFile;
use std::marker::Model;

/// What was published when the notice was made. A contract sees the batches, and which unit they belong to. It can be
/// sent to any thread.
#[derive(Drop)]
pub struct Notice {
    state: ReaderState,
}

impl Model for Notice {
    ghost use Rattle.pmp_share.specs.declared.knowledge.Known.{Known};

    ghost Value = { Known };

    ghost view = { λ notice. notice.state };
}

impl Notice {
    /// Returns the notice of what this state knows.
    pub(crate) fn new(state: ReaderState) -> Notice
        ensures { result ≡ state }
    {
        Notice { state }
    }

    /// Returns the reader state of the notice, with its place.
    pub(crate) fn into_state(self) -> ReaderState
        ensures { result ≡ self }
    {
        self.state
    }

    /// Returns how many events it reports.
    pub fn len(&self) -> u64
        ensures { result ≡ event_count self.now.list }
    {
        self.state.digest().events()
    }

    /// Returns the register file that these events give.
    pub fn file(&self) -> RegFile
        ensures { result ≡ file_of self.now }
    {
        self.state.digest().file()
    }
}
