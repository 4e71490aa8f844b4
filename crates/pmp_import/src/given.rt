//! The settings for a script made from a log, and the state of reading the log.

ghost use Rattle.std.specs.Prelude.{◌≡◌};
ghost use Rattle.pmp_import.specs.Imported.{beginning, behind_line, behind_reset, behind_said, behind_told};
ghost use Rattle.pmp_import.specs.Imported.{ends, is_of_hart, is_open};

use crate::format::Format;
use crate::said::{Said, Told};
use pmp_core::BATCH_EVENTS;

/// What a script says about the hart, and how it is written.
#[derive(Clone, Copy)]
pub struct Given {
    pub format: Format,
    /// The hart whose registers the script has.
    pub hart: u64,
    pub is_rv32: bool,
    pub entries: u64,
    /// The grain in bytes, if it is given.
    pub grain: Option<u64>,
    /// The number of physical address bits, if it is given.
    pub bits: Option<u64>,
    pub has_smepmp: bool,
    /// Whether writes on consecutive lines make one publication.
    pub bursts: bool,
}

/// The state of a reading, between two lines.
#[derive(Clone, Copy)]
pub struct Walk {
    /// The number of the next line, from 1.
    pub line: u64,
    /// The number of the next reset, from 1.
    pub reset: u64,
    /// The number of writes in the open publication.
    pub pending: u64,
    /// Whether the hart has been used since the last reset.
    pub is_used: bool,
    /// Whether a line reported a write or a value of the hart.
    pub is_found: bool,
    /// The hart whose registers are shown.
    pub shown: u64,
}

impl Given {
    /// Whether a line is about the hart.
    pub fn is_of_hart(self, walk: Walk, told: Told) -> bool
        ensures { result ≡ is_of_hart self walk told }
    {
        told.hart.unwrap_or(walk.shown) == self.hart
    }

    /// Whether a write ends its publication.
    pub fn ends(self, walk: Walk) -> bool
        ensures { result ≡ ends self walk }
    {
        !self.bursts || walk.pending >= BATCH_EVENTS as u64 - 1
    }
}

impl Walk {
    /// The state before the first line.
    pub const BEGINNING: Walk = Walk {
        line: 1,
        reset: 1,
        pending: 0,
        is_used: false,
        is_found: false,
        shown: 0,
    };

    /// Whether a publication has writes and isn't ended.
    pub fn is_open(self) -> bool
        ensures { result ≡ is_open self }
    {
        self.pending > 0
    }

    /// Returns the state after a line that says this.
    pub fn behind(self, given: Given, said: Said) -> Walk
        ensures { result ≡ behind_said given self said }
    {
        match said {
            Said::Register(told) if given.is_of_hart(self, told) => self.behind_told(given, told),
            Said::Reset => self.behind_reset(),
            Said::Hart(hart) => Walk {
                shown: hart,
                ..self.behind_line()
            },
            _ => self.behind_line(),
        }
    }

    /// Returns the state after a line without an event.
    fn behind_line(self) -> Walk
        ensures { result ≡ behind_line self }
    {
        Walk {
            line: self.line.saturating_add(1),
            pending: 0,
            ..self
        }
    }

    /// Returns the state after a line that resets the hart.
    fn behind_reset(self) -> Walk
        ensures { result ≡ behind_reset self }
    {
        let reset = if self.is_used {
            self.reset.saturating_add(1)
        } else {
            self.reset
        };
        Walk {
            is_used: false,
            reset,
            ..self.behind_line()
        }
    }

    /// Returns the state after a line that reports this about the hart.
    fn behind_told(self, given: Given, told: Told) -> Walk
        ensures { result ≡ behind_told given self told }
    {
        let stays_open = told.how.is_write() && !given.ends(self);
        Walk {
            pending: if stays_open { self.pending + 1 } else { 0 },
            is_used: true,
            is_found: self.is_found || !told.how.is_read(),
            ..self.behind_line()
        }
    }
}
