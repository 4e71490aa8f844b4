//! What is wrong with a line or a row, and which part of it.

ghost use Rattle.std.specs.Prelude.{◌≡◌};
ghost use Rattle.pmp_text.specs.Flaws.{at_line, at_row, part, as_whole};

use crate::fault::{Fault, Place, Source};
use crate::refusal::Refusal;

/// What is wrong with a line of a script or with a row, without its position.
#[derive(Clone, Copy, Debug, PartialEq, Eq)]
pub struct Flaw {
    pub kind: Refusal,
    /// The word of the line, or the field of the row, counted from 0; none for the whole.
    pub part: Option<usize>,
}

impl Refusal {
    /// Returns the flaw of the word or field with this index.
    pub fn part(self, index: usize) -> Flaw
        ensures { result ≡ part index self }
    {
        Flaw {
            kind: self,
            part: Some(index),
        }
    }

    /// Returns the flaw of a line, a row or a text as a whole.
    pub fn whole(self) -> Flaw
        ensures { result ≡ as_whole self }
    {
        Flaw {
            kind: self,
            part: None,
        }
    }
}

impl Flaw {
    /// Returns the fault of the line of a script with this number; 0 is the script as a whole.
    pub(crate) fn at_line(self, line: u64) -> Fault
        ensures { result ≡ at_line line self }
    {
        self.at_row(Source::Script, line)
    }

    /// Returns the fault of the row, or the line, of an input with this number; 0 is the input as a whole.
    pub fn at_row(self, source: Source, number: u64) -> Fault
        ensures { result ≡ at_row source number self }
    {
        Fault {
            refusal: self.kind,
            place: Place::In {
                source,
                number,
                part: self.part,
            },
        }
    }
}
