//! Faults: why there is no answer, and where the reason is.

ghost use Rattle.std.specs.Prelude.{◌≡◌, Some};
ghost use Rattle.pmp_text.specs.FaultPlaces.{fault_on, named_side, number_in, place_on, somewhere};
ghost use Rattle.pmp_text.specs.FaultTexts.{fault_text, is_named_whole, part_text, place_text, source_text};
ghost use Rattle.pmp_text.specs.Outcomes.{no_memory, no_output};

use crate::output::OutputFault;
use crate::refusal::Refusal;
use std::alloc::{AllocError, AllocFailed};
use std::fmt;

/// An input of the program.
#[derive(Clone, Copy, Debug, PartialEq, Eq)]
pub enum Source {
    Script,
    /// The old one of two scripts.
    Old,
    /// The new one of two scripts.
    New,
    Trace,
    Policy,
    /// The names of addresses.
    Names,
    Plan,
    /// The log of an import.
    Log,
}

impl Source {
    /// Returns the script as this one of two, and any other input unchanged.
    fn on(self, side: Source) -> Source
        ensures { result ≡ named_side side self }
    {
        match self {
            Source::Script => side,
            source => source,
        }
    }

    /// Returns its name in messages.
    fn name(self) -> &'static str
        ensures { result.now ≡ source_text self }
    {
        match self {
            Source::Script => "script",
            Source::Old => "old",
            Source::New => "new",
            Source::Trace => "trace",
            Source::Policy => "policy",
            Source::Names => "names",
            Source::Plan => "plan",
            Source::Log => "log",
        }
    }

    /// Returns whether it has lines or rows.
    fn part(self) -> &'static str
        ensures { result.now ≡ part_text self }
    {
        match self {
            Source::Script | Source::Old | Source::New | Source::Log => "line",
            Source::Trace | Source::Policy | Source::Names | Source::Plan => "row",
        }
    }

    /// Whether a message names it if it is at fault as a whole.
    fn is_named_whole(self) -> bool
        ensures { result ≡ is_named_whole self }
    {
        matches!(self, Source::Old | Source::New | Source::Plan)
    }
}

/// The place of a fault.
#[derive(Clone, Copy, Debug, PartialEq, Eq)]
pub enum Place {
    /// In no known place.
    Nowhere,
    /// In an input. Lines of a script or a log, and rows of the others, are numbered from 1; 0 is the input as a whole.
    In {
        source: Source,
        number: u64,
        /// The word of the line or the field of the row, counted from 0, or none if the whole line or row is at fault.
        /// In a policy `from` is 0, with or without names.
        part: Option<usize>,
    },
    /// In two rows of a plan, from 1.
    PlanRows(u64, u64),
    /// In the row of a plan, from 1, that takes the most entries of those that were found.
    PlanEntries {
        row: u64,
        takes: u64,
        found: u64,
    },
    /// After this number of events of a shared unit.
    Events(u64),
}

impl Place {
    /// Returns the number of the line or the row, of two rows that of the first, or 0 if it is in none.
    pub fn number(self) -> u64
        ensures { result ≡ number_in self }
    {
        match self {
            Place::In { number, .. } => number,
            Place::PlanRows(one, _) => one,
            Place::PlanEntries { row, .. } => row,
            _ => 0,
        }
    }

    fn on(self, side: Source) -> Place
        ensures { result ≡ place_on side self }
    {
        match self {
            Place::In {
                source,
                number,
                part,
            } => Place::In {
                source: source.on(side),
                number,
                part,
            },
            place => place,
        }
    }
}

/// Why there is no answer, and where the reason is.
#[derive(Clone, Copy, Debug, PartialEq, Eq)]
pub struct Fault {
    pub refusal: Refusal,
    pub place: Place,
}

impl Fault {
    /// Returns the fault of a script as that of one of two, which is this one.
    pub fn on(self, side: Source) -> Fault
        ensures { result ≡ fault_on side self }
    {
        Fault {
            refusal: self.refusal,
            place: self.place.on(side),
        }
    }
}

impl From<Refusal> for Fault {
    ghost from_gives = { λ refusal fault. fault ≡ somewhere refusal };

    fn from(refusal: Refusal) -> Fault {
        Fault {
            refusal,
            place: Place::Nowhere,
        }
    }
}

impl From<AllocError> for Fault {
    ghost from_gives = { λ _ fault. fault ≡ no_memory };

    fn from(_: AllocError) -> Fault {
        Fault::from(Refusal::Memory)
    }
}

impl<T: Drop> From<AllocFailed<T>> for Fault {
    ghost from_gives = { λ _ fault. fault ≡ no_memory };

    fn from(_failed: AllocFailed<T>) -> Fault {
        Fault::from(Refusal::Memory)
    }
}

impl From<OutputFault> for Fault {
    ghost from_gives = { λ _ fault. fault ≡ no_output };

    fn from(_: OutputFault) -> Fault {
        Fault::from(Refusal::Output)
    }
}

/// Shows the text before the word `refused`.
impl fmt::Display for Place {
    ghost output = { λ place. Some (place_text place) };

    fn fmt<W: fmt::Write>(&self, f: &mut fmt::Formatter<W>) -> fmt::Result {
        match *self {
            Place::Nowhere | Place::Events(_) => Ok(()),
            Place::In { source, number, .. } => {
                let (name, part) = (source.name(), source.part());
                if number > 0 {
                    write!(f, "{name} {part} {number}: ")
                } else if source.is_named_whole() {
                    write!(f, "{name}: ")
                } else {
                    Ok(())
                }
            }
            Place::PlanRows(one, other) => write!(f, "plan rows {one} and {other}: "),
            Place::PlanEntries { row, takes, found } => {
                write!(f, "plan row {row} takes {takes} of {found} entries: ")
            }
        }
    }
}

/// Shows the place, and the refusal's number and name.
impl fmt::Display for Fault {
    ghost output = { λ fault. Some (fault_text fault) };

    fn fmt<W: fmt::Write>(&self, f: &mut fmt::Formatter<W>) -> fmt::Result {
        let Fault { refusal, place } = *self;
        write!(f, "{place}refused {refusal}")
    }
}
