//! The reasons why the program gives no answer, and their exit statuses.

ghost use Rattle.std.specs.Prelude.{◌≡◌, ◌≤◌, IfSome, OnOk};
ghost use Rattle.std.specs.Io.KnownBytes.{Appends};
ghost use Rattle.pmp_text.specs.Inputs.{refusal_of_input};
ghost use Rattle.pmp_text.specs.declared.refusal.Refusal.TheVariants.{Memory, Output};
ghost use Rattle.pmp_tool.specs.Failures.{Tells, failed, failure_status, failure_text, in_memory, of_hart, refused};
ghost use Rattle.pmp_tool.specs.Failures.{unparsed, unread};
ghost use Rattle.pmp_tool.specs.declared.failure.Failure.TheVariants.{Refused};

use crate::fault_line::FaultLine;
use arrayvec::ArrayString;
use clap::error::ErrorKind;
use pmp_names::HART_NAME;
use pmp_text::{Fault, InputFault, OutputFault, Refusal, Source};
use std::alloc::AllocError;
use std::io::Write;

/// The exit status if the words have no form that the program knows.
const UNKNOWN_WORDS: u8 = 2;

/// Why the program gives no answer.
#[derive(Drop)]
pub enum Failure {
    /// The error of `clap` about the words.
    Words(clap::Error),
    Refused(FaultLine),
    /// A refusal that concerns the hart whose script has this name, one of several.
    OfHart(ArrayString<HART_NAME>, FaultLine),
}

impl Failure {
    pub fn status(&self) -> u8
        ensures value { result ≡ failure_status self.now }
        ensures above { 2 ≤ result }
        ensures below { result ≤ 3 }
    {
        match self {
            Failure::Words(_) => UNKNOWN_WORDS,
            Failure::Refused(line) | Failure::OfHart(_, line) => line.fault.refusal.status(),
        }
    }

    /// Writes the text of the failure for the user, in one write if the writer takes it whole.
    pub fn tell<W: Write>(&self, writer: &mut W) -> Result<(), OutputFault>
        ensures whole { OnOk result (IfSome (failure_text self.now)
            (Appends (W.contents writer.old) (W.contents writer.new))) }
        ensures beginning { Tells self.now (W.contents writer.old) (W.contents writer.new) }
    {
        match self {
            Failure::Words(error) => Ok(write!(writer, "{error}")?),
            Failure::Refused(line) => line.write_to(writer),
            Failure::OfHart(name, line) => line.write_of_hart(name, writer),
        }
    }

    /// Returns the line that reports a refusal.
    pub fn line(&self) -> Option<&FaultLine> {
        match self {
            Failure::Words(_) => None,
            Failure::Refused(line) | Failure::OfHart(_, line) => Some(line),
        }
    }

    /// Returns the same for an answer whose rows are kept in memory, which may run out.
    pub fn in_memory(self) -> Failure
        ensures { result ≡ in_memory self }
    {
        match self {
            Failure::Refused(line) if line.fault.refusal == Refusal::Output => Failure::from(
                Refusal::Memory,
            ),
            failure => failure,
        }
    }

    /// Returns the same for one hart of several.
    pub fn of_hart(self, name: ArrayString<HART_NAME>) -> Failure
        ensures { result ≡ of_hart name self }
    {
        match self {
            Failure::Refused(line) => Failure::OfHart(name, line),
            failure => failure,
        }
    }

    /// Returns the failure of an input that is at fault as a whole.
    pub fn unread(refusal: Refusal, source: Source) -> Failure
        ensures { result ≡ unread refusal source }
    {
        Failure::from(refusal.whole().at_row(source, 0))
    }
}

impl From<clap::Error> for Failure {
    ghost from_gives = { λ error failure. failure ≡ unparsed error };

    fn from(error: clap::Error) -> Failure {
        match error.kind() {
            ErrorKind::OutOfMemory => Failure::from(Refusal::Memory),
            _ => Failure::Words(error),
        }
    }
}

impl From<Refusal> for Failure {
    ghost from_gives = { λ refusal failure. failure ≡ refused refusal };

    fn from(refusal: Refusal) -> Failure {
        Failure::from(Fault::from(refusal))
    }
}

impl From<InputFault> for Failure {
    ghost from_gives = { λ fault failure. failure ≡ refused (refusal_of_input fault) };

    fn from(fault: InputFault) -> Failure {
        Failure::from(Refusal::from(fault))
    }
}

impl From<FaultLine> for Failure {
    ghost from_gives = { λ line failure. failure ≡ Refused line };

    fn from(line: FaultLine) -> Failure {
        Failure::Refused(line)
    }
}

impl From<AllocError> for Failure {
    ghost from_gives = { λ _ failure. failure ≡ refused Memory };

    fn from(_: AllocError) -> Failure {
        Failure::from(Refusal::Memory)
    }
}

impl From<OutputFault> for Failure {
    ghost from_gives = { λ _ failure. failure ≡ refused Output };

    fn from(_: OutputFault) -> Failure {
        Failure::from(Refusal::Output)
    }
}

impl From<Fault> for Failure {
    ghost from_gives = { λ fault failure. failure ≡ failed fault };

    fn from(fault: Fault) -> Failure {
        Failure::Refused(FaultLine::from(fault))
    }
}
