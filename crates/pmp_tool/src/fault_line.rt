//! The line that reports a fault.

ghost use Rattle.std.specs.Prelude.{◌≡◌, None, OnOk, OnErr};
ghost use Rattle.std.specs.Io.KnownBytes.{Appends};
ghost use Rattle.pmp_text.specs.Bytes.{AppendsBeginning};
ghost use Rattle.pmp_tool.specs.Commands.{access_line};
ghost use Rattle.pmp_tool.specs.FaultLines.{hart_line_text, line_text};
ghost use Rattle.pmp_tool.specs.LineLengths.{HartLineFitsLaw, LineFitsLaw};
ghost use Rattle.pmp_tool.specs.Words.{of_no_word, of_word};

use crate::argument::Argument;
use arrayvec::ArrayString;
use pmp_core::AccessFault;
use pmp_names::HART_NAME;
use pmp_text::{Fault, OutputFault, Refusal, write_out};
use std::fmt::Write as TextWrite;
use std::io::Write;

/// The length of the longest line in bytes: its three numbers have 20 digits each, and the refusal's name 11 letters.
const LONGEST_LINE: usize = 118;

/// The length of the longest line that has a hart's name, a colon and a space after the program's name, in bytes.
const LONGEST_OF_HART: usize = LONGEST_LINE + HART_NAME + 2;

fn law_line_fits()
    ensures { LineFitsLaw }
{}

fn law_hart_line_fits()
    ensures { HartLineFitsLaw }
{}

/// A fault, and the line that reports it.
#[derive(Clone, Copy)]
pub struct FaultLine {
    pub fault: Fault,
    /// The argument whose word is at fault, if one is; the line doesn't show it.
    pub argument: Option<Argument>,
}

impl FaultLine {
    /// Returns this fault of an argument's word.
    pub fn about(argument: Argument, refusal: Refusal) -> FaultLine
        ensures { result ≡ of_word argument refusal }
    {
        FaultLine {
            fault: Fault::from(refusal),
            argument: Some(argument),
        }
    }

    /// Writes the line and its LF. The writer gets it whole, so that no other program's text comes between its parts,
    /// and it allocates nothing.
    pub fn write_to<W: Write>(&self, writer: &mut W) -> Result<(), OutputFault>
        ensures ok { OnOk result (Appends (W.contents writer.old) (W.contents writer.new) (line_text self.now.fault)) }
        ensures err { OnErr result (AppendsBeginning (W.contents writer.old) (W.contents writer.new)
            (line_text self.now.fault)) }
    {
        law_line_fits();
        let mut line = ArrayString::<LONGEST_LINE>::new();
        writeln!(line, "pmp: {}", self.fault).map_err(|_| OutputFault)?;
        write_out(writer, line.as_str().as_bytes())
    }

    /// Writes the same for one hart of several.
    pub fn write_of_hart<W: Write>(
        &self,
        name: &ArrayString<HART_NAME>,
        writer: &mut W,
    ) -> Result<(), OutputFault>
        ensures ok { OnOk result (Appends (W.contents writer.old) (W.contents writer.new)
            (hart_line_text name.now.bytes self.now.fault)) }
        ensures err { OnErr result (AppendsBeginning (W.contents writer.old) (W.contents writer.new)
            (hart_line_text name.now.bytes self.now.fault)) }
    {
        law_hart_line_fits();
        let mut line = ArrayString::<LONGEST_OF_HART>::new();
        writeln!(line, "pmp: {name}: {}", self.fault).map_err(|_| OutputFault)?;
        write_out(writer, line.as_str().as_bytes())
    }
}

impl From<Fault> for FaultLine {
    ghost from_gives = { λ fault line. line ≡ record { fault = fault; argument = None } };

    fn from(fault: Fault) -> FaultLine {
        FaultLine {
            fault,
            argument: None,
        }
    }
}

impl From<Refusal> for FaultLine {
    ghost from_gives = { λ refusal line. line ≡ of_no_word refusal };

    fn from(refusal: Refusal) -> FaultLine {
        FaultLine::from(Fault::from(refusal))
    }
}

impl From<AccessFault> for FaultLine {
    ghost from_gives = { λ fault line. line ≡ access_line fault };

    fn from(fault: AccessFault) -> FaultLine {
        let argument = match fault {
            AccessFault::BadLength => Argument::Length,
            AccessFault::PastEnd => Argument::Start,
        };
        FaultLine::about(argument, Refusal::from(fault))
    }
}
