//! The lines of a script that is made from a log.

ghost use Rattle.std.specs.Prelude.{◌≡◌, Some, codes, if◌then◌else◌};
ghost use Rattle.pmp_import.specs.Imported.{head_text, kept_lines, kept_of, known_lines, number_line, other_entries};
ghost use Rattle.pmp_import.specs.Imported.{publish_if, reset_name, reset_text, said_text, smepmp_line, told_text};
ghost use Rattle.pmp_import.specs.Imported.{value_line, write_lines, xlen_line};

use crate::given::{Given, Walk};
use crate::said::{How, Said, Told};
use pmp_core::Csr;
use pmp_text::RegisterName;
use std::fmt;

/// The version, the hart, and the name of the moment before its first event.
#[derive(Clone, Copy)]
pub struct Head(pub Given);

impl fmt::Display for Head {
    ghost output = { λ head. Some (head_text head.0) };

    #[tactic(auto, unfolding(crate::specs::Imported::head_text))]
    fn fmt<W: fmt::Write>(&self, f: &mut fmt::Formatter<W>) -> fmt::Result {
        let Given { format, hart, .. } = self.0;
        let xlen = xlen_line(self.0.is_rv32);
        let entries = NumberLine("entries", other_entries(self.0.entries));
        let grain = NumberLine("grain", self.0.grain);
        let bits = NumberLine("bits", self.0.bits);
        let smepmp = smepmp_line(self.0.has_smepmp);
        write!(
            f,
            "pmp 3\n# from {format}, hart {hart}\n{xlen}{entries}{grain}{bits}{smepmp}mark start\n"
        )
    }
}

#[tactic(auto, unfolding(crate::specs::Imported::xlen_line))]
fn xlen_line<'a>(is_rv32: bool) -> &'a str
    ensures { result.now ≡ xlen_line is_rv32 }
{
    if is_rv32 { "hart xlen 32\n" } else { "" }
}

#[tactic(auto, unfolding(crate::specs::Imported::other_entries))]
fn other_entries(entries: u64) -> Option<u64>
    ensures { result ≡ other_entries entries }
{
    (entries != 16).then_some(entries)
}

#[tactic(auto, unfolding(crate::specs::Imported::smepmp_line))]
fn smepmp_line<'a>(has_smepmp: bool) -> &'a str
    ensures { result.now ≡ smepmp_line has_smepmp }
{
    if has_smepmp { "" } else { "hart smepmp no\n" }
}

/// The hart line that gives a number, if it is known.
#[derive(Clone, Copy)]
struct NumberLine<'a>(&'a str, Option<u64>);

impl<'a> fmt::Display for NumberLine<'a> {
    ghost output = { λ line. Some (number_line line.0.now line.1) };

    #[tactic(auto, unfolding(crate::specs::Imported::number_line))]
    fn fmt<W: fmt::Write>(&self, f: &mut fmt::Formatter<W>) -> fmt::Result {
        let name = self.0;
        match self.1 {
            Some(number) => write!(f, "hart {name} {number}\n"),
            None => Ok(()),
        }
    }
}

/// A word, a register and a value.
#[derive(Clone, Copy)]
struct ValueLine<'a>(&'a str, Csr, u64);

impl<'a> fmt::Display for ValueLine<'a> {
    ghost output = { λ line. Some (value_line line.0.now line.1 line.2) };

    fn fmt<W: fmt::Write>(&self, f: &mut fmt::Formatter<W>) -> fmt::Result {
        let ValueLine(word, register, value) = *self;
        let name = RegisterName(register);
        write!(f, "{word} {name} 0x{value:x}\n")
    }
}

fn kept_of(is_rv32: bool, register: Csr, value: u64) -> u64
    ensures { result ≡ kept_of is_rv32 register value }
{
    match register {
        Csr::Addr(_) if !is_rv32 => value % (1 << 54),
        _ => value,
    }
}

/// The line that a register has this value, except bits that no hart keeps.
#[derive(Clone, Copy)]
struct KeptLines<'a> {
    word: &'a str,
    is_rv32: bool,
    register: Csr,
    value: u64,
}

impl<'a> fmt::Display for KeptLines<'a> {
    ghost output = { λ lines. Some (kept_lines lines.word.now lines.is_rv32 lines.register lines.value) };

    fn fmt<W: fmt::Write>(&self, f: &mut fmt::Formatter<W>) -> fmt::Result {
        let (register, value) = (self.register, self.value);
        let kept = kept_of(self.is_rv32, register, value);
        let line = ValueLine(self.word, register, kept);
        if kept == value {
            write!(f, "{line}")
        } else {
            let name = RegisterName(register);
            write!(
                f,
                "# {name} had 0x{value:x}: bits 63 to 54 are dropped\n{line}"
            )
        }
    }
}

/// The lines for a write to a register.
#[derive(Clone, Copy)]
struct WriteLines(Told);

impl fmt::Display for WriteLines {
    ghost output = { λ lines. Some (write_lines lines.0) };

    fn fmt<W: fmt::Write>(&self, f: &mut fmt::Formatter<W>) -> fmt::Result {
        if !self.0.how.is_write() {
            return Ok(());
        }
        let line = ValueLine("write", self.0.register, self.0.value);
        write!(f, "{line}")
    }
}

/// The lines for a value that a register is known to have then.
#[derive(Clone, Copy)]
struct KnownLines {
    is_rv32: bool,
    told: Told,
}

impl fmt::Display for KnownLines {
    ghost output = { λ lines. Some (known_lines lines.is_rv32 lines.told) };

    fn fmt<W: fmt::Write>(&self, f: &mut fmt::Formatter<W>) -> fmt::Result {
        let word = match self.told.how {
            How::Write => return Ok(()),
            How::Read | How::Commit => "expect",
            How::Show => "set",
        };
        let lines = KeptLines {
            word,
            is_rv32: self.is_rv32,
            register: self.told.register,
            value: self.told.value,
        };
        write!(f, "{lines}")
    }
}

pub fn publish_if<'a>(is_due: bool) -> &'a str
    ensures { result.now ≡ publish_if is_due }
{
    if is_due { "publish\n" } else { "" }
}

/// The lines for what a line of the log says about the hart.
#[derive(Clone, Copy)]
struct ToldLines {
    given: Given,
    walk: Walk,
    told: Told,
}

impl fmt::Display for ToldLines {
    ghost output = { λ lines. Some (told_text lines.given lines.walk lines.told) };

    fn fmt<W: fmt::Write>(&self, f: &mut fmt::Formatter<W>) -> fmt::Result {
        let ToldLines { given, walk, told } = *self;
        let is_write = told.how.is_write();
        let before = publish_if(walk.is_open() && !is_write);
        if told.is_unset() {
            return write!(f, "{before}");
        }
        let line = walk.line;
        let write = WriteLines(told);
        let behind = publish_if(is_write && given.ends(walk));
        let known = KnownLines {
            is_rv32: given.is_rv32,
            told,
        };
        write!(f, "{before}# line {line}\n{write}{behind}{known}")
    }
}

/// The name of the moment after the reset with this number.
#[derive(Clone, Copy)]
struct ResetName(u64);

impl fmt::Display for ResetName {
    ghost output = { λ name. Some (reset_name name.0) };

    fn fmt<W: fmt::Write>(&self, f: &mut fmt::Formatter<W>) -> fmt::Result {
        match self.0 {
            1 => f.write_str("reset"),
            number => write!(f, "reset{number}"),
        }
    }
}

/// The lines for a reset.
#[derive(Clone, Copy)]
struct ResetLines(Walk);

impl fmt::Display for ResetLines {
    ghost output = { λ lines. Some (reset_text lines.0) };

    fn fmt<W: fmt::Write>(&self, f: &mut fmt::Formatter<W>) -> fmt::Result {
        let before = publish_if(self.0.is_open());
        if !self.0.is_used {
            return write!(f, "{before}");
        }
        let line = self.0.line;
        let name = ResetName(self.0.reset);
        write!(f, "{before}# line {line}\nreset\npublish\nmark {name}\n")
    }
}

/// The lines for a line of the log.
#[derive(Clone, Copy)]
pub struct SaidLines {
    pub given: Given,
    pub walk: Walk,
    pub said: Said,
}

impl fmt::Display for SaidLines {
    ghost output = { λ lines. Some (said_text lines.given lines.walk lines.said) };

    fn fmt<W: fmt::Write>(&self, f: &mut fmt::Formatter<W>) -> fmt::Result {
        let SaidLines { given, walk, said } = *self;
        match said {
            Said::Register(told) if given.is_of_hart(walk, told) => {
                f.write(ToldLines { given, walk, told })
            }
            Said::Reset => f.write(ResetLines(walk)),
            _ => f.write_str(publish_if(walk.is_open())),
        }
    }
}
