//! The registers of a register file as text.

ghost use Rattle.std.specs.Prelude.{◌≡◌, ◌<◌, ◌≤◌, ◌++◌, OnOk, OnErr, Some};
ghost use Rattle.std.specs.Int.{div_ceil};
ghost use Rattle.pmp_core.specs.declared.size.TheConstants.{MAX_ENTRIES};
ghost use Rattle.pmp_core.specs.Hart.{bytes_in};
ghost use Rattle.pmp_text.specs.Dumps.{cfg_at, dump_text, form_line, form_value, lines_of};

use crate::lines::hexadecimal::Value;
use crate::lines::{NoMemory, append_text};
use crate::names::RegisterName;
use crate::script::kept_value;
use crate::sink::Sink;
use pmp_core::{Csr, Hart, RegFile};
use std::fmt;

/// The greatest length of the lines of all registers, eighty-one on RV32, in bytes.
const MOST: usize = 4096;

/// What lines say about registers.
#[derive(Clone, Copy)]
pub enum Form {
    /// What a register reads.
    Dump,
    /// What a register keeps, for a script to set it to, unless it is zero, as after a reset.
    Script,
}

/// The line of a register that has this value.
#[derive(Clone, Copy)]
struct Line {
    form: Form,
    csr: Csr,
    value: u64,
}

impl fmt::Display for Line {
    ghost output = { λ line. Some (form_line line.form line.csr line.value) };

    fn fmt<W: fmt::Write>(&self, f: &mut fmt::Formatter<W>) -> fmt::Result {
        let name = RegisterName(self.csr);
        let value = Value(self.value);
        match self.form {
            Form::Dump => write!(f, "{name} {value}\n"),
            Form::Script if self.value == 0 => Ok(()),
            Form::Script => write!(f, "set {name} {value}\n"),
        }
    }
}

/// The lines of a file's registers.
#[derive(Clone, Copy)]
pub struct Lines<'a> {
    pub form: Form,
    pub file: &'a RegFile,
}

impl<'a> Lines<'a> {
    fn line(&self, csr: Csr) -> Line
        ensures { result ≡ record {
          form = self.now.form;
          csr = csr;
          value = form_value self.now.form self.now.file.now csr;
        } }
    {
        let Lines { form, file } = *self;
        let value = match form {
            Form::Dump => file.read(csr),
            Form::Script => kept_value(file, csr),
        };
        Line { form, csr, value }
    }
}

/// Returns how many configuration registers hold the bytes of the given number of entries.
fn registers_for(hart: &Hart, entries: u8) -> u8
    requires { entries ≤ MAX_ENTRIES }
    ensures count { result ≡ div_ceil entries (bytes_in hart.now 0) }
    ensures most { result ≤ 16 }
{
    entries.div_ceil(if hart.profile().is_rv32 { 4 } else { 8 })
}

/// Returns the configuration register with this index among those that the hart has.
pub(crate) fn cfg_at(hart: &Hart, place: u8) -> Csr
    requires { place < 128 }
    ensures { result ≡ cfg_at hart.now place }
{
    if hart.profile().is_rv32 {
        Csr::Cfg(place)
    } else {
        Csr::Cfg(2 * place)
    }
}

impl<'a> fmt::Display for Lines<'a> {
    ghost output = { λ lines. Some (lines_of lines.form lines.file.now) };

    fn fmt<W: fmt::Write>(&self, f: &mut fmt::Formatter<W>) -> fmt::Result {
        let hart = self.file.hart();
        for place in 0..registers_for(&hart, self.file.entries()) {
            write!(f, "{}", self.line(cfg_at(&hart, place)))?;
        }
        for entry in 0..self.file.entries() {
            write!(f, "{}", self.line(Csr::Addr(entry)))?;
        }
        write!(f, "{}", self.line(Csr::Mseccfg))
    }
}

/// Appends a line for each register: its name, a space, `0x` and sixteen hexadecimal digits.
#[inline(never)]
#[tactic(auto, unfolding(crate::specs::Dumps::dump_text))]
pub fn write_registers<S: Sink>(out: &mut S, file: &RegFile) -> Result<(), NoMemory>
    ensures ok { OnOk result (S.text out.new ≡ S.text out.old ++ dump_text file.now) }
    ensures err { OnErr result (S.text out.new ≡ S.text out.old) }
{
    let form = Form::Dump;
    append_text::<MOST, _, _>(out, Lines { form, file })
}
