//! A survey: what a first reading of a log finds.

ghost use Rattle.std.specs.Prelude.{◌≡◌, ◌++◌, ◌∷◌, [], List, ℕ, IfErr, OnOk, Err, if◌then◌else◌};
ghost use Rattle.pmp_text.specs.Lines.{lines};
ghost use Rattle.pmp_import.specs.declared.survey.TheConstants.{COUNTED};
ghost use Rattle.pmp_import.specs.Steps.{FindsFault, FindsOn};
ghost use Rattle.pmp_import.specs.Surveys.{first_line, is_high, needs_many};

use crate::fault::at;
use crate::format::Format;
use crate::said::{How, Said, Told};
use pmp_core::Csr;
use pmp_text::{Fault, split_first_line};

/// The number of harts whose writes are counted: those with the lowest numbers.
pub const COUNTED: usize = 64;

/// What a first reading of a log finds.
#[derive(Clone, Copy)]
pub struct Survey {
    /// The number of the next line, from 1.
    pub line: u64,
    /// The hart that is asked for, or else the hart of the first write or of the first register shown.
    pub hart: Option<u64>,
    /// The number of its writes and of its registers shown.
    pub own: u64,
    /// The same number for the other harts, which are left out.
    pub left: u64,
    /// The first line that only RV32 has.
    pub of_rv32: Option<u64>,
    /// The first line with a value that RV32 can't have.
    pub wide: Option<u64>,
    /// Whether a register of entries 16 to 63 has a value other than zero.
    pub has_many: bool,
    /// The number of writes and registers shown, for each of the first harts.
    pub writes: [u64; COUNTED],
    /// The number of lines that say nothing.
    pub others: u64,
    /// The hart whose registers are shown.
    pub shown: u64,
}

fn is_high(how: How, register: Csr) -> bool
    ensures { result ≡ is_high how register }
{
    match register {
        Csr::Cfg(number) => number >= 4,
        Csr::Addr(number) if how == How::Write => number >= 17,
        Csr::Addr(number) => number >= 16,
        _ => false,
    }
}

/// Whether only a hart of more than 16 entries has this.
fn needs_many(told: &Told) -> bool
    ensures { result ≡ needs_many told.now }
{
    told.value != 0 && is_high(told.how, told.register)
}

impl Survey {
    ghost use Rattle.pmp_import.specs.Surveys.{behind_found, behind_line, behind_told, is_own, nothing_found, with_told};

    /// Returns the survey before the first line, if this hart is asked for.
    pub fn new(hart: Option<u64>) -> Survey
        ensures { result ≡ nothing_found hart }
    {
        Survey {
            line: 1,
            hart,
            own: 0,
            left: 0,
            of_rv32: None,
            wide: None,
            has_many: false,
            writes: [0; COUNTED],
            others: 0,
            shown: 0,
        }
    }

    /// Takes in what a line says.
    fn take(&mut self, said: Said)
        ensures { self.new ≡ behind_line self.old said }
    {
        match said {
            Said::Register(told) => self.take_told(told),
            Said::Hart(hart) => self.shown = hart,
            Said::Reset => {}
            Said::Nothing => self.others = self.others.saturating_add(1),
        }
        self.line = self.line.saturating_add(1);
    }

    /// Takes in what a line reports about a register.
    fn take_told(&mut self, told: Told)
        ensures { self.new ≡ behind_told self.old told }
    {
        let hart = told.hart.unwrap_or(self.shown);
        if self.is_own(hart) {
            self.look_at(&told);
        }
        if !told.how.is_read() {
            self.find(hart);
        }
    }

    /// Whether the script is of this hart, as far as is known.
    fn is_own(&self, hart: u64) -> bool
        ensures { result ≡ is_own self.now hart }
    {
        self.hart.unwrap_or(hart) == hart
    }

    /// Takes in what a line reports about a register of the hart.
    fn look_at(&mut self, told: &Told)
        ensures { self.new ≡ with_told self.old told.now }
    {
        self.of_rv32 = first_line(self.of_rv32, told.is_rv32, self.line);
        self.wide = first_line(self.wide, told.value >= 1 << 32, self.line);
        self.has_many = self.has_many || needs_many(told);
    }

    /// Counts a write, or a register that is shown.
    fn find(&mut self, hart: u64)
        ensures { self.new ≡ behind_found self.old hart }
    {
        if self.is_own(hart) {
            self.own = self.own.saturating_add(1);
        } else {
            self.left = self.left.saturating_add(1);
        }
        self.hart = self.hart.or(Some(hart));
        if hart < COUNTED as u64 {
            let count = &mut self.writes[hart as usize];
            *count = count.saturating_add(1);
        }
    }

    #[tactic(auto, using(crate::proofs::Readings::finds_line))]
    fn take_line(&mut self, format: Format, line: &[u8]) -> Result<(), Fault>
        ensures ok { OnOk result (FindsOn format self.old self.new (line.now ∷ [])) }
        ensures err { IfErr result (FindsFault format self.old (line.now ∷ [])) }
    {
        let number = self.line;
        let said = format.read(line);
        self.take(said.map_err(|refusal| at(number, refusal))?);
        Ok(())
    }

    /// Takes in the lines of a text, up to the first fault.
    pub fn take_lines(&mut self, format: Format, text: &[u8]) -> Result<(), Fault>
        ensures ok { OnOk result (FindsOn format self.old self.new (lines text.now)) }
        ensures err { IfErr result (FindsFault format self.old (lines text.now)) }
    {
        let mut rest = text;
        while let Some((line, behind)) = split_first_line(rest) {
            self.take_line(format, line)?;
            rest = behind;
        }
        Ok(())
    }
}

/// Returns the number of the first line of its kind.
fn first_line(first: Option<u64>, is_one: bool, line: u64) -> Option<u64>
    ensures { result ≡ first_line first is_one line }
{
    first.or(is_one.then_some(line))
}
