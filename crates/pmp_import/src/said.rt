//! What a line of a log says.

ghost use Rattle.std.specs.Prelude.{◌≡◌};
ghost use Rattle.pmp_import.specs.Imported.{is_read, is_unset, is_write};
ghost use Rattle.pmp_import.specs.Said.{hex_number, is_of_rv32, names_register, occurs};

use memchr::arch::all::rabinkarp::Finder;
use pmp_core::Csr;
use pmp_text::read_numeral;

/// How a line reports a register's value.
#[derive(Clone, Copy, Debug, PartialEq, Eq)]
pub enum How {
    /// A hart writes the value.
    Write,
    /// A hart reads it.
    Read,
    /// A hart has written the register, which keeps this value.
    Commit,
    /// A debugger shows it.
    Show,
}

impl How {
    /// Whether the register is written.
    pub fn is_write(self) -> bool
        ensures { result ≡ is_write self }
    {
        matches!(self, How::Write | How::Commit)
    }

    /// Whether the register is only read.
    pub fn is_read(self) -> bool
        ensures { result ≡ is_read self }
    {
        matches!(self, How::Read)
    }
}

/// What a line reports about a register.
#[derive(Clone, Copy, Debug, PartialEq, Eq)]
pub struct Told {
    /// The hart that has the register, if the line names it.
    pub hart: Option<u64>,
    pub how: How,
    pub register: Csr,
    pub value: u64,
    /// Whether only an RV32 hart has such a line.
    pub is_rv32: bool,
}

impl Told {
    /// Whether a debugger shows the register as a reset leaves it.
    pub fn is_unset(self) -> bool
        ensures { result ≡ is_unset self }
    {
        self.how == How::Show && self.value == 0
    }
}

/// What a line of a log says.
#[derive(Clone, Copy, Debug, PartialEq, Eq)]
pub enum Said {
    /// Nothing about PMP.
    Nothing,
    /// The machine is reset.
    Reset,
    /// The registers after it belong to this hart.
    Hart(u64),
    Register(Told),
}

/// Whether only RV32 has the register.
pub fn is_of_rv32(register: Csr) -> bool
    ensures { result ≡ is_of_rv32 register }
{
    match register {
        Csr::Cfg(number) => number % 2 == 1,
        Csr::Mseccfgh => true,
        _ => false,
    }
}

/// Returns the number written as `0x` and hexadecimal digits.
pub fn read_hex(word: &[u8]) -> Option<u64>
    ensures { result ≡ hex_number word.now }
{
    read_numeral(word.strip_prefix(b"0x")?, 16, 16)
}

/// Whether the name occurs in the line.
pub fn occurs(name: &[u8], line: &[u8]) -> bool
    ensures { result ≡ occurs name.now line.now }
{
    Finder::new(name).find(line, name).is_some()
}

/// Whether a register's name occurs in the line.
#[tactic(auto, unfolding(crate::specs::Said::names_register))]
pub fn names_register(line: &[u8]) -> bool
    ensures { result ≡ names_register line.now }
{
    occurs(b"pmpcfg", line) || occurs(b"pmpaddr", line) || occurs(b"mseccfg", line)
}
