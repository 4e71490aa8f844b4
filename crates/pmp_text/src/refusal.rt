//! Refusals: each has a number, a name, what was wanted instead, and a remedy.

ghost use Rattle.std.specs.Prelude.{◌≡◌, ◌≤◌, Some};
ghost use Rattle.pmp_text.specs.Refusals.{name_of, number_of, refusal_of_access, refusal_text, status_of};
ghost use Rattle.pmp_text.specs.declared.refusal.Refusal.TheVariants.{Input, Memory};

use pmp_core::AccessFault;
use std::alloc::AllocError;
use std::{fmt, io};

/// Why a text, an input or a word is refused. A variant's value is the number that users see.
#[derive(Clone, Copy, Debug, PartialEq, Eq)]
pub enum Refusal {
    /// An access of 0 bytes, or of more than 4,096.
    BadLength = 3,
    /// An access that ends above `2^56`, or a last byte of a policy at or above it.
    PastEnd = 4,
    /// The first significant line of a script is none of `pmp 1`, `pmp 2` and `pmp 3`, or there is none.
    BadVersion = 10,
    /// A later line of a script is not a statement.
    BadLine = 11,
    /// A name or number that names no register.
    BadName = 12,
    /// A `pmpcfg` register with an odd number, which an RV64 hart lacks.
    OddCfg = 13,
    /// A value that is not a number below `2^64`, or one written on RV32 that is not below `2^32`.
    BadNumber = 14,
    /// More than 64 events stand before a script's `publish`.
    BatchFull = 15,
    /// Events stand after a script's last `publish`.
    Unpublished = 16,
    /// An input, a line of a long trace or a row's number is longer than its limit.
    TooLong = 17,
    /// The first record of a trace or a policy doesn't name the fields, or there is none.
    BadHeader = 20,
    /// A row with another number of fields than the header, or a field that is not valid in its place.
    BadRow = 21,
    /// More publications than the script has.
    BadAfter = 22,
    /// A row of a trace that asks for fewer publications than the row before.
    Order = 23,
    /// A word of the command line that is not valid in its place.
    BadWord = 24,
    /// A unit that several threads share has no place for a checker or a notice.
    NoPlace = 30,
    /// A unit that several threads share has no room for more events or batches.
    Full = 31,
    /// More events are published than were asked for.
    Moved = 32,
    /// Out of memory.
    Memory = 40,
    /// An input that can't be opened or read.
    Input = 41,
    /// An output that can't be written.
    Output = 42,
    /// A `hart` or `set` line comes after the first `write`, `reset` or `publish`.
    LateHead = 50,
    /// The same is said of the hart twice, the same register is set twice, or two moments have one name.
    Twice = 51,
    /// A number of entries that no hart has.
    BadEntries = 52,
    /// A number of address bits that no hart has.
    BadBits = 53,
    /// A register doesn't keep the value that it is set to.
    NotHeld = 54,
    /// A grain that no hart has.
    BadGrain = 55,
    /// A moment's name that is invalid.
    BadMark = 56,
    /// A `mark` is between an event and its `publish`.
    OpenMark = 57,
    /// A name that the script gives to no moment.
    NoMoment = 58,
    /// An entry that no hart has, or a range that the entry can't have there.
    BadEntry = 59,
    /// A line of a log names a PMP register or one of its events in another form.
    BadEvent = 60,
    /// A log has neither a write nor a register of the hart.
    NoHart = 61,
    /// A word that names no log format.
    BadFormat = 62,
    /// More than 1,048,576 events or publications of a script.
    TooMany = 63,
    /// A folder without scripts, with too many, or with a name that rows can't begin with, or two folders whose names
    /// differ.
    BadFolder = 64,
    /// Two rows of a plan have a byte in common.
    Overlap = 65,
    /// Rights in a plan's row that no entry gives, or that no held entry gives.
    BadPair = 66,
    /// A row of a plan begins or ends inside a grain.
    TooFine = 67,
    /// A plan needs more entries than the hart has.
    FewEntries = 68,
    /// The search for a plan's entries stopped at its bound.
    Stopped = 69,
    /// No order of a plan's writes was found in which each of them leaves open and closed what has to be.
    NoOrder = 70,
    /// A policy that must have a row has none.
    NoRows = 71,
}

impl Refusal {
    pub fn number(self) -> u8
        ensures { result ≡ number_of self }
    {
        self as u8
    }

    pub fn name(self) -> &'static str
        ensures { result.now ≡ name_of self }
    {
        match self {
            Refusal::BadLength => "BadLength",
            Refusal::PastEnd => "PastEnd",
            Refusal::BadVersion => "BadVersion",
            Refusal::BadLine => "BadLine",
            Refusal::BadName => "BadName",
            Refusal::OddCfg => "OddCfg",
            Refusal::BadNumber => "BadNumber",
            Refusal::BatchFull => "BatchFull",
            Refusal::Unpublished => "Unpublished",
            Refusal::TooLong => "TooLong",
            Refusal::BadHeader => "BadHeader",
            Refusal::BadRow => "BadRow",
            Refusal::BadAfter => "BadAfter",
            Refusal::Order => "Order",
            Refusal::BadWord => "BadWord",
            Refusal::NoPlace => "NoPlace",
            Refusal::Full => "Full",
            Refusal::Moved => "Moved",
            Refusal::Memory => "Memory",
            Refusal::Input => "Input",
            Refusal::Output => "Output",
            Refusal::LateHead => "LateHead",
            Refusal::Twice => "Twice",
            Refusal::BadEntries => "BadEntries",
            Refusal::BadBits => "BadBits",
            Refusal::NotHeld => "NotHeld",
            Refusal::BadGrain => "BadGrain",
            Refusal::BadMark => "BadMark",
            Refusal::OpenMark => "OpenMark",
            Refusal::NoMoment => "NoMoment",
            Refusal::BadEntry => "BadEntry",
            Refusal::BadEvent => "BadEvent",
            Refusal::NoHart => "NoHart",
            Refusal::BadFormat => "BadFormat",
            Refusal::TooMany => "TooMany",
            Refusal::BadFolder => "BadFolder",
            Refusal::Overlap => "Overlap",
            Refusal::BadPair => "BadPair",
            Refusal::TooFine => "TooFine",
            Refusal::FewEntries => "FewEntries",
            Refusal::Stopped => "Stopped",
            Refusal::NoOrder => "NoOrder",
            Refusal::NoRows => "NoRows",
        }
    }

    /// Returns the program's exit status: 3 if memory, an input, the output or a shared unit failed it, else 2.
    pub fn status(self) -> u8
        ensures value { result ≡ status_of self }
        ensures above { 2 ≤ result }
        ensures below { result ≤ 3 }
    {
        match self {
            Refusal::NoPlace | Refusal::Moved => 3,
            Refusal::Memory | Refusal::Input | Refusal::Output => 3,
            _ => 2,
        }
    }

    /// Returns what was wanted instead of what is refused.
    pub fn wanted(self) -> &'static str {
        match self {
            Refusal::BadLength => "a length from 1 to 4096",
            Refusal::PastEnd => "a last byte below 2^56",
            Refusal::BadVersion =>
                "pmp 1 for a unit of 16 entries, pmp 2 for one of 64, or pmp 3 for any hart, before every line but \
                comments",
            Refusal::BadLine =>
                "write NAME VALUE, reset or publish; with pmp 3 also set, expect, set-bits or clear-bits NAME \
                VALUE, entry I off, entry I with na4, napot or tor, FIRST, SIZE or END, RIGHTS and perhaps L, mark \
                NAME, publish NAME, and hart with xlen 32 or 64, entries N, grain BYTES, bits N or smepmp yes or \
                no",
            Refusal::BadName =>
                "mseccfg, pmpcfg0, pmpcfg2, .. pmpcfg14, pmpaddr0 to pmpaddr63, or the register's number after 0x; \
                with hart xlen 32 also mseccfgh and the odd pmpcfg",
            Refusal::OddCfg =>
                "a pmpcfg register with an even number, since RV64 has no odd ones; RV32 has, with pmp 3 and hart \
                xlen 32",
            Refusal::BadNumber =>
                "a number below 2^64, in a write with hart xlen 32 below 2^32: 1 to 20 decimal digits, or 0x and 1 \
                to 16 hexadecimal digits",
            Refusal::BatchFull => "at most 64 writes and resets before a publish",
            Refusal::Unpublished => "a publish after this event",
            Refusal::TooLong =>
                "at most 1048576 bytes of a script, 67108864 with pmp 3, and 16777216 of a trace or a policy; of a \
                long trace, shorter lines",
            Refusal::BadHeader =>
                "after,mode,kind,start,length for a trace, from,to,modes,kind,first,last,demand for a policy, or \
                that between name and comment, first,last,name for names, first,last,m,su,locked,name for a plan",
            Refusal::BadRow =>
                "as many fields as the header names, each of its form: see pmp help trace and pmp help policy",
            Refusal::BadAfter => "at most as many publications as the script has",
            Refusal::Order => "at least as many publications as in the row before",
            Refusal::BadWord =>
                "words as the command's help has them: stdin for one input alone, --jobs and --first-row with \
                --long, --checkers and an audit's --names without it, plan --of alone, plan --from without \
                a hart",
            Refusal::NoPlace => "a place for each checker in the unit that they share",
            Refusal::Full => "room for a batch in the unit",
            Refusal::Moved => "no more publications than a checker was told of",
            Refusal::Memory => "memory",
            Refusal::Input =>
                "a path that can be opened and read; stdin is standard input, and a dash isn't",
            Refusal::Output => "an output that takes the whole answer",
            Refusal::LateHead => "hart and set before the first write, reset or publish",
            Refusal::Twice =>
                "each field of the hart once, each register set once, and each moment named once",
            Refusal::BadEntries => "0 to 64 entries",
            Refusal::BadBits => "34 to 56 address bits, or 32 to 34 with hart xlen 32",
            Refusal::NotHeld => "a value that the register of this hart keeps",
            Refusal::BadGrain => "a grain of 4, 8, 16 and so on to 4096 bytes",
            Refusal::BadMark =>
                "a name of 1 to 64 bytes: a letter, then letters, digits, _ and ., and none of last, mml, mmwp and rlb",
            Refusal::OpenMark => "mark between publications",
            Refusal::NoMoment =>
                "a moment that the script has: a name from mark or publish, or last, mml and the like, if it occurs",
            Refusal::BadEntry =>
                "an entry 0 to 63 and a range that it can have here: na4 4 bytes, napot a power of two of 8 or \
                more, each at a multiple of its size, tor from where the entry before it ends to a higher multiple \
                of 4; all below 2^56, with hart xlen 32 below 2^34",
            Refusal::BadEvent =>
                "each line that names a PMP register or one of its events in the form of its log: see pmp help import",
            Refusal::NoHart => "a log with a write or a register of the hart",
            Refusal::BadFormat => "qemu, gdb, openocd, spike or dump",
            Refusal::TooMany => "at most 1048576 events and as many publications",
            Refusal::BadFolder =>
                "1 to 4096 scripts in the folder, each NAME.pmp of at most 255 letters, digits, - _ and .; in two \
                folders the same names",
            Refusal::Overlap => "rows that have no byte in common",
            Refusal::BadPair =>
                "rights of M and of S and U that one entry gives, with the MML asked for; of a locked row, one \
                whose lock holds",
            Refusal::TooFine => "rows that begin and end between two grains of the hart",
            Refusal::FewEntries => "a plan for the entries that the hart has",
            Refusal::Stopped => "a plan whose entries are found within the bound of the search",
            Refusal::NoOrder =>
                "an order of writes in which none of them opens a byte that is closed before all and after all, nor \
                with --keep closes one that is open",
            Refusal::NoRows => "a policy with at least one row",
        }
    }

    /// Returns what to do about it.
    pub fn remedy(self) -> &'static str {
        match self {
            Refusal::BadLength => "give at least one byte; make several accesses of a longer range",
            Refusal::PastEnd => "look for a digit too many in the address",
            Refusal::BadVersion =>
                "make it the first line, in lower case and with no other word; save the script as UTF-8 without a \
                byte-order mark, each line ended by LF",
            Refusal::BadLine =>
                "write each CSR write as write NAME VALUE, without =; begin with pmp 3 for hart, set, expect, \
                mark, set-bits, clear-bits and entry; begin comments with #, on lines of their own",
            Refusal::BadName =>
                "write it so, in lower case and without leading zeros; leave out writes to other registers",
            Refusal::OddCfg =>
                "write both halves to the even one before it; for RV32 firmware begin with pmp 3 and hart xlen 32, \
                above every write",
            Refusal::BadNumber =>
                "put 0x before hexadecimal digits and nothing after them; leave out signs and underscores: a \
                register's -1 is 0xffffffffffffffff, on RV32 0xffffffff",
            Refusal::BatchFull => "put a publish between them",
            Refusal::Unpublished => "end the script with a publish",
            Refusal::TooLong =>
                "cut the script at a publish and leave comments out; take --long for a trace, and shorter lines \
                there; split a policy",
            Refusal::BadHeader => "make it the first line, above the rows, without blanks",
            Refusal::BadRow =>
                "write each field in its form and between commas, and nothing else: no blank, comment or line end",
            Refusal::BadAfter => "ask for fewer, or check whether the script lacks a publish",
            Refusal::Order => "sort the trace by its first field",
            Refusal::BadWord => "see the command's help: pmp help check, and so on",
            Refusal::NoPlace => "ask for fewer, or leave --checkers out",
            Refusal::Full => "begin another unit",
            Refusal::Moved => "please report it: no order of threads should lead here",
            Refusal::Memory => "end other programs, raise the limit, or cut the trace",
            Refusal::Input => "check that the path is right and readable",
            Refusal::Output => "discard what was written: it is only the beginning of the answer",
            Refusal::LateHead => "move the line above them; a register may be written instead",
            Refusal::Twice => "leave one of the two lines out",
            Refusal::BadEntries =>
                "give the number of PMP entries of the hart, counted from pmpaddr0",
            Refusal::BadBits => "give the bits of a physical address, not those of a register",
            Refusal::NotHeld =>
                "describe the hart that had the value by hart lines, or by options of plan; clear the bits that no \
                hart keeps, as 63 to 54 of a pmpaddr, which QEMU before 11 keeps",
            Refusal::BadGrain => "give the grain in bytes, not the manual's G",
            Refusal::BadMark => "give the moment another name",
            Refusal::OpenMark => "put it after the publish, or name that, as in publish NAME",
            Refusal::NoMoment =>
                "look for the script's mark lines and publish lines with a name; pmp writes says when MML, MMWP \
                and RLB change",
            Refusal::BadEntry =>
                "write the entry before it first, whose address a tor entry begins at, or take napot or na4; give \
                sizes in bytes",
            Refusal::BadEvent =>
                "check that the format is the log's; leave out lines that are cut short",
            Refusal::NoHart =>
                "ask for another hart with --hart, or check that the log has PMP events at all",
            Refusal::BadFormat => "name the program that wrote the log, in lower case",
            Refusal::TooMany =>
                "cut the script at a publish, and begin the next one with the registers that it leaves",
            Refusal::BadFolder => "put one script a hart there, named as hart0.pmp is",
            Refusal::Overlap => "cut one of the two where the other begins or ends",
            Refusal::BadPair =>
                "without MML give M rwx, or in a locked row what S and U have; with MML see the table of Smepmp",
            Refusal::TooFine => "move the row's ends to multiples of the grain, in bytes",
            Refusal::FewEntries => "join rows of the same rights, or move ends to powers of two",
            Refusal::Stopped => "make the plan smaller: entries for it may exist nevertheless",
            Refusal::NoOrder =>
                "leave an entry of the script off, so that it can be used on the way; leave --keep out; or, where \
                only M-mode runs until the last write, give --while-m",
            Refusal::NoRows => "write a row, or leave --strict out",
        }
    }
}

/// Shows the number and the name.
impl fmt::Display for Refusal {
    ghost output = { λ refusal. Some (refusal_text refusal) };

    fn fmt<W: fmt::Write>(&self, f: &mut fmt::Formatter<W>) -> fmt::Result {
        let number = self.number();
        let name = self.name();
        write!(f, "{number} {name}")
    }
}

impl From<AccessFault> for Refusal {
    ghost from_gives = { λ fault refusal. refusal ≡ refusal_of_access fault };

    fn from(fault: AccessFault) -> Refusal {
        match fault {
            AccessFault::BadLength => Refusal::BadLength,
            AccessFault::PastEnd => Refusal::PastEnd,
        }
    }
}

impl From<AllocError> for Refusal {
    ghost from_gives = { λ _ refusal. refusal ≡ Memory };

    fn from(_: AllocError) -> Refusal {
        Refusal::Memory
    }
}

impl From<io::Error> for Refusal {
    ghost from_gives = { λ _ refusal. refusal ≡ Input };

    fn from(_: io::Error) -> Refusal {
        Refusal::Input
    }
}
