//! The program's help, except what follows the arguments of a command, which is in `topics.rt`.

pub use crate::topics::MORE;

/// The version of the project.
pub const VERSION: &str = "0.2.0";

pub const ABOUT: &str =
    "Decides accesses to physical memory as the PMP unit of a RISC-V hart does.";

pub const CHECK: &str = "Decides one access after the publications of a script";

pub const WHY: &str =
    "Explains the decision of one access: by which entry, since when, and which lines of the script set that entry";

pub const AUDIT: &str = "Decides each access of a trace, each after the publications that it names";

pub const POLICY: &str =
    "Checks each row of a policy after the publications of a script, and shows where one is broken";

pub const DUMP: &str = "Writes the registers after the publications of a script";

pub const AS_SCRIPT: &str =
    "Writes a script of version 3 that starts from these registers, instead of a line for each";

pub const MAP: &str =
    "Writes which bytes each entry owns after the publications of a script, and their rights";

pub const PICTURE: &str =
    "Draws which bytes each entry owns after the publications of a script, as an SVG document";

pub const ENTRIES: &str =
    "Writes each entry and how it is locked after the publications of a script";

pub const WRITES: &str =
    "Writes what each write of a script changes, and why any of it isn't stored as written";

pub const LINT: &str =
    "Lists what looks wrong in a script: locks that don't hold, entries that decide nothing, bytes that are open";

pub const DIFF: &str =
    "Lists the bytes in which two scripts give a mode different rights, after the publications of each";

pub const HARTS: &str = "Compares the harts of a folder: each one with the first";

pub const HARTS_OF: &str = "The path of a folder with one script for each hart";

pub const OLD: &str = "The path of the old script, or stdin";

pub const NEW: &str = "The path of the new script, or stdin if the old one isn't";

pub const OLD_AFTER: &str =
    "The first N publications of the old script, as --after of pmp map; default: all";

pub const NEW_AFTER: &str = "The first M publications of the new script; default: all";

pub const ONLY: &str =
    "Only the rows in which something is gained, if CHANGE is more, or lost, if it is less";

pub const LOCKS: &str = "Also a row for each longest range of bytes that the two lock differently";

pub const ACCEPT: &str =
    "Leaves out findings named FINDING; with FINDING:LINE, those of that line alone; commas separate several";

pub const ACCEPT_REASON: &str =
    "Takes no notice of REASON in the exit status; with REASON:LINE, at that line alone; commas separate several";

pub const DRAFT: &str =
    "Writes a policy of all that is closed in the end; goes with no policy, and no other option except --explain";

pub const AS_FORMAT: &str =
    "Writes the rows in another form: json or markdown, and of policy and lint junit or sarif";

pub const SCRIPT: &str =
    "The path of a script of at most 1048576 bytes, 67108864 with pmp 3, or stdin for standard input; its first line \
    is pmp 1 for 16 entries, pmp 2 for 64, pmp 3 for any hart";

pub const TRACE: &str =
    "The path of a trace of at most 16777216 bytes, with --long of any length, or stdin if the script isn't";

pub const POLICY_PATH: &str =
    "The path of a policy of at most 16777216 bytes, or stdin if the script isn't";

pub const EACH_WRITE: &str =
    "Also checks after each write and reset that follows publication FROM, as a hart makes them one by one; DONE then \
    counts events";

pub const ALL_BREACHES: &str =
    "Writes a row for each breach of a policy row, not for the first one alone";

pub const STRICT: &str =
    "Refuses a policy without rows; without it, such a policy holds, and a note says so";

pub const MODE: &str = "The mode of the access: M, S or U";

pub const KIND: &str = "The kind of the access: fetch, load or store";

pub const START: &str =
    "The address of its first byte: a number or, with --names, NAME or NAME+OFFSET";

pub const LENGTH: &str =
    "How many bytes it has, a number from 1 to 4096; it may not reach past 2^56";

pub const EXPLAIN: &str =
    "After a refusal, shows the input and the line at fault, what is expected there, and what to do";

pub const AFTER: &str =
    "The first N publications, of at most as many as there are; with pmp 3 also those up to the moment last, last-N, \
    mml, mmwp, rlb-clear or MOMENT; default: all";

pub const EXPECT: &str =
    "The answer, allow or fault, that gives status 0; the other gives 1. Default: allow. In a pipeline, remember that \
    2 and 3 are not answers";

pub const CHECKERS: &str =
    "Decides the rows by K checkers on threads, a number from 1 to 8; K changes the time, never the output";

pub const LONG: &str =
    "Reads a trace of any length piece by piece, and writes rows as pieces are decided";

pub const JOBS: &str =
    "Decides a long trace by N jobs at a time, a number from 1 to 64; default: the number of processors. N changes the \
    time, never the output";

pub const FIRST_ROW: &str =
    "Numbers the rows of a long trace from N, which is at least 1; default: 1";

pub const IMPORT: &str = "Makes a script of version 3 from the log of a simulator or a debugger";

pub const FORMAT: &str = "The format of the log: qemu, gdb, openocd, spike or dump";

pub const LOG: &str =
    "The path of the log, of any length, which is read twice, or stdin, which is read once: the hart is then what the \
    options say, or hart 0 of RV64 with 16 entries";

pub const HART: &str = "The hart whose registers are read; default: the first that writes";

pub const XLEN: &str = "XLEN, 32 or 64; default: 64, or 32 if the log shows it";

pub const HART_ENTRIES: &str =
    "The number of entries; default: 16, or 64 if the log has a value of a later entry";

pub const GRAIN: &str = "The grain of the hart in bytes; default: 4";

pub const ADDRESS_BITS: &str =
    "The number of bits of a physical address; default: 56, or 34 on RV32";

pub const SMEPMP: &str = "Whether the hart has Smepmp, yes or no; default: yes";

pub const BURSTS: &str =
    "Joins writes on adjacent lines into one publication, of at most 64; default: a publication for each";

pub const FOLDER: &str =
    "Makes the folder FOLDER, which may not exist yet, with a script for each hart that has writes in the log: \
    hart0.pmp and so on";

pub const NAMES: &str =
    "Reads names of addresses from FILE (pmp help names): rows and bands of the output end with the names of their \
    bytes, and START and addresses of rows may be names";

pub const PLAN: &str =
    "Finds CSR writes for a plan: a script of version 3 that gives each byte the rights of the plan";

pub const PLAN_PATH: &str =
    "The path of a plan of at most 1048576 bytes or, with --of, of a script; stdin for standard input";

pub const MML: &str = "Also sets MML, under whose rules each byte then has the rights of the plan";

pub const MMWP: &str = "Also sets MMWP: even M-mode reaches no byte that the plan doesn't list";

pub const RLB: &str = "Leaves RLB set: locked entries can still be written";

pub const FROM: &str =
    "Begins with the registers that this script, or stdin, leaves, on its hart; no write on the way opens a byte that is \
    closed before all writes and after them";

pub const KEEP: &str =
    "Nor does a write on the way close a byte that is open before all writes and after them";

pub const WHILE_M: &str =
    "Asks so only of M-mode's accesses, where nothing else runs until the last write, as in a boot";

pub const AS_ARRAY: &str = "Writes a C array of CSR numbers and values instead of a script";

pub const OF: &str =
    "Writes the plan that a script leads to after all its publications; goes with no other option except --explain";
