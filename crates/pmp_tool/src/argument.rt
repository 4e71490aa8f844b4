//! The arguments of the program's commands.

ghost use Rattle.std.specs.Prelude.{◌≡◌, false, pos};
ghost use Rattle.clap.specs.Words.{rule_of};
ghost use Rattle.clap.specs.declared.builder.value_parser.ValueParser.TheVariants.{Signed};
ghost use Rattle.pmp_tool.specs.Arguments.{flag_rule, id_of, option_rule, rule_in, word_rule};

use crate::help;
use crate::jobs::JOBS;
use clap::builder::ValueParser;
use clap::{Arg, ArgAction, value_parser};
use pmp_share::CHECKERS;
use std::alloc::Global;

/// An argument of a command: a positional word, or an option.
#[derive(Clone, Copy)]
pub enum Argument {
    Script,
    /// The script, if there are two.
    Old,
    New,
    Trace,
    Policy,
    Mode,
    Kind,
    Start,
    Length,
    Explain,
    Long,
    EachWrite,
    Strict,
    AllBreaches,
    AsScript,
    After,
    OldAfter,
    NewAfter,
    Expect,
    Only,
    Locks,
    Accept,
    AcceptReason,
    AsFormat,
    Draft,
    FirstRow,
    Checkers,
    Jobs,
    /// The log of an import.
    Log,
    Format,
    Hart,
    Xlen,
    Entries,
    Grain,
    AddressBits,
    Smepmp,
    Bursts,
    Names,
    /// The folder that an import makes.
    Folder,
    /// The folder whose harts are compared.
    Harts,
    /// The plan.
    Plan,
    Mml,
    Mmwp,
    Rlb,
    AsArray,
    Of,
    From,
    Keep,
    WhileM,
}

impl Argument {
    /// Returns its id, by which `clap` knows it, its name in the help, if it takes a word, and its help text.
    #[tactic(auto, unfolding(crate::specs::Arguments::rule_in))]
    fn texts<'a>(self) -> (&'a str, &'a str, &'a str)
        ensures { result.0.now ≡ id_of self }
    {
        use Argument::*;
        match self {
            Script => ("script", "SCRIPT", help::SCRIPT),
            Old => ("script", "OLD", help::OLD),
            Log => ("script", "LOG", help::LOG),
            Harts => ("script", "FOLDER", help::HARTS_OF),
            Plan => ("script", "PLAN", help::PLAN_PATH),
            New => ("new", "NEW", help::NEW),
            Trace => ("trace", "TRACE", help::TRACE),
            Policy => ("policy", "POLICY", help::POLICY_PATH),
            Mode => ("mode", "MODE", help::MODE),
            Kind => ("kind", "KIND", help::KIND),
            Start => ("start", "START", help::START),
            Length => ("length", "LENGTH", help::LENGTH),
            Explain => ("explain", "", help::EXPLAIN),
            Long => ("long", "", help::LONG),
            EachWrite => ("each-write", "", help::EACH_WRITE),
            Strict => ("strict", "", help::STRICT),
            AllBreaches => ("all", "", help::ALL_BREACHES),
            AsScript => ("as-script", "", help::AS_SCRIPT),
            After => ("after", "N", help::AFTER),
            OldAfter => ("old-after", "N", help::OLD_AFTER),
            NewAfter => ("new-after", "M", help::NEW_AFTER),
            Expect => ("expect", "ANSWER", help::EXPECT),
            Only => ("only", "CHANGE", help::ONLY),
            Locks => ("locks", "", help::LOCKS),
            Accept => ("accept", "FINDING", help::ACCEPT),
            AcceptReason => ("accept", "REASON", help::ACCEPT_REASON),
            AsFormat => ("as-format", "FORM", help::AS_FORMAT),
            Draft => ("draft", "", help::DRAFT),
            FirstRow => ("first-row", "N", help::FIRST_ROW),
            Checkers => ("checkers", "K", help::CHECKERS),
            Jobs => ("jobs", "N", help::JOBS),
            Format => ("format", "FORMAT", help::FORMAT),
            Hart => ("hart", "N", help::HART),
            Xlen => ("xlen", "N", help::XLEN),
            Entries => ("entries", "N", help::HART_ENTRIES),
            Grain => ("grain", "BYTES", help::GRAIN),
            AddressBits => ("address-bits", "N", help::ADDRESS_BITS),
            Smepmp => ("smepmp", "ANSWER", help::SMEPMP),
            Bursts => ("bursts", "", help::BURSTS),
            Names => ("names", "FILE", help::NAMES),
            Folder => ("folder", "FOLDER", help::FOLDER),
            Mml => ("mml", "", help::MML),
            Mmwp => ("mmwp", "", help::MMWP),
            Rlb => ("rlb", "", help::RLB),
            AsArray => ("c", "", help::AS_ARRAY),
            Of => ("of", "", help::OF),
            From => ("from", "SCRIPT", help::FROM),
            Keep => ("keep", "", help::KEEP),
            WhileM => ("while-m", "", help::WHILE_M),
        }
    }

    /// Returns the id by which `clap` knows it.
    pub fn id<'a>(self) -> &'a str
        ensures { result.now ≡ id_of self }
    {
        self.texts().0
    }

    /// Returns its name in the help, or an empty text if it takes no word.
    pub fn name<'a>(self) -> &'a str {
        self.texts().1
    }

    /// Returns how `clap` reads it, with its help text.
    #[tactic(auto, unfolding(crate::specs::Arguments::rule_in))]
    pub fn arg<'a>(self, alloc: Global) -> Arg<'a>
        ensures rule { rule_of result ≡ rule_in self }
        ensures local { result.global ≡ false }
    {
        use Argument::*;
        let (id, name, help) = self.texts();
        match self {
            AsScript => flag(alloc, id, help).long("script"),
            Draft => flag(alloc, id, help).long("from"),
            AsFormat => option(alloc, id, name, help).long("format"),
            Checkers => option(alloc, id, name, help).value_parser(from_one(CHECKERS)),
            Jobs => option(alloc, id, name, help).value_parser(from_one(JOBS)),
            Policy => Arg::new(alloc, id).value_name(name).help(help),
            Script | Old | New | Trace | Log | Harts | Plan => word(alloc, id, name, help),
            Format | Mode | Kind | Start | Length => word(alloc, id, name, help),
            Explain | Long | EachWrite | Strict | AllBreaches | Locks => flag(alloc, id, help),
            Bursts | Mml | Mmwp | Rlb | AsArray | Of | Keep | WhileM => flag(alloc, id, help),
            After | OldAfter | NewAfter | Expect => option(alloc, id, name, help),
            Only | Accept | AcceptReason | FirstRow => option(alloc, id, name, help),
            Hart | Xlen | Entries | Grain | AddressBits => option(alloc, id, name, help),
            Smepmp | Names | Folder | From => option(alloc, id, name, help),
        }
    }

    /// Returns what its word must be, if not every word will do.
    pub fn wanted(self) -> &'static str {
        match self {
            Argument::After | Argument::OldAfter | Argument::NewAfter => {
                "a number, or with pmp 3 last, last-N, mml, mmwp, rlb-clear or a name of the script's"
            }
            Argument::Mode => "M, S or U",
            Argument::Kind => "fetch, load or store",
            Argument::Expect => "allow or fault",
            Argument::Only => "more or less",
            Argument::Start => "a number, or with --names NAME or NAME+OFFSET",
            Argument::Accept =>
                "the name of a finding, as mmwp-off, perhaps with a line, as mmwp-off:7",
            Argument::AsFormat => "csv, json or markdown, and of policy and lint junit or sarif",
            Argument::AcceptReason =>
                "a reason of pmp writes, as bits, perhaps with a line, as bits:7, or differs",
            Argument::FirstRow => "a number from 1 on",
            Argument::Checkers => "a number from 1 to 8",
            Argument::Jobs => "a number from 1 to 64",
            Argument::Xlen => "32 or 64",
            Argument::Smepmp => "yes or no",
            Argument::Folder => "a path, without --hart, and a log that isn't stdin",
            Argument::Entries => "a number from 0 to 64",
            Argument::Grain => "a number of bytes: 4, 8, 16 and so on to 4096",
            Argument::AddressBits => "a number from 34 to 56, or with --xlen 32 from 32 to 34",
            Argument::Policy => "the path of a policy, unless --from writes one",
            _ => "a number",
        }
    }
}

/// Returns a word that its command requires, taken as text.
fn word<'a>(alloc: Global, id: &'a str, name: &'a str, help: &'a str) -> Arg<'a>
    ensures rule { rule_of result ≡ word_rule id.entry.now }
    ensures local { result.global ≡ false }
{
    Arg::new(alloc, id)
        .value_name(name)
        .help(help)
        .required(true)
}

/// Returns `--id name`, taken as text.
fn option<'a>(alloc: Global, id: &'a str, name: &'a str, help: &'a str) -> Arg<'a>
    ensures rule { rule_of result ≡ option_rule id.entry.now }
    ensures local { result.global ≡ false }
{
    Arg::new(alloc, id).long(id).value_name(name).help(help)
}

/// Returns `--id`, without a word of its own.
fn flag<'a>(alloc: Global, id: &'a str, help: &'a str) -> Arg<'a>
    ensures rule { rule_of result ≡ flag_rule id.entry.now }
    ensures local { result.global ≡ false }
{
    Arg::new(alloc, id)
        .long(id)
        .action(ArgAction::SetTrue)
        .help(help)
}

/// Returns a parser of numbers from 1 to `most`.
fn from_one<'a>(most: u8) -> ValueParser<'a>
    ensures { result ≡ Signed (pos 1) (pos most) }
{
    value_parser!(u8).range(1..=i64::from(most))
}
