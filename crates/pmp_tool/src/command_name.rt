//! The program's commands.

ghost use Rattle.std.specs.Prelude.{◌≡◌};
ghost use Rattle.pmp_tool.specs.Arguments.{arguments_of, command_word};

use crate::argument::Argument;
use crate::{help, topics};

/// A command of the program.
#[derive(Clone, Copy)]
pub enum CommandName {
    Check,
    Why,
    Audit,
    Policy,
    Dump,
    Map,
    Picture,
    Entries,
    Writes,
    Lint,
    Diff,
    Harts,
    Import,
    Plan,
}

impl CommandName {
    /// All commands, in the order of the help.
    pub const ALL: [CommandName; 14] = [
        CommandName::Check,
        CommandName::Why,
        CommandName::Audit,
        CommandName::Policy,
        CommandName::Dump,
        CommandName::Map,
        CommandName::Picture,
        CommandName::Entries,
        CommandName::Writes,
        CommandName::Lint,
        CommandName::Diff,
        CommandName::Harts,
        CommandName::Import,
        CommandName::Plan,
    ];

    /// Returns the word that names it, its help text of one line, and the one after its arguments.
    pub fn texts<'a>(self) -> (&'a str, &'a str, &'a str)
        ensures { result.0.now ≡ command_word self }
    {
        match self {
            CommandName::Check => ("check", help::CHECK, topics::MORE_OF_CHECK),
            CommandName::Why => ("why", help::WHY, topics::MORE_OF_WHY),
            CommandName::Audit => ("audit", help::AUDIT, topics::MORE_OF_AUDIT),
            CommandName::Policy => ("policy", help::POLICY, topics::MORE_OF_POLICY),
            CommandName::Dump => ("dump", help::DUMP, topics::MORE_OF_DUMP),
            CommandName::Map => ("map", help::MAP, topics::MORE_OF_MAP),
            CommandName::Picture => ("picture", help::PICTURE, topics::MORE_OF_PICTURE),
            CommandName::Entries => ("entries", help::ENTRIES, topics::MORE_OF_ENTRIES),
            CommandName::Writes => ("writes", help::WRITES, topics::MORE_OF_WRITES),
            CommandName::Lint => ("lint", help::LINT, topics::MORE_OF_LINT),
            CommandName::Diff => ("diff", help::DIFF, topics::MORE_OF_DIFF),
            CommandName::Harts => ("harts", help::HARTS, topics::MORE_OF_HARTS),
            CommandName::Import => ("import", help::IMPORT, topics::MORE_OF_IMPORT),
            CommandName::Plan => ("plan", help::PLAN, topics::MORE_OF_PLAN),
        }
    }

    /// Returns the word that names it.
    pub fn word<'a>(self) -> &'a str
        ensures { result.now ≡ command_word self }
    {
        self.texts().0
    }

    /// Returns its arguments, in the order of the help.
    pub fn arguments(self) -> &'static [Argument]
        ensures { result.now ≡ arguments_of self }
    {
        use Argument::*;
        match self {
            CommandName::Check => &[
                Script, Explain, Mode, Kind, Start, Length, After, Expect, Names,
            ],
            CommandName::Why => &[
                Script, Explain, Mode, Kind, Start, Length, After, Names, AsFormat,
            ],
            CommandName::Audit => &[
                Script, Explain, Trace, Checkers, Long, Jobs, FirstRow, Names,
            ],
            CommandName::Policy => &[
                Script,
                Explain,
                Policy,
                EachWrite,
                AllBreaches,
                Strict,
                Draft,
                Names,
                AsFormat,
            ],
            CommandName::Dump => &[Script, Explain, After, AsScript],
            CommandName::Map => &[Script, Explain, After, Names, AsFormat],
            CommandName::Picture => &[Script, Explain, After, Names],
            CommandName::Entries => &[Script, Explain, After, Names, AsFormat],
            CommandName::Writes => &[Script, Explain, AcceptReason, AsFormat],
            CommandName::Lint => &[Script, Explain, Accept, Names, AsFormat],
            CommandName::Diff => &[
                Old, Explain, New, OldAfter, NewAfter, Only, Locks, Names, AsFormat,
            ],
            CommandName::Harts => &[Harts, Explain, Locks, Names, AsFormat],
            CommandName::Import => &[
                Format,
                Explain,
                Log,
                Hart,
                Xlen,
                Entries,
                Grain,
                AddressBits,
                Smepmp,
                Bursts,
                Folder,
            ],
            CommandName::Plan => &[
                Plan,
                Explain,
                Xlen,
                Entries,
                Grain,
                AddressBits,
                Smepmp,
                Mml,
                Mmwp,
                Rlb,
                From,
                Keep,
                WhileM,
                AsArray,
                Of,
            ],
        }
    }
}
