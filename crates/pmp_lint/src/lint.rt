//! The lints: what a script is checked for.

ghost use Rattle.std.specs.Prelude.{◌≡◌};
ghost use Rattle.pmp_lint.specs.Findings.{are_lints};
ghost use Rattle.pmp_lint.specs.Lints.{lint_named, lint_name, lint_number, remedy_text, says_text};

use crate::accepted::NameAt;

/// What a script is checked for. The names and the numbers never change.
#[derive(Clone, Copy, Debug, PartialEq, Eq)]
pub enum Lint {
    /// An entry is locked in the end and RLB is set, so that no lock has an effect.
    RlbLeftOn,
    /// MML is set in the end and MMWP isn't, so that M-mode may read and write if no entry matches.
    MmwpOff,
    /// In the end an entry that isn't frozen precedes one that is, and may still take bytes from it.
    OpenBeforeLocked,
    /// In the end an entry is on and owns no byte: it matches none, or entries before it have them all.
    NeverDecides,
    /// Bytes that a mode may both write and execute in the end.
    WriteAndExecute,
    /// Bytes that S and U may use, after a single write, in a way in which they may use them neither before its
    /// publication nor after it.
    OpenBetween,
    /// A write that an entry rejects because it is frozen.
    LateWrite,
}

impl Lint {
    /// All of them, in the order of their numbers.
    pub const ALL: [Lint; 7] = [
        Lint::RlbLeftOn,
        Lint::MmwpOff,
        Lint::OpenBeforeLocked,
        Lint::NeverDecides,
        Lint::WriteAndExecute,
        Lint::OpenBetween,
        Lint::LateWrite,
    ];

    /// Returns its number, from 1.
    pub fn number(self) -> u8
        ensures { result ≡ lint_number self }
    {
        match self {
            Lint::RlbLeftOn => 1,
            Lint::MmwpOff => 2,
            Lint::OpenBeforeLocked => 3,
            Lint::NeverDecides => 4,
            Lint::WriteAndExecute => 5,
            Lint::OpenBetween => 6,
            Lint::LateWrite => 7,
        }
    }

    /// Returns its name.
    pub fn name(self) -> &'static str
        ensures { result.now ≡ lint_name self }
    {
        match self {
            Lint::RlbLeftOn => "rlb-left-on",
            Lint::MmwpOff => "mmwp-off",
            Lint::OpenBeforeLocked => "open-before-locked",
            Lint::NeverDecides => "never-decides",
            Lint::WriteAndExecute => "write-and-execute",
            Lint::OpenBetween => "open-between",
            Lint::LateWrite => "late-write",
        }
    }

    /// Returns what is so where it is found, as a sentence.
    pub fn says(self) -> &'static str
        ensures { result.now ≡ says_text self }
    {
        match self {
            Lint::RlbLeftOn => "An entry is locked and RLB is set, so that no lock has an effect.",
            Lint::MmwpOff =>
                "MML is set and MMWP isn't, so that M-mode may read and write what no entry matches.",
            Lint::OpenBeforeLocked =>
                "An entry that isn't locked stands before one that is, and may still take its bytes.",
            Lint::NeverDecides => "An entry is on and decides no byte.",
            Lint::WriteAndExecute => "A mode may both write and execute the bytes.",
            Lint::OpenBetween =>
                "After one write S-mode and U-mode may use bytes as they may neither before its publication nor after it.",
            Lint::LateWrite => "A write has no effect, since the entry is locked.",
        }
    }

    /// Returns its remedy, as a sentence.
    pub fn remedy(self) -> &'static str
        ensures { result.now ≡ remedy_text self }
    {
        match self {
            Lint::RlbLeftOn => "Clear RLB in mseccfg once the entries are locked.",
            Lint::MmwpOff => "Set MMWP in mseccfg together with MML.",
            Lint::OpenBeforeLocked =>
                "Lock this entry too, or put it behind those that are locked.",
            Lint::NeverDecides =>
                "Turn the entry off, or put it before the entries that take its bytes.",
            Lint::WriteAndExecute => "Take W or X away, or part the bytes into code and data.",
            Lint::OpenBetween =>
                "Write the entry that closes the bytes before the one that opens others.",
            Lint::LateWrite =>
                "Write the register before the entry is locked, or leave the write out.",
        }
    }

    /// Returns the lint that a word names.
    #[tactic(auto, unfolding(crate::specs::Lints::lint_named))]
    pub fn read(word: &[u8]) -> Option<Lint>
        ensures { result ≡ lint_named word.now }
    {
        Lint::ALL
            .iter()
            .copied()
            .find(|lint| lint.name().as_bytes() == word)
    }

    /// Whether each of the words, which commas separate, is `NAME` or `NAME:LINE` with a lint's name.
    pub fn are_named(words: &[u8]) -> bool
        ensures { result ≡ are_lints words.now }
    {
        words.split(|byte| *byte == b',').all(|word| NameAt::read(word).is_some_and(|it| Lint::read(
            it.name,
        ).is_some()))
    }
}
