//! The requests that words make.

ghost use Rattle.std.specs.Prelude.{◌≡◌, ℕ, ◌≤◌, None, Some};
ghost use Rattle.pmp_core.specs.Hart.{hart_fault};
ghost use Rattle.pmp_share.specs.declared.opening.TheConstants.{CHECKERS};

use crate::expected::Expected;
use pmp_audit::{AskedChanges, AskedVerdicts, Listing, View};
use pmp_core::{Access, Profile};
use pmp_import::{Format, Options};
use pmp_plan::Wanted;
use pmp_share::CHECKERS;
use pmp_text::When;

/// The decision on an access.
#[derive(Clone, Copy)]
pub struct Check {
    pub access: Access,
    /// When it is decided, unless after all publications.
    pub after: Option<When>,
    pub expected: Expected,
    /// Whether the word START has 14 digits and no `0x`.
    pub is_bare: bool,
}

/// The reason why an access is decided as it is.
#[derive(Clone, Copy)]
pub struct Why {
    pub access: Access,
    /// When it is decided, unless after all publications.
    pub after: Option<When>,
    /// Whether the word START has 14 digits and no `0x`.
    pub is_bare: bool,
}

/// An audit of a trace that is read as a whole.
#[derive(Clone, Copy)]
pub struct Audit<'a> {
    /// The path of the trace.
    pub trace: &'a str,
    /// How many checkers decide its rows, if that is given.
    pub checkers: Option<u64>,
    ghost few: { (count : ℕ) → checkers ≡ Some count → (1 ≤ count) × (count ≤ CHECKERS) },
}

/// An audit of a trace of any length, piece by piece.
#[derive(Clone, Copy)]
pub struct LongAudit<'a> {
    /// The path of the script.
    pub script: &'a str,
    /// The path of the trace.
    pub trace: &'a str,
    /// How many jobs run at a time, if that is given.
    pub jobs: Option<u64>,
    /// The number of the first row.
    pub first: u64,
}

/// A policy whose rows are judged.
#[derive(Clone, Copy)]
pub struct Policy<'a> {
    /// The path of the policy.
    pub path: &'a str,
    pub asked: AskedVerdicts,
    /// Whether it must have a row.
    pub is_strict: bool,
}

/// A script made from the log of a simulator or a debugger.
#[derive(Clone, Copy)]
pub struct Import<'a> {
    /// The path of the log.
    pub log: &'a str,
    pub format: Format,
    pub options: Options,
    /// The path of the folder that is created for the scripts of all harts, if that is asked for.
    pub folder: Option<&'a str>,
}

/// A comparison with a new script.
#[derive(Clone, Copy)]
pub struct Diff<'a> {
    /// The path of the new script.
    pub new: &'a str,
    /// When the old script is examined, unless after all its publications.
    pub old_after: Option<When>,
    /// When the new one is examined.
    pub new_after: Option<When>,
    /// The wanted rows.
    pub changes: AskedChanges,
}

/// The writes for a plan.
#[derive(Clone, Copy)]
pub struct Plan<'a> {
    /// The path of the plan.
    pub plan: &'a str,
    /// The path of the script that leaves the registers they begin with, unless they follow a reset.
    pub from: Option<&'a str>,
    /// The hart that they are for after a reset.
    pub hart: Profile,
    pub wanted: Wanted,
    ghost made: { hart_fault hart ≡ None },
}

/// A question about a script, which rows answer.
#[derive(Clone, Copy)]
pub enum Question<'a> {
    Check(Check),
    Why(Why),
    Audit(Audit<'a>),
    Policy(Policy<'a>),
    /// What is listed, and when, unless after all publications.
    List(Listing, Option<When>),
    /// The effect of each write, and the reasons that are accepted, separated by commas.
    Writes(&'a str),
    /// The findings in it, and the names of those that are accepted, separated by commas.
    Lint(&'a str),
    Diff(Diff<'a>),
}

/// A view of a script's registers.
#[derive(Clone, Copy)]
pub struct Show<'a> {
    /// The path of the script.
    pub script: &'a str,
    pub view: View,
    /// When, unless after all publications.
    pub after: Option<When>,
}

/// A request whose answer is printed at once, with the paths of its inputs.
#[derive(Clone, Copy)]
pub enum Printed<'a> {
    /// A question about a script, or about each script of a folder, one for each hart.
    Ask(&'a str, Question<'a>),
    /// The differences between the harts of a folder, and whether those of their locks too.
    Harts(&'a str, bool),
    Show(Show<'a>),
    Plan(Plan<'a>),
    /// The plan that a script's registers implement.
    PlanOf(&'a str),
    /// The policy of what is closed after a script's last publication.
    PolicyFrom(&'a str),
}

/// A request.
#[derive(Clone, Copy)]
pub enum Request<'a> {
    Print(Printed<'a>),
    LongAudit(LongAudit<'a>),
    Import(Import<'a>),
}
