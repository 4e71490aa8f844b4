//! Policies: what the rows of a text demand.

ghost use Rattle.std.specs.Prelude.{◌≡◌, ◌<◌, ◌≤◌};
ghost use Rattle.pmp_core.specs.declared.access.TheConstants.{ADDRESS_LIMIT};

mod label;
mod reader;
mod row_fields;
mod words;

use crate::flaw::Flaw;
use crate::moments::Coming;
use crate::refusal::Refusal;
pub use label::Label;
use pmp_core::{Kind, Mode};
pub use reader::read_policy;
pub use row_fields::{COMMENT, NAME, PolicyFields};

/// The demand on the bytes of a row. A byte is open to a mode and a kind if the access of that one byte is allowed.
#[derive(Clone, Copy, Debug, PartialEq, Eq)]
pub enum Demand {
    /// None of them is ever open to one of the modes by one of the kinds.
    Never,
    /// Each of them is always open to each of the modes by each of the kinds.
    Always,
    /// As `Never`, and in the end no list of writes opens one: its owner and all entries before it are frozen, or,
    /// without an owner, all entries are.
    Held,
}

/// The kinds of access that a row is about.
#[derive(Clone, Copy, Debug, PartialEq, Eq)]
pub enum Kinds {
    /// This one.
    One(Kind),
    /// Each of the three.
    Any,
}

/// The modes that a row is about.
#[derive(Clone, Copy, Debug, PartialEq, Eq)]
pub struct Modes {
    pub machine: bool,
    pub supervisor: bool,
    pub user: bool,
}

impl Modes {
    ghost use Rattle.pmp_text.specs.Policies.{has_mode};

    /// Whether the mode is one of these.
    pub fn has(self, mode: Mode) -> bool
        ensures { result ≡ has_mode self mode }
    {
        match mode {
            Mode::M => self.machine,
            Mode::S => self.supervisor,
            Mode::U => self.user,
        }
    }
}

impl Kinds {
    ghost use Rattle.pmp_text.specs.Policies.{has_kind};

    /// Whether the kind is one of these.
    pub fn has(self, kind: Kind) -> bool
        ensures { result ≡ has_kind self kind }
    {
        match self {
            Kinds::One(one) => one == kind,
            Kinds::Any => true,
        }
    }
}

/// A row of a policy: a demand on accesses of these modes and kinds to the bytes from `first` to `last`, after `from`
/// publications of the script and after each further one up to `to`. Its ghost fields say that neither range ends
/// before it begins, and that each byte is in physical memory.
#[derive(Clone, Copy, Debug, PartialEq, Eq)]
pub struct PolicyRow {
    /// The smallest number of publications that are done.
    pub from: u64,
    /// The greatest number of publications that are done.
    pub to: u64,
    pub modes: Modes,
    pub kinds: Kinds,
    /// The byte address of the first byte.
    pub first: u64,
    /// The byte address of the last byte.
    pub last: u64,
    pub demand: Demand,
    /// Whether the moments that it names come. If they don't, it asks about none.
    pub coming: Coming,
    /// Whether `first` or `last` is 14 digits without `0x`: a decimal number, though rows write hexadecimal.
    pub is_bare: bool,
    pub ghost forward: { from ≤ to },
    pub ghost ordered: { first ≤ last },
    pub ghost inside: { last < ADDRESS_LIMIT },
}

/// The rows of a policy.
#[derive(Drop)]
pub struct Policy {
    pub rows: Vec<PolicyRow>,
    /// The label of each row, or none if the header has neither names nor comments.
    pub labels: Vec<Label>,
}

impl PolicyRow {
    ghost use Rattle.std.specs.Prelude.{IfErr, IfOk, None, Some};
    ghost use Rattle.pmp_text.specs.Policies.{policy_fields, proper_fields_fault};

    /// Returns the row that these fields form for a script with the given number of publications. `BadRow` if `to` or
    /// `last` lies before its beginning, then `BadAfter` if there are fewer publications, then `PastEnd` if `last` is
    /// no byte.
    pub fn new(publications: u64, fields: PolicyFields) -> Result<PolicyRow, Flaw>
        ensures ok { IfOk result (λ row.
            (proper_fields_fault publications fields ≡ None) × (policy_fields row ≡ fields)) }
        ensures within { IfOk result (λ row. row.to ≤ publications) }
        ensures err { IfErr result (λ flaw. proper_fields_fault publications fields ≡ Some flaw) }
    {
        if fields.to < fields.from {
            return Err(Refusal::BadRow.part(1));
        }
        if fields.last < fields.first {
            return Err(Refusal::BadRow.part(5));
        }
        fields.check(publications)
    }
}
