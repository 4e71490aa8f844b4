//! The contents of one record of a policy.

ghost use Rattle.std.specs.Prelude.{◌≡◌, ◌≤◌, IfOk, IfErr, None, Ok, Some, option_map};
ghost use Rattle.std.specs.List.{list_any};
ghost use Rattle.csv.specs.Records.{fields_of};
ghost use Rattle.pmp_text.specs.Policies.{
  accesses_said,
  bytes_said,
  is_control,
  is_labeled_header,
  is_plain_header,
  moments_said,
  names_seven,
  nine_fields,
  policy_fields,
  policy_fields_fault,
  policy_in,
  policy_of_fields,
  policy_of_nine,
  policy_row_fault,
  seven_fields,
};
ghost use Rattle.pmp_text.specs.Steps.Views.{seen_nine, seen_seven, seven_from};

use crate::flaw::Flaw;
use crate::moments::{Asked, Coming, Moments};
use crate::numbers::{is_bare, read_word_number};
use crate::policy::words::{read_at_least, read_demand, read_kinds, read_modes};
use crate::policy::{Demand, Kinds, Modes, PolicyRow};
use crate::refusal::Refusal;
use crate::words::is_word;
use csv::ByteRecord;
use pmp_core::ADDRESS_LIMIT;

/// The index of a row's name in a flaw. The fields from `from` to `demand` have the indices 0 to 6, with or without a
/// name and a comment around them.
pub const NAME: usize = 7;

/// The index of a row's comment in a flaw.
pub const COMMENT: usize = 8;

/// What the seven fields of a row say, valid or not: its publications, modes, kinds, byte addresses and demand. In a
/// row whose moments don't come `from` and `to` are the number of all publications.
#[derive(Clone, Copy, Debug, PartialEq, Eq)]
pub struct PolicyFields {
    pub from: u64,
    pub to: u64,
    pub modes: Modes,
    pub kinds: Kinds,
    pub first: u64,
    pub last: u64,
    pub demand: Demand,
    /// Whether the moments that it names come.
    pub coming: Coming,
    /// Whether `first` or `last` is 14 digits without `0x`.
    pub is_bare: bool,
}

/// The seven fields of a record.
#[derive(Clone, Copy)]
pub struct Words<'a> {
    pub from: &'a [u8],
    pub to: &'a [u8],
    pub modes: &'a [u8],
    pub kind: &'a [u8],
    pub first: &'a [u8],
    pub last: &'a [u8],
    pub demand: &'a [u8],
}

/// The nine fields of a record: a name, the seven and a comment.
#[derive(Clone, Copy)]
pub struct LabeledWords<'a> {
    pub name: &'a [u8],
    pub words: Words<'a>,
    pub comment: &'a [u8],
}

/// Returns seven fields of a record, from the one with this index on.
#[tactic(auto, unfolding(crate::specs::Policies::seven_fields))]
fn words_from(fields: &ByteRecord, first: usize) -> Option<Words<'_>>
    requires { first ≤ 1 }
    ensures { option_map seen_seven result ≡ seven_from (fields_of fields.now) first }
{
    Some(Words {
        from: fields.get(first)?,
        to: fields.get(first + 1)?,
        modes: fields.get(first + 2)?,
        kind: fields.get(first + 3)?,
        first: fields.get(first + 4)?,
        last: fields.get(first + 5)?,
        demand: fields.get(first + 6)?,
    })
}

/// Returns the fields of a record that has seven.
#[tactic(auto, using(crate::proofs::Fields::by_seven_places))]
fn seven_fields(fields: &ByteRecord) -> Option<Words<'_>>
    ensures { option_map seen_seven result ≡ seven_fields (fields_of fields.now) }
{
    if fields.get(7).is_some() {
        return None;
    }
    words_from(fields, 0)
}

/// Returns the fields of a record that has nine.
#[tactic(auto, using(crate::proofs::Fields::by_nine_places))]
pub fn nine_fields(fields: &ByteRecord) -> Option<LabeledWords<'_>>
    ensures { option_map seen_nine result ≡ nine_fields (fields_of fields.now) }
{
    if fields.get(9).is_some() {
        return None;
    }
    Some(LabeledWords {
        name: fields.get(0)?,
        words: words_from(fields, 1)?,
        comment: fields.get(8)?,
    })
}

/// Whether a record is the header of rows without names and comments.
pub fn is_plain_header(fields: &ByteRecord) -> bool
    ensures { result ≡ is_plain_header (fields_of fields.now) }
{
    seven_fields(fields).is_some_and(|words| words.are_names())
}

/// Whether a record is the header of rows with names and comments.
pub fn is_labeled_header(fields: &ByteRecord) -> bool
    ensures { result ≡ is_labeled_header (fields_of fields.now) }
{
    let Some(all) = nine_fields(fields) else {
        return false;
    };
    is_word(all.name, b"name") && all.words.are_names() && is_word(all.comment, b"comment")
}

/// Whether a text has a control byte, which no name or comment may have.
fn has_control(text: &[u8]) -> bool
    ensures { result ≡ list_any is_control text.now }
{
    text.iter().any(|byte| matches!(*byte, 0..=31 | 127))
}

impl Words<'_> {
    /// Whether they are the names of the fields.
    fn are_names(self) -> bool
        ensures { result ≡ names_seven (seen_seven self.entry) }
    {
        is_word(self.from, b"from")
            && is_word(self.to, b"to")
            && is_word(self.modes, b"modes")
            && is_word(self.kind, b"kind")
            && is_word(self.first, b"first")
            && is_word(self.last, b"last")
            && is_word(self.demand, b"demand")
    }

    /// Returns the first and the last moment.
    #[tactic(auto, unfolding(crate::specs::Policies::moments_said))]
    fn moments(self, moments: &Moments<'_>) -> Result<Asked, Flaw>
        ensures said { result ≡ moments_said moments.now (seen_seven self.entry) }
        ensures forward { IfOk result (λ said. said.from ≤ moments.now.publications → said.from ≤ said.to) }
    {
        let from = moments.read(self.from).map_err(|kind| kind.part(0))?;
        let to = moments.read_to(from, self.to).map_err(|kind| kind.part(1))?;
        Ok(moments.between(from, to))
    }

    /// Returns the modes and the kinds.
    #[tactic(auto, unfolding(crate::specs::Policies::accesses_said))]
    fn accesses(self) -> Result<(Modes, Kinds), Flaw>
        ensures { result ≡ accesses_said (seen_seven self.entry) }
    {
        let modes = read_modes(self.modes).ok_or(Refusal::BadRow.part(2))?;
        let kinds = read_kinds(self.kind).ok_or(Refusal::BadRow.part(3))?;
        Ok((modes, kinds))
    }

    /// Returns the first and the last byte.
    #[tactic(auto, unfolding(crate::specs::Policies::bytes_said))]
    fn bytes(self) -> Result<(u64, u64), Flaw>
        ensures said { result ≡ bytes_said (seen_seven self.entry) }
        ensures ordered { IfOk result (λ said. said.0 ≤ said.1) }
    {
        let first = read_word_number(self.first).ok_or(Refusal::BadRow.part(4))?;
        let last = read_at_least(first, self.last).ok_or(Refusal::BadRow.part(5))?;
        Ok((first, last))
    }
}

impl LabeledWords<'_> {
    /// Returns what they say as a row, or which of them is invalid.
    #[tactic(auto, unfolding(crate::specs::Policies::policy_of_nine))]
    fn row(self, moments: &Moments<'_>) -> Result<PolicyFields, Flaw>
        ensures said { result ≡ policy_of_nine moments.now (seen_nine self.entry) }
        ensures forward { IfOk result (λ row. row.from ≤ moments.now.publications → row.from ≤ row.to) }
        ensures ordered { IfOk result (λ row. row.first ≤ row.last) }
    {
        if has_control(self.name) {
            return Err(Refusal::BadRow.part(NAME));
        }
        let row = PolicyFields::of_words(self.words, moments)?;
        if has_control(self.comment) {
            return Err(Refusal::BadRow.part(COMMENT));
        }
        Ok(row)
    }
}

impl PolicyFields {
    /// Returns what a record says as a row for a script with these moments, perhaps with a name and a comment, or which
    /// field is invalid.
    pub fn read(
        labeled: bool,
        fields: &ByteRecord,
        moments: &Moments<'_>,
    ) -> Result<PolicyFields, Flaw>
        ensures said { result ≡ policy_in labeled moments.now (fields_of fields.now) }
        ensures forward { IfOk result (λ row. row.from ≤ moments.now.publications → row.from ≤ row.to) }
        ensures ordered { IfOk result (λ row. row.first ≤ row.last) }
    {
        if labeled {
            let all = nine_fields(fields).ok_or(Refusal::BadRow.whole())?;
            all.row(moments)
        } else {
            let words = seven_fields(fields).ok_or(Refusal::BadRow.whole())?;
            PolicyFields::of_words(words, moments)
        }
    }

    /// Returns what seven fields say, or which one is invalid.
    #[tactic(auto, unfolding(crate::specs::Policies::policy_of_fields))]
    fn of_words(words: Words<'_>, moments: &Moments<'_>) -> Result<PolicyFields, Flaw>
        ensures said { result ≡ policy_of_fields moments.now (seen_seven words.entry) }
        ensures forward { IfOk result (λ row. row.from ≤ moments.now.publications → row.from ≤ row.to) }
        ensures ordered { IfOk result (λ row. row.first ≤ row.last) }
    {
        let Asked { from, to, coming } = words.moments(moments)?;
        let (modes, kinds) = words.accesses()?;
        let (first, last) = words.bytes()?;
        let demand = read_demand(words.demand).ok_or(Refusal::BadRow.part(6))?;
        Ok(PolicyFields {
            from,
            to,
            modes,
            kinds,
            first,
            last,
            demand,
            coming,
            is_bare: is_bare(words.first) || is_bare(words.last),
        })
    }

    /// Returns the row, for a script with the given number of publications, if neither range ends before it begins.
    pub(crate) fn check(self, publications: u64) -> Result<PolicyRow, Flaw>
        requires forward { self.from ≤ publications → self.from ≤ self.to }
        requires ordered { self.first ≤ self.last }
        ensures ok { IfOk result (λ row.
            (policy_fields_fault publications self ≡ None) × (policy_fields row ≡ self)) }
        ensures within { IfOk result (λ row. row.to ≤ publications) }
        ensures err { IfErr result (λ flaw. policy_fields_fault publications self ≡ Some flaw) }
    {
        if self.from > publications {
            return Err(Refusal::BadAfter.part(0));
        }
        if self.to > publications {
            return Err(Refusal::BadAfter.part(1));
        }
        if self.last >= ADDRESS_LIMIT {
            return Err(Refusal::PastEnd.part(5));
        }
        Ok(PolicyRow {
            from: self.from,
            to: self.to,
            modes: self.modes,
            kinds: self.kinds,
            first: self.first,
            last: self.last,
            demand: self.demand,
            coming: self.coming,
            is_bare: self.is_bare,
        })
    }
}

/// Returns the row of a record, perhaps with a name and a comment, for a script with these moments.
pub fn read_policy_row(
    labeled: bool,
    fields: &ByteRecord,
    moments: &Moments<'_>,
) -> Result<PolicyRow, Flaw>
    ensures ok { IfOk result (λ row.
        (policy_in labeled moments.now (fields_of fields.now) ≡ Ok (policy_fields row))
        × (policy_row_fault moments.now.publications (policy_in labeled moments.now (fields_of fields.now)) ≡ None)) }
    ensures within { IfOk result (λ row. row.to ≤ moments.now.publications) }
    ensures err { IfErr result (λ flaw. policy_row_fault moments.now.publications
        (policy_in labeled moments.now (fields_of fields.now)) ≡ Some flaw) }
{
    PolicyFields::read(labeled, fields, moments)?.check(moments.publications)
}
