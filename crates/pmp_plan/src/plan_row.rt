//! The rows of a plan.

ghost use Rattle.std.specs.Prelude.{◌≡◌, ◌<◌, ◌≤◌, IfOk, option_map};
ghost use Rattle.pmp_core.specs.declared.access.TheConstants.{ADDRESS_LIMIT};
ghost use Rattle.pmp_plan.specs.Fields.{Fields, fields_of, lock_said, perms_said, seen};

use pmp_core::{ADDRESS_LIMIT, Perms};
use pmp_map::ModeRights;
use pmp_names::{is_name, split_comma};
use pmp_text::{Flaw, Refusal, read_rights, read_word_number};

/// What a plan asks for a byte.
#[derive(Clone, Copy, Debug, PartialEq, Eq)]
pub struct Demand {
    /// Exactly what M-mode may do with it, and what S-mode and U-mode may do.
    pub rights: ModeRights,
    /// Whether it is held: its owner and all entries before that are frozen.
    pub is_locked: bool,
}

/// A row of a plan: what is asked for each byte from `first` to `last`.
#[derive(Clone, Copy)]
pub struct PlanRow<'a> {
    /// The byte address of the first byte.
    pub first: u64,
    /// The byte address of the last byte.
    pub last: u64,
    pub demand: Demand,
    pub name: &'a [u8],
    pub ghost ordered: { first ≤ last },
    pub ghost inside: { last < ADDRESS_LIMIT },
}

/// The fields of a line.
#[derive(Clone, Copy)]
pub struct Words<'a> {
    pub first: &'a [u8],
    pub last: &'a [u8],
    pub machine: &'a [u8],
    pub others: &'a [u8],
    pub locked: &'a [u8],
    pub name: &'a [u8],
}

/// Returns the six fields of a line; the last is all that follows the fifth comma.
#[tactic(auto, unfolding(crate::specs::Fields::fields_of))]
fn split_fields(line: &[u8]) -> Option<Words<'_>>
    ensures { option_map seen result ≡ fields_of line.now }
{
    let (first, rest) = split_comma(line)?;
    let (last, rest) = split_comma(rest)?;
    let (machine, rest) = split_comma(rest)?;
    let (others, rest) = split_comma(rest)?;
    let (locked, name) = split_comma(rest)?;
    Some(Words {
        first,
        last,
        machine,
        others,
        locked,
        name,
    })
}

fn read_perms(word: &[u8]) -> Option<Perms>
    ensures { result ≡ perms_said word.now }
{
    match read_rights(word) {
        Ok(bits) => Some(Perms::of(bits % 2 == 1, bits / 2 % 2 == 1, bits / 4 % 2 == 1)),
        Err(_) => None,
    }
}

fn read_lock(word: &[u8]) -> Option<bool>
    ensures { result ≡ lock_said word.now }
{
    match word {
        b"yes" => Some(true),
        b"no" => Some(false),
        _ => None,
    }
}

impl<'a> Words<'a> {
    ghost use Rattle.pmp_plan.specs.Fields.{bytes_said, demand_said};

    /// Returns the first and the last byte.
    #[tactic(auto, unfolding(crate::specs::Fields::bytes_said))]
    fn bytes(&self) -> Result<(u64, u64), Flaw>
        ensures said { result ≡ bytes_said (seen self.now) }
        ensures proper { IfOk result (λ bytes. (bytes.0 ≤ bytes.1) × (bytes.1 < ADDRESS_LIMIT)) }
    {
        let first = read_word_number(self.first).ok_or(Refusal::BadRow.part(0))?;
        let last = read_word_number(self.last).ok_or(Refusal::BadRow.part(1))?;
        if last < first {
            return Err(Refusal::BadRow.part(1));
        }
        if last >= ADDRESS_LIMIT {
            return Err(Refusal::PastEnd.part(1));
        }
        Ok((first, last))
    }

    /// Returns what is asked for them.
    #[tactic(auto, unfolding(crate::specs::Fields::demand_said))]
    fn demand(&self) -> Result<Demand, Flaw>
        ensures { result ≡ demand_said (seen self.now) }
    {
        let machine = read_perms(self.machine).ok_or(Refusal::BadRow.part(2))?;
        let others = read_perms(self.others).ok_or(Refusal::BadRow.part(3))?;
        let is_locked = read_lock(self.locked).ok_or(Refusal::BadRow.part(4))?;
        Ok(Demand {
            rights: ModeRights { machine, others },
            is_locked,
        })
    }
}

impl Default for PlanRow<'_> {
    fn default() -> Self {
        PlanRow {
            first: 0,
            last: 0,
            demand: Demand {
                rights: ModeRights {
                    machine: Perms::NONE,
                    others: Perms::NONE,
                },
                is_locked: false,
            },
            name: &[],
        }
    }
}

impl<'a> PlanRow<'a> {
    ghost use Rattle.pmp_plan.specs.PlanTexts.{row_said};
    ghost use Rattle.pmp_plan.specs.Plans.{is_in};
    ghost use Rattle.pmp_plan.specs.KeptRows.{said_so};

    /// Returns the row in a line, or which of its fields is at fault.
    #[tactic(auto, unfolding(crate::specs::PlanTexts::row_of_fields))]
    pub fn read(line: &'a [u8]) -> Result<PlanRow<'a>, Flaw>
        ensures { said_so result ≡ row_said line.now }
    {
        let words = split_fields(line).ok_or(Refusal::BadRow.whole())?;
        let (first, last) = words.bytes()?;
        let demand = words.demand()?;
        if !is_name(words.name) {
            return Err(Refusal::BadRow.part(5));
        }
        Ok(PlanRow {
            first,
            last,
            demand,
            name: words.name,
        })
    }

    /// Whether the byte is one of the row's.
    pub fn has(&self, byte: u64) -> bool
        ensures { result ≡ is_in byte self.now }
    {
        self.first <= byte && byte <= self.last
    }
}
