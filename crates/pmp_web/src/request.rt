//! The page's questions, as numbers: an access, a view, a log format, or a row of a policy.

ghost use Rattle.std.specs.Prelude.{◌≡◌, IfErr, IfOk};
ghost use Rattle.pmp_web.specs.Demand.{demand_of, kinds_of, modes_of, pace_of, question_of};
ghost use Rattle.pmp_map.specs.Request.{IsNamed};
ghost use Rattle.pmp_web.specs.Request.{NamesNone, format_of, row_kind_of, shown_by};

use crate::rooms::Demand;
use pmp_audit::{Listing, Pace, View};
use pmp_core::{Access, Kind};
use pmp_import::Format;
use pmp_map::{kind_of, mode_of};
use pmp_text::{Coming, Kinds, Modes, PolicyFields, Refusal, RowKind};

/// Returns the access that these numbers name.
pub fn access_of(mode: u32, kind: u32, start: u64, length: u64) -> Result<Access, Refusal>
    ensures ok { IfOk result (λ access. IsNamed access mode kind start length) }
    ensures err { IfErr result (NamesNone mode kind start length) }
{
    let (Some(mode), Some(kind)) = (mode_of(mode), kind_of(kind)) else {
        return Err(Refusal::BadWord);
    };
    Ok(Access::new(mode, kind, start, length)?)
}

/// What is shown of a register file: rows, or a text.
#[derive(Clone, Copy)]
pub enum Shown {
    Rows(Listing),
    Text(View),
}

/// Returns what a number names of a register file.
pub fn shown_by(number: u32) -> Option<Shown>
    ensures { result ≡ shown_by number }
{
    match number {
        0 => Some(Shown::Rows(Listing::Runs)),
        1 => Some(Shown::Text(View::Picture)),
        2 => Some(Shown::Rows(Listing::Entries)),
        3 => Some(Shown::Text(View::Registers)),
        _ => None,
    }
}

/// Returns the kind of rows that a number names.
pub fn row_kind_of(number: u32) -> Option<RowKind>
    ensures { result ≡ row_kind_of number }
{
    match number {
        0 => Some(RowKind::Run),
        1 => Some(RowKind::Entry),
        2 => Some(RowKind::Effect),
        3 => Some(RowKind::Verdict),
        4 => Some(RowKind::Finding),
        5 => Some(RowKind::Rights),
        6 => Some(RowKind::Reason),
        7 => Some(RowKind::Answer),
        _ => None,
    }
}

/// Returns the log format that a number names.
pub fn format_of(number: u32) -> Option<Format>
    ensures { result ≡ format_of number }
{
    match number {
        0 => Some(Format::Qemu),
        1 => Some(Format::Gdb),
        2 => Some(Format::OpenOcd),
        3 => Some(Format::Spike),
        4 => Some(Format::Dump),
        _ => None,
    }
}

/// A row of a policy that is asked about, with its number.
#[derive(Clone, Copy)]
pub struct Question {
    pub pace: Pace,
    pub number: u64,
    pub fields: PolicyFields,
}

fn modes_of(number: u32) -> Option<Modes>
    ensures { result ≡ modes_of number }
{
    if number == 0 || number > 15 || number / 4 % 2 == 1 {
        return None;
    }
    Some(Modes {
        machine: number / 8 % 2 == 1,
        supervisor: number / 2 % 2 == 1,
        user: number % 2 == 1,
    })
}

fn kinds_of(number: u32) -> Option<Kinds>
    ensures { result ≡ kinds_of number }
{
    match number {
        0 => Some(Kinds::One(Kind::Fetch)),
        1 => Some(Kinds::One(Kind::Load)),
        2 => Some(Kinds::One(Kind::Store)),
        3 => Some(Kinds::Any),
        _ => None,
    }
}

fn demand_of(number: u32) -> Option<pmp_text::Demand>
    ensures { result ≡ demand_of number }
{
    match number {
        0 => Some(pmp_text::Demand::Never),
        1 => Some(pmp_text::Demand::Always),
        2 => Some(pmp_text::Demand::Held),
        _ => None,
    }
}

fn pace_of(number: u32) -> Option<Pace>
    ensures { result ≡ pace_of number }
{
    match number {
        0 => Some(Pace::Publications),
        1 => Some(Pace::Events),
        _ => None,
    }
}

/// Returns the row that these numbers name.
pub fn question_of(room: &Demand) -> Option<Question>
    ensures { result ≡ question_of room.now }
{
    Some(Question {
        pace: pace_of(room.pace)?,
        number: room.number,
        fields: PolicyFields {
            from: room.from,
            to: room.to,
            modes: modes_of(room.modes)?,
            kinds: kinds_of(room.kind)?,
            first: room.first,
            last: room.last,
            demand: demand_of(room.demand)?,
            coming: Coming::Met,
            is_bare: false,
        },
    })
}
