//! What a line of a script says.

ghost use Rattle.std.specs.Prelude.{◌≡◌, Err, IfErr, IfOk, Ok};
ghost use Rattle.pmp_text.specs.Heads.{is_same};
ghost use Rattle.pmp_text.specs.Lines.{words};
ghost use Rattle.pmp_text.specs.Statements.{assignment, statement_of, head_statement, two_of};
ghost use Rattle.pmp_text.specs.Statements.{name_of, publish_statement, without_operands};

use crate::flaw::Flaw;
use crate::mark::Name;
use crate::names::read_register;
use crate::numbers::read_word_number;
use crate::refusal::Refusal;
use crate::script::hart_field::{HartField, read_field};
use crate::script::version::Version;
use crate::script::words::Words;
use crate::words::is_word;
use pmp_core::{Csr, Event};

/// A line after a script's first one.
#[derive(Clone, Copy)]
pub enum Statement {
    /// The event joins the open batch.
    Event(Event),
    /// The open batch becomes a publication, and an empty one is opened. The moment after it may have a name.
    Publish(Option<Name>),
    /// The moment here has a name.
    Mark(Name),
    /// A line of the head.
    Head(HeadStatement),
    /// The register has this value.
    Expect(Csr, u64),
}

/// A line of a head.
#[derive(Clone, Copy)]
pub enum HeadStatement {
    Hart(HartField),
    /// The register has this value before the first event.
    Set(Csr, u64),
}

impl Default for HeadStatement {
    fn default() -> Self {
        HeadStatement::Set(Csr::Mseccfg, 0)
    }
}

impl HeadStatement {
    /// Whether the other says the same field of the hart, or sets the same register.
    pub fn is_same(self, other: HeadStatement) -> bool
        ensures { result ≡ is_same self other }
    {
        match (self, other) {
            (HeadStatement::Hart(field), HeadStatement::Hart(other)) => field.is_same(other),
            (HeadStatement::Set(register, _), HeadStatement::Set(other, _)) => register == other,
            _ => false,
        }
    }
}

/// Returns two operands, if there are no more.
fn read_two<'a>(mut operands: Words<'a>) -> Result<(&'a [u8], &'a [u8]), Flaw>
    ensures ok { IfOk result (λ two. two_of (words operands.entry.rest.now) ≡ Ok (two.0.now, two.1.now)) }
    ensures err { IfErr result (λ flaw. two_of (words operands.entry.rest.now) ≡ Err flaw) }
{
    let (Some(name), Some(value)) = (operands.next(), operands.next()) else {
        return Err(Refusal::BadLine.whole());
    };
    match operands.next() {
        Some(_) => Err(Refusal::BadLine.part(3)),
        None => Ok((name, value)),
    }
}

/// Returns a register and a value.
pub(super) fn read_assignment(version: Version, operands: Words) -> Result<(Csr, u64), Flaw>
    ensures { result ≡ assignment version (words operands.entry.rest.now) }
{
    let (name, value) = read_two(operands)?;
    let csr = read_register(version.has_rv32(), name).map_err(|kind| kind.part(1))?;
    let value = read_word_number(value).ok_or(Refusal::BadNumber.part(2))?;
    Ok((csr, value))
}

/// Returns the statement, if no word is left after it.
fn without_operands(statement: Statement, mut operands: Words) -> Result<Statement, Flaw>
    ensures { result ≡ without_operands statement (words operands.entry.rest.now) }
{
    match operands.next() {
        Some(_) => Err(Refusal::BadLine.part(1)),
        None => Ok(statement),
    }
}

/// Returns a moment's name, if there is one and nothing more.
fn read_name(mut operands: Words) -> Result<Option<Name>, Flaw>
    ensures { result ≡ name_of (words operands.entry.rest.now) }
{
    let Some(word) = operands.next() else {
        return Ok(None);
    };
    match operands.next() {
        Some(_) => Err(Refusal::BadLine.part(2)),
        None => Name::read(word).map(Some).ok_or(Refusal::BadMark.part(1)),
    }
}

/// Returns what a `publish` line says.
fn read_publish(version: Version, operands: Words) -> Result<Statement, Flaw>
    ensures { result ≡ publish_statement version (words operands.entry.rest.now) }
{
    match version {
        Version::Sized(_) => without_operands(Statement::Publish(None), operands),
        Version::Headed => Ok(Statement::Publish(read_name(operands)?)),
    }
}

/// Returns what a line says that only version 3 has.
fn read_head_statement(word: &[u8], operands: Words) -> Result<Statement, Flaw>
    ensures { result ≡ head_statement word.now (words operands.entry.rest.now) }
{
    if is_word(word, b"hart") {
        read_two(operands)
            .and_then(|(name, value)| read_field(name, value))
            .map(|field| Statement::Head(HeadStatement::Hart(field)))
    } else if is_word(word, b"set") {
        read_assignment(Version::Headed, operands).map(|(csr, value)| Statement::Head(
            HeadStatement::Set(csr, value),
        ))
    } else if is_word(word, b"expect") {
        read_assignment(Version::Headed, operands).map(|(csr, value)| Statement::Expect(csr, value))
    } else if is_word(word, b"mark") {
        let name = read_name(operands)?.ok_or(Refusal::BadLine.whole())?;
        Ok(Statement::Mark(name))
    } else {
        Err(Refusal::BadLine.part(0))
    }
}

/// Returns what a significant line says that isn't the first one.
#[tactic(auto, unfolding(crate::specs::Statements::statement_of))]
pub fn read_statement(version: Version, line: &[u8]) -> Result<Statement, Flaw>
    ensures { result ≡ statement_of version (words line.now) }
{
    let mut words = Words::new(line);
    let Some(word) = words.next() else {
        return Err(Refusal::BadLine.whole());
    };
    if is_word(word, b"write") {
        read_assignment(version, words).map(|(csr, value)| Statement::Event(Event::Write(
            csr, value,
        )))
    } else if is_word(word, b"reset") {
        without_operands(Statement::Event(Event::Reset), words)
    } else if is_word(word, b"publish") {
        read_publish(version, words)
    } else {
        match version {
            Version::Sized(_) => Err(Refusal::BadLine.part(0)),
            Version::Headed => read_head_statement(word, words),
        }
    }
}
