//! A log of any length: its survey, and its script.

ghost use Rattle.std.specs.Prelude.{IfErr, IfOk, OnOk};
ghost use Rattle.pmp_import.specs.Imports.{CantImport, CantSurvey, IsImported, IsSurveyed};

use crate::fault::{at, stop};
use crate::format::Format;
use crate::given::Given;
use crate::importer::Importer;
use crate::survey::Survey;
use pmp_text::{Cut, Fault, Refusal, cut_lines, write_out};
use std::alloc::Global;
use std::io::{Read, Write};

/// The greatest length of the lines that are read at a time, and so of a line, in bytes.
pub const MOST_LINES: usize = 1 << 16;

/// Returns the survey of a log of any length, if this hart is asked for.
pub fn survey_log<R: Read>(
    alloc: Global,
    format: Format,
    hart: Option<u64>,
    reader: &mut R,
) -> Result<Survey, Fault>
    ensures ok { IfOk result (IsSurveyed format hart (R.remaining reader.old)) }
    ensures err { IfErr result (CantSurvey format hart (R.remaining reader.old)) }
{
    let mut survey = Survey::new(hart);
    let mut held = Vec::new(alloc);
    for _count in 0..u64::MAX {
        match cut_lines(alloc, reader, &mut held, MOST_LINES) {
            Ok(Cut::Front(piece)) => survey.take_lines(format, &piece)?,
            Ok(Cut::Last(piece)) => {
                survey.take_lines(format, &piece)?;
                return Ok(survey);
            }
            Err(fault) => return Err(stop(survey.line, fault)),
        }
    }
    Err(at(survey.line, Refusal::TooLong))
}

/// Writes the script of a log of any length, in memory for `MOST_LINES` bytes of it and what they give.
///
/// The script of the lines that are read at a time is written before others are read, so a refusal may come after a
/// part of the script.
pub fn import<R: Read, W: Write>(
    alloc: Global,
    given: Given,
    reader: &mut R,
    writer: &mut W,
) -> Result<(), Fault>
    ensures ok { OnOk result (IsImported given (R.remaining reader.old) (W.contents writer.old) (W.contents writer.new)) }
    ensures err { IfErr result (CantImport given (R.remaining reader.old) (W.contents writer.old) (W.contents writer.new)) }
{
    let mut importer = Importer::new(given);
    let mut text = Vec::new(alloc);
    importer.begin(&mut text)?;
    let mut held = Vec::new(alloc);
    for _count in 0..u64::MAX {
        match cut_lines(alloc, reader, &mut held, MOST_LINES) {
            Ok(Cut::Front(piece)) => {
                importer.take_lines(&mut text, &piece)?;
                write_out(writer, &text)?;
                text.clear();
            }
            Ok(Cut::Last(piece)) => {
                importer.take_lines(&mut text, &piece)?;
                importer.end(&mut text)?;
                return Ok(write_out(writer, &text)?);
            }
            Err(fault) => return Err(stop(importer.walk.line, fault)),
        }
    }
    Err(at(importer.walk.line, Refusal::TooLong))
}
