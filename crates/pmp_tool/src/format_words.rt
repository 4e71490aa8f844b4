//! The form of rows that the program's words ask for.

ghost use Rattle.std.specs.Prelude.{◌≡◌, option_map};
ghost use Rattle.clap.specs.Words.{found_of, rows_of, subcommand_rows_of};
ghost use Rattle.pmp_tool.specs.RowFormats.{asked_format_in, format_for, format_task, kind_of, takes_names};
ghost use Rattle.pmp_tool.specs.Words.{result_map};

use crate::argument::Argument;
use crate::command::{found, read_name};
use crate::command_name::CommandName;
use crate::fault_line::FaultLine;
use crate::row_format::{AskedFormat, RowFormat, check_of};
use crate::word::{asked, is_set, is_used, word};
use clap::ArgMatches;
use pmp_text::RowKind;

/// Returns the kind of a command's rows, or of most of them.
fn kind_of(name: CommandName) -> Option<RowKind>
    ensures { result ≡ kind_of name }
{
    match name {
        CommandName::Why => Some(RowKind::Reason),
        CommandName::Policy => Some(RowKind::Verdict),
        CommandName::Map => Some(RowKind::Run),
        CommandName::Entries => Some(RowKind::Entry),
        CommandName::Writes => Some(RowKind::Effect),
        CommandName::Lint => Some(RowKind::Finding),
        CommandName::Diff | CommandName::Harts => Some(RowKind::Rights),
        _ => None,
    }
}

/// Whether names of addresses stand in such rows, if the words ask for names.
fn takes_names(kind: RowKind) -> bool
    ensures { result ≡ takes_names kind }
{
    !matches!(kind, RowKind::Reason | RowKind::Effect)
}

/// Returns the form that the words ask for, if that isn't the rows' own.
pub fn asked_format<'a>(matches: &ArgMatches<'a>) -> Result<Option<AskedFormat<'a>>, FaultLine>
    ensures { result_map (option_map format_task) result ≡ asked_format_in (subcommand_rows_of matches.now) }
{
    let Some((name, words)) = found(matches) else {
        return Ok(None);
    };
    let Some(format) = asked(words, Argument::AsFormat)? else {
        return Ok(None);
    };
    let Some(kind) = read_name(name).and_then(kind_of) else {
        return Ok(None);
    };
    let Some(script) = word(words, Argument::Script) else {
        return Ok(None);
    };
    format_for(format, kind, script, words)
}

/// Returns this form for rows of this kind, if it serves for them.
fn format_for<'a>(
    format: RowFormat,
    kind: RowKind,
    script: &'a str,
    words: &ArgMatches<'a>,
) -> Result<Option<AskedFormat<'a>>, FaultLine>
    ensures { result_map (option_map format_task) result
        ≡ format_for format kind script.now (rows_of (found_of words.now)) }
{
    if matches!(format, RowFormat::Junit | RowFormat::Sarif) && check_of(kind).is_none() {
        return Err(FaultLine::of_word(Argument::AsFormat));
    }
    Ok(Some(AskedFormat {
        format,
        kind,
        has_names: takes_names(kind) && is_used(words, Argument::Names),
        has_events: is_set(words, Argument::EachWrite),
        script,
        policy: word(words, Argument::Policy).unwrap_or(""),
    }))
}
