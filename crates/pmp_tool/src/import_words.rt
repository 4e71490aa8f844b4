//! The request for a log's script that the program's words make.

ghost use Rattle.std.specs.Prelude.{◌≡◌, option_map};
ghost use Rattle.clap.specs.Words.{found_of, rows_of};
ghost use Rattle.pmp_tool.specs.Commands.{folder_in, format_in, import_in, options_in, options_with, task_of};
ghost use Rattle.pmp_tool.specs.Words.{result_map};

use crate::argument::Argument;
use crate::command::path;
use crate::fault_line::FaultLine;
use crate::request::{Import, Request};
use crate::word::{Smepmp, Xlen, asked, is_set, word};
use clap::ArgMatches;
use pmp_import::{Format, Options};
use pmp_text::Refusal;

fn read_format(words: &ArgMatches) -> Result<Format, FaultLine>
    ensures { result ≡ format_in (rows_of (found_of words.now)) }
{
    let word = path(words, Argument::Format)?;
    match Format::named(word.as_bytes()) {
        Some(format) => Ok(format),
        None => Err(FaultLine::about(Argument::Format, Refusal::BadFormat)),
    }
}

/// Returns the options for a hart with this XLEN and these numbers.
fn read_options_with(
    words: &ArgMatches,
    xlen: Option<Xlen>,
    hart: Option<u64>,
    entries: Option<u64>,
) -> Result<Options, FaultLine>
    ensures { result ≡ options_with xlen hart entries (rows_of (found_of words.now)) }
{
    let grain = asked(words, Argument::Grain)?;
    let bits = asked(words, Argument::AddressBits)?;
    let smepmp = asked::<Smepmp>(words, Argument::Smepmp)?;
    Ok(Options {
        hart,
        is_rv32: xlen.map(|said| said.is_rv32),
        entries,
        grain,
        bits,
        has_smepmp: smepmp.map(|said| said.is_there).unwrap_or(true),
        bursts: is_set(words, Argument::Bursts),
    })
}

fn read_options(words: &ArgMatches) -> Result<Options, FaultLine>
    ensures { result ≡ options_in (rows_of (found_of words.now)) }
{
    let hart = asked(words, Argument::Hart)?;
    let xlen = asked::<Xlen>(words, Argument::Xlen)?;
    let entries = asked(words, Argument::Entries)?;
    read_options_with(words, xlen, hart, entries)
}

/// Returns the path of the folder for the scripts of all harts: no single hart is then asked for, and the log is read
/// several times.
fn read_folder<'a>(
    words: &ArgMatches<'a>,
    log: &str,
    options: Options,
) -> Result<Option<&'a str>, FaultLine>
    ensures { result_map (option_map (λ path. path.now)) result
        ≡ folder_in log.now options (rows_of (found_of words.now)) }
{
    match word(words, Argument::Folder) {
        Some(_) if options.hart.is_some() || log == "stdin" => {
            Err(FaultLine::of_word(Argument::Folder))
        }
        folder => Ok(folder),
    }
}

/// Returns the request for the script of a log.
pub fn read_import<'a>(log: &'a str, words: &ArgMatches<'a>) -> Result<Request<'a>, FaultLine>
    ensures { result_map task_of result ≡ import_in log.now (rows_of (found_of words.now)) }
{
    let format = read_format(words)?;
    let options = read_options(words)?;
    let folder = read_folder(words, log, options)?;
    Ok(Request::Import(Import {
        log,
        format,
        options,
        folder,
    }))
}
