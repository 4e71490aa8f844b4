//! The harts that a question is asked of, if a folder of scripts is given instead of a script.

ghost use Rattle.std.specs.Prelude.{◌≡◌, IfErr, IfOk, Some, map, option_map, string_bytes};
ghost use Rattle.pmp_names.specs.HartLists.{names_of};
ghost use Rattle.pmp_tool.specs.Finding.{AreFoundAt, AreFoundNew, AreJoined, AreUnfoundAt, AreUnfoundNew, AreUnjoined};
ghost use Rattle.pmp_names.specs.HartNames.{AreHarts};
ghost use Rattle.pmp_tool.specs.Finding.{IsUnfit, IsUnlisted, names_in};
ghost use Rattle.pmp_tool.specs.Inputs.{IsFolder};
ghost use Rattle.pmp_tool.specs.Harts.{AreFound, AreUnfound, new_script, reads_stdin, second_input};

use crate::failure::Failure;
use crate::inputs::Inputs;
use crate::questions::{Asking, script_source};
use crate::request::Question;
use pmp_names::{HartName, are_same, read_harts};
use pmp_text::{Refusal, Source};
use std::alloc::Global;

/// The harts that a question is asked of.
#[derive(Drop)]
pub struct Harts {
    /// Whether the path of the script is that of a folder.
    pub old: bool,
    /// Whether the path of the new script is that of a folder.
    pub new: bool,
    /// The names of their scripts in the folder, or in both.
    pub names: Vec<HartName>,
}

/// Returns the path of the new one of two scripts.
pub fn new_script<'a>(question: Question<'a>) -> Option<&'a str>
    ensures { option_map (λ path. path.now) result ≡ new_script question.entry }
{
    match question {
        Question::Diff(asked) => Some(asked.new),
        _ => None,
    }
}

/// Returns the path of the second input.
fn second_input<'a>(question: Question<'a>) -> Option<&'a str>
    ensures { option_map (λ path. path.now) result ≡ second_input question.entry }
{
    match question {
        Question::Audit(asked) => Some(asked.trace),
        Question::Policy(asked) => Some(asked.path),
        _ => new_script(question),
    }
}

/// Whether an input is standard input.
fn reads_stdin(path: &str, question: Question<'_>) -> bool
    ensures { result ≡ reads_stdin path.now question.entry }
{
    path == "stdin" || second_input(question).is_some_and(|path| path == "stdin")
}

/// Returns the files of the folder at a path, if there is one.
fn listed<I: Inputs>(
    inputs: &mut I,
    path: &str,
    source: Source,
) -> Result<Option<Vec<String>>, Failure>
    ensures listed { IfOk result (λ found. IsFolder ((I.paths inputs.old).folders path.now) (option_map
        (λ files. map string_bytes files.items) found)) }
    ensures unlisted { IfErr result (IsUnlisted source) }
    ensures paths { I.paths inputs.new ≡ I.paths inputs.old }
{
    inputs
        .folder(path)
        .map_err(|fault| Failure::unread(Refusal::from(fault), source))
}

/// Returns the harts of a folder with these files.
fn harts_of(alloc: Global, files: &[String], source: Source) -> Result<Vec<HartName>, Failure>
    ensures ok { IfOk result (λ harts. AreHarts (map string_bytes files.now) (names_of harts.items)) }
    ensures err { IfErr result (IsUnfit (map string_bytes files.now) source) }
{
    read_harts(alloc, files).map_err(|fault| Failure::unread(fault, source))
}

/// Returns the harts of the folder at a path, if there is one; the path is that of this script.
pub fn harts_at<I: Inputs>(
    alloc: Global,
    inputs: &mut I,
    path: &str,
    source: Source,
) -> Result<Option<Vec<HartName>>, Failure>
    ensures found { IfOk result (λ harts. AreFoundAt ((I.paths inputs.old).folders path.now) (names_in harts)) }
    ensures unfound { IfErr result (AreUnfoundAt ((I.paths inputs.old).folders path.now) source) }
    ensures paths { I.paths inputs.new ≡ I.paths inputs.old }
{
    let Some(files) = listed(inputs, path, source)? else {
        return Ok(None);
    };
    Ok(Some(harts_of(alloc, &files, source)?))
}

/// Returns the harts of the folder at the path of the new script, if there is one.
fn new_harts<I: Inputs>(
    alloc: Global,
    inputs: &mut I,
    question: Question<'_>,
) -> Result<Option<Vec<HartName>>, Failure>
    ensures found { IfOk result (λ harts. AreFoundNew (I.paths inputs.old).folders (new_script question.entry)
        (names_in harts)) }
    ensures unfound { IfErr result (AreUnfoundNew (I.paths inputs.old).folders (new_script question.entry)) }
    ensures paths { I.paths inputs.new ≡ I.paths inputs.old }
{
    match new_script(question) {
        Some(path) => harts_at(alloc, inputs, path, Source::New),
        None => Ok(None),
    }
}

/// Returns the harts of one folder, or of two that have the same.
fn joined(old: Option<Vec<HartName>>, new: Option<Vec<HartName>>) -> Result<Option<Harts>, Refusal>
    ensures ok { IfOk result (AreJoined (names_in old) (names_in new)) }
    ensures err { IfErr result (AreUnjoined (names_in old) (names_in new)) }
{
    match (old, new) {
        (None, None) => Ok(None),
        (Some(names), None) => Ok(Some(Harts {
            old: true,
            new: false,
            names,
        })),
        (None, Some(names)) => Ok(Some(Harts {
            old: false,
            new: true,
            names,
        })),
        (Some(names), Some(others)) => Ok(Some(both(names, &others)?)),
    }
}

/// Returns the harts of two folders, which must be the same.
fn both(names: Vec<HartName>, others: &[HartName]) -> Result<Harts, Refusal>
    ensures ok { IfOk result (λ harts. AreJoined (Some (names_of names.items)) (Some (names_of others.now)) (Some harts)) }
    ensures err { IfErr result (AreUnjoined (Some (names_of names.items)) (Some (names_of others.now))) }
{
    if !are_same(&names, others) {
        return Err(Refusal::BadFolder);
    }
    Ok(Harts {
        old: true,
        new: true,
        names,
    })
}

impl Harts {
    /// Returns the harts that a question is asked of, if a folder is given instead of a script.
    pub fn find<I: Inputs>(asking: Asking<'_>, inputs: &mut I) -> Result<Option<Harts>, Failure>
        ensures found { IfOk result (AreFound (I.paths inputs.old).folders asking.entry.path.now asking.entry.question) }
        ensures unfound { IfErr result
            (AreUnfound (I.paths inputs.old).folders asking.entry.path.now asking.entry.question) }
        ensures paths { I.paths inputs.new ≡ I.paths inputs.old }
    {
        let Asking {
            alloc,
            path,
            question,
            ..
        } = asking;
        let old = harts_at(alloc, inputs, path, script_source(question))?;
        let new = new_harts(alloc, inputs, question)?;
        let Some(harts) = joined(old, new)? else {
            return Ok(None);
        };
        if reads_stdin(path, question) {
            return Err(Failure::from(Refusal::BadWord));
        }
        Ok(Some(harts))
    }
}
