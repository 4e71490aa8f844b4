//! The scripts of all harts of a log, in a new folder.

ghost use Rattle.std.specs.Prelude.{◌≡◌, ◌++◌, ◌∷◌, [], IfErr, IfOk, OnErr, OnOk};
ghost use Rattle.pmp_tool.specs.HartImports.{AddsHart, AreOf, CantMake, IsFound, IsUnfound, Makes, OneFails, writers};

use crate::failure::Failure;
use crate::hart_script::HartScript;
use crate::inputs::Inputs;
use crate::note::Note;
use crate::outcome::Outcome;
use crate::request::Import;
use crate::streams::write_import;
use pmp_import::{Format, Options, Survey, survey_log};
use pmp_text::Refusal;
use std::alloc::{AllocError, Global};

/// Returns the survey of the log at a path, if no hart is asked for.
fn survey_at<I: Inputs>(
    alloc: Global,
    path: &str,
    format: Format,
    inputs: &mut I,
) -> Result<Survey, Failure>
    ensures ok { IfOk result (IsFound ((I.paths inputs.old).traces path.now) format) }
    ensures err { IfErr result (IsUnfound ((I.paths inputs.old).traces path.now) format) }
    ensures paths { I.paths inputs.new ≡ I.paths inputs.old }
{
    let mut log = inputs.open_trace(path)?;
    Ok(survey_log(alloc, format, None, &mut log)?)
}

/// Appends the script of one hart.
fn add_hart<I: Inputs>(
    import: Import<'_>,
    hart: u64,
    inputs: &mut I,
    all: &mut Vec<HartScript>,
) -> Result<(), Failure>
    ensures ok { OnOk result (AddsHart (I.paths inputs.old) import.entry hart all.old.items all.new.items) }
    ensures err { IfErr result (OneFails (I.paths inputs.old) import.entry) }
    ensures paths { I.paths inputs.new ≡ I.paths inputs.old }
{
    let options = Options {
        hart: Some(hart),
        ..import.options
    };
    let alloc = *all.allocator();
    let mut text = Vec::new(alloc);
    match write_import(alloc, Import { options, ..import }, inputs, &mut text) {
        Ok(_) => {}
        Err(failure) => return Err(failure.in_memory()),
    }
    keep(all, HartScript { hart, text })?;
    Ok(())
}

fn keep(all: &mut Vec<HartScript>, script: HartScript) -> Result<(), AllocError>
    ensures { OnOk result (all.new.items ≡ all.old.items ++ script ∷ []) }
{
    all.push(script).map_err(|_| AllocError)
}

/// Returns the scripts of the harts that have writes.
fn import_each<I: Inputs>(
    alloc: Global,
    import: Import<'_>,
    survey: &Survey,
    inputs: &mut I,
) -> Result<Vec<HartScript>, Failure>
    ensures ok { IfOk result (λ all. AreOf (I.paths inputs.old) import.entry (writers survey.now) all.items) }
    ensures err { IfErr result (OneFails (I.paths inputs.old) import.entry) }
    ensures paths { I.paths inputs.new ≡ I.paths inputs.old }
{
    let mut all = Vec::new(alloc);
    let mut hart = 0;
    let mut rest = survey.writes.as_slice();
    while let Some((count, behind)) = rest.split_first() {
        if *count > 0 {
            add_hart(import, hart, inputs, &mut all)?;
        }
        hart += 1;
        rest = behind;
    }
    Ok(all)
}

/// Creates a folder with a script for each hart that has writes in a log.
pub fn import_harts<I: Inputs>(
    alloc: Global,
    import: Import<'_>,
    folder: &str,
    inputs: &mut I,
) -> Result<Outcome, Failure>
    ensures ok { IfOk result (Makes (I.paths inputs.old) import.entry folder.now (I.paths inputs.new)) }
    ensures err { IfErr result (CantMake (I.paths inputs.old) import.entry) }
    ensures unchanged { OnErr result (I.paths inputs.new ≡ I.paths inputs.old) }
{
    let survey = survey_at(alloc, import.log, import.format, inputs)?;
    let all = import_each(alloc, import, &survey, inputs)?;
    if all.is_empty() {
        return Err(Failure::from(Refusal::NoHart));
    }
    inputs.make_folder(folder, &all)?;
    Ok(Outcome::Imported(Note::Scripts(all.len() as u64)))
}
