//! A log that is available as a text, and its script.

ghost use Rattle.std.specs.Prelude.{◌≡◌, IfErr, OnErr, OnOk};
ghost use Rattle.pmp_text.specs.Lines.{lines};
ghost use Rattle.pmp_import.specs.LogTexts.{GivesNone, IsScriptOf, given_by};
ghost use Rattle.pmp_import.specs.Steps.{AppendsScript, HasGrown, HasNoScript};

use crate::format::Format;
use crate::given::Given;
use crate::importer::Importer;
use crate::options::Options;
use crate::survey::Survey;
use pmp_text::{Fault, Sink};

/// Returns the settings for a log, from its whole text.
fn given_by(format: Format, options: Options, log: &[u8]) -> Result<Given, Fault>
    ensures { result ≡ given_by format options (lines log.now) }
{
    let mut survey = Survey::new(options.hart);
    match survey.take_lines(format, log) {
        Ok(()) => options.with(format, &survey),
        Err(fault) => Err(fault),
    }
}

/// Appends the script of a log, which is read twice: what the options leave open is guessed from the whole log. If it is
/// refused, nothing is appended.
pub fn append_import<S: Sink>(
    format: Format,
    options: Options,
    log: &[u8],
    out: &mut S,
) -> Result<(), Fault>
    ensures ok { OnOk result (IsScriptOf format options (lines log.now) (S.text out.old) (S.text out.new)) }
    ensures err { IfErr result (GivesNone format options (lines log.now)) }
    ensures kept { OnErr result (S.text out.new ≡ S.text out.old) }
{
    let given = given_by(format, options, log)?;
    let before = out.position();
    let appended = append_script(given, log, out);
    if appended.is_err() {
        out.go_back(before);
    }
    appended
}

/// Appends the script that a log has with these settings, or a part of it.
fn append_script<S: Sink>(given: Given, log: &[u8], out: &mut S) -> Result<(), Fault>
    ensures ok { OnOk result (AppendsScript given (lines log.now) (S.text out.old) (S.text out.new)) }
    ensures err { IfErr result (HasNoScript given (lines log.now)) }
    ensures grown { OnErr result (HasGrown (S.text out.old) (S.text out.new)) }
{
    let mut importer = Importer::new(given);
    importer.begin(out)?;
    importer.take_lines(out, log)?;
    importer.end(out)
}
