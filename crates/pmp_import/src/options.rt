//! The options for a script.

ghost use Rattle.std.specs.Prelude.{◌≡◌};
ghost use Rattle.pmp_import.specs.Surveys.{given_alone, given_for, given_of, survey_fault};

use crate::fault::at;
use crate::format::Format;
use crate::given::Given;
use crate::survey::Survey;
use pmp_text::{Fault, Refusal};

/// The options for a script. What isn't given is guessed from the log.
#[derive(Clone, Copy)]
pub struct Options {
    pub hart: Option<u64>,
    pub is_rv32: Option<bool>,
    pub entries: Option<u64>,
    /// The grain in bytes.
    pub grain: Option<u64>,
    /// The number of physical address bits.
    pub bits: Option<u64>,
    pub has_smepmp: bool,
    /// Whether writes on consecutive lines make one publication.
    pub bursts: bool,
}

impl Options {
    /// Returns the settings for a log that is read once.
    pub fn alone(self, format: Format) -> Given
        ensures { result ≡ given_alone format self }
    {
        let hart = self.hart.unwrap_or(0);
        let is_rv32 = self.is_rv32.unwrap_or(false);
        self.given(format, hart, is_rv32, self.entries.unwrap_or(16))
    }

    /// Returns the settings for a log with this survey, or why it has no script.
    pub fn with(self, format: Format, survey: &Survey) -> Result<Given, Fault>
        ensures { result ≡ given_for format self survey.now }
    {
        let is_rv32 = self.is_rv32.unwrap_or(survey.of_rv32.is_some());
        if let Some(fault) = survey_fault(is_rv32, survey) {
            return Err(fault);
        }
        let hart = survey.hart.unwrap_or(0);
        let entries = if survey.has_many { 64 } else { 16 };
        Ok(self.given(format, hart, is_rv32, self.entries.unwrap_or(entries)))
    }

    fn given(self, format: Format, hart: u64, is_rv32: bool, entries: u64) -> Given
        ensures { result ≡ given_of format self hart is_rv32 entries }
    {
        Given {
            format,
            hart,
            is_rv32,
            entries,
            grain: self.grain,
            bits: self.bits,
            has_smepmp: self.has_smepmp,
            bursts: self.bursts,
        }
    }
}

/// Returns why a log with this survey has no script.
fn survey_fault(is_rv32: bool, survey: &Survey) -> Option<Fault>
    ensures { result ≡ survey_fault is_rv32 survey.now }
{
    let (foreign, kind) = if is_rv32 {
        (survey.wide, Refusal::BadNumber)
    } else {
        (survey.of_rv32, Refusal::OddCfg)
    };
    match foreign {
        Some(line) => Some(at(line, kind)),
        None if survey.own == 0 => Some(at(0, Refusal::NoHart)),
        None => None,
    }
}
