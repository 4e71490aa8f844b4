//! Reading a script: the version, then line by line, up to the first fault.

ghost use Rattle.std.specs.Prelude.{◌≡◌, ◌<◌, ◌^◌, length, nat_lt};
ghost use Rattle.pmp_text.specs.Outcomes.{Gives};
ghost use Rattle.pmp_text.specs.Steps.Progress.{concluded, nothing_begun, read_on};
ghost use Rattle.pmp_text.specs.ScriptLines.{is_headed};
ghost use Rattle.pmp_text.specs.Scripts.{most_bytes, script_meaning};
ghost use Rattle.pmp_text.specs.Steps.Views.{lines_left};

use crate::event_log::EventLog;
use crate::fault::Fault;
use crate::refusal::Refusal;
use crate::script::ReadScript;
use crate::script::reading::ScriptReading;
use crate::script::significant::SignificantLines;
use crate::script::version::{Version, read_version};

/// The greatest length of a script of version 1 or 2, in bytes.
pub const MAX_SCRIPT: usize = 1 << 20;

/// The greatest length of a script of version 3, in bytes.
pub const MAX_HEADED_SCRIPT: usize = 1 << 26;

/// The greatest number of events of a script, and of publications.
pub const MAX_EVENTS: usize = 1 << 20;

/// Reads the lines after a script's first one.
fn read_statements<'a, L: EventLog>(
    log: &'a mut L,
    version: Version,
    lines: SignificantLines,
) -> Result<ReadScript<'a>, Fault>
    ensures { Gives (λ script. script) result
        (concluded version (read_on version nothing_begun (lines_left lines.entry))) }
{
    log.clear();
    let mut reading = ScriptReading::new();
    for line in lines {
        reading.take_line(log, version, line)?;
    }
    reading.finish(log, version)
}

/// Whether a text is longer than a script of its version may be.
fn is_too_long(text: &[u8]) -> bool
    ensures { result ≡ nat_lt (most_bytes text.now) (length text.now) }
{
    text.len() > MAX_HEADED_SCRIPT || text.len() > MAX_SCRIPT && !is_headed(text)
}

/// Returns the script that a text describes, else its first fault. The time is linear in the text, and only the
/// publications and expectations take room, in the log, which is cleared first: if there is none, `Memory` is returned
/// instead of any later fault.
pub fn read_script_in<'a, L: EventLog>(log: &'a mut L, text: &[u8]) -> Result<ReadScript<'a>, Fault>
    ensures { Gives (λ script. script) result (script_meaning text.now) }
{
    if is_too_long(text) {
        return Err(Refusal::TooLong.whole().at_line(0));
    }
    let mut lines = SignificantLines::new(text);
    let Some(first) = lines.next() else {
        return Err(Refusal::BadVersion.whole().at_line(1));
    };
    match read_version(first.bytes) {
        Ok(version) => read_statements(log, version, lines),
        Err(flaw) => Err(flaw.at_line(first.number)),
    }
}

/// Whether a text's first significant line is `pmp 3`.
pub fn is_headed(text: &[u8]) -> bool
    requires { length text.now < 2 ^ 63 }
    ensures { result ≡ is_headed text.now }
{
    let Some(first) = SignificantLines::new(text).next() else {
        return false;
    };
    matches!(read_version(first.bytes), Ok(Version::Headed))
}
