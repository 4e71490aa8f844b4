//! A policy of all that is closed after the last publication of a script.

ghost use Rattle.std.specs.Prelude.{◌≡◌, ◌<◌, ◌+◌, IfErr, IfOk, OnErr, is_some};
ghost use Rattle.pmp_text.specs.declared.trace.reader.TheConstants.{MAX_TRACE};
ghost use Rattle.pmp_lint.specs.EndState.{end_of};
ghost use Rattle.pmp_audit.specs.Answers.{Declines, IsAppended};
ghost use Rattle.pmp_audit.specs.Growing.{HasGrown};
ghost use Rattle.pmp_audit.specs.PolicyDraft.{AreNeverRows, DraftSays, IsDraftText, IsModeText};
ghost use Rattle.pmp_audit.specs.PolicyDraft.{last_moment, last_word};
ghost use Rattle.pmp_audit.specs.AskedFile.{ScriptRefuses};

mod closed_range;
mod never_row;

use crate::policy_draft::closed_range::closed_range_from;
use crate::policy_draft::never_row::{LastMoment, NeverRow};
use crate::replay::file_of;
use pmp_core::{Kind, Mode, RegFile};
use pmp_text::laws::law_script_size;
use pmp_text::{
    EventLog, Fault, MAX_TRACE, ReadScript, Refusal, Sink, append_line, read_script_in,
};
use std::alloc::AllocError;

/// The first line, which names the fields.
const HEADER: &[u8] = b"from,to,modes,kind,first,last,demand\n";

/// Appends a policy of all that is closed after the script's last publication: for M-mode, and for S-mode and U-mode,
/// and for each kind of access, a row for each of the longest ranges of bytes that are closed to it, by address. Each
/// row holds for this script. A person takes out what isn't meant to stay so. The log keeps the script's events;
/// `Memory` means that there is no room for them there, or none for the text. A text longer than a policy may be, which
/// no register file has, counts as one without room.
#[inline(never)]
pub fn append_policy_from<L: EventLog, S: Sink>(
    log: &mut L,
    script: &[u8],
    out: &mut S,
) -> Result<(), Fault>
    ensures ok { IfOk result (IsAppended (DraftSays script.now) (S.text out.old) (S.text out.new)) }
    ensures err { IfErr result (Declines (ScriptRefuses script.now)) }
    ensures kept { OnErr result (S.text out.new ≡ S.text out.old) }
{
    let script = read_script_in(log, script)?;
    law_script_size();
    let before = out.position();
    let made = append_script(out, &script);
    if made.is_err() || out.position() - before > MAX_TRACE {
        out.go_back(before);
        return Err(Fault::from(Refusal::Memory));
    }
    Ok(())
}

/// Appends the text for a script.
fn append_script<S: Sink>(out: &mut S, script: &ReadScript) -> Result<(), AllocError>
    ensures ok { IfOk result (IsAppended (λ _. IsDraftText (end_of script.now) (last_moment script.now))
        (S.text out.old) (S.text out.new)) }
    ensures err { OnErr result (HasGrown (S.text out.old) (S.text out.new)) }
{
    let publications = script.batches();
    let has_names = script.moments().marks.is_some();
    let moment = LastMoment {
        publications,
        has_names,
    };
    append_draft(out, &file_of(script, publications), moment)
}

/// Appends the header, the rows of M-mode, and those of S-mode and U-mode.
fn append_draft<S: Sink>(out: &mut S, file: &RegFile, moment: LastMoment) -> Result<(), AllocError>
    ensures ok { let last = last_word moment.has_names moment.publications in
        IfOk result (IsAppended (λ _. IsDraftText file.now last) (S.text out.old) (S.text out.new)) }
    ensures err { OnErr result (HasGrown (S.text out.old) (S.text out.new)) }
{
    out.append(HEADER)?;
    append_mode(out, file, moment, Mode::M)?;
    append_mode(out, file, moment, Mode::U)
}

/// Appends the rows of the mode, kind by kind.
fn append_mode<S: Sink>(
    out: &mut S,
    file: &RegFile,
    moment: LastMoment,
    mode: Mode,
) -> Result<(), AllocError>
    ensures ok { let last = last_word moment.has_names moment.publications in
        IfOk result (IsAppended (λ _. IsModeText file.now last mode) (S.text out.old) (S.text out.new)) }
    ensures err { OnErr result (HasGrown (S.text out.old) (S.text out.new)) }
{
    append_kind(out, file, moment, mode, Kind::Fetch)?;
    append_kind(out, file, moment, mode, Kind::Load)?;
    append_kind(out, file, moment, mode, Kind::Store)
}

/// Appends a row for each of the longest ranges that are closed to the mode and the kind.
fn append_kind<S: Sink>(
    out: &mut S,
    file: &RegFile,
    moment: LastMoment,
    mode: Mode,
    kind: Kind,
) -> Result<(), AllocError>
    ensures ok { let last = last_word moment.has_names moment.publications in
        IfOk result (IsAppended (λ _. AreNeverRows file.now last mode kind) (S.text out.old) (S.text out.new)) }
    ensures err { OnErr result (HasGrown (S.text out.old) (S.text out.new)) }
{
    let registers = file.registers();
    let mut from = 0;
    while let Some(range) = closed_range_from(&registers, mode, kind, from) {
        let row = NeverRow {
            moment,
            mode,
            kind,
            range,
        };
        append_line(out, row)?;
        from = range.last + 1;
    }
    Ok(())
}
