//! The explanation of a refusal, if the words ask for one: where the fault is, what was wanted, and what to do.

ghost use Rattle.std.specs.Prelude.{◌≡◌, ℕ, List, map, string_bytes};
ghost use Rattle.std.specs.List.{list_any};
ghost use Rattle.pmp_text.specs.Bytes.{AppendsBeginning};
ghost use Rattle.pmp_tool.specs.Explanations.{TellsAndExplains, is_explain};

mod fields;
mod names;
mod shown;
mod spot;
mod unread;
mod word;

use crate::argument::Argument;
use crate::failure::Failure;
use crate::fault_line::FaultLine;
use crate::inputs::Inputs;
use crate::kept::{Kept, KeptInput};
use fields::{
    NAMES, PLAN, POLICY, TRACE, is_policy_address, is_range_address, is_trace_address, policy_place,
};
use names::write_names;
use pmp_text::{GrowingLog, Place, Refusal, Source, read_script_in, write_out};
use shown::show_text;
use spot::Spot;
use std::alloc::{AllocError, Global};
use std::io::Write;
pub use unread::explain_unread;
use word::{word_of, write_word};

fn is_explain(word: &str) -> bool
    ensures { result ≡ is_explain word.now }
{
    matches!(word, "--explain")
}

/// Whether one of the words asks for explanations.
pub fn asks_to_explain(words: &[String]) -> bool
    ensures { result ≡ list_any (λ word. is_explain (string_bytes word)) words.now }
{
    words.iter().any(|word| is_explain(word.as_str()))
}

/// Writes the text of the failure for the user, and after it an explanation if the words ask for one. If the first
/// isn't written completely there is no second.
pub fn tell_and_explain<I: Inputs, E: Write>(
    words: &[String],
    failure: &Failure,
    inputs: &I,
    err: &mut E,
)
    ensures { TellsAndExplains (map string_bytes words.now) failure.now (E.contents err.old) (E.contents err.new) }
{
    match failure.tell(err) {
        Ok(()) if asks_to_explain(words) => explain(words, failure, inputs.kept(), err),
        _ => {}
    }
}

/// Writes the explanation of a refusal, as far as memory lasts and the writer takes it.
fn explain<E: Write>(words: &[String], failure: &Failure, kept: &Kept, err: &mut E)
    ensures { (text : List ℕ) × AppendsBeginning (E.contents err.old) (E.contents err.new) text }
{
    let Some(line) = failure.line() else {
        return;
    };
    if let Ok(text) = explanation(words, line, kept) {
        let _ = write_out(err, text.as_str().as_bytes());
    }
}

/// Returns where the fault is, what was wanted there, and what to do.
fn explanation(words: &[String], line: &FaultLine, kept: &Kept) -> Result<String, AllocError> {
    let alloc = kept.alloc;
    let mut text = String::new(alloc);
    let in_input = write_spot(&mut text, line, kept)?;
    if let Some(script) = kept.inputs().get(usize::from(is_new(line.fault.place))) {
        match line.fault.refusal {
            Refusal::BadAfter => write_count(alloc, &mut text, script)?,
            Refusal::NoMoment => write_names(alloc, &mut text, script)?,
            _ => {}
        }
    }
    let in_word = write_asked_word(alloc, &mut text, words, line)?;
    write_wanted(&mut text, line)?;
    write_remedy(&mut text, line, in_input || in_word)?;
    Ok(text)
}

/// Names the faulty input and shows its line; returns whether an address in the program's output form is at fault.
fn write_spot(text: &mut String, line: &FaultLine, kept: &Kept) -> Result<bool, AllocError> {
    let Some(input) = input_of(line, kept) else {
        return Ok(false);
    };
    let path = input.path.as_str();
    let Some(spot) = spot_of(line, input) else {
        write_input(text, path)?;
        return Ok(false);
    };
    spot.write_to(text, path)?;
    Ok(is_bare_address(spot.marked()))
}

/// Shows the faulty word; returns whether it is an address in the program's output form.
fn write_asked_word(
    alloc: Global,
    text: &mut String,
    words: &[String],
    line: &FaultLine,
) -> Result<bool, AllocError> {
    let Some(argument) = line.argument else {
        return Ok(false);
    };
    if argument.name().is_empty() {
        return Ok(false);
    }
    let Some(word) = word_of(alloc, words, argument) else {
        return Ok(false);
    };
    write_word(text, word)?;
    Ok(is_bare_address(word.as_bytes()))
}

fn write_remedy(
    text: &mut String,
    line: &FaultLine,
    has_bare_address: bool,
) -> Result<(), AllocError> {
    let remedy = if has_bare_address && is_address(line) {
        WITH_PREFIX
    } else {
        line.fault.refusal.remedy()
    };
    Ok(writeln!(text, "to do: {remedy}")?)
}

/// What to do about an address in the program's output form.
const WITH_PREFIX: &str =
    "put 0x before the address: pmp writes its 14 digits without it, and reads them with it";

fn is_new(place: Place) -> bool {
    matches!(
        place,
        Place::In {
            source: Source::New,
            number: 0,
            ..
        }
    )
}

/// Whether a byte address is required at the fault.
fn is_address(line: &FaultLine) -> bool {
    match (line.argument, line.fault.place) {
        (Some(argument), _) => matches!(argument, Argument::Start),
        (None, Place::In { source, part, .. }) => match source {
            Source::Trace => is_trace_address(part),
            Source::Policy => is_policy_address(part),
            Source::Names | Source::Plan => is_range_address(part),
            Source::Script | Source::Old | Source::New | Source::Log => false,
        },
        _ => false,
    }
}

/// Whether it is an address in the program's output form: 14 hexadecimal digits.
fn is_bare_address(word: &[u8]) -> bool {
    word.len() == 14 && word.iter().all(|byte| byte.is_ascii_hexdigit())
}

/// Writes what was wanted: for a malformed word or field, its form.
fn write_wanted(text: &mut String, line: &FaultLine) -> Result<(), AllocError> {
    if let (Refusal::BadWord, Some(argument)) = (line.fault.refusal, line.argument) {
        let (name, form) = (argument.name(), argument.wanted());
        let colon = if name.is_empty() { "" } else { ": " };
        return Ok(writeln!(text, "wanted: {name}{colon}{form}")?);
    }
    let wanted = wanted_field(line).unwrap_or(line.fault.refusal.wanted());
    Ok(writeln!(text, "wanted: {wanted}")?)
}

/// Returns the form of the malformed field.
fn wanted_field(line: &FaultLine) -> Option<&'static str> {
    let Place::In { source, part, .. } = line.fault.place else {
        return None;
    };
    match (line.fault.refusal, source) {
        (Refusal::BadRow, Source::Trace) => TRACE.get(part?).copied(),
        (Refusal::BadRow, Source::Policy) => POLICY.get(part?).copied(),
        (Refusal::BadRow, Source::Names) => NAMES.get(part?).copied(),
        (Refusal::BadRow, Source::Plan) => PLAN.get(part?).copied(),
        (Refusal::BadHeader, Source::Plan) => Some("first,last,m,su,locked,name"),
        (Refusal::PastEnd, Source::Plan) => Some("a last byte that the hart has an address for"),
        (Refusal::TooLong, Source::Plan) => Some("at most 1048576 bytes of a plan"),
        _ => None,
    }
}

/// Returns the input that is at fault.
fn input_of<'a>(line: &FaultLine, kept: &'a Kept) -> Option<&'a KeptInput> {
    let (first, last) = (kept.inputs().first(), kept.inputs().last());
    if line.fault.refusal == Refusal::BadFolder {
        return last;
    }
    match line.fault.place {
        Place::In { source, .. } => match source {
            Source::Script => kept.script(),
            Source::Old | Source::Plan => first,
            Source::New | Source::Trace | Source::Policy => kept.inputs().get(1),
            Source::Names | Source::Log => last,
        },
        Place::PlanRows(..) | Place::PlanEntries { .. } => first,
        Place::Nowhere => match line.fault.refusal {
            Refusal::TooLong | Refusal::Input | Refusal::NoHart => last,
            Refusal::NoRows => kept.inputs().get(1),
            _ => None,
        },
        Place::Events(_) => None,
    }
}

/// Returns the line at fault, if there is one.
fn spot_of<'a>(line: &FaultLine, input: &'a KeptInput) -> Option<Spot<'a>> {
    match line.fault.place {
        Place::In {
            source,
            number,
            part,
        } if number > 0 => spot_in(source, &input.bytes, number, part),
        Place::PlanRows(_, row) | Place::PlanEntries { row, .. } => {
            Spot::of_row(&input.bytes, row, None)
        }
        _ if line.fault.refusal == Refusal::BadHeader => Spot::of_row(&input.bytes, 0, None),
        _ => None,
    }
}

/// Returns the line of an input with this number, and its word or field with this index.
fn spot_in(source: Source, text: &[u8], number: u64, part: Option<usize>) -> Option<Spot<'_>> {
    match source {
        Source::Script | Source::Old | Source::New => Some(Spot::of_line(text, number, part)),
        Source::Policy => {
            let header = Spot::header(text);
            let place = part.map(|index| policy_place(header, index));
            Spot::of_row(text, number, place)
        }
        Source::Trace | Source::Names | Source::Plan => Spot::of_row(text, number, part),
        Source::Log => None,
    }
}

/// Names an input.
fn write_input(text: &mut String, path: &str) -> Result<(), AllocError> {
    text.push_str("in ")?;
    show_text(text, path)?;
    text.push('\n')
}

/// Writes how many publications a script has.
fn write_count(alloc: Global, text: &mut String, input: &KeptInput) -> Result<(), AllocError> {
    let Some(count) = publications_of(alloc, &input.bytes) else {
        return Ok(());
    };
    text.push_str("publications of ")?;
    show_text(text, input.path.as_str())?;
    Ok(writeln!(text, ": {count}")?)
}

/// Returns how many publications a script has, if it can be read.
fn publications_of(alloc: Global, script: &[u8]) -> Option<u64> {
    let mut log = GrowingLog::new(alloc);
    let script = read_script_in(&mut log, script).ok()?;
    Some(script.batches())
}
