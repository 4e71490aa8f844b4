//! The command `pmp`, which decides accesses to physical memory like the PMP unit of one RISC-V hart.
#![tactic(auto)]

mod argument;
mod command;
mod command_line;
mod command_name;
mod expected;
mod explanation;
mod failure;
mod fault_line;
mod folder;
mod format_words;
mod hart_answers;
mod hart_comparison;
mod hart_imports;
mod hart_script;
mod hart_words;
mod harts;
mod help;
mod import_words;
mod inputs;
mod jobs;
mod kept;
mod note;
mod numbered_inputs;
mod outcome;
mod progress;
mod questions;
mod request;
mod row_format;
mod run;
mod streams;
mod texts;
mod topics;
mod trace_input;
mod word;
mod work;

use explanation::{asks_to_explain, explain_unread};
use fault_line::FaultLine;
use inputs::SystemInputs;
use pmp_text::Refusal;
use run::run_tool;
use std::env;
use std::io::{ErrorKind, IsTerminal};
use std::process::ExitCode;

fn main(rt: HostRuntime) -> ExitCode {
    let words = match arguments(&rt) {
        Ok(words) => words,
        Err(refusal) => {
            let mut err = rt.stderr();
            let _ = FaultLine::from(refusal).write_to(&mut err);
            if refusal != Refusal::Memory {
                let _ = explain_unread(&rt, refusal, &mut err);
            }
            return ExitCode::from(refusal.status());
        }
    };
    let terminal = rt.stderr();
    let shows = terminal.is_terminal() && !rt.stdout().is_terminal();
    let shown = shows.then_some(terminal);
    let mut inputs = SystemInputs::new(&rt, shown, asks_to_explain(&words));
    ExitCode::from(run_tool(
        &rt,
        rt.alloc(),
        &words,
        &mut inputs,
        &mut rt.stdout(),
        &mut rt.stderr(),
    ))
}

/// Returns the program's words. One that is not text is a bad word.
fn arguments(rt: &HostRuntime) -> Result<Vec<String>, Refusal> {
    let arguments = env::args(rt).map_err(|fault| match fault.kind() {
        ErrorKind::OutOfMemory => Refusal::Memory,
        _ => Refusal::BadWord,
    })?;
    arguments
        .skip(1)
        .collect(rt.alloc())
        .map_err(|_| Refusal::Memory)
}
