//! The rows for what a script expects of registers.

ghost use Rattle.std.specs.Prelude.{◌≡◌, IfOk, OnErr};
ghost use Rattle.pmp_text.specs.Cells.{AddsSome};
ghost use Rattle.pmp_audit.specs.Expectations.{differing, expected_rows, file_at_event, is_fault};

use crate::accepted_reason::DIFFERS;
use pmp_core::RegFile;
use pmp_lint::is_accepted;
use pmp_text::{Expectation, ReadScript, RowSink, add_expected};
use std::alloc::AllocError;

/// Advances the register file from its state after `done` events of the script to its state after `events`.
fn advance(script: &ReadScript, file: &mut RegFile, done: u64, events: u64)
    requires { file.old ≡ file_at_event script.now done }
    ensures { file.new ≡ file_at_event script.now events }
{
    let all = script.events();
    let start = all.len().min(done as usize);
    let end = all.len().min(events as usize);
    if end < start {
        *file = script.start();
        file.run_events(&all[..end]);
    } else {
        file.run_events(&all[start..end]);
    }
}

/// Whether a register differs from what is expected of it, where that isn't accepted.
fn is_fault(accepted: &[u8], expectation: &Expectation, value: u64) -> bool
    ensures { result ≡ is_fault accepted.now expectation.now value }
{
    value != expectation.value && !is_accepted(accepted, DIFFERS, expectation.line)
}

/// Adds a row for each expectation of the script, and returns how many of them differ where that isn't accepted.
pub fn add_expectations<R: RowSink>(
    out: &mut R,
    script: &ReadScript,
    accepted: &[u8],
) -> Result<u64, AllocError>
    ensures rows { IfOk result (λ _. R.Adds (expected_rows script.now script.now.expectations) out.old out.new) }
    ensures counted { IfOk result (λ count. count ≡ differing accepted.now script.now script.now.expectations) }
    ensures err { OnErr result (AddsSome R.Adds out.old out.new) }
{
    add_each(out, script, script.expectations(), accepted)
}

/// Adds a row for each of these expectations, and returns how many of them differ where that isn't accepted.
fn add_each<R: RowSink>(
    out: &mut R,
    script: &ReadScript,
    expectations: &[Expectation],
    accepted: &[u8],
) -> Result<u64, AllocError>
    ensures rows { IfOk result (λ _. R.Adds (expected_rows script.now expectations.now) out.old out.new) }
    ensures counted { IfOk result (λ count. count ≡ differing accepted.now script.now expectations.now) }
    ensures err { OnErr result (AddsSome R.Adds out.old out.new) }
{
    let mut file = script.start();
    let mut done = 0;
    let mut count = 0;
    for expectation in expectations {
        advance(script, &mut file, done, expectation.events);
        done = expectation.events;
        let value = file.read(expectation.register);
        add_expected(out, expectation, value)?;
        count += u64::from(is_fault(accepted, expectation, value));
    }
    Ok(count)
}
