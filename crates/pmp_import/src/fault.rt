//! The faults of logs.

ghost use Rattle.std.specs.Prelude.{◌≡◌};
ghost use Rattle.pmp_import.specs.Imported.{at, stop_at};

use pmp_text::{Fault, InputFault, Refusal, Source};

/// Returns the fault of the line of a log with this number; 0 is the log as a whole.
pub fn at(line: u64, refusal: Refusal) -> Fault
    ensures { result ≡ at line refusal }
{
    refusal.whole().at_row(Source::Log, line)
}

/// Returns the fault of a log that gives no more lines, given the number of the next one.
pub fn stop(line: u64, fault: InputFault) -> Fault
    ensures { result ≡ stop_at line fault }
{
    match fault {
        InputFault::TooLong => at(line, Refusal::TooLong),
        InputFault::Input | InputFault::Memory => fault.of(Source::Log),
    }
}
