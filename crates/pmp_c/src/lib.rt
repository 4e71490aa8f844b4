//! The unit behind a C interface: a plain struct of numbers, which its caller owns.
//!
//! No function has a precondition on its numbers: the result is defined for all of them. The definitions that the
//! contracts cite are in `specs/` and in those of `pmp_core`.
//!
//! An access is named by its mode (0 U-mode, 1 S-mode, 3 M-mode), its kind (0 fetch, 1 load, 2 store), the byte address
//! of its first byte, and its length in bytes. An answer is a number as in `pmp_map`, whose cause is 1,023 if the
//! numbers name no access.
#![tactic(auto)]

ghost use Rattle.std.specs.Prelude.{◌≡◌, ◌<◌, ◌≤◌, ◌↔◌, ◌⊎◌, Err, IsTrue, MatchResult, false, true};
ghost use Rattle.std.specs.List.{AllZip};
ghost use Rattle.pmp_core.specs.declared.access.Access.{Access};
ghost use Rattle.pmp_core.specs.declared.access.Mode.{Mode};
ghost use Rattle.pmp_core.specs.declared.access.TheConstants.{ADDRESS_LIMIT};
ghost use Rattle.pmp_core.specs.Ranges.{decision_of};
ghost use Rattle.pmp_core.specs.RegisterFile.{reset_file};
ghost use Rattle.pmp_core.specs.RegisterValue.{register_value};
ghost use Rattle.pmp_core.specs.SavedRegisters.{names_hart, saved_registers, restored_file, saved_hart};
ghost use Rattle.pmp_map.specs.Answer.{answer_number, no_access, no_cause};
ghost use Rattle.pmp_map.specs.Request.{IsNamed, mode_number};
ghost use Rattle.pmp_c.specs.Questions.{IsAnswered};
ghost use Rattle.pmp_c.specs.RangeRights.{IsRangeOf, IsRightsNumber, no_range};
ghost use Rattle.pmp_c.specs.RunAnswer.{IsRunAnswer};
ghost use Rattle.pmp_c.specs.Settling.{IsSettled};
ghost use Rattle.pmp_c.specs.Status.{ends, no_hart, register_in, status_number, IsMoveAnswer, IsWriteAnswer};
ghost use Rattle.pmp_c.specs.Unit.{file_of_unit, unit_size, version, IsBuilt, IsSetTo, IsUnit};

mod numbers;
mod question;
mod unit;

use crate::numbers::{NO_HART, NO_RANGE, UNCHANGED, rights_number};
use pmp_core::{ADDRESS_LIMIT, Hart, SavedRegisters};
use pmp_map::{NO_CAUSE, access_of, cause_number, mode_of, no_access, whole_cause};
pub use question::Question;
pub use unit::Unit;

/// Returns the version of the library: 10,000 times the major number, 100 times the minor one, and the patch.
#[unsafe(no_mangle)]
pub extern "C" fn tilvenka_pmp_version() -> u32
    ensures { result ≡ version }
{
    200
}

/// Returns the size of a unit in bytes, which shows a caller whether it has the same struct.
#[unsafe(no_mangle)]
pub extern "C" fn tilvenka_pmp_unit_size() -> u64
    ensures { result ≡ unit_size }
{
    size_of::<Unit>() as u64
}

/// Resets a unit of the hart that this number names: 16 and 64 are harts with that many entries (Volume II, 3.7.1), and
/// a number with bit 32 set is the hart that it encodes, as in `SavedRegisters`. All registers are zero. Returns 0, or
/// 3 if the number names no hart, and then the unit is unchanged.
#[unsafe(no_mangle)]
pub extern "C" fn tilvenka_pmp_reset(unit: &mut Unit, hart: u64) -> u32
    ensures done { names_hart hart ≡ true → (result ≡ 0) × IsSetTo (reset_file (saved_hart hart)) unit.new }
    ensures refused { names_hart hart ≡ false → (result ≡ no_hart) × (unit.new ≡ unit.old) }
{
    match Hart::named(hart) {
        Some(hart) => {
            unit.registers = SavedRegisters::reset_on(hart);
            unit.map.runs = 0;
            UNCHANGED
        }
        None => NO_HART,
    }
}

/// Writes a register (Volume II, 3.7.1 and Smepmp), by its CSR number. Returns 1 for an odd `pmpcfg` and 2 for a number
/// that is no PMP register of the hart: these change nothing. Otherwise returns the sum of 4 if a register changed, and
/// then the map must be rebuilt, and of 256 times the reasons why this one doesn't read the value back, a bit for each.
#[unsafe(no_mangle)]
pub extern "C" fn tilvenka_pmp_write(unit: &mut Unit, csr: u32, value: u64) -> u32
    ensures { MatchResult (register_in (file_of_unit unit.old) csr)
        (λ named. IsWriteAnswer unit.old unit.new named value result)
        (λ fault. (result ≡ status_number (Err fault)) × (unit.new ≡ unit.old)) }
{
    match unit.usual_register(csr) {
        Some(csr) => unit.write(csr, value),
        None => unit.write_on_hart(csr, value),
    }
}

/// Writes a register as `tilvenka_pmp_write` does, and adds 8 to the result if some access may be decided differently
/// than before: then `first` and `last` are the first and the last byte of what moved, and in every mode and kind an
/// access without any of these is decided as before. Otherwise they are unchanged.
#[unsafe(no_mangle)]
pub extern "C" fn tilvenka_pmp_write_moved(
    unit: &mut Unit,
    csr: u32,
    value: u64,
    first: &mut u64,
    last: &mut u64,
) -> u32
    ensures { MatchResult (register_in (file_of_unit unit.old) csr)
        (λ named. IsMoveAnswer unit.old unit.new named value (ends first.old last.old) (ends first.new last.new) result)
        (λ fault. (result ≡ status_number (Err fault)) × (unit.new ≡ unit.old)
        × (ends first.new last.new ≡ ends first.old last.old)) }
{
    match unit.usual_register(csr) {
        Some(csr) => unit.write_moved(csr, value, first, last),
        None => unit.write_moved_on_hart(csr, value, first, last),
    }
}

/// Reads a register, by its CSR number. Returns 0, or on failure the same as a write.
#[unsafe(no_mangle)]
pub extern "C" fn tilvenka_pmp_read(unit: &Unit, csr: u32, value: &mut u64) -> u32
    ensures status { result ≡ status_number (register_in (file_of_unit unit.now) csr) }
    ensures value { MatchResult (register_in (file_of_unit unit.now) csr)
        (λ named. value.new ≡ register_value (file_of_unit unit.now) named)
        (λ fault. value.new ≡ value.old) }
{
    match unit.standard_register(csr) {
        Some((registers, csr)) => {
            *value = registers.read(csr);
            UNCHANGED
        }
        None => unit.read_on_hart(csr, value),
    }
}

/// Builds the map, which makes decisions faster, unless it is built.
#[unsafe(no_mangle)]
pub extern "C" fn tilvenka_pmp_build(unit: &mut Unit)
    ensures { IsBuilt unit.old unit.new }
{
    unit.build();
}

/// Builds the map unless it is built, if the given number of questions since the last change justifies it. Returns
/// whether it is then built.
#[unsafe(no_mangle)]
pub extern "C" fn tilvenka_pmp_settle(unit: &mut Unit, questions: u64) -> bool
    ensures { IsSettled unit.old unit.new questions result }
{
    if unit.map.runs == 0 && questions >= 24 {
        unit.build();
    }
    unit.map.runs > 0
}

/// Whether the map is built.
#[unsafe(no_mangle)]
pub extern "C" fn tilvenka_pmp_is_built(unit: &Unit) -> bool
    ensures { IsTrue result ↔ 0 < unit.now.map.runs }
{
    unit.map.runs > 0
}

/// Decides an access (Volume II, 3.7.1.3), by the map if it is built.
#[unsafe(no_mangle)]
pub extern "C" fn tilvenka_pmp_decide(
    unit: &Unit,
    mode: u32,
    kind: u32,
    start: u64,
    length: u64,
) -> u32
    ensures answer { (access : Access) → IsNamed access mode kind start length → IsUnit unit.now
        → result ≡ answer_number access (decision_of (file_of_unit unit.now) access) }
    ensures none { ((access : Access) → ¬ (IsNamed access mode kind start length)) → result ≡ no_access kind }
{
    match access_of(mode, kind, start, length) {
        Some(access) => u32::from(unit.answer(&access)),
        None => u32::from(no_access(kind)),
    }
}

/// Decides all these accesses, each as `tilvenka_pmp_decide` does, and stores the answers beside them.
#[unsafe(no_mangle)]
pub extern "C" fn tilvenka_pmp_decide_many(unit: &Unit, questions: &mut [Question])
    ensures { AllZip (IsAnswered unit.now) questions.old questions.new }
{
    for question in questions.iter_mut() {
        question.decide(unit);
    }
}

/// Decides an access by the registers, regardless of the map.
#[unsafe(no_mangle)]
pub extern "C" fn tilvenka_pmp_decide_by_registers(
    unit: &Unit,
    mode: u32,
    kind: u32,
    start: u64,
    length: u64,
) -> u32
    ensures answer { (access : Access) → IsNamed access mode kind start length
        → result ≡ answer_number access (decision_of (file_of_unit unit.now) access) }
    ensures none { ((access : Access) → ¬ (IsNamed access mode kind start length)) → result ≡ no_access kind }
{
    match access_of(mode, kind, start, length) {
        Some(access) => u32::from(unit.answer_by_registers(&access)),
        None => u32::from(no_access(kind)),
    }
}

/// Returns what a mode may do in a whole range of bytes, such as a page: R is 1, W is 2, X is 4; 8 if no one owner has
/// all of its bytes; 16 if the numbers name no mode, or no range that ends at or below `2^56`.
#[unsafe(no_mangle)]
pub extern "C" fn tilvenka_pmp_rights(unit: &Unit, mode: u32, start: u64, length: u64) -> u32
    ensures rights { (named : Mode) → IsRangeOf named mode start length → IsUnit unit.now
        → IsRightsNumber (file_of_unit unit.now) named start length result }
    ensures none { ((named : Mode) → ¬ (IsRangeOf named mode start length)) → result ≡ no_range }
{
    match mode_of(mode) {
        Some(mode) if length > 0 && length <= ADDRESS_LIMIT && start <= ADDRESS_LIMIT - length => {
            rights_number(unit.rights(mode, start, length))
        }
        _ => NO_RANGE,
    }
}

/// Finds all bytes around this one that have its owner: the first and the last of them. Returns the number of the
/// owner's cause plus 1,024 times what the mode may do there, or 1,023 if the numbers name no mode or no byte below
/// `2^56`, which leaves `first` and `last` unchanged.
#[unsafe(no_mangle)]
pub extern "C" fn tilvenka_pmp_run(
    unit: &Unit,
    mode: u32,
    address: u64,
    first: &mut u64,
    last: &mut u64,
) -> u32
    ensures run { (named : Mode) → mode_number named ≡ mode → address < ADDRESS_LIMIT → IsUnit unit.now
        → IsRunAnswer (file_of_unit unit.now) named address first.new last.new result }
    ensures none { (((named : Mode) → ¬ (mode_number named ≡ mode)) ⊎ (ADDRESS_LIMIT ≤ address))
        → (result ≡ no_cause) × (first.new ≡ first.old) × (last.new ≡ last.old) }
{
    match mode_of(mode) {
        Some(mode) if address < ADDRESS_LIMIT => {
            let (run, rights) = unit.run(mode, address);
            *first = run.first;
            *last = run.last;
            let rights = rights_number(rights);
            u32::from(cause_number(whole_cause(run.owner))) + 1024 * rights
        }
        _ => u32::from(NO_CAUSE),
    }
}

/// Writes the registers out, with zeros for what the unit lacks. Their number names the hart, so that they can be
/// restored.
#[unsafe(no_mangle)]
pub extern "C" fn tilvenka_pmp_save_to(unit: &Unit, registers: &mut SavedRegisters)
    ensures saved { registers.new ≡ saved_registers (file_of_unit unit.now) }
    ensures restored { restored_file registers.new ≡ file_of_unit unit.now }
    ensures named { names_hart registers.new.entries ≡ true }
{
    *registers = unit.registers.canonical();
}

/// Sets the registers to any numbers: except the hart's, every choice stands for a unit. The map must then be rebuilt.
/// Returns 0, or 3 if `entries` names no hart, and then the unit is unchanged.
#[unsafe(no_mangle)]
pub extern "C" fn tilvenka_pmp_restore_from(unit: &mut Unit, registers: &SavedRegisters) -> u32
    ensures done { names_hart registers.now.entries ≡ true
        → (result ≡ 0) × IsSetTo (restored_file registers.now) unit.new }
    ensures refused { names_hart registers.now.entries ≡ false → (result ≡ no_hart) × (unit.new ≡ unit.old) }
{
    match Hart::named(registers.entries) {
        Some(_) => {
            unit.registers = registers.canonical();
            unit.map.runs = 0;
            UNCHANGED
        }
        None => NO_HART,
    }
}
