//! Accepted reasons why registers may differ from what a script writes or expects.

ghost use Rattle.std.specs.Prelude.{◌≡◌};
ghost use Rattle.pmp_audit.specs.AcceptedReasons.{
  are_reasons,
  has_other_reason,
  is_reason_word,
  is_write_reason,
  says_reason,
};

use pmp_core::{Csr, RegFile, WriteReason};
use pmp_lint::{NameAt, is_accepted};
use pmp_text::reason_word;

/// The reason of an expected value that isn't what the register reads, as rows write it.
pub const DIFFERS: &[u8] = b"differs";

/// Whether it is the word of a reason why a write isn't stored as written.
fn is_write_reason(name: &[u8]) -> bool
    ensures { result ≡ is_write_reason name.now }
{
    WriteReason::ALL
        .iter()
        .any(|reason| reason_word(*reason).as_bytes() == name)
}

/// Whether rows write such a reason: of a write, or `differs`.
fn is_reason_word(name: &[u8]) -> bool
    ensures { result ≡ is_reason_word name.now }
{
    name == DIFFERS || is_write_reason(name)
}

/// Whether a word is `REASON` or `REASON:LINE`, with a reason as rows write it.
fn is_reason(word: &[u8]) -> bool
    ensures { result ≡ says_reason word.now }
{
    NameAt::read(word).is_some_and(|it| is_reason_word(it.name))
}

/// Whether each of the words, which commas separate, is.
pub fn are_reasons(words: &[u8]) -> bool
    ensures { result ≡ are_reasons words.now }
{
    words
        .split(|byte| *byte == b',')
        .all(|word| is_reason(word))
}

/// The accepted reasons, as they stand at a line.
#[derive(Clone, Copy)]
pub struct AcceptedAt<'a> {
    pub reasons: &'a [u8],
    pub line: u64,
}

/// Whether a reason why the register wouldn't read the value, if it were written now, isn't accepted at the line.
pub fn has_other_reason(accepted: AcceptedAt<'_>, file: &RegFile, csr: Csr, value: u64) -> bool
    ensures { result ≡ has_other_reason accepted.entry.reasons.now accepted.entry.line file.now csr value }
{
    let AcceptedAt { reasons, line } = accepted;
    let registers = file.registers();
    WriteReason::ALL.iter().any(|reason| {
        registers.is_reason(*reason, csr, value)
            && !is_accepted(reasons, reason_word(*reason).as_bytes(), line)
    })
}
