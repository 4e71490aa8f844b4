//! The fields of rows, as an explanation describes what was wanted in them.

use pmp_text::{COMMENT, NAME};

/// The fields of a trace.
pub const TRACE: [&str; 5] = [
    "after: a number of publications, or with pmp 3 last, last-N or a name of the script's",
    "mode: M, S or U",
    "kind: fetch, load or store",
    "start: a byte address, in decimal or with 0x, or with --names NAME or NAME+OFFSET",
    "length: a number of bytes",
];

/// The fields of a policy, in the order of the indices in its faults: a name and a comment come last.
pub const POLICY: [&str; 9] = [
    "from: a number of publications, or with pmp 3 last, last-N, mml, mmwp or rlb-clear",
    "to: a number of publications that isn't below from, or nothing for all, or with pmp 3 last, last-N, mml, mmwp or rlb-clear",
    "modes: one or more of the letters M, S and U, each once",
    "kind: fetch, load, store or any",
    "first: a byte address, in decimal or with 0x, or with --names NAME or NAME+OFFSET",
    "last: a byte address that isn't below first, in decimal or with 0x, or with --names NAME or NAME+OFFSET",
    "demand: never, always or held",
    "name: any text without control bytes, or nothing",
    "comment: any text without control bytes, or nothing",
];

/// The fields of names.
pub const NAMES: [&str; 3] = [
    "first: a byte address, in decimal or with 0x",
    "last: a byte address that isn't below first, in decimal or with 0x",
    "name: 1 to 64 printable bytes without blanks, quotes, + and commas, not beginning with a digit",
];

/// The fields of a plan.
pub const PLAN: [&str; 6] = [
    "first: a byte address, in decimal or with 0x",
    "last: a byte address that isn't below first, in decimal or with 0x",
    "m: the rights of M-mode, as rwx, r-x or ---",
    "su: the rights of S-mode and U-mode, as rwx, r-x or ---",
    "locked: yes or no",
    "name: 1 to 64 printable bytes without blanks, quotes, + and commas, not beginning with a digit",
];

/// Whether a row of names or of a plan has an address at this index.
pub fn is_range_address(index: Option<usize>) -> bool {
    matches!(index, Some(0 | 1))
}

/// Whether a row of a trace has an address at this index.
pub fn is_trace_address(index: Option<usize>) -> bool {
    matches!(index, Some(3))
}

/// Whether a row of a policy has an address at this index.
pub fn is_policy_address(index: Option<usize>) -> bool {
    matches!(index, Some(4 | 5))
}

/// Returns the position of the field of a policy with this index in the rows below this header, from 0.
pub fn policy_place(header: &[u8], index: usize) -> usize {
    let last = header.iter().filter(|byte| **byte == b',').count();
    match index {
        NAME => 0,
        COMMENT => last,
        _ if last == COMMENT => index.saturating_add(1),
        _ => index,
    }
}
