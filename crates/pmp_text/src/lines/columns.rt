//! The columns of each kind of row.

use crate::lines::row_kind::Column;
use crate::lines::row_kind::Column::{Number, Text};

/// The runs of `map`.
pub const RUNS: &[Column] = &[
    Text("first"),
    Text("last"),
    Number("owner"),
    Text("mrights"),
    Text("surights"),
];

/// The entries of `entries`.
pub const ENTRIES: &[Column] = &[
    Number("entry"),
    Text("matching"),
    Text("first"),
    Text("last"),
    Text("mrights"),
    Text("surights"),
    Text("lock"),
    Text("address"),
    Number("since"),
    Number("holds"),
];

/// The events of `writes`.
pub const EFFECTS: &[Column] = &[
    Number("n"),
    Number("publication"),
    Number("line"),
    Text("register"),
    Text("written"),
    Text("before"),
    Text("after"),
    Text("effect"),
    Text("reasons"),
    Text("entries"),
];

/// The rows of `policy`.
pub const VERDICTS: &[Column] = &[
    Number("n"),
    Text("verdict"),
    Number("done"),
    Text("first"),
    Text("last"),
    Number("owner"),
];

/// The rows of `policy` with names and comments.
pub const LABELED_VERDICTS: &[Column] = &[
    Number("n"),
    Text("verdict"),
    Number("done"),
    Text("first"),
    Text("last"),
    Number("owner"),
    Text("name"),
    Text("comment"),
];

/// The findings of `lint`.
pub const FINDINGS: &[Column] = &[
    Number("number"),
    Text("name"),
    Number("line"),
    Number("entry"),
    Text("first"),
    Text("last"),
    Text("modes"),
];

/// The ranges of `diff` whose rights differ.
pub const RIGHTS: &[Column] = &[
    Text("first"),
    Text("last"),
    Text("mold"),
    Text("suold"),
    Text("mnew"),
    Text("sunew"),
    Text("change"),
];

/// The ranges of `diff` whose locks differ.
pub const LOCKS: &[Column] = &[
    Text("first"),
    Text("last"),
    Text("lockold"),
    Text("locknew"),
];

/// The row of `why`.
pub const REASONS: &[Column] = &[
    Number("since"),
    Text("answer"),
    Number("fault"),
    Text("cause"),
    Number("entry"),
    Text("matching"),
    Text("first"),
    Text("last"),
    Text("bits"),
    Text("table"),
    Text("lock"),
    Text("held"),
    Number("configured"),
    Number("addressed"),
    Number("lowend"),
];

/// The answers behind the row of `why`.
pub const ANSWERS: &[Column] = &[
    Number("n"),
    Text("answer"),
    Number("fault"),
    Text("cause"),
    Number("entry"),
];
