//! The name of a policy's row, and the comment on it.

ghost use Rattle.std.specs.Prelude.{◌≡◌, IfOk};
ghost use Rattle.csv.specs.Records.{fields_of};
ghost use Rattle.pmp_text.specs.Labels.{label_in, label_text};

use crate::policy::row_fields::nine_fields;
use csv::ByteRecord;
use std::alloc::{AllocError, Global};

/// The name of a row and the comment on it, which its verdict repeats. Neither has control bytes.
#[derive(Drop)]
pub struct Label {
    pub name: Vec<u8>,
    pub comment: Vec<u8>,
}

impl Label {
    /// Returns the label of a record.
    pub fn read(alloc: Global, fields: &ByteRecord) -> Result<Label, AllocError>
        ensures { IfOk result (λ label. label_text label ≡ label_in (fields_of fields.now)) }
    {
        let mut name = Vec::new(alloc);
        let mut comment = Vec::new(alloc);
        if let Some(all) = nine_fields(fields) {
            name.extend_from_slice(all.name)?;
            comment.extend_from_slice(all.comment)?;
        }
        Ok(Label { name, comment })
    }
}
