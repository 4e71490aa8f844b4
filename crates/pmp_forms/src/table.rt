//! The columns of a command's rows.

ghost use Rattle.std.specs.Prelude.{◌≡◌, IfOk, map};
ghost use Rattle.pmp_text.specs.Columns.{column_value};
ghost use Rattle.pmp_forms.specs.Tables.{whole};

use pmp_text::{Column, RowKind};
use std::alloc::{AllocError, Global};

/// What the rows of a command are.
#[derive(Clone, Copy)]
pub struct Table {
    /// The kind of all rows, or of most.
    pub kind: RowKind,
    /// Whether each row begins with the name of a hart.
    pub has_hart: bool,
    /// Whether each row ends with the names of its addresses.
    pub has_names: bool,
}

impl Table {
    /// Returns the columns of its rows of this kind.
    pub fn columns(self, alloc: Global, kind: RowKind) -> Result<Vec<Column>, AllocError>
        ensures { IfOk result (λ all. map column_value all.items ≡ whole self kind) }
    {
        let mut all = Vec::new(alloc);
        if self.has_hart {
            all.push(Column::Text("hart"))?;
        }
        all.extend_from_slice(kind.columns())?;
        if self.has_names {
            all.push(Column::Text("names"))?;
        }
        Ok(all)
    }
}
