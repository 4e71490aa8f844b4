//! The names of harts and of ranges of addresses, and rows with them.
#![tactic(auto)]

mod address_name;
mod address_names;
mod hart_name;
mod harts;
mod named_address;
mod numbered_text;
mod order_key;
mod whole_rows;

pub use address_name::{is_name, split_comma};
pub use address_names::read_names;
pub use hart_name::{HART_NAME, HartName};
pub use harts::{are_same, read_harts};
pub use named_address::read_address;
pub use numbered_text::number_text;
pub use whole_rows::{Beside, append_whole};
