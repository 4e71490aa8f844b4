//! What requests are answered with.

use crate::row_format::AskedFormat;
use pmp_text::AddressNames;
use std::alloc::Global;

/// How requests are answered: the names that addresses have, if they are given, and the form of rows, if that is not
/// CSV.
#[derive(Clone, Copy)]
pub struct Setting<'a> {
    pub alloc: Global,
    pub names: Option<AddressNames<'a>>,
    pub form: Option<AskedFormat<'a>>,
}

/// How requests are answered, and where threads come from.
#[derive(Clone, Copy)]
pub struct Work<'r, 'a, R> {
    pub rt: &'r R,
    pub setting: Setting<'a>,
}
