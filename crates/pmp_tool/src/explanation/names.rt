//! The names that a script gives its moments.

use super::shown::{show_byte, show_text};
use crate::kept::KeptInput;
use pmp_text::{GrowingLog, Mark, read_script_in};
use std::alloc::{AllocError, Global};

/// The greatest number of names that are listed.
const NAMES: usize = 16;

/// Lists the first names that a script gives its moments, if it can be read, and says how many more there are.
pub fn write_names(alloc: Global, text: &mut String, input: &KeptInput) -> Result<(), AllocError> {
    let mut log = GrowingLog::new(alloc);
    let Ok(script) = read_script_in(&mut log, &input.bytes) else {
        return Ok(());
    };
    text.push_str("names of moments in ")?;
    show_text(text, input.path.as_str())?;
    write_list(text, script.moments().marks.unwrap_or(&[]))
}

fn write_list(text: &mut String, marks: &[Mark]) -> Result<(), AllocError> {
    if marks.is_empty() {
        return text.push_str(": none\n");
    }
    for (place, mark) in marks.iter().take(NAMES).enumerate() {
        text.push_str(if place == 0 { ": " } else { ", " })?;
        for byte in mark.name.as_bytes() {
            show_byte(text, *byte)?;
        }
    }
    let more = marks.len().saturating_sub(NAMES);
    if more > 0 {
        write!(text, " and {more} more")?;
    }
    text.push('\n')
}
