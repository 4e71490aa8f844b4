//! Bytes and texts as they are shown.

use std::alloc::AllocError;

/// Shows a byte of a line: a tab as a space, and any other control or non-ASCII byte as a question mark.
pub fn show_byte(text: &mut String, byte: u8) -> Result<(), AllocError> {
    text.push(match byte {
        b' '..=b'~' => char::from(byte),
        b'\t' => ' ',
        _ => '?',
    })
}

/// Shows a path or a word, with a question mark for each control character.
pub fn show_text(text: &mut String, shown: &str) -> Result<(), AllocError> {
    for sign in shown.chars() {
        text.push(match sign {
            '\0'..='\u{1f}' | '\u{7f}'..='\u{9f}' => '?',
            sign => sign,
        })?;
    }
    Ok(())
}
