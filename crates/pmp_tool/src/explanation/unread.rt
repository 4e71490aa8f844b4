//! Words of the command line that are not text.

use pmp_text::{OutputFault, Refusal};
use std::env::{Env, FillError};
use std::io::Write;
use std::str;

/// The greatest number of bytes of a word that are examined.
const ROOM: usize = 1 << 13;

/// Explains that a word isn't UTF-8, if another one is `--explain`.
pub fn explain_unread<R: Env, E: Write>(
    words: &R,
    refusal: Refusal,
    err: &mut E,
) -> Result<(), OutputFault> {
    let (asks, number) = look_at(words);
    if !asks {
        return Ok(());
    }
    if let Some(number) = number {
        writeln!(err, "in word {number}, which isn't UTF-8")?;
    }
    let wanted = refusal.wanted();
    let remedy = refusal.remedy();
    Ok(writeln!(err, "wanted: {wanted}\nto do: {remedy}")?)
}

/// Returns whether one of the words is `--explain`, and the number of the first that isn't UTF-8.
fn look_at<R: Env>(words: &R) -> (bool, Option<usize>) {
    let mut room = [0; ROOM];
    let mut number = None;
    let mut asks = false;
    for index in 1..usize::MAX {
        match words.arg(index, &mut room) {
            Ok(length) => {
                let word = room.get(..length).unwrap_or(&[]);
                asks |= word == b"--explain".as_slice();
                if number.is_none() && str::from_utf8(word).is_err() {
                    number = Some(index);
                }
            }
            Err(FillError::TooLong) => {}
            Err(FillError::NotPresent) => break,
        }
    }
    (asks, number)
}
