//! The faulty line of an input, and its faulty part.

use super::shown::{show_byte, show_text};
use std::alloc::AllocError;

/// The number of bytes of a line that are shown.
const SHOWN: usize = 100;

const BYTE_ORDER_MARK: &[u8] = b"\xef\xbb\xbf";

/// The number of them before the marked ones.
const BEFORE: usize = 40;

/// A line of an input, and where its faulty part begins and ends.
#[derive(Clone, Copy)]
pub struct Spot<'a> {
    /// From 1.
    number: u64,
    line: &'a [u8],
    start: usize,
    end: usize,
}

impl<'a> Spot<'a> {
    /// Returns the line of a script with this number, and its word with this index, from 0.
    pub fn of_line(text: &'a [u8], number: u64, word: Option<usize>) -> Spot<'a> {
        Spot::new(number, line_at(text, number), word, b" \t")
    }

    /// Returns the line of the row with this number, and its field with this index, from 0; row 0 is the header.
    pub fn of_row(text: &'a [u8], row: u64, field: Option<usize>) -> Option<Spot<'a>> {
        let text = text.strip_prefix(BYTE_ORDER_MARK).unwrap_or(text);
        let (start, number) = row_start(text, row)?;
        let line = until(text.get(start..)?, b"\r\n");
        Some(Spot::new(number, line, field, b","))
    }

    /// Returns the line of the header.
    pub fn header(text: &'a [u8]) -> &'a [u8] {
        Spot::of_row(text, 0, None).map_or(&[], |spot| spot.line)
    }

    /// Returns the part of a line with this index, between separators, or else the line from its first word on.
    fn new(number: u64, line: &'a [u8], part: Option<usize>, separators: &[u8]) -> Spot<'a> {
        let found = match part {
            Some(index) => part_at(line, index, separators),
            None => None,
        };
        let (start, end) = found.unwrap_or((first_word(line), line.len()));
        Spot {
            number,
            line,
            start,
            end,
        }
    }

    /// Returns the bytes of the faulty part.
    pub fn marked(self) -> &'a [u8] {
        self.line.get(self.start..self.end).unwrap_or(&[])
    }

    /// Names the line, and shows it with a mark below it.
    pub fn write_to(self, text: &mut String, path: &str) -> Result<(), AllocError> {
        let number = self.number;
        text.push_str("in ")?;
        show_text(text, path)?;
        writeln!(text, ", line {number}")?;
        if self.line.is_empty() {
            return Ok(());
        }
        self.show(text)?;
        self.mark(text)
    }

    /// Returns the beginning of the shown part of the line.
    fn shown_from(self) -> usize {
        self.start.saturating_sub(BEFORE)
    }

    fn show(self, text: &mut String) -> Result<(), AllocError> {
        text.push_str("  ")?;
        for byte in self.line.iter().skip(self.shown_from()).take(SHOWN) {
            show_byte(text, *byte)?;
        }
        text.push('\n')
    }

    /// Marks the fault below it. An empty field has a mark, too.
    fn mark(self, text: &mut String) -> Result<(), AllocError> {
        text.push_str("  ")?;
        let from = self.shown_from();
        let end = self.end.max(self.start.saturating_add(1));
        for at in from..end.min(from.saturating_add(SHOWN)) {
            text.push(if at < self.start { ' ' } else { '^' })?;
        }
        text.push('\n')
    }
}

/// Returns the position of a line's first word.
fn first_word(line: &[u8]) -> usize {
    line.iter()
        .position(|byte| !matches!(*byte, b' ' | b'\t'))
        .unwrap_or(0)
}

/// Returns where the part of a line with this index is. Between commas, but not between blanks, a part may be empty, or
/// contain commas if it is in quotes.
fn part_at(line: &[u8], index: usize, separators: &[u8]) -> Option<(usize, usize)> {
    let is_csv = separators.contains(&b',');
    let mut left = index;
    let mut start = 0;
    let mut is_quoted = false;
    for end in 0..line.len().saturating_add(1) {
        if is_csv && line.get(end) == Some(&b'"') && line.get(start) == Some(&b'"') {
            is_quoted = !is_quoted;
        }
        if is_quoted || line.get(end).is_some_and(|byte| !separators.contains(byte)) {
            continue;
        }
        if start < end || is_csv {
            if left == 0 {
                return Some((start, end));
            }
            left -= 1;
        }
        start = end.saturating_add(1);
    }
    None
}

fn is_line_end(byte: u8) -> bool {
    matches!(byte, b'\n' | b'\r')
}

/// Returns the text before the first of these ends.
fn until<'a>(text: &'a [u8], ends: &[u8]) -> &'a [u8] {
    match text.iter().position(|byte| ends.contains(byte)) {
        Some(end) => &text[..end],
        None => text,
    }
}

/// Returns the line of a script with this number, from 1, without its line end.
fn line_at(text: &[u8], number: u64) -> &[u8] {
    let mut rest = text;
    for _ in 1..number {
        let Some(end) = rest.iter().position(|byte| *byte == b'\n') else {
            return &[];
        };
        rest = &rest[end + 1..];
    }
    match until(rest, b"\n") {
        [line @ .., b'\r'] => line,
        line => line,
    }
}

/// Returns the beginning of a row's record, and its line number, from 1: the nonblank lines are the header, which is
/// row 0, and then the rows. A line ends with LF, CR, or CR LF. No row before one at fault has a line end in a field.
fn row_start(text: &[u8], row: u64) -> Option<(usize, u64)> {
    let mut left = row;
    let mut number = 1u64;
    let mut before = b'\n';
    for (at, byte) in text.iter().enumerate() {
        if is_line_end(*byte) {
            if before != b'\r' || *byte != b'\n' {
                number = number.saturating_add(1);
            }
        } else if is_line_end(before) {
            if left == 0 {
                return Some((at, number));
            }
            left -= 1;
        }
        before = *byte;
    }
    None
}
