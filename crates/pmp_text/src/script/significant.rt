//! The significant lines of a text, one after another.

ghost use Rattle.std.specs.Prelude.{◌≡◌, ◌+◌, ◌<◌, ◌^◌, length};
ghost use Rattle.std.specs.Iterator.{YieldsFirstBy, item_count};
ghost use Rattle.pmp_text.specs.Lines.{words};
ghost use Rattle.pmp_text.specs.ScriptLines.{counts};

use crate::script::lines::split_first_line;
use crate::script::words::Words;

/// A line with its number in the text, counted from 1.
#[derive(Clone, Copy)]
pub struct NumberedLine<'a> {
    pub number: u64,
    pub bytes: &'a [u8],
}

/// Whether a line has a word, and the first one doesn't begin a comment.
fn is_significant(line: &[u8]) -> bool
    ensures { result ≡ counts (words line.now) }
{
    let first = Words::new(line).next();
    first.is_some_and(|word| !word.starts_with(b"#"))
}

/// The remaining significant lines of a text.
#[derive(Drop)]
pub struct SignificantLines<'a> {
    rest: &'a [u8],
    /// The number of the first remaining line.
    number: u64,
    ghost countable: { number + length rest.now < 2 ^ 64 },
}

impl<'a> SignificantLines<'a> {
    ghost use Rattle.pmp_text.specs.ScriptLines.{significant_lines};
    ghost use Rattle.pmp_text.specs.Steps.Views.{lines_left};

    pub fn new(text: &'a [u8]) -> Self
        requires { length text.now < 2 ^ 63 }
        ensures { lines_left result ≡ significant_lines text.now }
    {
        SignificantLines {
            rest: text,
            number: 1,
        }
    }
}

impl<'a> Iterator for SignificantLines<'a> {
    ghost use Rattle.pmp_text.specs.Steps.Views.{seen_line, lines_left};

    type Item = NumberedLine<'a>;

    ghost next_gives = { YieldsFirstBy seen_line lines_left };

    ghost remaining = { item_count lines_left };

    fn next(&mut self) -> Option<NumberedLine<'a>> {
        while let Some((bytes, rest)) = split_first_line(self.rest) {
            let number = self.number;
            self.rest = rest;
            self.number += 1;
            if is_significant(bytes) {
                return Some(NumberedLine { number, bytes });
            }
        }
        None
    }
}
