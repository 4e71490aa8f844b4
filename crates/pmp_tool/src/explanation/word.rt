//! The word of the command line that a refusal is about.

use super::shown::show_text;
use crate::argument::Argument;
use crate::command_line::parse_words;
use crate::word::word;
use std::alloc::{AllocError, Global};

/// Returns the word of an argument.
pub fn word_of<'a>(alloc: Global, words: &'a [String], argument: Argument) -> Option<&'a str> {
    let matches = parse_words(alloc, words).ok()?;
    let (_, found) = matches.subcommand()?;
    word(found, argument)
}

/// Shows a word.
pub fn write_word(text: &mut String, word: &str) -> Result<(), AllocError> {
    text.push_str("in the word '")?;
    show_text(text, word)?;
    text.push_str("'\n")
}
