//! Names that are accepted: of findings, or of reasons why writes aren't stored.

ghost use Rattle.std.specs.Prelude.{◌≡◌, option_map, position};
ghost use Rattle.pmp_lint.specs.Accepting.{is_accepted, is_colon, is_meant, name_at};

use pmp_text::read_word_number;

/// A name, and the line at which it is meant.
#[derive(Clone, Copy)]
pub struct NameAt<'a> {
    pub name: &'a [u8],
    /// The line, or none for every line.
    pub line: Option<u64>,
}

fn first_colon(word: &[u8]) -> Option<usize>
    ensures { result ≡ position is_colon word.now }
{
    word.iter().position(|byte| *byte == b':')
}

impl<'a> NameAt<'a> {
    /// Returns what a word says: `NAME`, or `NAME:LINE`. There is none if the text after the first colon is no number.
    pub fn read(word: &'a [u8]) -> Option<NameAt<'a>>
        ensures { option_map (λ it. (it.name.now, it.line)) result ≡ name_at word.entry.now }
    {
        match first_colon(word) {
            Some(end) => {
                let line = read_word_number(&word[end + 1..])?;
                Some(NameAt {
                    name: &word[..end],
                    line: Some(line),
                })
            }
            None => Some(NameAt {
                name: word,
                line: None,
            }),
        }
    }
}

/// Whether a word says this name, at every line or at this one.
fn is_meant(word: &[u8], name: &[u8], line: u64) -> bool
    ensures { result ≡ is_meant name.now line word.now }
{
    NameAt::read(word).is_some_and(|it| it.name == name && it.line.is_none_or(|only| only == line))
}

/// Whether one of the words, which commas separate, says this name, at every line or at this one.
pub fn is_accepted(words: &[u8], name: &[u8], line: u64) -> bool
    ensures { result ≡ is_accepted words.now name.now line }
{
    words
        .split(|byte| *byte == b',')
        .any(|word| is_meant(word, name, line))
}
