//! The words of a line, one after another.

ghost use Rattle.std.specs.Prelude.{◌≡◌, [], ◌∷◌, MatchOption, not, position};
ghost use Rattle.std.specs.List.{before_first, after_first};
ghost use Rattle.std.specs.Iterator.{YieldsFirstRef, item_count};
ghost use Rattle.pmp_text.specs.Lines.{words, is_blank};

fn is_blank_byte(byte: u8) -> bool
    ensures { result ≡ is_blank byte }
{
    matches!(byte, b' ' | b'\t')
}

fn first_blank(line: &[u8]) -> Option<usize>
    ensures { result ≡ position is_blank line.now }
{
    line.iter().position(|byte| is_blank_byte(*byte))
}

fn first_unblank(line: &[u8]) -> Option<usize>
    ensures { result ≡ position (λ byte. not (is_blank byte)) line.now }
{
    line.iter().position(|byte| !is_blank_byte(*byte))
}

/// Returns the text before the first blank, and the text after it.
fn split_at_blank(line: &[u8]) -> (&[u8], &[u8])
    ensures word { result.0.now ≡ before_first is_blank line.now }
    ensures rest { result.1.now ≡ after_first is_blank line.now }
{
    match first_blank(line) {
        Some(end) => (&line[..end], &line[end + 1..]),
        None => (line, &[]),
    }
}

/// Returns the first word of a line and the text after it, or nothing if the line has no word.
fn split_first_word(line: &[u8]) -> Option<(&[u8], &[u8])>
    ensures { MatchOption result (words line.now ≡ []) (λ parts. words line.now ≡ parts.0.now ∷ words parts.1.now) }
{
    let start = first_unblank(line)?;
    Some(split_at_blank(&line[start..]))
}

/// The remaining words of a line.
#[derive(Drop)]
pub struct Words<'a> {
    rest: &'a [u8],
}

impl<'a> Words<'a> {
    pub fn new(line: &'a [u8]) -> Self
        ensures { result.rest.now ≡ line.now }
    {
        Words { rest: line }
    }

    /// Returns the rest of the line, which contains the remaining words.
    pub fn rest(&self) -> &'a [u8]
        ensures { result.now ≡ self.now.rest.now }
    {
        self.rest
    }
}

impl<'a> Iterator for Words<'a> {
    type Item = &'a [u8];

    ghost next_gives = { YieldsFirstRef (λ s. words s.rest.now) };

    ghost remaining = { item_count (λ s. words s.rest.now) };

    fn next(&mut self) -> Option<&'a [u8]> {
        let (word, rest) = split_first_word(self.rest)?;
        self.rest = rest;
        Some(word)
    }
}
