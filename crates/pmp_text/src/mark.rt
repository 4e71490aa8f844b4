//! The names that a script gives its moments.

ghost use Rattle.std.specs.Prelude.{◌≡◌, ◌<◌, IfSome, length};
ghost use Rattle.std.specs.List.{list_all};
ghost use Rattle.pmp_text.specs.Marks.{begins_with_letter, is_letter, is_name, is_name_byte, is_taken, name_bytes};
ghost use Rattle.pmp_text.specs.Marks.{name_said, same_name, zero_place};

/// The greatest length of a name in bytes.
pub const NAME_BYTES: usize = 64;

/// A name: a letter, then letters, digits, `_` and `.`, at most [`NAME_BYTES`] bytes in all.
#[derive(Clone, Copy, Debug, PartialEq, Eq)]
pub struct Name {
    /// The name, padded with zeros.
    bytes: [u8; NAME_BYTES],
}

/// A moment that a script names.
#[derive(Clone, Copy, Debug, PartialEq, Eq)]
pub struct Mark {
    pub name: Name,
    /// How many publications are done there.
    pub done: u64,
}

impl Default for Mark {
    fn default() -> Self {
        let name = Name {
            bytes: [0; NAME_BYTES],
        };
        Mark { name, done: 0 }
    }
}

fn is_letter(byte: u8) -> bool
    ensures { result ≡ is_letter byte }
{
    matches!(byte, b'A'..=b'Z' | b'a'..=b'z')
}

fn is_name_byte(byte: u8) -> bool
    ensures { result ≡ is_name_byte byte }
{
    is_letter(byte) || matches!(byte, b'0'..=b'9' | b'_' | b'.')
}

/// Whether the word has a meaning of its own in places that may name a moment.
fn is_taken(word: &[u8]) -> bool
    ensures { result ≡ is_taken word.now }
{
    matches!(word, b"last" | b"mml" | b"mmwp" | b"rlb")
}

fn begins_with_letter(word: &[u8]) -> bool
    ensures { result ≡ begins_with_letter word.now }
{
    word.first().is_some_and(|first| is_letter(*first))
}

fn are_name_bytes(word: &[u8]) -> bool
    ensures { result ≡ list_all is_name_byte word.now }
{
    word.iter().all(|byte| is_name_byte(*byte))
}

fn is_name(word: &[u8]) -> bool
    ensures { result ≡ is_name word.now }
{
    begins_with_letter(word) && are_name_bytes(word) && word.len() <= NAME_BYTES && !is_taken(word)
}

/// Returns the position of the first zero.
fn zero_place(bytes: &[u8]) -> Option<usize>
    ensures place { result ≡ zero_place bytes.now }
    ensures inside { IfSome result (λ place. place < length bytes.now) }
{
    bytes.iter().position(|byte| *byte == 0)
}

impl Name {
    /// Returns the name that a word is.
    pub fn read(word: &[u8]) -> Option<Name>
        ensures { result ≡ name_said word.now }
    {
        if !is_name(word) {
            return None;
        }
        let mut bytes = [0; NAME_BYTES];
        bytes[..word.len()].copy_from_slice(word);
        Some(Name { bytes })
    }

    /// Returns its bytes, without the zeros after it.
    pub fn as_bytes(&self) -> &[u8]
        ensures { result.now ≡ name_bytes self.now }
    {
        let end = zero_place(&self.bytes).unwrap_or(NAME_BYTES);
        &self.bytes[..end]
    }

    /// Whether they are the same.
    pub fn is(&self, other: &Name) -> bool
        ensures { result ≡ same_name self.now other.now }
    {
        self.bytes.as_slice() == other.bytes.as_slice()
    }
}
