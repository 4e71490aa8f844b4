//! Words of a text, compared.

ghost use Rattle.std.specs.Prelude.{◌≡◌, bytes_eq};

/// Whether a word is this one.
#[inline]
pub fn is_word(word: &[u8], one: &[u8]) -> bool
    ensures { result ≡ bytes_eq word.now one.now }
{
    word == one
}
