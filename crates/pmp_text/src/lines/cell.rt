//! A cell of a row.

ghost use Rattle.std.specs.Prelude.{◌≡◌, ◌++◌, List, ℕ, OnErr, OnOk};
ghost use Rattle.std.specs.Io.{StartsWith};
ghost use Rattle.pmp_text.specs.Cells.{cell_value, number_value, shown_text};

use crate::lines::hexadecimal::{ADDRESS_DIGITS, Hex, Value};
use crate::lines::marks::Marks;
use crate::lines::verdict::Verdict;
use crate::lines::{NoMemory, append_line};
use crate::sink::Sink;
use pmp_core::Perms;

/// A cell of a row; `T` is what a text is kept in.
#[derive(Clone, Copy)]
pub enum Cell<T> {
    Nothing,
    Number(u64),
    /// A byte address.
    Address(u64),
    /// The value of a register.
    Value(u64),
    Rights(Perms),
    /// Whether a row of a policy holds.
    Verdict(Verdict),
    Word(&'static str),
    /// A text without commas, quotes and line ends.
    Plain(T),
    Text(T),
}

impl<T> Cell<T> {
    /// Returns the number, or nothing.
    pub fn number(number: Option<u64>) -> Cell<T>
        ensures { (bytes : T → List ℕ) → cell_value bytes result ≡ number_value number }
    {
        match number {
            Some(number) => Cell::Number(number),
            None => Cell::Nothing,
        }
    }
}

impl<'a> Cell<&'a [u8]> {
    /// Appends the cell's text without quotes, or a prefix of it.
    pub fn append_to<S: Sink>(&self, out: &mut S) -> Result<(), NoMemory>
        ensures ok { OnOk result (S.text out.new
            ≡ S.text out.old ++ shown_text (cell_value (λ text. text.now) self.now)) }
        ensures err { OnErr result (StartsWith (S.text out.new) (S.text out.old)) }
    {
        match *self {
            Cell::Nothing => Ok(()),
            Cell::Number(number) => append_line(out, format_args!("{number}")),
            Cell::Address(address) => append_line(out, Hex::<ADDRESS_DIGITS>::new(address)),
            Cell::Value(value) => append_line(out, Value(value)),
            Cell::Rights(rights) => append_line(out, Marks(rights)),
            Cell::Verdict(verdict) => out.append(verdict.word().as_bytes()),
            Cell::Word(word) => out.append(word.as_bytes()),
            Cell::Plain(text) | Cell::Text(text) => out.append(text),
        }
    }
}

impl Cell<Vec<u8>> {
    /// Returns the same cell, without a text of its own.
    pub fn borrowed(&self) -> Cell<&[u8]>
        ensures { cell_value (λ text. text.now) result ≡ cell_value (λ text. text.items) self.now }
    {
        match self {
            Cell::Nothing => Cell::Nothing,
            Cell::Number(number) => Cell::Number(*number),
            Cell::Address(address) => Cell::Address(*address),
            Cell::Value(value) => Cell::Value(*value),
            Cell::Rights(rights) => Cell::Rights(*rights),
            Cell::Verdict(verdict) => Cell::Verdict(*verdict),
            Cell::Word(word) => Cell::Word(*word),
            Cell::Plain(text) => Cell::Plain(text),
            Cell::Text(text) => Cell::Text(text),
        }
    }
}
