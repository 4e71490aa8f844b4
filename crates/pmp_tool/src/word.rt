//! The meaning of the words of the command line that `clap` found.

ghost use Rattle.std.specs.Prelude.{◌≡◌, ◌<◌, ◌≤◌, IfSome, List, ℕ, Option, option_map};
ghost use Rattle.clap.specs.Words.{found_of, rows_of};
ghost use Rattle.pmp_core.specs.declared.access.Kind.{Kind};
ghost use Rattle.pmp_core.specs.declared.access.Mode.{Mode};
ghost use Rattle.pmp_text.specs.AccessWords.{kind_named, mode_named};
ghost use Rattle.pmp_text.specs.Moments.{when_said};
ghost use Rattle.pmp_text.specs.Numbers.{word_number};
ghost use Rattle.pmp_tool.specs.Words.{byte_named, expected_named, grain_named, only_named, place_of, smepmp_named, xlen_named};
ghost use Rattle.pmp_tool.specs.Words.{asked_in, bad_word, count_in, is_bare_word, is_set, is_stdin, is_used, needed_in};
ghost use Rattle.pmp_tool.specs.RowFormats.{row_format_named};
ghost use Rattle.pmp_tool.specs.Words.{word_in};

use crate::argument::Argument;
use crate::expected::Expected;
use crate::fault_line::FaultLine;
use crate::row_format::RowFormat;
use clap::ArgMatches;
use pmp_core::{Kind, Mode};
use pmp_text::{Only, Refusal, When, is_bare, read_kind, read_mode, read_word_number};

impl FaultLine {
    /// Returns the fault of an argument whose word isn't of its form.
    pub fn of_word(argument: Argument) -> FaultLine
        ensures { result ≡ bad_word argument }
    {
        FaultLine::about(argument, Refusal::BadWord)
    }
}

/// A value that a word of the command line can name.
pub trait Form: Sized {
    /// The value of a word, if it is of this form.
    ghost named: { List ℕ → Option Self };

    fn read(word: &str) -> Option<Self>
        ensures { result ≡ named word.now };
}

impl Form for u64 {
    ghost named = { word_number };

    fn read(word: &str) -> Option<u64> {
        read_word_number(word.as_bytes())
    }
}

impl Form for When {
    ghost named = { when_said };

    fn read(word: &str) -> Option<When> {
        When::read(word.as_bytes())
    }
}

impl Form for Mode {
    ghost named = { mode_named };

    fn read(word: &str) -> Option<Mode> {
        read_mode(word.as_bytes())
    }
}

impl Form for Kind {
    ghost named = { kind_named };

    fn read(word: &str) -> Option<Kind> {
        read_kind(word.as_bytes())
    }
}

impl Form for Expected {
    ghost named = { expected_named };

    /// Reads `allow` or `fault`, as rows write them.
    fn read(word: &str) -> Option<Expected> {
        match word {
            "allow" => Some(Expected::Allow),
            "fault" => Some(Expected::Fault),
            _ => None,
        }
    }
}

impl Form for RowFormat {
    ghost named = { row_format_named };

    fn read(word: &str) -> Option<RowFormat> {
        match word {
            "csv" => Some(RowFormat::Csv),
            "json" => Some(RowFormat::Json),
            "markdown" => Some(RowFormat::Markdown),
            "junit" => Some(RowFormat::Junit),
            "sarif" => Some(RowFormat::Sarif),
            _ => None,
        }
    }
}

impl Form for Only {
    ghost named = { only_named };

    /// Reads `more` or `less`, as rows write them.
    fn read(word: &str) -> Option<Only> {
        match word {
            "more" => Some(Only::More),
            "less" => Some(Only::Less),
            _ => None,
        }
    }
}

/// What a word says about XLEN.
#[derive(Clone, Copy)]
pub struct Xlen {
    /// Whether it is 32, and not 64.
    pub is_rv32: bool,
}

impl Form for Xlen {
    ghost named = { xlen_named };

    /// Reads `32` or `64`.
    fn read(word: &str) -> Option<Xlen> {
        match word {
            "32" => Some(Xlen { is_rv32: true }),
            "64" => Some(Xlen { is_rv32: false }),
            _ => None,
        }
    }
}

/// What a word says about Smepmp.
#[derive(Clone, Copy)]
pub struct Smepmp {
    pub is_there: bool,
}

impl Form for Smepmp {
    ghost named = { smepmp_named };

    /// Reads `yes` or `no`.
    fn read(word: &str) -> Option<Smepmp> {
        match word {
            "yes" => Some(Smepmp { is_there: true }),
            "no" => Some(Smepmp { is_there: false }),
            _ => None,
        }
    }
}

impl Form for u8 {
    ghost named = { byte_named };

    fn read(word: &str) -> Option<u8> {
        let number = read_word_number(word.as_bytes())?;
        if number < 256 {
            Some(number as u8)
        } else {
            None
        }
    }
}

/// What a word says about the grain.
#[derive(Clone, Copy)]
pub struct Grain {
    /// The manual's G, 0 to 10.
    pub place: u8,
}

/// The possible grains in bytes: that of G is at index G.
const GRAINS: [u64; 11] = [4, 8, 16, 32, 64, 128, 256, 512, 1024, 2048, 4096];

fn place_of(bytes: u64) -> Option<usize>
    ensures place { result ≡ place_of bytes }
    ensures small { IfSome result (λ place. place < 256) }
{
    GRAINS.iter().position(|grain| *grain == bytes)
}

impl Form for Grain {
    ghost named = { grain_named };

    /// Reads a number of bytes.
    fn read(word: &str) -> Option<Grain> {
        let bytes = read_word_number(word.as_bytes())?;
        let place = place_of(bytes)?;
        Some(Grain { place: place as u8 })
    }
}

/// Returns the word of an argument, if there is one.
pub fn word<'a>(words: &ArgMatches<'a>, argument: Argument) -> Option<&'a str>
    ensures { option_map (λ word. word.now) result ≡ word_in argument (rows_of (found_of words.now)) }
{
    words.get_str(argument.id())
}

/// Whether an option is used.
pub fn is_used(words: &ArgMatches, argument: Argument) -> bool
    ensures { result ≡ is_used argument (rows_of (found_of words.now)) }
{
    word(words, argument).is_some()
}

/// Whether an option without a word is used: `clap` then finds the word `true` for it.
pub fn is_set(words: &ArgMatches, argument: Argument) -> bool
    ensures { result ≡ is_set argument (rows_of (found_of words.now)) }
{
    word(words, argument).is_some_and(|word| word == "true")
}

/// Whether an argument's word has 14 digits and no `0x`.
pub fn is_bare_word(words: &ArgMatches, argument: Argument) -> bool
    ensures { result ≡ is_bare_word argument (rows_of (found_of words.now)) }
{
    word(words, argument).is_some_and(|word| is_bare(word.as_bytes()))
}

/// Returns what an option says, if it is used.
pub fn asked<T: Form>(words: &ArgMatches, argument: Argument) -> Result<Option<T>, FaultLine>
    ensures { result ≡ asked_in T.named argument (rows_of (found_of words.now)) }
{
    match word(words, argument) {
        Some(word) => Ok(Some(T::read(word).ok_or(FaultLine::of_word(argument))?)),
        None => Ok(None),
    }
}

/// Whether a word is the path of standard input.
pub fn is_stdin(words: &ArgMatches, argument: Argument) -> bool
    ensures { result ≡ is_stdin argument (rows_of (found_of words.now)) }
{
    word(words, argument).is_some_and(|word| word == "stdin")
}

/// Returns what a word says that its command requires.
pub fn needed<T: Form>(words: &ArgMatches, argument: Argument) -> Result<T, FaultLine>
    ensures { result ≡ needed_in T.named argument (rows_of (found_of words.now)) }
{
    asked(words, argument)?.ok_or(FaultLine::of_word(argument))
}

/// Returns the value of an option that takes a number from 1 to `most`, if it is used.
pub fn count(words: &ArgMatches, argument: Argument, most: u64) -> Result<Option<u64>, FaultLine>
    ensures value { result ≡ count_in most argument (rows_of (found_of words.now)) }
    ensures limits { (count : ℕ) → result ≡ Ok (Some count) → (1 ≤ count) × (count ≤ most) }
{
    match asked::<u64>(words, argument)? {
        Some(count) if count < 1 || most < count => Err(FaultLine::of_word(argument)),
        count => Ok(count),
    }
}
