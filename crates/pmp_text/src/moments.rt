//! The moments of a script, as words name them.

ghost use Rattle.std.specs.Prelude.{◌≡◌, ◌≤◌};
ghost use Rattle.pmp_text.specs.Moments.{after_said, asked_between, done_at, label_place, label_said, moment_named};
ghost use Rattle.pmp_text.specs.Moments.{moment_said, place_of, to_said, waives, when_place, when_said};

use crate::mark::{Mark, Name};
use crate::numbers::read_word_number;
use crate::refusal::Refusal;
use crate::words::is_word;
use std::marker::Model;

/// The first moment from which a condition holds to the end, if there is one. A moment is a number of publications
/// done.
#[derive(Clone, Copy, Debug, Default, PartialEq, Eq)]
pub struct Lasting {
    /// MML is set.
    pub mml: Option<u64>,
    /// MMWP is set.
    pub mmwp: Option<u64>,
    /// RLB is clear.
    pub rlb_clear: Option<u64>,
}

/// The moments of a script that words may name.
#[derive(Drop)]
pub struct Moments<'a> {
    /// How many publications the script has.
    pub publications: u64,
    /// Those that the script names. None in versions 1 and 2, whose words are numbers.
    pub marks: Option<&'a [Mark]>,
    /// From when on bits of `mseccfg` keep their value to the end, if words may ask for that.
    pub lasting: Option<Lasting>,
}

impl<'a> Model for Moments<'a> {
    ghost use Rattle.std.specs.Prelude.{option_map};
    ghost use Rattle.pmp_text.specs.Moments.{KnownMoments};

    ghost Value = { KnownMoments };

    ghost view = { λ moments. record {
      publications = moments.publications;
      marks = option_map (λ marks. marks.now) moments.marks;
      lasting = moments.lasting;
    } };
}

/// What a word that is not a number says about a moment.
#[derive(Clone, Copy, Debug, PartialEq, Eq)]
pub enum MomentName {
    /// The given number of publications before the last moment.
    Last(u64),
    /// The first one from which MML is set to the end.
    Mml,
    /// The first one from which MMWP is set to the end.
    Mmwp,
    /// The first one from which RLB is clear to the end.
    RlbClear,
    /// The one with this name in the script.
    Marked(Name),
}

/// What a word says about a moment.
#[derive(Clone, Copy, Debug, PartialEq, Eq)]
pub enum When {
    /// After the given number of publications.
    Number(u64),
    Labelled(MomentName),
}

/// The first or the last moment of a policy's row.
#[derive(Clone, Copy)]
pub enum Moment {
    /// After the given number of publications, as a number.
    Numbered(u64),
    /// After that many publications, by a name, if it ever comes; and whether the row may be unmet.
    Named(Option<u64>, bool),
}

/// Whether the moments of a policy's row come.
#[derive(Clone, Copy, Debug, PartialEq, Eq)]
pub enum Coming {
    Met,
    /// One never comes, or the last comes before the first, so the row asks about no moment.
    Unmet,
    /// As `Unmet`, but the row allows it.
    Waived,
}

/// The moments that a policy's row asks about.
#[derive(Clone, Copy)]
pub struct Asked {
    /// The smallest number of publications that are done.
    pub from: u64,
    /// The greatest number of publications that are done.
    pub to: u64,
    pub coming: Coming,
}

/// Returns how many publications are done at the moment with this name.
fn done_at(marks: &[Mark], name: &Name) -> Option<u64>
    ensures { result ≡ done_at marks.now name.now }
{
    let mark = marks.iter().find(|mark| name.is(&mark.name))?;
    Some(mark.done)
}

impl Moment {
    /// Returns how many publications are done there, if it comes.
    fn place(self) -> Option<u64>
        ensures { result ≡ place_of self }
    {
        match self {
            Moment::Numbered(place) => Some(place),
            Moment::Named(place, _) => place,
        }
    }

    /// Whether its word lets the row be unmet.
    fn waives(self) -> bool
        ensures { result ≡ waives self }
    {
        matches!(self, Moment::Named(_, true))
    }
}

impl MomentName {
    /// Returns what a word that is not a number says: `last`, `last-N`, `mml`, `mmwp`, `rlb-clear` or a name.
    #[tactic(auto, unfolding(crate::specs::Moments::label_said))]
    fn read(word: &[u8]) -> Option<MomentName>
        ensures { result ≡ label_said word.now }
    {
        if is_word(word, b"last") {
            return Some(MomentName::Last(0));
        }
        if is_word(word, b"mml") {
            return Some(MomentName::Mml);
        }
        if is_word(word, b"mmwp") {
            return Some(MomentName::Mmwp);
        }
        if is_word(word, b"rlb-clear") {
            return Some(MomentName::RlbClear);
        }
        match word.strip_prefix(b"last-") {
            Some(back) => read_word_number(back).map(MomentName::Last),
            None => Name::read(word).map(MomentName::Marked),
        }
    }
}

impl When {
    /// Returns what a word says: a number, `last`, `last-N`, `mml`, `mmwp`, `rlb-clear` or a name.
    pub fn read(word: &[u8]) -> Option<When>
        ensures { result ≡ when_said word.now }
    {
        match read_word_number(word) {
            Some(number) => Some(When::Number(number)),
            None => MomentName::read(word).map(When::Labelled),
        }
    }
}

impl Moments<'_> {
    /// Returns how many publications are done there, or none if it never comes. `BadRow` if words may not say that
    /// about the script, and `NoMoment` if it has no such name.
    fn place(&self, label: MomentName) -> Result<Option<u64>, Refusal>
        ensures { result ≡ label_place self.now label }
    {
        let marks = self.marks.ok_or(Refusal::BadRow)?;
        match label {
            MomentName::Last(back) => Ok(self.publications.checked_sub(back)),
            MomentName::Mml => Ok(self.lasting.ok_or(Refusal::BadRow)?.mml),
            MomentName::Mmwp => Ok(self.lasting.ok_or(Refusal::BadRow)?.mmwp),
            MomentName::RlbClear => Ok(self.lasting.ok_or(Refusal::BadRow)?.rlb_clear),
            MomentName::Marked(name) => Ok(Some(done_at(marks, &name).ok_or(Refusal::NoMoment)?)),
        }
    }

    /// Returns how many publications are done then. `NoMoment` if that never comes.
    pub fn after(&self, when: When) -> Result<u64, Refusal>
        ensures { result ≡ when_place self.now when }
    {
        match when {
            When::Number(number) => Ok(number),
            When::Labelled(label) => self.place(label)?.ok_or(Refusal::NoMoment),
        }
    }

    /// Returns how many publications are done at the moment that a word names.
    #[tactic(auto, unfolding(crate::specs::Moments::after_said))]
    pub fn read_after(&self, word: &[u8]) -> Result<u64, Refusal>
        ensures { result ≡ after_said self.now word.now }
    {
        match read_word_number(word) {
            Some(number) => Ok(number),
            None => self.read_named(word),
        }
    }

    /// Returns the same for rarer words. It is out of line so that rows of a trace needn't clear the room of a name.
    #[cold]
    #[inline(never)]
    #[tactic(auto, unfolding(crate::specs::Moments::after_said))]
    fn read_named(&self, word: &[u8]) -> Result<u64, Refusal>
        ensures { result ≡ after_said self.now word.now }
    {
        let when = When::read(word).ok_or(Refusal::BadRow)?;
        self.after(when)
    }

    /// Returns what a word that is not a number says in a policy's row.
    #[tactic(auto, unfolding(crate::specs::Moments::moment_named))]
    fn named(&self, word: &[u8]) -> Result<Moment, Refusal>
        ensures { result ≡ moment_named self.now word.now }
    {
        let (word, is_waived) = match word.strip_suffix(b" if-any") {
            Some(word) => (word, true),
            None => (word, false),
        };
        let label = MomentName::read(word).ok_or(Refusal::BadRow)?;
        let place = self.place(label)?;
        Ok(Moment::Named(place, is_waived))
    }

    /// Returns the moment that a word names: a number, or in version 3 `last`, `last-N`, `mml`, `mmwp`, `rlb-clear` or
    /// a name of the script, followed by ` if-any` if it may never come. `BadRow` if it names none, and `NoMoment` if
    /// the script has no such name.
    pub fn read(&self, word: &[u8]) -> Result<Moment, Refusal>
        ensures { result ≡ moment_said self.now word.now }
    {
        match read_word_number(word) {
            Some(number) => Ok(Moment::Numbered(number)),
            None => self.named(word),
        }
    }

    /// Returns the last moment of a row whose first is this one: the word's, or the script's last if the word is empty.
    pub fn read_to(&self, from: Moment, word: &[u8]) -> Result<Moment, Refusal>
        ensures { result ≡ to_said self.now from word.now }
    {
        if word.is_empty() {
            return Ok(Moment::Named(Some(self.publications), false));
        }
        match (from, self.read(word)?) {
            (Moment::Numbered(from), Moment::Numbered(to)) if to < from => Err(Refusal::BadRow),
            (_, to) => Ok(to),
        }
    }

    /// Returns what a row from one moment to the other asks about.
    pub fn between(&self, from: Moment, to: Moment) -> Asked
        ensures asked { result ≡ asked_between self.now.publications from to }
        ensures forward { result.from ≤ self.now.publications → result.from ≤ result.to }
    {
        let is_waived = from.waives() || to.waives();
        let missed = if is_waived {
            Coming::Waived
        } else {
            Coming::Unmet
        };
        match (from.place(), to.place()) {
            (Some(from), Some(to)) if from <= to || from > self.publications => Asked {
                from,
                to,
                coming: Coming::Met,
            },
            _ => Asked {
                from: self.publications,
                to: self.publications,
                coming: missed,
            },
        }
    }
}
