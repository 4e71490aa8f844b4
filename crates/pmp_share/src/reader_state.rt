//! The state of a checker or a notice: a reader of the two copies, and what it knows.

ghost use Rattle.std.specs.Prelude.{◌≡◌, MatchBool};
ghost use Rattle.pmp_share.specs.Batches.{StartsWith, event_count};
ghost use Rattle.pmp_share.specs.Looks.{is_as_late, IsLook};

use crate::decider::Decider;
use crate::digest::Digest;
use crate::knowledge::Knowledge;
use crate::question::Question;
use crate::rule::{Looks, OneHistory};
use crate::version::Version;
use core::mem::replace_with;
use left_right::reader::Reader;
use std::marker::Model;

pub type UnitReader = Reader<Version, Knowledge, OneHistory>;

/// A reader of the two copies, and the digest of the batches that it knows, which answers if no entrance is given. A
/// contract sees the batches, and which unit they belong to.
#[derive(Drop)]
pub struct ReaderState {
    reader: UnitReader,
    digest: Box<Digest>,
}

impl Model for ReaderState {
    ghost use Rattle.std.specs.Prelude.{◌≡◌, Some};
    ghost use Rattle.pmp_share.specs.declared.knowledge.Known.{Known};

    ghost Value = { Known };

    ghost view = { λ state. state.digest.value };

    ghost invariant = { λ state. state.reader.place.me.0.client ≡ Some state.digest.value };
}

/// Returns the answer to the question, and the number of events.
#[inline]
fn answer_of<Q: Question, D: Decider>(question: &Q, decider: &D) -> (Q::Answer, u64)
    requires { Q.is_sound question.now }
    ensures answered { Q.answers question.now (D.known decider.now) result.0 }
    ensures count { result.1 ≡ event_count (D.known decider.now).list }
{
    (question.ask(decider), decider.events())
}

impl ReaderState {
    ghost use Rattle.std.specs.Prelude.{Some};
    ghost use Rattle.left_right.specs.Sides.{view};

    /// Returns the state of a reader that knows exactly what the digest is of.
    pub fn new(reader: UnitReader, digest: Box<Digest>) -> ReaderState
        requires seat { view reader.place ≡ Some digest.value }
        ensures { result ≡ digest.value }
    {
        ReaderState { reader, digest }
    }

    /// Returns the digest of the batches.
    pub fn digest(&self) -> &Digest
        ensures { result.now ≡ self.now }
    {
        &self.digest
    }

    /// Whether the other's batches hold more events, or as many in no fewer batches. If so, these batches are a prefix
    /// of the other's; otherwise the other's are a prefix of these.
    pub fn is_before(&self, other: &ReaderState) -> bool
        requires unit { other.now.unit ≡ self.now.unit }
        ensures late { result ≡ is_as_late self.now.list other.now.list }
        ensures begins { MatchBool result (StartsWith other.now.list self.now.list)
            (StartsWith self.now.list other.now.list) }
    {
        self.digest.is_before(&other.digest)
    }

    /// Looks: the published version answers, or the digest if no entrance is given. Also returns how many events the
    /// answer is in. No clause says that it sees a publication that has returned: a body that answers by the digest
    /// alone is caught by `pmp_stress`, which asks each question after publications, on running threads.
    #[inline]
    pub fn look<Q: Question>(&mut self, question: &Q) -> (Q::Answer, u64)
        requires { Q.is_sound question.now }
        ensures look { IsLook self.old self.new result.1 }
        ensures answered { Q.answers question.now self.new result.0 }
    {
        replace_with(self, question, |state, question| state.asked(question))
    }

    /// Returns the state after the look, and its answer.
    #[inline]
    fn asked<Q: Question>(self, question: &Q) -> (ReaderState, (Q::Answer, u64))
        requires { Q.is_sound question.now }
        ensures look { IsLook self result.0 result.1.1 }
        ensures answered { Q.answers question.now result.0 result.1.0 }
    {
        let ReaderState { reader, mut digest } = self;
        match reader.enter_as::<Looks>() {
            Ok(reading) => {
                let version = reading.get();
                let answer = answer_of(question, version);
                digest.catch_up(version);
                (ReaderState::new(reading.leave(), digest), answer)
            }
            Err(reader) => {
                let answer = answer_of(question, &*digest);
                (ReaderState::new(reader, digest), answer)
            }
        }
    }
}
