//! A judge that takes the entries of a log as they come.
//! In the clauses es are the entries so far, whichever they are, and e is what is observed of the next one.
ghost use Rattle.std.specs.Prelude.{◌≡◌, ◌≢◌, ◌↔◌, ◌≤◌, ◌-◌, [], ℕ, None, Some, List, All, Contains, IsTrue, IfOk, IfNone, IfSome, MatchOption, OnOk, length, slice_get};
ghost use Rattle.sip_standard.specs.Key.{KeyParts};
ghost use Rattle.sip_log.specs.Told.{item};
ghost use Rattle.sip_states.specs.Tables.{HasNumber, IsGiven, due_of};
ghost use Rattle.sip_verdict.specs.declared.stage.Stage.TheVariants.{Open};
ghost use Rattle.sip_standard.specs.declared.verdict.Verdict.TheVariants.{Legal};
ghost use Rattle.sip_standard.specs.Observation.{Observation};
ghost use Rattle.sip_standard.specs.VerdictOf.{keys_in, Sees};
ghost use Rattle.sip_verdict.specs.Entries.{ConcernsNone};
ghost use Rattle.sip_verdict.specs.Named.{AreFew, IsNamed};
ghost use Rattle.sip_verdict.specs.Judging.{StandsFor, CanWaitUntil, MayComeNext, IsNext, CanAnswer, stage_after, last_verdict};

use crate::stage::Stage;
use crate::standing::Standing;
use crate::step_error::StepError;
use crate::sweeping::judge_next;
use sip_key::Key;
use sip_log::Entry;
use sip_machine::Params;
use sip_standard::Verdict;
use std::alloc::{AllocError, Global};
use std::hash::BuildHasher;
use std::marker::Model;

/// Judges the entries of a log as they come, and drops the messages that it needs no more.
#[derive(Drop)]
pub struct Judge<H: BuildHasher> {
    alloc: Global,
    standing: Standing<H>,
    /// The number of the newest entry.
    number: u64,
    /// The moment of the newest entry.
    moment: u64,
    /// How many messages the last sweep left.
    left: usize,
    /// Whether the judge goes on, has told a verdict, or has failed.
    stage: Stage,
}

impl<H: BuildHasher> Model for Judge<H> {
    ghost use Rattle.std.specs.Prelude.{◌≡◌, ◌≤◌, ◌+◌};
    ghost use Rattle.sip_standard.specs.LogSays.{most_entries};
    ghost use Rattle.sip_verdict.specs.declared.stage.Stage.TheVariants.{Open};
    ghost use Rattle.sip_verdict.specs.Judging.{Judging};
    ghost use Rattle.sip_verdict.specs.inner.TablesTracking.{MayTake};

    // A judge means what it keeps of the entries so far. As long as it goes on, an entry more may come.
    ghost Value = { Judging };

    ghost view = { λ j. record { number = j.number; moment = j.moment; texts = j.standing.book; tables = j.standing.tables; left = j.left; stage = j.stage } };

    ghost invariant = { λ j. j.stage ≡ Open → MayTake j.standing.book j.standing.tables (j.number + 1) j.moment × (j.left ≤ most_entries + 1) };
}

/// The most entries of a log.
const MOST_ENTRIES: u64 = 1_000_000;

/// The last moment of a log.
pub(crate) const LAST_MOMENT: u64 = 9_999_999_999_999;

/// Whether the entry may come after an entry with this number and moment.
pub(crate) fn may_come_next(number: u64, moment: u64, entry: &Entry) -> bool
    ensures { IsTrue result ↔ MayComeNext number moment entry.now.number entry.now.moment }
{
    if number >= MOST_ENTRIES || entry.number != number + 1 {
        return false;
    }
    moment <= entry.moment && entry.moment <= LAST_MOMENT
}

impl<H: BuildHasher + Drop> Judge<H> {
    /// A judge that has judged no entry yet. It takes no memory.
    pub fn new(alloc: Global, params: Params, hasher: H) -> Judge<H>
        ensures stands { StandsFor result [] }
        ensures times { result.tables.times ≡ params }
    {
        Judge {
            alloc,
            standing: Standing::new(alloc, params, hasher),
            number: 0,
            moment: 0,
            left: 0,
            stage: Stage::Open,
        }
    }

    /// Whether the entry may come next: its number is one above that of the entry before, counted from 1, its moment is not
    /// below that one's, and both are within the limits of a log. After a verdict and after an error any entry may.
    pub fn may_take(&self, entry: &Entry) -> bool
        ensures { IsTrue result ↔ (self.now.stage ≡ Open → MayComeNext self.now.number self.now.moment entry.now.number entry.now.moment) }
    {
        match self.stage {
            Stage::Open => may_come_next(self.number, self.moment, entry),
            Stage::Told(_) | Stage::Failed => true,
        }
    }

    /// Judges the next entry, and answers the verdict if the entry is in trouble. Later calls answer that verdict again. After an error every
    /// call answers `StepError::Failed`.
    pub fn entry(&mut self, entry: &Entry) -> Result<Option<Verdict>, StepError>
        requires { self.old.stage ≡ Open → MayComeNext self.old.number self.old.moment entry.now.number entry.now.moment }
        ensures judged { IfOk result (λ verdict. (es : List (Observation KeyParts)) → StandsFor self.old es
            → (e : Observation KeyParts) × Sees es (item entry.now) e × IsNext self.new es e verdict) }
        ensures answers { CanAnswer self.old.stage result }
        ensures stage { self.new.stage ≡ stage_after result }
        ensures newest { IfOk result (λ verdict. IfNone verdict ((self.new.number ≡ entry.now.number) × (self.new.moment ≡ entry.now.moment))) }
        ensures keyless { OnOk result (ConcernsNone (item entry.now) → All (Contains self.old.texts) self.new.texts) }
        ensures times { OnOk result (self.new.tables.times ≡ self.old.tables.times) }
    {
        match self.stage {
            // The first verdict, and any error, ends the judging: no later entry is looked at.
            Stage::Open => match judge_next(self.alloc, &mut self.standing, &mut self.left, entry) {
                Ok(None) => {
                    self.number = entry.number;
                    self.moment = entry.moment;
                    Ok(None)
                }
                Ok(Some(verdict)) => {
                    self.stage = Stage::Told(verdict);
                    Ok(Some(verdict))
                }
                Err(AllocError) => {
                    self.stage = Stage::Failed;
                    Err(StepError::Memory)
                }
            },
            Stage::Told(verdict) => Ok(Some(verdict)),
            Stage::Failed => Err(StepError::Failed),
        }
    }

    /// The verdict on the entries: the verdict of the first entry in trouble, or that they are legal. None after an error.
    pub fn end(self) -> Option<Verdict>
        ensures last { result ≡ last_verdict self.number (length self.tables.keys) self.stage }
        ensures legal { (es : List (Observation KeyParts)) → StandsFor self es
            → result ≡ Some (Legal (length es) (length (keys_in es))) }
    {
        match self.stage {
            Stage::Open => Some(Verdict::Legal {
                entries: self.number,
                transactions: self.standing.transactions(),
            }),
            Stage::Told(verdict) => Some(verdict),
            Stage::Failed => None,
        }
    }

    /// How many messages the judge keeps.
    pub fn kept(&self) -> usize
        ensures kept { result ≡ length self.now.texts }
        ensures few { (es : List (Observation KeyParts)) → StandsFor self.now es → AreFew (IsNamed self.now.tables.times) es result }
    {
        self.standing.kept()
    }

    /// The key of the transaction with this number, by which a verdict names it, and None where no transaction has the number.
    pub fn key(&self, transaction: u64) -> Option<&Key>
        ensures none { MatchOption result (¬ (IsGiven self.now.tables transaction)) (λ key. IsGiven self.now.tables transaction × HasNumber self.now.tables key.now transaction) }
        ensures named { (es : List (Observation KeyParts)) → StandsFor self.now es
            → IfSome result (λ key. slice_get (keys_in es) (transaction - 1) ≡ Some key.now) }
    {
        self.standing.key(transaction)
    }

    /// The earliest moment, in milliseconds, that is the last one up to which some transaction can wait; None where each can wait for ever, and
    /// after a verdict or an error. Where the next entry has a later moment, a step that was due by then is missing.
    pub fn next_due(&self) -> Option<u64>
        ensures due { self.now.stage ≡ Open → (moment : ℕ) → (due_of self.now.tables moment ≡ None) ↔ IfSome result (λ last. moment ≤ last) }
        ensures waits { (es : List (Observation KeyParts)) → StandsFor self.now es → (moment : ℕ) → self.now.moment ≤ moment
            → CanWaitUntil self.now.tables.times es moment ↔ IfSome result (λ last. moment ≤ last) }
        ensures over { self.now.stage ≢ Open → result ≡ None }
    {
        match self.stage {
            Stage::Open => self.standing.earliest(),
            Stage::Told(_) | Stage::Failed => None,
        }
    }
}
