//! A survey that takes the entries of a log as they come.
//! In the clauses es are the entries so far, whichever they are, e is what is observed of the next one, and `here` is what is found at it.
ghost use Rattle.std.specs.Prelude.{◌≡◌, ◌<◌, ◌≤◌, ◌+◌, ◌-◌, ◌↔◌, ◌++◌, ◌∷◌, [], Bool, false, true, List, Some, All, Contains, IfSome, IsSomeAnd, IsTrue, OnOk, OnErr, length, slice_get};
ghost use Rattle.std.specs.Result.{is_err};
ghost use Rattle.sip_standard.specs.Key.{KeyParts};
ghost use Rattle.sip_log.specs.Told.{item};
ghost use Rattle.sip_verdict.specs.declared.finding.Finding.{Finding};
ghost use Rattle.sip_verdict.specs.declared.survey_end.SurveyEnd.TheVariants.{Clean};
ghost use Rattle.sip_standard.specs.Observation.{Observation};
ghost use Rattle.sip_verdict.specs.Entries.{ConcernsNone};
ghost use Rattle.sip_standard.specs.VerdictOf.{keys_in, Sees};
ghost use Rattle.sip_verdict.specs.SurveyOf.{AreFoundAt};
ghost use Rattle.sip_verdict.specs.Forgetting.{ForgetsUpTo, remembered};
ghost use Rattle.sip_verdict.specs.Named.{AreFew, AreMany};
ghost use Rattle.sip_verdict.specs.SurveyText.{IsFirstEntryOf, IsLastEntryOf};
ghost use Rattle.sip_verdict.specs.Room.{HasRoom};
ghost use Rattle.sip_verdict.specs.Surveys.{IsStillNamed, MayAnswer, MayFollow, SurveysFor, end_after};

use crate::entries::find_next;
use crate::finding::Finding;
use crate::forgetting::{Newest, forget};
use crate::histories::Histories;
use crate::standing::Standing;
use crate::step_error::StepError;
use crate::stream::LAST_MOMENT;
use crate::survey_end::SurveyEnd;
use crate::transaction::Transaction;
use crate::troubled::Troubled;
use sip_log::Entry;
use sip_machine::Params;
use std::alloc::{AllocError, Global};
use std::hash::BuildHasher;
use std::marker::Model;

/// Judges the entries of a log as they come, each transaction for itself, and goes on after one comes into trouble. It drops the messages
/// that it needs no more.
#[derive(Drop)]
pub struct Survey<H: BuildHasher> {
    alloc: Global,
    standing: Standing<H>,
    troubled: Troubled,
    histories: Histories,
    /// The number of the newest entry.
    number: u64,
    /// The moment of the newest entry.
    moment: u64,
    /// How many messages the last sweep left.
    left: usize,
    /// Whether memory was refused, after which every call fails.
    failed: bool,
}

impl<H: BuildHasher> Model for Survey<H> {
    ghost use Rattle.std.specs.Prelude.{◌≡◌, ◌≤◌, ◌+◌, [], false};
    ghost use Rattle.sip_verdict.specs.Room.{most_surveyed};
    ghost use Rattle.sip_verdict.specs.Surveys.{Surveying};
    ghost use Rattle.sip_verdict.specs.inner.TablesTracking.{MayTake};
    ghost use Rattle.sip_verdict.specs.inner.Surveying.{AreWatched, IsFresh};

    // A survey means what it keeps of the entries so far. As long as it has not failed, an entry more may come.
    ghost Value = { Surveying };

    ghost view = { λ s. record { number = s.number; moment = s.moment; texts = s.standing.book; tables = s.standing.tables; deaf = s.troubled.deaf.items; histories = s.histories; left = s.left; failed = s.failed } };

    ghost invariant = { λ s. s.failed ≡ false → MayTake s.standing.book s.standing.tables (s.number + 1) s.moment × AreWatched [] s.standing.tables s.troubled
        × IsFresh s.troubled × (s.left ≤ most_surveyed + 1) × (s.number ≤ most_surveyed) };
}

/// The most entries of a survey.
const MOST_ENTRIES: u64 = 1_000_000_000_000_000;

/// The most transactions that a survey has at a time.
const MOST_TRANSACTIONS: u64 = 2_000_000;

/// Whether a survey of this many entries and transactions has room for one entry more, which may begin two transactions.
fn is_room(entries: u64, transactions: u64) -> bool
    ensures { IsTrue result ↔ HasRoom entries transactions }
{
    entries < MOST_ENTRIES && transactions <= MOST_TRANSACTIONS - 2
}

/// Whether the entry may come after one of this number and moment, where there are this many transactions.
fn may_follow(number: u64, moment: u64, transactions: u64, entry: &Entry) -> bool
    ensures { IsTrue result ↔ MayFollow number moment transactions entry.now.number entry.now.moment }
{
    if !is_room(number, transactions) || entry.number != number + 1 {
        return false;
    }
    moment <= entry.moment && entry.moment <= LAST_MOMENT
}

impl<H: BuildHasher + Drop> Survey<H> {
    /// A survey that has judged no entry yet. It takes no memory.
    pub fn new(alloc: Global, params: Params, hasher: H) -> Survey<H>
        ensures stands { SurveysFor result [] }
        ensures times { result.tables.times ≡ params }
        ensures none { result.tables.keys ≡ [] }
    {
        Survey {
            alloc,
            standing: Standing::new(alloc, params, hasher),
            troubled: Troubled::new(alloc),
            histories: Histories::new(alloc),
            number: 0,
            moment: 0,
            left: 0,
            failed: false,
        }
    }

    /// Whether there is room for one entry more: a survey takes at most 1,000,000,000,000,000 entries, and has at most 2,000,000 transactions at a
    /// time that it did not forget. An entry begins at most two.
    pub fn has_room(&self) -> bool
        ensures { IsTrue result ↔ HasRoom self.now.number (length self.now.tables.keys) }
    {
        is_room(self.number, self.standing.transactions())
    }

    /// Whether the entry may come next: its number is one above that of the entry before, counted from 1, its moment is not below that
    /// one's and within the limits of a log, and there is room for it. After an error any entry may.
    pub fn may_take(&self, entry: &Entry) -> bool
        ensures { IsTrue result ↔ (self.now.failed ≡ false → MayFollow self.now.number self.now.moment (length self.now.tables.keys) entry.now.number entry.now.moment) }
    {
        let transactions = self.standing.transactions();
        self.failed || may_follow(self.number, self.moment, transactions, entry)
    }

    /// Judges the next entry, and appends what is found at it: the fault of its message, then the transactions that break by number,
    /// then those that are followed no further by number. Each transaction is found once. Where memory is refused it may have appended some
    /// of these. After an error every call answers `StepError::Failed`, and appends nothing.
    pub fn entry(&mut self, entry: &Entry, found: &mut Vec<Finding>) -> Result<(), StepError>
        requires { self.old.failed ≡ false → MayFollow self.old.number self.old.moment (length self.old.tables.keys) entry.now.number entry.now.moment }
        ensures found { OnOk result ((es : List (Observation KeyParts)) → SurveysFor self.old es
            → (e : Observation KeyParts) × (here : List Finding) × Sees es (item entry.now) e
            × AreFoundAt self.old.tables.times es e here × (found.new.items ≡ found.old.items ++ here) × SurveysFor self.new (es ++ e ∷ [])) }
        ensures answers { MayAnswer self.old.failed result }
        ensures failed { self.new.failed ≡ is_err result }
        ensures newest { OnOk result ((self.new.number ≡ entry.now.number) × (self.new.moment ≡ entry.now.moment)) }
        ensures front { OnErr result ((more : List Finding) × (found.new.items ≡ found.old.items ++ more)) }
        ensures silent { self.old.failed ≡ true → found.new.items ≡ found.old.items }
        ensures keyless { OnOk result (ConcernsNone (item entry.now) → All (Contains self.old.texts) self.new.texts) }
        ensures keys { OnOk result (length self.new.tables.keys ≤ length self.old.tables.keys + 2) }
        ensures times { OnOk result (self.new.tables.times ≡ self.old.tables.times) }
    {
        // After an error the survey answers no more.
        if self.failed {
            return Err(StepError::Failed);
        }
        let taken = find_next(
            self.alloc,
            &mut self.standing,
            &mut self.troubled,
            &mut self.histories,
            &mut self.left,
            entry,
            found,
        );
        match taken {
            // The entry is the newest one now.
            Ok(()) => {
                self.number = entry.number;
                self.moment = entry.moment;
                Ok(())
            }
            Err(AllocError) => {
                self.failed = true;
                Err(StepError::Memory)
            }
        }
    }

    /// Forgets the transactions that are over and that no entry with a number above `until` concerns. A transaction is over that is in trouble,
    /// is idle again, or has ended. The survey goes on as after the same entries without the forgotten ones. The transactions that are left
    /// are numbered anew, in their order, and the messages that are kept then are just those that they name.
    ///
    /// Of a transaction that was idle again and in no trouble, as a server is that has ended well, nothing is lost. A later message of another
    /// forgotten transaction begins a new one, so a client that ended may then send its request again without a breach. `until` is best the number of the newest of
    /// the entries that are so old that no message of an ended transaction can be on its way. After an error every call answers `StepError::Failed`.
    pub fn forget(&mut self, until: u64) -> Result<(), StepError>
        ensures forgets { OnOk result ((es : List (Observation KeyParts)) → SurveysFor self.old es
            → (kept : KeyParts → Bool) × ForgetsUpTo until self.old.tables.times es kept × SurveysFor self.new (remembered kept es)
            × AreMany (IsStillNamed self.old.tables.times (remembered kept es)) (length self.new.texts)) }
        ensures answers { MayAnswer self.old.failed result }
        ensures failed { self.new.failed ≡ is_err result }
        ensures newest { OnOk result ((self.new.number ≡ self.old.number) × (self.new.moment ≡ self.old.moment)) }
        ensures fewer { OnOk result (All (Contains self.old.texts) self.new.texts) }
        ensures times { OnOk result (self.new.tables.times ≡ self.old.tables.times) }
    {
        // After an error the survey answers no more.
        if self.failed {
            return Err(StepError::Failed);
        }
        let newest = Newest {
            number: self.number,
            moment: self.moment,
        };
        let forgotten = forget(
            self.alloc,
            &mut self.standing,
            &mut self.troubled,
            &mut self.histories,
            &mut self.left,
            newest,
            until,
        );
        match forgotten {
            Ok(()) => Ok(()),
            Err(AllocError) => {
                self.failed = true;
                Err(StepError::Memory)
            }
        }
    }

    /// How many transactions the survey has that it did not forget.
    pub fn transactions(&self) -> u64
        ensures transactions { result ≡ length self.now.tables.keys }
        ensures are { (es : List (Observation KeyParts)) → SurveysFor self.now es → result ≡ length (keys_in es) }
    {
        self.standing.transactions()
    }

    /// The end of a log that ends after these entries: how many entries and how many transactions it has. None after an error.
    pub fn end(&self) -> Option<SurveyEnd>
        ensures end { result ≡ end_after self.now.number (length self.now.tables.keys) self.now.failed }
        ensures clean { (es : List (Observation KeyParts)) → SurveysFor self.now es → result ≡ Some (Clean (length es) (length (keys_in es))) }
    {
        if self.failed {
            return None;
        }
        Some(SurveyEnd::Clean {
            entries: self.number,
            transactions: self.standing.transactions(),
        })
    }

    /// The transaction with this number, by which a finding names it, and None where no transaction has the number.
    pub fn transaction(&self, number: u64) -> Option<Transaction<'_>>
        ensures { (es : List (Observation KeyParts)) → SurveysFor self.now es → 0 < number
            → IfSome (slice_get (keys_in es) (number - 1)) (λ key. IsSomeAnd result (λ t. (t.key.now ≡ key) × IsFirstEntryOf es key t.first t.branch.now × IsLastEntryOf es key t.last)) }
    {
        let key = self.standing.key(number)?;
        let history = self.histories.each.get(number as usize - 1)?;
        Some(Transaction {
            key,
            branch: history.branch.as_slice(),
            first: history.first,
            last: history.last.max(self.histories.restart),
        })
    }

    /// How many messages the survey keeps.
    pub fn kept(&self) -> usize
        ensures kept { result ≡ length self.now.texts }
        ensures few { (es : List (Observation KeyParts)) → SurveysFor self.now es → AreFew (IsStillNamed self.now.tables.times) es result }
    {
        self.standing.kept()
    }
}
