//! What a judge holds of the entries that it has judged: the messages, and the transactions with their sets.
//! In the clauses es are the entries so far, whichever they are, and e is what is observed of the next one.
ghost use Rattle.std.specs.Prelude.{◌≡◌, ◌≢◌, ◌≤◌, ◌<◌, ◌+◌, ◌++◌, ◌∷◌, [], ℕ, Bool, false, None, List, All, AllPairs, Contains, IfOk, IfNone, IsTrue, OnOk, length, string_bytes, ◌↔◌, IfSome, MatchOption};
ghost use Rattle.std.specs.Option.{ForSome, option_copied};
ghost use Rattle.sip_standard.specs.Key.{KeyParts};
ghost use Rattle.sip_standard.specs.Times.{last_moment};
ghost use Rattle.sip_machine.specs.Texts.{Keeps};
ghost use Rattle.sip_states.specs.AnySet.{IsKnownSet};
ghost use Rattle.sip_states.specs.Sweep.{numbers_of};
ghost use Rattle.sip_states.specs.Tables.{HasNumber, IsGiven, due_of, most_keys};
ghost use Rattle.sip_standard.specs.LogSays.{most_entries};
ghost use Rattle.sip_standard.specs.LogEntry.{Item};
ghost use Rattle.sip_log.specs.Told.{item};
ghost use Rattle.sip_standard.specs.Observation.{Observation};
ghost use Rattle.sip_standard.specs.VerdictOf.{Sees};
ghost use Rattle.sip_standard.specs.Seen.{AreSeen};
ghost use Rattle.sip_verdict.specs.Entries.{newest_moment, ConcernsNone};
ghost use Rattle.sip_verdict.specs.Named.{AreMany, IsNamed};
ghost use Rattle.sip_standard.specs.ListingOf.{first_entry};
ghost use Rattle.sip_verdict.specs.inner.Concerned.{each, is_all, listed, up_to};
ghost use Rattle.sip_verdict.specs.inner.Numbering.{AreNumbered, StaysNumbered, IsListedEntry, AppendsListing, IsListingText};
ghost use Rattle.sip_verdict.specs.Surveys.{IsStillNamed};
ghost use Rattle.sip_verdict.specs.inner.Forgetting.{AreQuietIfOver};
ghost use Rattle.sip_verdict.specs.inner.Surveying.{TablesSurvey};
ghost use Rattle.sip_verdict.specs.inner.Tracking.{IsJudged};
ghost use Rattle.sip_verdict.specs.inner.TablesTracking.{key_keeping, transactions_of, TablesTrack, TablesTrackBefore, AreTold, LeavesOthers, OthersAre, NamesNot, MayBeNamed, DropsUnnamed, TouchesEach, HaveNumbers, hearers, MayPass, MayHear, AreOnRecord, AllAreOnRecord, MayTake};

use crate::concerned::Concerned;
use crate::observing::{Observed, observe};
use crate::passing::{Hearing, Outcome, pass_all};
use sip_key::Key;
use sip_listing::push_transaction;
use sip_log::Entry;
use sip_machine::{Book, Event, Params};
use sip_standard::{Listing, Verdict};
use sip_states::Tables;
use std::alloc::{AllocError, Global};
use std::hash::BuildHasher;

/// The messages of a log so far that concern a transaction, and the transactions in the order of their first messages. An entry
/// touches only the transactions that it concerns, since it is on record until when each can wait.
#[derive(Drop)]
pub(crate) struct Standing<H: BuildHasher> {
    pub(crate) book: Book,
    pub(crate) tables: Tables<H>,
}

/// What was judged of an entry: its verdict if it is in trouble, and the numbers of the transactions that it concerns.
#[derive(Drop)]
struct Taken {
    verdict: Option<Verdict>,
    concerned: Concerned<u64>,
}

/// The number of the transaction of each key, which starts where the key is new.
pub(crate) fn touch_each<H: BuildHasher>(
    tables: &mut Tables<H>,
    keys: Concerned<Key>,
) -> Result<Concerned<u64>, AllocError>
    requires { length tables.old.keys + 2 ≤ most_keys }
    ensures touched { IfOk result (λ numbers. TouchesEach (each keys) (each numbers) tables.old tables.new) }
    ensures same { IfOk result (λ numbers. is_all numbers ≡ is_all keys) }
{
    Ok(match keys {
        Concerned::None => Concerned::None,
        Concerned::All => Concerned::All,
        Concerned::Own(own) => Concerned::Own(tables.touch(own)?),
        Concerned::OwnAndCancelled(own, cancelled) => {
            let own = tables.touch(own)?;
            Concerned::OwnAndCancelled(own, tables.touch(cancelled)?)
        }
    })
}

/// Whether one of these transactions may name the message with this number. Where all are concerned, it may be.
fn may_name<H: BuildHasher>(tables: &Tables<H>, number: u64, concerned: Concerned<u64>) -> bool
    requires { All (IsGiven tables.now) (each concerned) }
    ensures may { IsTrue result ↔ MayBeNamed tables.now number concerned }
    ensures none { result ≡ false → (is_all concerned ≡ false) × All (NamesNot tables.now number) (each concerned) }
{
    match concerned {
        Concerned::None => false,
        Concerned::Own(own) => tables.set(own).may_name(number),
        Concerned::OwnAndCancelled(own, cancelled) => {
            tables.set(own).may_name(number) || tables.set(cancelled).may_name(number)
        }
        Concerned::All => true,
    }
}

impl<H: BuildHasher> Standing<H> {
    /// What a judge holds before the first entry. It takes no memory.
    pub(crate) fn new(alloc: Global, params: Params, hasher: H) -> Standing<H>
        ensures book { result.book ≡ [] }
        ensures tables { result.tables ≡ record { times = params; keys = []; sets = []; records = [] } }
    {
        Standing {
            book: Book::new(alloc),
            tables: Tables::new(alloc, params, hasher),
        }
    }

    /// How many transactions there are.
    pub(crate) fn transactions(&self) -> u64
        ensures { result ≡ length self.now.tables.keys }
    {
        self.tables.len()
    }

    /// How many messages the book keeps.
    pub(crate) fn kept(&self) -> usize
        ensures kept { result ≡ length self.now.book }
        ensures few { (number : ℕ) → ((n : ℕ) → Keeps self.now.book n → n < number) → result ≤ number }
    {
        self.book.known();
        self.book.len()
    }

    /// Lets every transaction wait until the moment. The set of a transaction that is over is quiet after it.
    pub(crate) fn wait(&mut self, moment: u64) -> Result<(), AllocError>
        requires may { MayPass self.old.book self.old.tables moment }
        requires recorded { AllAreOnRecord self.old.tables }
        ensures times { OnOk result (self.new.tables.times ≡ self.old.tables.times) }
        ensures keys { OnOk result (self.new.tables.keys ≡ self.old.tables.keys) }
        ensures book { OnOk result (self.new.book ≡ self.old.book) }
        ensures may { OnOk result (MayPass self.new.book self.new.tables moment) }
        ensures recorded { OnOk result (AllAreOnRecord self.new.tables) }
        ensures records { OnOk result (self.new.tables.records ≡ self.old.tables.records) }
        ensures surveyed { OnOk result ((es : List (Observation KeyParts)) (deaf : List Bool) → TablesSurvey self.old.book es self.old.tables deaf → newest_moment es ≡ moment
            → length deaf ≡ length self.old.tables.keys → TablesSurvey self.new.book es self.new.tables deaf × AreQuietIfOver es self.new.tables) }
    {
        self.book.known();
        self.tables.wait_all(moment)?;
        Ok(())
    }

    /// Lets the transactions wait until the moment, and drops the messages that no state of theirs names after it.
    pub(crate) fn sweep(&mut self, alloc: Global, moment: u64) -> Result<(), AllocError>
        requires may { MayPass self.old.book self.old.tables moment }
        requires recorded { AllAreOnRecord self.old.tables }
        ensures times { OnOk result (self.new.tables.times ≡ self.old.tables.times) }
        ensures keys { OnOk result (self.new.tables.keys ≡ self.old.tables.keys) }
        ensures may { OnOk result (MayPass self.new.book self.new.tables moment) }
        ensures recorded { OnOk result (AllAreOnRecord self.new.tables) }
        ensures records { OnOk result (self.new.tables.records ≡ self.old.tables.records) }
        ensures fewer { OnOk result (All (Contains self.old.book) self.new.book) }
        ensures tracks { OnOk result ((es : List (Observation KeyParts)) → TablesTrack self.old.book es self.old.tables → TablesTrack self.new.book es self.new.tables) }
        ensures named { OnOk result ((es : List (Observation KeyParts)) → TablesTrack self.old.book es self.old.tables → newest_moment es ≡ moment
            → AreMany (IsNamed self.old.tables.times es) (length self.new.book)) }
        ensures surveyed { OnOk result ((es : List (Observation KeyParts)) (deaf : List Bool) → TablesSurvey self.old.book es self.old.tables deaf → newest_moment es ≡ moment
            → length deaf ≡ length self.old.tables.keys
            → TablesSurvey self.new.book es self.new.tables deaf × AreMany (IsStillNamed self.old.tables.times es) (length self.new.book)) }
    {
        // The sets wait first, and then `named` gets what their states name from the moment on.
        self.book.known();
        self.tables.advance_all(moment)?;
        let mut named = Vec::new(alloc);
        self.tables.named(&mut named)?;
        self.book.retain_only(&named);
        Ok(())
    }

    /// Lets every transaction pass the entry, and answers the verdict if one of them comes into trouble.
    #[inline(always)]
    fn pass(
        &mut self,
        number: u64,
        moment: u64,
        hearing: Option<&Hearing>,
    ) -> Result<Option<Verdict>, AllocError>
        requires may { MayPass self.old.book self.old.tables moment }
        requires hear { ForSome hearing (λ h. MayHear self.old.book self.old.tables moment h.now) }
        requires recorded { AreOnRecord (hearers (option_copied hearing)) self.old.tables }
        ensures times { OnOk result (self.new.tables.times ≡ self.old.tables.times) }
        ensures keys { OnOk result (self.new.tables.keys ≡ self.old.tables.keys) }
        ensures book { OnOk result (self.new.book ≡ self.old.book) }
        ensures may { OnOk result (MayPass self.new.book self.new.tables moment) }
        ensures recorded { IfOk result (λ verdict. IfNone verdict (AllAreOnRecord self.new.tables)) }
        ensures judged { IfOk result (λ verdict. (es : List (Observation KeyParts)) (e : Observation KeyParts) → e.fault ≡ None → newest_moment es ≤ moment
            → AreTold self.old.book self.old.tables.keys moment (option_copied hearing.entry) e
            → TablesTrackBefore self.old.book es e self.old.tables → number ≡ length es + 1
            → IsJudged self.old.tables.times (key_keeping self.new.book self.old.tables.times) es e (transactions_of self.new.tables) verdict) }
        ensures others { IfOk result (λ verdict. LeavesOthers (option_copied hearing.entry) self.old.tables self.new.tables) }
    {
        let outcome = pass_all(&mut self.tables, &self.book, moment, hearing)?;
        // The entry's number and the transaction's make the verdict.
        Ok(match outcome {
            Outcome::Fine => None,
            Outcome::NoRun(transaction) => Some(Verdict::Breach {
                entry: number,
                transaction,
            }),
            Outcome::TooWide(transaction) => Some(Verdict::Undecided {
                entry: number,
                transaction,
            }),
        })
    }

    /// Judges the entry that comes next, and answers the verdict if it is in trouble.
    pub(crate) fn entry(
        &mut self,
        alloc: Global,
        entry: &Entry,
    ) -> Result<Option<Verdict>, AllocError>
        requires limit { entry.now.moment ≤ last_moment }
        requires count { entry.now.number ≤ most_entries }
        requires may { MayTake self.old.book self.old.tables entry.now.number entry.now.moment }
        ensures times { OnOk result (self.new.tables.times ≡ self.old.tables.times) }
        ensures may { IfOk result (λ verdict. IfNone verdict (MayTake self.new.book self.new.tables (entry.now.number + 1) entry.now.moment)) }
        ensures numbered { IfOk result (λ verdict. IfNone verdict (StaysNumbered (item entry.now) entry.now.number self.old.book self.new.book)) }
        ensures keyless { OnOk result (ConcernsNone (item entry.now) → self.new.book ≡ self.old.book) }
        ensures judged { IfOk result (λ verdict. (es : List (Observation KeyParts)) → TablesTrack self.old.book es self.old.tables
            → entry.now.number ≡ length es + 1 → newest_moment es ≤ entry.now.moment
            → (e : Observation KeyParts) × Sees es (item entry.now) e
            × IsJudged self.old.tables.times (key_keeping self.new.book self.old.tables.times) es e (transactions_of self.new.tables) verdict) }
    {
        Ok(self.take(alloc, entry)?.verdict)
    }

    /// Judges the entry that comes next, and answers the verdict if it is in trouble. Its message is not kept if no transaction names it.
    pub(crate) fn judge(
        &mut self,
        alloc: Global,
        entry: &Entry,
    ) -> Result<Option<Verdict>, AllocError>
        requires limit { entry.now.moment ≤ last_moment }
        requires count { entry.now.number ≤ most_entries }
        requires may { MayTake self.old.book self.old.tables entry.now.number entry.now.moment }
        ensures times { OnOk result (self.new.tables.times ≡ self.old.tables.times) }
        ensures may { IfOk result (λ verdict. IfNone verdict (MayTake self.new.book self.new.tables (entry.now.number + 1) entry.now.moment)) }
        ensures keyless { OnOk result (ConcernsNone (item entry.now) → All (Contains self.old.book) self.new.book) }
        ensures judged { IfOk result (λ verdict. (es : List (Observation KeyParts)) → TablesTrack self.old.book es self.old.tables
            → entry.now.number ≡ length es + 1 → newest_moment es ≤ entry.now.moment
            → (e : Observation KeyParts) × Sees es (item entry.now) e
            × IsJudged self.old.tables.times (key_keeping self.new.book self.old.tables.times) es e (transactions_of self.new.tables) verdict) }
    {
        let taken = self.take(alloc, entry)?;
        if let Some(verdict) = taken.verdict {
            return Ok(Some(verdict));
        }
        self.drop_unnamed(entry.number, taken.concerned);
        Ok(None)
    }

    /// Drops the message with this number, if it is the newest one and none of these transactions may name it. No other transaction names it.
    pub(crate) fn drop_unnamed(&mut self, number: u64, concerned: Concerned<u64>)
        requires given { All (IsGiven self.old.tables) (each concerned) }
        requires others { OthersAre (λ set. ¬ Contains (numbers_of set) number) concerned self.old.tables }
        ensures tables { self.new.tables ≡ self.old.tables }
        ensures book { DropsUnnamed self.old.tables.sets number self.old.book self.new.book }
        ensures named { MayBeNamed self.old.tables number concerned → self.new.book ≡ self.old.book }
    {
        if !may_name(&self.tables, number, concerned) {
            self.book.forget_newest(number);
        }
    }

    /// Judges the entry that comes next, and lists the transactions that it concerns, if it is in no trouble.
    pub(crate) fn list(&mut self, alloc: Global, entry: &Entry) -> Result<Listing, AllocError>
        requires limit { entry.now.moment ≤ last_moment }
        requires count { entry.now.number ≤ most_entries }
        requires may { MayTake self.old.book self.old.tables entry.now.number entry.now.moment }
        ensures listed { IfOk result (λ listing. (es : List (Observation KeyParts)) (items more : List Item) → TablesTrack self.old.book es self.old.tables
            → AreNumbered items self.old.book → AreSeen [] items es → length items ≡ length es → entry.now.number ≡ length es + 1
            → newest_moment es ≤ entry.now.moment
            → (e : Observation KeyParts) × Sees es (item entry.now) e
            × IsListedEntry self.old.tables.times (first_entry ((items ++ item entry.now ∷ []) ++ more)) es e listing) }
    {
        let taken = self.take(alloc, entry)?;
        match taken.verdict {
            Some(verdict) => Ok(Listing::Stopped(verdict)),
            None => Ok(Listing::Text(self.text(alloc, taken.concerned)?)),
        }
    }

    /// Judges the entry that comes next, and answers the numbers of the transactions that it concerns too.
    fn take(&mut self, alloc: Global, entry: &Entry) -> Result<Taken, AllocError>
        requires limit { entry.now.moment ≤ last_moment }
        requires count { entry.now.number ≤ most_entries }
        requires may { MayTake self.old.book self.old.tables entry.now.number entry.now.moment }
        ensures times { OnOk result (self.new.tables.times ≡ self.old.tables.times) }
        ensures may { IfOk result (λ taken. IfNone taken.verdict (MayTake self.new.book self.new.tables (entry.now.number + 1) entry.now.moment)) }
        ensures numbered { IfOk result (λ taken. IfNone taken.verdict (StaysNumbered (item entry.now) entry.now.number self.old.book self.new.book)) }
        ensures given { IfOk result (λ taken. All (IsGiven self.new.tables) (each taken.concerned)) }
        ensures others { IfOk result (λ taken. OthersAre (IsKnownSet self.old.book) taken.concerned self.new.tables) }
        ensures keyless { OnOk result (ConcernsNone (item entry.now) → self.new.book ≡ self.old.book) }
        ensures judged { IfOk result (λ taken. (es : List (Observation KeyParts)) → TablesTrack self.old.book es self.old.tables
            → entry.now.number ≡ length es + 1 → newest_moment es ≤ entry.now.moment
            → (e : Observation KeyParts) × Sees es (item entry.now) e
            × IsJudged self.old.tables.times (key_keeping self.new.book self.old.tables.times) es e (transactions_of self.new.tables) taken.verdict
            × HaveNumbers self.new.tables.keys (listed (length self.new.tables.keys) taken.concerned) e.keys) }
    {
        // `told` is what is observed of the entry. A verdict is given where the entry is in trouble.
        let told = observe(alloc, &mut self.book, entry)?;
        self.book.known();
        match told {
            // No transaction hears the entry, and for each of them time goes by.
            Observed::Unheard => {
                let verdict = self.pass(entry.number, entry.moment, None)?;
                Ok(Taken {
                    verdict,
                    concerned: Concerned::None,
                })
            }
            // The fault of the message is the verdict, and no transaction hears the entry.
            Observed::Fault(fault) => Ok(Taken {
                verdict: Some(Verdict::Malformed {
                    entry: entry.number,
                    fault,
                }),
                concerned: Concerned::None,
            }),
            // A restart concerns all transactions.
            Observed::Restart => {
                self.tables.known();
                let event = Event::restart(entry.moment);
                let concerned = Concerned::All;
                let hearing = Hearing { event, concerned };
                let verdict = self.pass(entry.number, entry.moment, Some(&hearing))?;
                Ok(Taken { verdict, concerned })
            }
            Observed::Heard { event, concerned } => {
                // The keys of the message get their numbers, the new ones among them.
                let concerned = touch_each(&mut self.tables, concerned)?;
                self.tables.known();
                let hearing = Hearing { event, concerned };
                let verdict = self.pass(entry.number, entry.moment, Some(&hearing))?;
                Ok(Taken { verdict, concerned })
            }
        }
    }

    /// The listing of the transactions with these numbers, or the text that says that there is none.
    fn text(&self, alloc: Global, numbers: Concerned<u64>) -> Result<String, AllocError>
        requires { All (IsGiven self.now.tables) (each numbers) }
        ensures text { IfOk result (λ text. IsListingText self.now.tables (listed (length self.now.tables.keys) numbers) (string_bytes text)) }
        ensures apart { OnOk result (AllPairs (λ a b. a ≢ b) self.now.tables.keys) }
    {
        self.tables.known();
        let mut text = String::new(alloc);
        match numbers {
            Concerned::None => text.push_str("no transaction\n")?,
            Concerned::Own(own) => self.push_one(alloc, &mut text, own)?,
            Concerned::OwnAndCancelled(own, cancelled) => {
                self.push_one(alloc, &mut text, own)?;
                self.push_one(alloc, &mut text, cancelled)?;
            }
            Concerned::All => return self.text_of_all(alloc),
        }
        Ok(text)
    }

    /// The listing of all transactions in the order of their numbers, or the text that says that there is none.
    fn text_of_all(&self, alloc: Global) -> Result<String, AllocError>
        ensures { IfOk result (λ text. IsListingText self.now.tables (up_to (length self.now.tables.keys)) (string_bytes text)) }
    {
        let mut text = String::new(alloc);
        let count = self.tables.len();
        if count == 0 {
            text.push_str("no transaction\n")?;
            return Ok(text);
        }
        for number in 1..=count {
            self.push_one(alloc, &mut text, number)?;
        }
        Ok(text)
    }

    /// Appends the listing of the transaction with this number.
    fn push_one(&self, alloc: Global, text: &mut String, number: u64) -> Result<(), AllocError>
        requires { IsGiven self.now.tables number }
        ensures { OnOk result (AppendsListing self.now.tables number (string_bytes text.old) (string_bytes text.new)) }
    {
        let key = self.tables.key(number);
        push_transaction(alloc, text, number, key, self.tables.set(number))
    }

    /// The key of the transaction with this number, if there is one.
    pub(crate) fn key(&self, number: u64) -> Option<&Key>
        ensures { MatchOption result (¬ (IsGiven self.now.tables number)) (λ key. IsGiven self.now.tables number × HasNumber self.now.tables key.now number) }
    {
        if number == 0 || number > self.tables.len() {
            return None;
        }
        Some(self.tables.key(number))
    }

    /// The earliest moment up to which some transaction can wait, in milliseconds, and None where each can wait for ever.
    pub(crate) fn earliest(&self) -> Option<u64>
        ensures { (moment : ℕ) → (due_of self.now.tables moment ≡ None) ↔ IfSome result (λ last. moment ≤ last) }
    {
        self.tables.earliest()
    }
}
