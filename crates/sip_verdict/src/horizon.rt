//! Up to which entry a survey may forget, and when it does.
//! In the clauses es are the entries so far, whichever they are.
ghost use Rattle.std.specs.Prelude.{◌≡◌, ◌≢◌, ◌≤◌, ◌+◌, ◌↔◌, List, IsTrue, length};
ghost use Rattle.sip_standard.specs.Key.{KeyParts};
ghost use Rattle.sip_standard.specs.Observation.{Observation};
ghost use Rattle.sip_verdict.specs.Entries.{newest_moment};
ghost use Rattle.sip_verdict.specs.inner.ForgettingLogs.{IsHorizonOf};

/// How many transactions a survey has at least before it forgets some of them.
const LEAST: u64 = 64;

/// The horizon of a survey: up to which entry it may forget the transactions that are over.
#[derive(Drop)]
pub(crate) struct Horizon {
    /// A transaction is forgotten only if its last entry is this many milliseconds old.
    pub(crate) age: u64,
    /// The number of an entry that is at least `age` milliseconds old; 0 before there is one.
    pub(crate) until: u64,
    /// The number of a later entry, which takes the place of `until` once it is as old.
    pub(crate) number: u64,
    /// The moment of the entry with the number `number`.
    pub(crate) moment: u64,
    /// How many transactions were left when the survey last forgot some.
    pub(crate) left: u64,
}

impl Horizon {
    /// The horizon before the first entry: nothing may be forgotten.
    pub(crate) fn new(age: u64) -> Horizon
        ensures horizon { (es : List (Observation KeyParts)) → IsHorizonOf result es }
        ensures age { result.age ≡ age }
    {
        Horizon {
            age,
            until: 0,
            number: 0,
            moment: 0,
            left: 0,
        }
    }

    /// Notes that the newest entry has this number and this moment, and moves the horizon on where it may.
    pub(crate) fn note(&mut self, number: u64, moment: u64)
        ensures horizon { (es : List (Observation KeyParts)) → IsHorizonOf self.old es → number ≡ length es → moment ≡ newest_moment es → IsHorizonOf self.new es }
        ensures age { self.new.age ≡ self.old.age }
    {
        // Once the later entry is `age` old, it takes the place of `until`, and the newest entry becomes the later one.
        if moment >= self.moment && moment - self.moment >= self.age {
            self.until = self.number;
            self.number = number;
            self.moment = moment;
        }
    }

    /// Whether it is time to forget some of this many transactions: they are twice those that were left last, so that the cost for each entry
    /// stays the same.
    pub(crate) fn are_due(&self, transactions: u64) -> bool
        ensures { IsTrue result ↔ ((self.now.until ≢ 0) × (64 ≤ transactions) × (self.now.left + self.now.left ≤ transactions)) }
    {
        // Nothing may be forgotten where `until` is 0.
        self.until != 0 && transactions >= LEAST && transactions / 2 >= self.left
    }
}
