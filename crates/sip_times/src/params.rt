//! The times of an element: its timers T1, T2 and T4, and how far from them it may be.
ghost use Rattle.std.specs.Prelude.{◌≡◌, ◌≤◌, ◌<◌, ◌^◌, MatchOption, Some};
ghost use Rattle.sip_standard.specs.declared.rules.Rules.TheVariants.{R6026};
ghost use Rattle.sip_standard.specs.Times.{Times, AreTimes, last_moment};
ghost use Rattle.sip_times.specs.Times.{under};
ghost use Rattle.sip_standard.specs.Window.{open_at, close_at, window_at};

use sip_standard::Rules;
use std::marker::Model;

/// Timers T1, T2 and T4 of RFC 3261 section 17, and the tolerances of the moments, in milliseconds; and the rules that
/// the element was built by.
#[derive(Clone, Copy, Debug)]
pub struct Params {
    t1: u16,
    t2: u16,
    t4: u16,
    early: u16,
    /// How late, and 32,768 more under the rules of RFC 3261.
    lateness: u16,
}

impl Model for Params {
    ghost use Rattle.sip_standard.specs.Times.{Times, AreTimes};
    ghost use Rattle.sip_times.specs.Times.{lateness_of, times_of};

    // Contracts see params as `Times`, each number by its name.
    ghost Value = { Times };

    ghost view = { λ p. times_of p.t1 p.t2 p.t4 p.early p.lateness };

    // At all times the numbers are within their limits.
    ghost invariant = { λ p. AreTimes (times_of p.t1 p.t2 p.t4 p.early p.lateness) };

    // The params that stand for these times.
    ghost inverse = { λ p. record { t1 = p.t1; t2 = p.t2; t4 = p.t4; early = p.early; lateness = lateness_of p.late p.rules } };
}

impl Params {
    /// Times with one tolerance, early and late, under the rules of RFC 6026. None where a number is outside its limits:
    /// T1 1 to 10,000, T2 and T4 1 to 60,000, the tolerance 0 to 10,000.
    pub fn new(t1: u64, t2: u64, t4: u64, tolerance: u64) -> Option<Params>
        ensures { MatchOption result
            (¬ (AreTimes (record { t1 = t1; t2 = t2; t4 = t4; early = tolerance; late = tolerance; rules = R6026 })))
            (λ p. AreTimes p × (p ≡ record { t1 = t1; t2 = t2; t4 = t4; early = tolerance; late = tolerance; rules = R6026 })) }
    {
        Params::with_tolerances(t1, t2, t4, tolerance, tolerance)
    }

    /// Times with two tolerances: how much an element may be early, and how much late; under the rules of RFC 6026. None
    /// where a number is outside its limits: T1 1 to 10,000, T2 and T4 1 to 60,000, each of the tolerances 0 to 10,000.
    pub fn with_tolerances(t1: u64, t2: u64, t4: u64, early: u64, late: u64) -> Option<Params>
        ensures { MatchOption result
            (¬ (AreTimes (record { t1 = t1; t2 = t2; t4 = t4; early = early; late = late; rules = R6026 })))
            (λ p. AreTimes p × (p ≡ record { t1 = t1; t2 = t2; t4 = t4; early = early; late = late; rules = R6026 })) }
    {
        let within = (1..=10_000).contains(&t1)
            && (1..=60_000).contains(&t2)
            && (1..=60_000).contains(&t4)
            && early <= 10_000
            && late <= 10_000;
        if within {
            Some(Params {
                t1: t1 as u16,
                t2: t2 as u16,
                t4: t4 as u16,
                early: early as u16,
                lateness: late as u16,
            })
        } else {
            None
        }
    }

    /// The same times under these rules.
    pub fn with_rules(self, rules: Rules) -> Params
        ensures value { result ≡ under rules self }
        ensures within { AreTimes result }
    {
        let late = self.late() as u16;
        // 0x8000, which is 32,768, is above each lateness, and is added to it under the rules of RFC 3261.
        let lateness = match rules {
            Rules::R6026 => late,
            Rules::R3261 => late + 0x8000,
        };
        Params { lateness, ..self }
    }

    /// T1, the estimate of a round trip, in milliseconds.
    pub fn t1(&self) -> u64
        ensures value { result ≡ self.now.t1 }
        ensures within { AreTimes self.now }
    {
        u64::from(self.t1)
    }

    /// T2, the longest interval between repeats of a non-INVITE request, in milliseconds.
    pub fn t2(&self) -> u64
        ensures value { result ≡ self.now.t2 }
        ensures within { AreTimes self.now }
    {
        u64::from(self.t2)
    }

    /// T4, how long a message may stay in the network, in milliseconds.
    pub fn t4(&self) -> u64
        ensures value { result ≡ self.now.t4 }
        ensures within { AreTimes self.now }
    {
        u64::from(self.t4)
    }

    /// How far before its due moment an element may act, in milliseconds.
    pub fn early(&self) -> u64
        ensures value { result ≡ self.now.early }
        ensures within { AreTimes self.now }
    {
        u64::from(self.early)
    }

    /// How far after its due moment an element may act, in milliseconds.
    pub fn late(&self) -> u64
        ensures value { result ≡ self.now.late }
        ensures within { AreTimes self.now }
    {
        u64::from(self.lateness % 0x8000)
    }

    /// The rules that the element was built by.
    pub fn rules(&self) -> Rules
        ensures { result ≡ self.now.rules }
    {
        if self.lateness < 0x8000 {
            Rules::R6026
        } else {
            Rules::R3261
        }
    }

    /// The first moment, in milliseconds, at which a timer may fire that was set at the moment `set` for `duration` milliseconds.
    pub fn opens(&self, set: u64, duration: u64) -> u64
        requires set { set ≤ last_moment }
        requires duration { duration < 2 ^ 50 }
        ensures { result ≡ open_at self.now set duration }
    {
        set + duration.saturating_sub(self.early())
    }

    /// The last moment, in milliseconds, at which a timer may fire that was set at the moment `set` for `duration` milliseconds.
    pub fn closes(&self, set: u64, duration: u64) -> u64
        requires set { set ≤ last_moment }
        requires duration { duration < 2 ^ 50 }
        ensures { result ≡ close_at self.now set duration }
    {
        set + duration + self.late()
    }

    /// From when, and until when, a timer may fire that was set at the moment `set` for `duration` milliseconds.
    pub fn window(&self, set: u64, duration: u64) -> (u64, Option<u64>)
        requires set { set ≤ last_moment }
        requires duration { duration < 2 ^ 50 }
        ensures { Some result ≡ window_at self.now set duration }
    {
        (self.opens(set, duration), Some(self.closes(set, duration)))
    }

    /// The last moment, in milliseconds, at which what is due at the moment itself may still be done.
    pub fn deadline(&self, moment: u64) -> u64
        requires { moment ≤ last_moment }
        ensures value { result ≡ close_at self.now moment 0 }
        ensures small { result < 2 ^ 50 }
    {
        moment + self.late()
    }
}
