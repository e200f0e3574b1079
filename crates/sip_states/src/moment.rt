//! A moment in 6 bytes.
ghost use Rattle.std.specs.Prelude.{◌≡◌, ◌<◌, ◌^◌, IfOk};

use std::alloc::AllocError;
use std::marker::Model;

/// A moment, in milliseconds, below 2^48: a log of 8,900 years has no later one. It takes 6 bytes, so that a set takes 8 bytes less.
#[derive(Debug, Drop)]
pub(crate) struct Moment {
    low: u16,
    middle: u16,
    high: u16,
}

impl Model for Moment {
    ghost use Rattle.std.specs.Prelude.{◌+◌, ◌*◌, ℕ};

    // A moment means the number whose digits to the base 2^16 it has.
    ghost Value = { ℕ };

    // 65536 is 2^16, and 4294967296 is 2^32.
    ghost view = { λ m. m.low + m.middle * 65536 + m.high * 4294967296 };
}

impl Moment {
    /// The moment 0.
    pub(crate) fn zero() -> Moment
        ensures { result ≡ 0 }
    {
        Moment {
            low: 0,
            middle: 0,
            high: 0,
        }
    }

    /// This moment, which is below 2^48.
    pub(crate) fn within(moment: u64) -> Moment
        requires { moment < 2 ^ 48 }
        ensures { result ≡ moment }
    {
        Moment {
            low: (moment % 0x1_0000) as u16,
            middle: (moment / 0x1_0000 % 0x1_0000) as u16,
            high: (moment / 0x1_0000_0000) as u16,
        }
    }

    /// This moment. One from 2^48 on is refused, as memory is: no log comes near it.
    pub(crate) fn new(moment: u64) -> Result<Moment, AllocError>
        ensures { IfOk result (λ it. it ≡ moment) }
    {
        if moment >= 0x1_0000_0000_0000 {
            return Err(AllocError);
        }
        Ok(Moment::within(moment))
    }

    /// The moment as a number.
    pub(crate) fn get(&self) -> u64
        ensures { result ≡ self.now }
    {
        u64::from(self.low)
            + u64::from(self.middle) * 0x1_0000
            + u64::from(self.high) * 0x1_0000_0000
    }
}
