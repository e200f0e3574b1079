//! What is on record of an index, in 8 bytes.
ghost use Rattle.std.specs.Prelude.{◌≡◌, IfOk, None, Some};

use crate::moment::Moment;
use std::alloc::AllocError;
use std::marker::Model;

/// What is on record of an index: nothing where it is not settled, and else its last moment, if it has one. It is one number, which
/// takes a third of the memory that an option of an option takes.
#[derive(Debug, Drop)]
pub(crate) struct Recorded {
    /// 0 where it is not settled, 1 where it has no last moment, and else its last moment raised by 2.
    raised: Moment,
}

impl Model for Recorded {
    ghost use Rattle.std.specs.Prelude.{Option, ℕ};
    ghost use Rattle.sip_states.specs.inner.Lines.{recorded};

    // What is recorded means: nothing that is settled, no last moment, or a last moment.
    ghost Value = { Option (Option ℕ) };

    ghost view = { λ r. recorded r.raised };
}

impl Recorded {
    /// An index that is not settled.
    pub(crate) fn unsettled() -> Recorded
        ensures { result ≡ None }
    {
        Recorded {
            raised: Moment::zero(),
        }
    }

    /// An index that was settled with this last moment. The last two moments that a number can be are refused, as memory is: no log comes
    /// near them.
    pub(crate) fn settled(limit: Option<u64>) -> Result<Recorded, AllocError>
        ensures { IfOk result (λ recorded. recorded ≡ Some limit) }
    {
        let raised = match limit {
            None => 1,
            Some(last) => last.checked_add(2).ok_or(AllocError)?,
        };
        Ok(Recorded {
            raised: Moment::new(raised)?,
        })
    }

    /// Its last moment, once it was settled.
    pub(crate) fn limit(&self) -> Option<Option<u64>>
        ensures { result ≡ self.now }
    {
        match self.raised.get() {
            0 => None,
            1 => Some(None),
            raised => Some(Some(raised - 2)),
        }
    }
}
