//! Last moments, up to which something may be waited for.
ghost use Rattle.std.specs.Prelude.{◌≡◌, ◌∷◌, MatchBool, Some, option_to_list};
ghost use Rattle.sip_machine.specs.Limits.{IsWithin};
ghost use Rattle.sip_ledger.specs.Debts.{earliest};

/// Whether the moment is after the last one, if there is a last one.
pub(crate) fn is_past(moment: u64, last: Option<u64>) -> bool
    ensures { MatchBool result (¬ (IsWithin moment last)) (IsWithin moment last) }
{
    match last {
        Some(last) => last < moment,
        None => false,
    }
}

/// The earlier of a moment and another one, if there is another.
pub(crate) fn earlier(moment: u64, other: Option<u64>) -> u64
    ensures { Some result ≡ earliest (moment ∷ option_to_list other) }
{
    match other {
        Some(other) => moment.min(other),
        None => moment,
    }
}
