//! What each verdict says by itself. That of a legal log is `sip_verdict::a_legal_log_has_runs`.
ghost use Rattle.std.specs.Prelude.{ℕ, List};
ghost use Rattle.sip_standard.specs.declared.fault.Fault.{Fault};
ghost use Rattle.sip_standard.specs.VerdictOf.{IsVerdictOf};
ghost use Rattle.sip_standard.specs.declared.log_reason.LogReason.{LogReason};
ghost use Rattle.sip_standard.specs.declared.verdict.Verdict.TheVariants.{Malformed, Breach, Undecided, LogFault};
ghost use Rattle.consequences.specs.Front.{IsFirstFault, IsFirstBreach, IsFirstWide, CannotBeRead};

/// A malformed log has a message with a fault, and no entry before it is in trouble.
pub fn a_malformed_log_has_a_first_fault()
    ensures { (input : List ℕ) (entry : ℕ) (fault : Fault) → IsVerdictOf input (Malformed entry fault) → IsFirstFault input entry fault }
{}

/// A breach is at the first entry after which some transaction has no run, and names the first such transaction.
pub fn a_breach_is_the_first()
    ensures { (input : List ℕ) (entry transaction : ℕ) → IsVerdictOf input (Breach entry transaction) → IsFirstBreach input entry transaction }
{}

/// An undecided log has a transaction whose runs can stand in more than 1,024 states after an entry of its own; no transaction is without a run there,
/// and no entry before it is in trouble.
pub fn an_undecided_log_is_too_wide()
    ensures { (input : List ℕ) (entry transaction : ℕ) → IsVerdictOf input (Undecided entry transaction) → IsFirstWide input entry transaction }
{}

/// A fault of a log is that it has no header, or that an entry cannot be read before which none is in trouble.
pub fn a_fault_of_a_log_comes_first()
    ensures { (input : List ℕ) (entry : ℕ) (reason : LogReason) → IsVerdictOf input (LogFault entry reason) → CannotBeRead input entry reason }
{}
