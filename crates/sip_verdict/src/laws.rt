//! Laws of verdicts. The functions do nothing: their contracts are the laws.
//! In each law p are the times of the log's header, `items` its entries, and `behind` what stands after the header.
ghost use Rattle.std.specs.Prelude.{◌≡◌, ◌↔◌, ◌≤◌, ◌++◌, ℕ, List};
ghost use Rattle.sip_standard.specs.VerdictOf.{IsVerdictOf};
ghost use Rattle.sip_verdict.specs.LegalLog.{IsLegalLog};
ghost use Rattle.sip_standard.specs.declared.verdict.Verdict.TheVariants.{Legal};
ghost use Rattle.sip_standard.specs.declared.verdict.Verdict.{Verdict as VerdictValue};
ghost use Rattle.sip_standard.specs.declared.format.Format.{Format};
ghost use Rattle.sip_standard.specs.declared.format.Format.TheVariants.{One, Two};
ghost use Rattle.sip_standard.specs.LogEntry.{Item};
ghost use Rattle.sip_standard.specs.LogHeader.{Header};
ghost use Rattle.sip_standard.specs.LogSays.{Clean, LogSays};
ghost use Rattle.sip_standard.specs.Times.{Times};

use sip_standard::Verdict;

/// An input has at most one verdict.
pub fn an_input_has_one_verdict(_one: &Verdict, _other: &Verdict)
    ensures { (input : List ℕ) → IsVerdictOf input _one.now → IsVerdictOf input _other.now → _one.now ≡ _other.now }
{}

/// Each input has a verdict.
pub fn an_input_has_a_verdict()
    ensures { (input : List ℕ) → ¬ ((verdict : VerdictValue) → ¬ IsVerdictOf input verdict) }
{}

/// A log of format 1 that is read to its end has the same verdict after a header of format 2 with the same times.
pub fn a_log_of_format_1_has_its_verdict_in_format_2(_verdict: &Verdict)
    ensures { (input other : List ℕ) (p : Times) (behind : List ℕ) (items : List Item) → Header One p input behind → Header Two p other behind
        → LogSays input p items Clean → IsVerdictOf input _verdict.now ↔ IsVerdictOf other _verdict.now }
{}

/// A log that is read to its end has the same verdict with the line `rules 6026` and without it, since its two headers say the same.
pub fn a_line_of_rules_6026_changes_no_verdict(_verdict: &Verdict)
    ensures { (format : Format) (input other : List ℕ) (p : Times) (behind : List ℕ) (items : List Item) → Header format p input behind
        → Header format p other behind → LogSays input p items Clean → IsVerdictOf input _verdict.now ↔ IsVerdictOf other _verdict.now }
{}

/// A legal log is read whole and has as many entries and transactions as its verdict tells; each message is of the grammar, and each transaction
/// has a run over all entries.
pub fn a_legal_log_has_runs()
    ensures { (input : List ℕ) (entries transactions : ℕ) → IsVerdictOf input (Legal entries transactions) → IsLegalLog input entries transactions }
{}
