//! What a wider tolerance keeps.
//! In each law p are the times with the narrower tolerance, and `early` and `late` are the wider one; m is a moment, and x and y are the states then by the
//! two.
ghost use Rattle.std.specs.Prelude.{◌≡◌, ◌≤◌, ℕ, List, []};
ghost use Rattle.sip_standard.specs.Key.{KeyParts};
ghost use Rattle.sip_standard.specs.LogSays.{LogEnd, LogSays};
ghost use Rattle.sip_standard.specs.LogEntry.{Item};
ghost use Rattle.sip_standard.specs.Figure.{Owing};
ghost use Rattle.sip_standard.specs.MachineEvent.{MachineEvent};
ghost use Rattle.sip_standard.specs.Times.{Times};
ghost use Rattle.sip_standard.specs.KeyMachine.{MachineKind, transaction_of};
ghost use Rattle.sip_standard.specs.Stands.{Stands};
ghost use Rattle.sip_standard.specs.Observation.{Observation};
ghost use Rattle.sip_standard.specs.Seen.{AreSeen};
ghost use Rattle.sip_standard.specs.VerdictOf.{RunsOver};
ghost use Rattle.consequences.specs.Tolerance.{tolerant, AreOneKind};

/// A wider tolerance keeps a run: where an element may be earlier and later, a run over the same events stands in the same phase.
pub fn a_wider_tolerance_keeps_a_run()
    ensures { (p : Times) (early late : ℕ) (machine : MachineKind) (events : List MachineEvent) (m : ℕ) (x : Owing (transaction_of machine).Phase) →
        p.early ≤ early → p.late ≤ late → AreOneKind events → Stands (transaction_of machine).figure p events m x →
        (y : Owing (transaction_of machine).Phase) × Stands (transaction_of machine).figure (tolerant early late p) events m y × (y.phase ≡ x.phase) }
{}

/// A wider tolerance keeps a run of each transaction over the entries of a log: `input` is the log, which says `items` and how they end, es are the
/// observations of the items, and key names the transaction.
pub fn a_wider_tolerance_keeps_a_transaction()
    ensures { (p : Times) (early late : ℕ) (input : List ℕ) (items : List Item) (end : LogEnd) (es : List (Observation KeyParts)) (key : KeyParts) →
        p.early ≤ early → p.late ≤ late → LogSays input p items end → AreSeen [] items es → RunsOver p es key → RunsOver (tolerant early late p) es key }
{}
