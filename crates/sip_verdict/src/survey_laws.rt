//! Laws of surveys. The functions do nothing: their contracts are the laws.
//! In each law `found` are the findings, `end` is how the survey ends, p are the times, es the entries and `front` those before the entry e.
ghost use Rattle.std.specs.Prelude.{◌≡◌, ◌↔◌, ◌≤◌, ◌⊎◌, ◌++◌, ◌∷◌, [], ℕ, Bool, true, List, All, AllPairs, Contains};
ghost use Rattle.sip_standard.specs.VerdictOf.{IsVerdictOf, keys_in, events_for, RunsOver, IsWideAt};
ghost use Rattle.sip_verdict.specs.SurveyOf.{IsSound, Breaks, Widens, IsSurveyAfter, IsSurveyOf, verdict_in};
ghost use Rattle.sip_part.specs.Part.{PartOf, falls_into};
ghost use Rattle.sip_verdict.specs.SurveyParts.{IsPartLog};
ghost use Rattle.sip_verdict.specs.SurveyLaws.{IsFindingOf, Names, AreAbout, chosen_in, IsCutLog, StaysAt, KeepsChosen, IsIdleAgain};
ghost use Rattle.sip_verdict.specs.declared.finding.Finding.{Finding as FindingValue};
ghost use Rattle.sip_verdict.specs.declared.finding.Finding.TheVariants.{Malformed, Breach, Undecided};
ghost use Rattle.sip_verdict.specs.declared.survey_end.SurveyEnd.{SurveyEnd as EndValue};
ghost use Rattle.sip_standard.specs.declared.verdict.Verdict.{Verdict as VerdictValue};
ghost use Rattle.sip_standard.specs.Observation.{Observation};
ghost use Rattle.sip_standard.specs.Seen.{AreSeen};
ghost use Rattle.sip_verdict.specs.Entries.{newest_moment};
ghost use Rattle.sip_standard.specs.declared.fault.Fault.{Fault as FaultValue};
ghost use Rattle.sip_standard.specs.Key.{KeyParts};
ghost use Rattle.sip_standard.specs.LogEntry.{Item};
ghost use Rattle.sip_standard.specs.LogSays.{LogEnd};
ghost use Rattle.sip_standard.specs.Times.{Times};
ghost use Rattle.sip_standard.specs.MachineEvent.{MachineEvent};
ghost use Rattle.sip_standard.specs.Figure.{Owing, Lasts};
ghost use Rattle.sip_standard.specs.Stands.{Stands};
ghost use Rattle.sip_standard.specs.KeyMachine.{MachineKind, machine_of_key, transaction_of};

/// An input has at most one survey.
pub fn a_survey_is_one()
    ensures { (input : List ℕ) (found others : List FindingValue) (end fin : EndValue) → IsSurveyOf input found end → IsSurveyOf input others fin → (found ≡ others) × (end ≡ fin) }
{}

/// Each input has a survey.
pub fn an_input_has_a_survey()
    ensures { (input : List ℕ) → ¬ ((found : List FindingValue) (end : EndValue) → ¬ IsSurveyOf input found end) }
{}

/// The verdict of an input is the first finding of its survey, or, where nothing is found, how its log ended.
pub fn the_verdict_is_in_the_survey()
    ensures { (input : List ℕ) (verdict : VerdictValue) (found : List FindingValue) (end : EndValue) → IsVerdictOf input verdict → IsSurveyOf input found end → verdict ≡ verdict_in found end }
{}

/// A transaction that is followed no further at an entry has a run over the entry: it does not break there.
pub fn what_is_wide_does_not_break()
    ensures { (p : Times) (es : List (Observation KeyParts)) (e : Observation KeyParts) (key : KeyParts) → IsWideAt p es e key → RunsOver p (es ++ e ∷ []) key }
{}

/// A breach stays: a transaction that has a run over entries in the order of their moments has one over the first of them too.
pub fn a_breach_stays()
    ensures { (p : Times) (key : KeyParts) (front more : List (Observation KeyParts)) → AllPairs (λ a b. a.event.moment ≤ b.event.moment) (front ++ more)
        → RunsOver p (front ++ more) key → RunsOver p front key }
{}

/// A transaction has at most one finding: after the entry of a finding there is no other one. The entries are in the order of their moments.
pub fn a_transaction_has_one_finding()
    ensures { (p : Times) (key : KeyParts) (front : List (Observation KeyParts)) (e : Observation KeyParts) (more : List (Observation KeyParts)) (last : Observation KeyParts)
        → AllPairs (λ a b. a.event.moment ≤ b.event.moment) (front ++ e ∷ more) → Breaks p front e key ⊎ Widens p front e key
        → ¬ (Breaks p (front ++ e ∷ more) last key ⊎ Widens p (front ++ e ∷ more) last key) }
{}

/// A transaction that is in trouble has a finding.
pub fn a_transaction_in_trouble_has_a_finding()
    ensures { (p : Times) (key : KeyParts) (es : List (Observation KeyParts)) → ¬ IsSound p es key
        → ¬ ((front : List (Observation KeyParts)) (e : Observation KeyParts) (more : List (Observation KeyParts)) → es ≡ front ++ e ∷ more → ¬ (Breaks p front e key ⊎ Widens p front e key)) }
{}

/// Each transaction that is in trouble over the entries of a log is named by a finding of the log's survey.
pub fn each_trouble_is_named()
    ensures { (p : Times) (items : List Item) (close : LogEnd) (es : List (Observation KeyParts)) (found : List FindingValue) (end : EndValue) → AreSeen [] items es
        → IsSurveyAfter p [] items close found end → (key : KeyParts) → ¬ IsSound p es key → ¬ (¬ AreAbout es found key) }
{}

/// A survey names no transaction twice: two findings of one transaction are the same.
pub fn a_survey_names_a_transaction_once()
    ensures { (input : List ℕ) (found : List FindingValue) (end : EndValue) → IsSurveyOf input found end → (transaction : ℕ) (f g : FindingValue)
        → Contains found f → Contains found g → IsFindingOf transaction f → IsFindingOf transaction g → f ≡ g }
{}

/// A log may be cut by its transactions, where all keys that an entry concerns are chosen, or none of them. The cut log has a mark in place of
/// each entry that concerns no chosen key. It has the chosen transactions in their order. After as many entries of both logs the runs of each of
/// them stand in the same states, and each breaks, or is followed no further, at the same entry as in the whole log.
pub fn a_log_may_be_cut()
    ensures { (p : Times) (chosen : KeyParts → Bool) (items : List Item) (es : List (Observation KeyParts)) (cuts : List Item) → AreSeen [] items es
        → IsCutLog chosen items es cuts → KeepsChosen p chosen es cuts }
{}

/// A log can be cut by branch, whichever branches are chosen, since all keys that a message concerns have the branch of its top Via.
pub fn a_log_can_be_cut_by_branch()
    ensures { (chosen : List ℕ → Bool) (items : List Item) (es : List (Observation KeyParts)) → AreSeen [] items es
        → (cuts : List Item) × IsCutLog (λ key. chosen key.branch) items es cuts }
{}

/// The log of a part is cut by branch: the chosen branches are those that fall into the part.
pub fn the_log_of_a_part_is_cut_by_branch()
    ensures { (part : PartOf) (items cuts : List Item) (es : List (Observation KeyParts)) → AreSeen [] items es → IsPartLog part items cuts
        → IsCutLog (λ key. falls_into part key.branch) items es cuts }
{}

/// A part finds what the whole finds: the survey of a log, and the survey of a log that is cut from it, name a chosen transaction at the same
/// entries, however the two logs end. The part counts the chosen transactions alone.
pub fn a_part_finds_what_the_whole_finds()
    ensures { (p : Times) (chosen : KeyParts → Bool) (items cuts : List Item) (es : List (Observation KeyParts)) (close shut : LogEnd) (found part : List FindingValue) (end fin : EndValue)
        → AreSeen [] items es → IsCutLog chosen items es cuts → IsSurveyAfter p [] items close found end → IsSurveyAfter p [] cuts shut part fin
        → (key : KeyParts) → chosen key ≡ true → (entry : ℕ)
        → (Names (λ n t. Breach n t) keys_in es found key entry ↔ Names (λ n t. Breach n t) (chosen_in chosen) es part key entry)
        × (Names (λ n t. Undecided n t) keys_in es found key entry ↔ Names (λ n t. Undecided n t) (chosen_in chosen) es part key entry) }
{}

/// A fault is found in a part exactly where the survey of the whole finds it and its message stays in the part.
pub fn a_fault_is_found_where_its_message_stays()
    ensures { (p : Times) (chosen : KeyParts → Bool) (items cuts : List Item) (es : List (Observation KeyParts)) (close shut : LogEnd) (found part : List FindingValue) (end fin : EndValue)
        → AreSeen [] items es → IsCutLog chosen items es cuts → IsSurveyAfter p [] items close found end → IsSurveyAfter p [] cuts shut part fin
        → (entry : ℕ) (fault : FaultValue) → Contains part (Malformed entry fault) ↔ (Contains found (Malformed entry fault) × StaysAt items cuts entry) }
{}

/// A run of one of the six machines stands in no state after the last moment of that state.
pub fn what_stands_lasts()
    ensures { (kind : MachineKind) (p : Times) (events : List MachineEvent) (m : ℕ) (x : Owing (transaction_of kind).Phase) → Stands (transaction_of kind).figure p events m x
        → Lasts (transaction_of kind).figure p x m }
{}

/// A transaction that is surely idle again is as new: over later events it stands just where a new one stands.
pub fn a_transaction_that_is_idle_again_is_as_new()
    ensures { (kind : MachineKind) (p : Times) (old more : List MachineEvent) (m k : ℕ) (y : Owing (transaction_of kind).Phase) → IsIdleAgain kind p old m
        → All (λ e. e.moment ≤ m) old → All (λ e. m ≤ e.moment) more → m ≤ k
        → Stands (transaction_of kind).figure p (old ++ more) k y ↔ Stands (transaction_of kind).figure p more k y }
{}

/// A transaction that is idle again can be forgotten: at a later entry it breaks, or is followed no further, exactly where it does over the
/// entries since then alone. The entries are in the order of their moments.
pub fn what_is_idle_again_can_be_forgotten()
    ensures { (p : Times) (key : KeyParts) (old front : List (Observation KeyParts)) (e : Observation KeyParts) → AllPairs (λ a b. a.event.moment ≤ b.event.moment) (old ++ (front ++ e ∷ []))
        → IsIdleAgain (machine_of_key p.rules key) p (events_for key old) (newest_moment old) → IsSound p old key
        → (Breaks p (old ++ front) e key ↔ Breaks p front e key) × (Widens p (old ++ front) e key ↔ Widens p front e key) }
{}
