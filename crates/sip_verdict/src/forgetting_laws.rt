//! Laws of surveys that forget transactions. The functions do nothing: their contracts are the laws.
//! In each law p are the times, `old` are the entries before some keys are forgotten, `kept` says which keys are kept, and `front` are the later entries
//! before the entry e; age is in milliseconds.
ghost use Rattle.std.specs.Prelude.{◌≡◌, ◌≢◌, ◌↔◌, ◌≤◌, ◌+◌, ◌++◌, ◌∷◌, [], ℕ, Bool, true, false, None, Some, List, AllPairs};
ghost use Rattle.sip_standard.specs.Key.{KeyParts};
ghost use Rattle.sip_standard.specs.KeyMachine.{machine_of_key};
ghost use Rattle.sip_standard.specs.LogEntry.{Item};
ghost use Rattle.sip_standard.specs.LogSays.{most_entries};
ghost use Rattle.sip_standard.specs.Observation.{Observation};
ghost use Rattle.sip_standard.specs.declared.log_reason.LogReason.TheVariants.{Limit};
ghost use Rattle.sip_standard.specs.Seen.{AreSeen};
ghost use Rattle.sip_standard.specs.Times.{Times};
ghost use Rattle.sip_standard.specs.VerdictOf.{events_for};
ghost use Rattle.sip_part.specs.Part.{PartOf};
ghost use Rattle.sip_verdict.specs.declared.finding.Finding.{Finding};
ghost use Rattle.sip_verdict.specs.declared.survey_end.SurveyEnd.{SurveyEnd};
ghost use Rattle.sip_verdict.specs.declared.survey_end.SurveyEnd.TheVariants.{LogFault};
ghost use Rattle.sip_verdict.specs.Forgetting.{remembered};
ghost use Rattle.sip_verdict.specs.ForgettingText.{IsToldForgetting};
ghost use Rattle.sip_verdict.specs.Entries.{newest_moment};
ghost use Rattle.sip_verdict.specs.SurveyLaws.{HasSameTroubleAfter, IsIdleAgain};
ghost use Rattle.sip_verdict.specs.SurveyOf.{IsSound, Breaks, Widens};
ghost use Rattle.sip_verdict.specs.SurveyParts.{IsPartToldOf};
ghost use Rattle.sip_verdict.specs.SurveyText.{IsToldOf};

/// A transaction that a survey keeps is judged on: at each later entry it breaks, or is followed no further, exactly where it does if nothing
/// is forgotten.
pub fn what_is_kept_is_judged_on()
    ensures { (p : Times) (kept : KeyParts → Bool) (key : KeyParts) (old front : List (Observation KeyParts)) (e : Observation KeyParts) → kept key ≡ true
        → (Breaks p (remembered kept old ++ front) e key ↔ Breaks p (old ++ front) e key) × (Widens p (remembered kept old ++ front) e key ↔ Widens p (old ++ front) e key) }
{}

/// A transaction that a survey forgets is judged as a new one: at each later entry it breaks, or is followed no further, exactly where it does
/// over the entries since then alone. The entries are in the order of their moments.
pub fn what_is_forgotten_is_judged_as_new()
    ensures { (p : Times) (kept : KeyParts → Bool) (key : KeyParts) (old front : List (Observation KeyParts)) (e : Observation KeyParts) → AllPairs (λ a b. a.event.moment ≤ b.event.moment) (old ++ (front ++ e ∷ []))
        → kept key ≡ false
        → (Breaks p (remembered kept old ++ front) e key ↔ Breaks p front e key) × (Widens p (remembered kept old ++ front) e key ↔ Widens p front e key) }
{}

/// Nothing is lost of a forgotten transaction that was in no trouble and idle again, as a server is that has ended: at each later entry it
/// breaks, or is followed no further, exactly where it does if nothing is forgotten. The entries are in the order of their moments.
pub fn nothing_is_lost_of_what_is_idle_again()
    ensures { (p : Times) (kept : KeyParts → Bool) (key : KeyParts) (old front : List (Observation KeyParts)) (e : Observation KeyParts) → AllPairs (λ a b. a.event.moment ≤ b.event.moment) (old ++ (front ++ e ∷ []))
        → kept key ≡ false → IsIdleAgain (machine_of_key p.rules key) p (events_for key old) (newest_moment old) → IsSound p old key
        → (Breaks p (remembered kept old ++ front) e key ↔ Breaks p (old ++ front) e key) × (Widens p (remembered kept old ++ front) e key ↔ Widens p (old ++ front) e key) }
{}

/// Let a log go on with the same items where nothing is forgotten, and where some transactions are. A later restart of the element concerns
/// only the transactions that are left. Yet a transaction that is kept breaks, or is followed no further, at the same entries in both.
pub fn what_is_kept_is_found_at_the_same_entries()
    ensures { (p : Times) (kept : KeyParts → Bool) (key : KeyParts) (old : List (Observation KeyParts)) (items : List Item) (es others : List (Observation KeyParts)) → kept key ≡ true
        → AreSeen old items es → AreSeen (remembered kept old) items others → HasSameTroubleAfter p old (remembered kept old) es others key }
{}

/// Let a log go on with the same items where nothing is forgotten, and where some transactions are, its entries in the order of their moments.
/// A transaction that is forgotten in no trouble and idle again breaks, or is followed no further, at the same entries in both, though no
/// restart concerns it before it comes again.
pub fn what_is_idle_again_is_found_at_the_same_entries()
    ensures { (p : Times) (kept : KeyParts → Bool) (key : KeyParts) (old : List (Observation KeyParts)) (items : List Item) (es others : List (Observation KeyParts)) → AllPairs (λ a b. a.event.moment ≤ b.event.moment) (old ++ es)
        → kept key ≡ false → IsIdleAgain (machine_of_key p.rules key) p (events_for key old) (newest_moment old) → IsSound p old key
        → AreSeen old items es → AreSeen (remembered kept old) items others → HasSameTroubleAfter p old (remembered kept old) es others key }
{}

/// A survey that may forget may also forget nothing: what `survey` and `survey_part` find and write of an input is one of the answers that
/// `survey_forgetting` may give. This holds unless more than 1,000,000 entries come, which only a survey that forgets reads.
pub fn a_survey_may_forget_nothing()
    ensures whole { (age : ℕ) (input : List ℕ) (found : List Finding) (end : SurveyEnd) (text : List ℕ) → end ≢ LogFault (most_entries + 1) Limit → IsToldOf input found end text → IsToldForgetting age None input found end text }
    ensures part { (age : ℕ) (part : PartOf) (input : List ℕ) (found : List Finding) (end : SurveyEnd) (text : List ℕ) → end ≢ LogFault (most_entries + 1) Limit → IsPartToldOf part input found end text → IsToldForgetting age (Some part) input found end text }
{}
