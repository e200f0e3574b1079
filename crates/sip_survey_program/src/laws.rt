//! The law of the parts of a log. The function does nothing: its contract is the law.
ghost use Rattle.std.specs.Prelude.{ℕ, List, ◌<◌};
ghost use Rattle.sip_standard.specs.Key.{KeyParts};
ghost use Rattle.sip_standard.specs.Observation.{Observation};
ghost use Rattle.sip_verdict.specs.declared.finding.Finding.{Finding};
ghost use Rattle.sip_verdict.specs.declared.survey_end.SurveyEnd.{SurveyEnd};
ghost use Rattle.sip_verdict.specs.SurveyOf.{IsSurveyOf};
ghost use Rattle.sip_verdict.specs.SurveyText.{AreEntriesOf};
ghost use Rattle.sip_survey_program.specs.Together.{AreFoundInParts, AreTogether};

/// The surveys of all parts of an input find together what the survey of the whole input finds. Each fault, and each transaction that breaks or
/// is followed no further at an entry, is found there by one part alone; and a part finds nothing that the whole does not find.
pub fn the_parts_find_together_what_the_whole_finds()
    ensures { (input : List ℕ) (count : ℕ) (es : List (Observation KeyParts)) (found : List Finding) (end : SurveyEnd) (parts : ℕ → List Finding)
        → 0 < count → AreEntriesOf input es → IsSurveyOf input found end → AreFoundInParts input count parts → AreTogether count es found parts }
{}
