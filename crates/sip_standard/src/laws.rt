//! Laws of the definitions and of what is read from and written to. The functions do nothing: their contracts are the laws.
//! In them `⟦<T as Source>⟧` is what the type T has as a source, and `.now.now` is the value to which a reference to a reference leads.
ghost use Rattle.std.specs.Prelude.{◌≡◌, ◌≤◌, List, length, Contains};
ghost use Rattle.sip_standard.specs.Key.{KeyParts};
ghost use Rattle.sip_standard.specs.Times.{Times};
ghost use Rattle.sip_standard.specs.Figure.{Owing};
ghost use Rattle.sip_standard.specs.KeyMachine.{machine_of_key, transaction_of};
ghost use Rattle.sip_standard.specs.Stands.{StandsAfter};
ghost use Rattle.sip_standard.specs.Observation.{Observation};
ghost use Rattle.sip_standard.specs.VerdictOf.{events_for, IsWideAt};

use crate::sink::Sink;
use crate::source::Source;

/// Through a reference a source has left what it has left itself, and has failed where it has failed itself.
pub fn a_source_through_a_reference_is_that_source<'a, S: Source>(source: &&'a mut S)
    ensures left { ⟦<&'a mut S as Source>⟧.left source.now ≡ S.left source.now.now }
    ensures failed { ⟦<&'a mut S as Source>⟧.has_failed source.now ≡ S.has_failed source.now.now }
{}

/// Through a reference a sink has taken what it has taken itself, and has failed where it has failed itself.
pub fn a_sink_through_a_reference_is_that_sink<'a, S: Sink>(sink: &&'a mut S)
    ensures written { ⟦<&'a mut S as Sink>⟧.written sink.now ≡ S.written sink.now.now }
    ensures failed { ⟦<&'a mut S as Sink>⟧.has_failed sink.now ≡ S.has_failed sink.now.now }
{}

/// A transaction that can stand in at most 1,024 states after an entry is not too wide there.
pub fn few_states_are_not_too_wide()
    ensures { (p : Times) (front : List (Observation KeyParts)) (e : Observation KeyParts) (key : KeyParts) (states : List (Owing (transaction_of (machine_of_key p.rules key)).Phase)) →
        ((y : Owing (transaction_of (machine_of_key p.rules key)).Phase) → StandsAfter (transaction_of (machine_of_key p.rules key)).figure p (events_for key front) e.event y → Contains states y) →
        length states ≤ 1024 → ¬ (IsWideAt p front e key) }
{}
