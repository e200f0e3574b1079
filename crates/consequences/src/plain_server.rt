//! The non-INVITE server transaction, RFC 3261 section 17.2.2. A response that the transport refuses counts as sent.
//! In the law p are the times; `before`, `between` and `after` are the events around the final response and the request that comes again, m is a moment
//! after them all, and y the state at the end.
ghost use Rattle.std.specs.List.{Any};
ghost use Rattle.std.specs.Prelude.{◌≡◌, ◌≤◌, ◌<◌, ◌*◌, ◌⊎◌, ◌++◌, ◌∷◌, ℕ, false, List, All};
ghost use Rattle.sip_standard.specs.declared.role.Role.TheVariants.{Server};
ghost use Rattle.sip_standard.specs.declared.rules.Rules.{Rules};
ghost use Rattle.sip_standard.specs.Window.{open_at, close_at};
ghost use Rattle.sip_standard.specs.MachineEvent.{MachineEvent};
ghost use Rattle.sip_standard.specs.Kind.{IsFinal};
ghost use Rattle.sip_standard.specs.Times.{Times};
ghost use Rattle.sip_standard.specs.Stands.{Stands};
ghost use Rattle.consequences.specs.Events.{IsOfOneKind, GetsAnyRequest, SendsResponse, SendsBytes, IsRestart};
ghost use Rattle.consequences.specs.Machines.{figure_of, StateOf};

/// A request that comes again over an unreliable transport after the final response, before timer J may fire, is answered by that response, byte for
/// byte, as late as an element may be, unless the element starts again. Events before the response that have its bytes are of its kind, as those of one
/// log are.
pub fn a_request_that_comes_again_gets_the_final_response()
    ensures { (p : Times) (rules : Rules) (before between after : List MachineEvent) (final again : MachineEvent) (m : ℕ) (y : StateOf rules Server false) →
        All (λ f. f.reliable ≡ false) before → All (λ f. ¬ (SendsResponse IsFinal f)) before → IsOfOneKind before final →
        SendsResponse IsFinal final → All (λ f. ¬ (IsRestart f)) between → GetsAnyRequest again → again.moment < open_at p final.moment (64 * p.t1) →
        Stands (figure_of rules Server false) p (before ++ final ∷ (between ++ again ∷ after)) m y → close_at p again.moment 0 < m →
        Any (λ f. SendsBytes final.text f × (f.moment ≤ close_at p again.moment 0)) after ⊎ Any IsRestart after }
{}
