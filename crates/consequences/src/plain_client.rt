//! The non-INVITE client transaction, RFC 3261 section 17.1.2, which is the same by both rules.
//! In each law p are the times; `before` and `after` are the events before and after the request, m is a moment after them all, e the last event, and y the
//! state at the end.
ghost use Rattle.std.specs.Prelude.{◌≡◌, ◌≤◌, ◌<◌, ◌*◌, ◌++◌, ◌∷◌, ℕ, false, min, List, All};
ghost use Rattle.sip_standard.specs.declared.role.Role.TheVariants.{Client};
ghost use Rattle.sip_standard.specs.declared.action.Action.TheVariants.{Sent};
ghost use Rattle.sip_standard.specs.declared.rules.Rules.{Rules};
ghost use Rattle.sip_standard.specs.Figure.{quiet};
ghost use Rattle.sip_standard.specs.Window.{close_at};
ghost use Rattle.sip_standard.specs.MachineEvent.{MachineEvent};
ghost use Rattle.sip_standard.specs.Kind.{IsFinal};
ghost use Rattle.sip_standard.specs.Times.{Times};
ghost use Rattle.sip_standard.specs.Stands.{Stands, StandsAfter};
ghost use Rattle.consequences.specs.Events.{SendsAnyRequest, GetsResponse};
ghost use Rattle.consequences.specs.Machines.{figure_of, StateOf};
ghost use Rattle.consequences.specs.Repeats.{IsSpaced, requests_of};

/// The transaction of a request that gets no final response has ended by 64*T1 and as much as an element may be late (timer F of section
/// 17.1.2.2). Whatever response the request gets, nothing is sent after that.
pub fn an_unanswered_request_ends_by_timer_f()
    ensures over { (p : Times) (rules : Rules) (before after : List MachineEvent) (request : MachineEvent) (m : ℕ) (y : StateOf rules Client false) →
        SendsAnyRequest request → All (λ f. ¬ (GetsResponse IsFinal f)) after →
        Stands (figure_of rules Client false) p (before ++ request ∷ after) m y → close_at p request.moment (64 * p.t1) < m → y ≡ quiet (figure_of rules Client false).ended }
    ensures silent { (p : Times) (rules : Rules) (before after : List MachineEvent) (request e : MachineEvent) (y : StateOf rules Client false) →
        SendsAnyRequest request → e.action ≡ Sent →
        StandsAfter (figure_of rules Client false) p (before ++ request ∷ after) e y → e.moment ≤ close_at p request.moment (64 * p.t1) }
{}

/// A request and its repeats lie no closer than T1, 2*T1, 4*T1 and so on, with T2 as the cap, the tolerance aside (timer E, section 17.1.2.2).
pub fn a_request_is_repeated_in_intervals_up_to_t2()
    ensures { (p : Times) (rules : Rules) (events : List MachineEvent) (m : ℕ) (y : StateOf rules Client false) →
        Stands (figure_of rules Client false) p events m y → IsSpaced p (λ interval. min (2 * interval) p.t2) (requests_of events) }
{}
