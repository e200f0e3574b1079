//! The INVITE server transaction, RFC 3261 section 17.2.1, by either rules. A response that the transport refuses counts as sent.
//! In each law p are the times; `before` and `after` are the events before and after those that it names, m is a moment after them all, e the last event,
//! and y the state at the end.
ghost use Rattle.std.specs.List.{Any};
ghost use Rattle.std.specs.Prelude.{◌≡◌, ◌≤◌, ◌<◌, ◌⊎◌, ◌++◌, ◌∷◌, ℕ, true, List, All};
ghost use Rattle.sip_standard.specs.declared.role.Role.TheVariants.{Server};
ghost use Rattle.sip_standard.specs.declared.action.Action.TheVariants.{Sent};
ghost use Rattle.sip_standard.specs.declared.rules.Rules.{Rules};
ghost use Rattle.sip_standard.specs.declared.rules.Rules.TheVariants.{R3261, R6026};
ghost use Rattle.sip_standard.specs.declared.kind.Method.TheVariants.{Invite};
ghost use Rattle.sip_standard.specs.Window.{close_at};
ghost use Rattle.sip_standard.specs.MachineEvent.{MachineEvent};
ghost use Rattle.sip_standard.specs.Kind.{IsProvisional, IsFinal, IsSuccess, IsUnsuccessful};
ghost use Rattle.sip_standard.specs.Times.{Times};
ghost use Rattle.sip_standard.specs.Stands.{Stands, StandsAfter};
ghost use Rattle.consequences.specs.Events.{IsOfOneKind, GetsRequest, IsResponse, SendsResponse, IsAnyCode, IsRestart};
ghost use Rattle.consequences.specs.Machines.{figure_of, StateOf};
ghost use Rattle.consequences.specs.Servers.{BeginNoneAnew};

/// The first INVITE is answered, be it with a 100, within 200 ms and as much as an element may be late, unless the element starts again
/// within this time.
pub fn an_invite_is_answered_within_200_ms()
    ensures { (p : Times) (rules : Rules) (before after : List MachineEvent) (invite : MachineEvent) (m : ℕ) (y : StateOf rules Server true) →
        All (λ f. ¬ (GetsRequest Invite f)) before → GetsRequest Invite invite →
        Stands (figure_of rules Server true) p (before ++ invite ∷ after) m y → close_at p invite.moment 200 < m →
        Any (λ f. SendsResponse IsAnyCode f × (f.moment ≤ close_at p invite.moment 200)) after
        ⊎ Any (λ f. IsRestart f × (f.moment ≤ close_at p invite.moment 200)) after }
{}

/// After its first final response, if that is a 300 to 699, a server sends only that response, byte for byte, as long as no INVITE begins
/// the transaction anew. But a provisional response that it owed to an INVITE that had come again may still come, as late as an
/// element may be. Events before the response that have its bytes are of its kind, as those of one log are.
pub fn after_an_unsuccessful_response_that_one_alone_is_sent()
    ensures { (p : Times) (rules : Rules) (before after : List MachineEvent) (final e : MachineEvent) (y : StateOf rules Server true) →
        All (λ f. ¬ (SendsResponse IsFinal f)) before → IsOfOneKind before final → SendsResponse IsUnsuccessful final →
        BeginNoneAnew p final after → e.action ≡ Sent → StandsAfter (figure_of rules Server true) p (before ++ final ∷ after) e y →
        (e.text ≡ final.text) ⊎ ((e.moment ≤ close_at p final.moment 0) × Any (λ f. SendsResponse IsProvisional f × (f.text ≡ e.text)) before) }
{}

/// After its first final response, if that is a 2xx, a server sends only 2xx, as long as no INVITE begins the transaction anew. By the
/// rules of RFC 6026, section 7.1, a provisional response that it owed may still come, as late as an element may be. By those of RFC
/// 3261 none may, and each INVITE that comes begins anew. Events before the response that have its bytes are of its kind, as those
/// of one log are.
pub fn after_a_success_successes_alone_are_sent()
    ensures corrected { (p : Times) (before after : List MachineEvent) (final e : MachineEvent) (y : StateOf R6026 Server true) →
        All (λ f. ¬ (SendsResponse IsFinal f)) before → IsOfOneKind before final → SendsResponse IsSuccess final →
        BeginNoneAnew p final after → e.action ≡ Sent → StandsAfter (figure_of R6026 Server true) p (before ++ final ∷ after) e y →
        IsResponse IsSuccess e ⊎ ((e.moment ≤ close_at p final.moment 0) × Any (λ f. SendsResponse IsProvisional f × (f.text ≡ e.text)) before) }
    ensures without { (p : Times) (before after : List MachineEvent) (final e : MachineEvent) (y : StateOf R3261 Server true) →
        All (λ f. ¬ (SendsResponse IsFinal f)) before → IsOfOneKind before final → SendsResponse IsSuccess final →
        All (λ f. ¬ (GetsRequest Invite f)) after → e.action ≡ Sent → StandsAfter (figure_of R3261 Server true) p (before ++ final ∷ after) e y →
        IsResponse IsSuccess e }
{}
