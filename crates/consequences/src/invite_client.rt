//! The INVITE client transaction, RFC 3261 section 17.1.1, by either rules.
//! In each law p are the times; `before`, `between` and `after` are the events before, between and after those that it names, m is a moment after them all,
//! and y is the state at the end.
ghost use Rattle.std.specs.List.{Any};
ghost use Rattle.std.specs.Prelude.{◌≡◌, ◌≤◌, ◌<◌, ◌*◌, ◌⊎◌, ◌++◌, ◌∷◌, ℕ, true, false, List, All};
ghost use Rattle.sip_standard.specs.declared.role.Role.TheVariants.{Client};
ghost use Rattle.sip_standard.specs.declared.action.Action.TheVariants.{Sent};
ghost use Rattle.sip_standard.specs.declared.rules.Rules.{Rules};
ghost use Rattle.sip_standard.specs.declared.kind.Kind.TheVariants.{Request};
ghost use Rattle.sip_standard.specs.declared.kind.Method.TheVariants.{Invite, Cancel};
ghost use Rattle.sip_standard.specs.Figure.{quiet};
ghost use Rattle.sip_standard.specs.Window.{open_at, close_at};
ghost use Rattle.sip_standard.specs.MachineEvent.{MachineEvent};
ghost use Rattle.sip_standard.specs.Kind.{IsFinal, IsSuccess, IsUnsuccessful};
ghost use Rattle.sip_standard.specs.Times.{Times};
ghost use Rattle.sip_standard.specs.Stands.{Stands, StandsAfter};
ghost use Rattle.consequences.specs.Acknowledged.{Acknowledges, IsAwaited, IsBeforeTimerD};
ghost use Rattle.consequences.specs.Events.{SendsRequest, GetsResponse, IsAnyCode, IsRefused, IsRestart};
ghost use Rattle.consequences.specs.Machines.{figure_of, StateOf};
ghost use Rattle.consequences.specs.Repeats.{IsSpaced, invites_of};

/// No CANCEL is sent before a response to the INVITE has come, unless the transaction may have ended: its transport refused a message, the
/// element started again, or timer B may have fired, 64*T1 after the INVITE, the tolerance aside. Section 9.1 wants a provisional
/// response, and says that a CANCEL should not be sent after a final one. This law leaves open which of the two has come.
pub fn a_cancel_waits_for_a_response()
    ensures { (p : Times) (rules : Rules) (before after : List MachineEvent) (invite e : MachineEvent) (y : StateOf rules Client true) →
        All (λ f. ¬ (SendsRequest Invite f)) before → SendsRequest Invite invite → SendsRequest Cancel e →
        StandsAfter (figure_of rules Client true) p (before ++ invite ∷ after) e y →
        Any (GetsResponse IsAnyCode) after ⊎ Any (λ f. IsRefused f ⊎ IsRestart f) after ⊎ (open_at p invite.moment (64 * p.t1) ≤ e.moment) }
{}

/// The transaction of an INVITE that gets no response has ended by 64*T1 and as much as an element may be late (timer B of section
/// 17.1.1.2). Only a CANCEL is sent after that.
pub fn an_unanswered_invite_ends_by_timer_b()
    ensures over { (p : Times) (rules : Rules) (before after : List MachineEvent) (invite : MachineEvent) (m : ℕ) (y : StateOf rules Client true) →
        SendsRequest Invite invite → All (λ f. ¬ (GetsResponse IsAnyCode f)) after →
        Stands (figure_of rules Client true) p (before ++ invite ∷ after) m y → close_at p invite.moment (64 * p.t1) < m → y ≡ quiet (figure_of rules Client true).ended }
    ensures silent { (p : Times) (rules : Rules) (before after : List MachineEvent) (invite e : MachineEvent) (y : StateOf rules Client true) →
        SendsRequest Invite invite → All (λ f. ¬ (GetsResponse IsAnyCode f)) after → e.action ≡ Sent →
        StandsAfter (figure_of rules Client true) p (before ++ invite ∷ after) e y → close_at p invite.moment (64 * p.t1) < e.moment → e.kind ≡ Request Cancel }
{}

/// The first final response to an INVITE, if it is a 300 to 699, is acknowledged by its ACK as late as an element may be (sections 17.1.1.2 and
/// 17.1.1.3). It has to come before timer B may fire, or after a provisional response that did, and not 64*T1 after a CANCEL (section 9.1). So is
/// each 300 to 699 that comes over an unreliable transport before timer D may fire, unless a 2xx came, the transport refuses a message or the
/// element starts again.
pub fn an_unsuccessful_response_is_acknowledged()
    ensures first { (p : Times) (rules : Rules) (before between after : List MachineEvent) (invite response : MachineEvent) (m : ℕ) (y : StateOf rules Client true) →
        All (λ f. ¬ (SendsRequest Invite f)) before → SendsRequest Invite invite →
        All (λ f. ¬ (GetsResponse IsFinal f) × ¬ (IsRefused f) × ¬ (IsRestart f)) between →
        GetsResponse IsUnsuccessful response → IsAwaited p invite between response.moment →
        Stands (figure_of rules Client true) p (before ++ invite ∷ (between ++ response ∷ after)) m y → close_at p response.moment 0 < m →
        Any (Acknowledges p invite response) after ⊎ Any (λ f. IsRefused f ⊎ IsRestart f) after }
    ensures again { (p : Times) (rules : Rules) (before between after : List MachineEvent) (invite response : MachineEvent) (m : ℕ) (y : StateOf rules Client true) →
        All (λ f. ¬ (SendsRequest Invite f)) before → SendsRequest Invite invite → invite.reliable ≡ false →
        All (λ f. ¬ (GetsResponse IsSuccess f) × ¬ (IsRefused f) × ¬ (IsRestart f)) between →
        GetsResponse IsUnsuccessful response → IsAwaited p invite between response.moment → IsBeforeTimerD p invite between response.moment →
        Stands (figure_of rules Client true) p (before ++ invite ∷ (between ++ response ∷ after)) m y → close_at p response.moment 0 < m →
        Any (Acknowledges p invite response) after ⊎ Any (λ f. IsRefused f ⊎ IsRestart f) after }
{}

/// An INVITE and its repeats lie no closer than T1, 2*T1, 4*T1 and so on, the tolerance aside (timer A, section 17.1.1.2).
pub fn an_invite_is_repeated_in_doubling_intervals()
    ensures { (p : Times) (rules : Rules) (events : List MachineEvent) (m : ℕ) (y : StateOf rules Client true) →
        Stands (figure_of rules Client true) p events m y → IsSpaced p (λ interval. 2 * interval) (invites_of events) }
{}
