//! A restart of the element, by which its transactions are lost (own, in no RFC).
//! In each law p are the times; `before`, `between` and `after` are the events before, between and after those that it names, e is the last event, and y the
//! state at the end.
ghost use Rattle.std.specs.Prelude.{◌≡◌, ◌++◌, ◌∷◌, [], ◌⊎◌, Bool, true, false, List, All};
ghost use Rattle.sip_standard.specs.declared.role.Role.TheVariants.{Client, Server};
ghost use Rattle.sip_standard.specs.declared.action.Action.TheVariants.{Sent};
ghost use Rattle.sip_standard.specs.declared.rules.Rules.{Rules};
ghost use Rattle.sip_standard.specs.declared.kind.Kind.TheVariants.{Request};
ghost use Rattle.sip_standard.specs.declared.kind.Method.TheVariants.{Invite, Cancel};
ghost use Rattle.sip_standard.specs.Figure.{Owing, quiet};
ghost use Rattle.sip_standard.specs.MachineEvent.{MachineEvent};
ghost use Rattle.sip_standard.specs.Times.{Times};
ghost use Rattle.sip_standard.specs.KeyMachine.{MachineKind, transaction_of};
ghost use Rattle.sip_standard.specs.Stands.{StandsAfter};
ghost use Rattle.consequences.specs.Events.{SendsRequest, SendsAnyRequest, GetsAnyRequest, IsRestart};
ghost use Rattle.consequences.specs.Machines.{figure_of, StateOf};

/// After a restart a transaction is idle or has ended, and owes nothing.
pub fn after_a_restart_nothing_is_owed()
    ensures { (machine : MachineKind) (p : Times) (events : List MachineEvent) (restart : MachineEvent) (y : Owing (transaction_of machine).Phase) → IsRestart restart →
        StandsAfter (transaction_of machine).figure p events restart y → (y ≡ quiet (transaction_of machine).figure.idle) ⊎ (y ≡ quiet (transaction_of machine).figure.ended) }
{}

/// A client that sent its request before a restart sends nothing more after it, except a CANCEL of an INVITE, which changes nothing.
pub fn after_a_restart_a_client_sends_no_more()
    ensures invite { (p : Times) (rules : Rules) (before between after : List MachineEvent) (invite restart e : MachineEvent) (y : StateOf rules Client true) →
        SendsRequest Invite invite → IsRestart restart → e.action ≡ Sent →
        StandsAfter (figure_of rules Client true) p (before ++ invite ∷ (between ++ restart ∷ after)) e y → e.kind ≡ Request Cancel }
    ensures plain { (p : Times) (rules : Rules) (before between after : List MachineEvent) (request restart e : MachineEvent) (y : StateOf rules Client false) →
        SendsAnyRequest request → IsRestart restart → e.action ≡ Sent →
        ¬ (StandsAfter (figure_of rules Client false) p (before ++ request ∷ (between ++ restart ∷ after)) e y) }
{}

/// After a restart a server sends nothing before a request has come in again.
pub fn after_a_restart_a_server_sends_when_it_is_asked()
    ensures { (p : Times) (rules : Rules) (invite : Bool) (before after : List MachineEvent) (restart e : MachineEvent) (y : StateOf rules Server invite) →
        IsRestart restart → All (λ f. ¬ (GetsAnyRequest f)) after → e.action ≡ Sent →
        ¬ (StandsAfter (figure_of rules Server invite) p (before ++ restart ∷ after) e y) }
{}
