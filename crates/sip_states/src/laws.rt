//! Laws of runs. The functions do nothing: their contracts are the laws.
//! In each law p are the times; h, m and n are moments, x and y states, `events` what has come, and e the event that comes next.
ghost use Rattle.std.specs.List.{Any};
ghost use Rattle.std.specs.Prelude.{◌≡◌, ◌≤◌, ◌↔◌, ◌⊎◌, ◌++◌, ◌∷◌, [], ℕ, Bool, true, false, List, All, Contains};
ghost use Rattle.sip_standard.specs.declared.kind.Kind.TheVariants.{Request, Response};
ghost use Rattle.sip_standard.specs.declared.kind.Method.TheVariants.{Invite, Ack, Cancel};
ghost use Rattle.sip_standard.specs.declared.kind.Method.{Method};
ghost use Rattle.sip_standard.specs.Figure.{Restarts};
ghost use Rattle.sip_standard.specs.MachineEvent.{MachineEvent};
ghost use Rattle.sip_standard.specs.Window.{open_at};
ghost use Rattle.sip_standard.specs.Kind.{IsFinal};
ghost use Rattle.sip_standard.specs.Times.{Times};
ghost use Rattle.sip_standard.specs.KeyMachine.{MachineKind, machine_of, transaction_of};
ghost use Rattle.sip_states.specs.KeyRules.{OwingOf, key_rules};
ghost use Rattle.sip_states.specs.Waits.{Wait, RunGives};
ghost use Rattle.sip_standard.specs.Stands.{Stands, StandsAfter};
ghost use Rattle.sip_standard.specs.declared.role.Role.TheVariants.{Client, Server};
ghost use Rattle.sip_standard.specs.declared.action.Action.TheVariants.{Sent, Received};
ghost use Rattle.sip_standard.specs.declared.rules.Rules.{Rules};
ghost use Rattle.sip_standard.specs.declared.rules.Rules.TheVariants.{R6026};

use sip_machine::Machine;

/// To wait until one moment and then until another leads to the same states as one wait until the latter.
pub fn in_one_wait_or_two<M: Machine>(_machine: &M)
    ensures { (xs : List M.Seen) (h m n : ℕ) (y : M.Seen) → h ≤ m → m ≤ n →
        Wait (M.rules _machine.now) (Wait (M.rules _machine.now) (Contains xs) h m) m n y
        ↔ Wait (M.rules _machine.now) (Contains xs) h n y }
{}

/// A run stands exactly where waiting and stepping lead, by which the contracts of sets speak: over no event where one can wait from the first
/// state at moment 0, and over some where one can wait from the states to which the last of them leads. An event leads to what it gives
/// from where runs over the events before it stand at its moment.
pub fn by_waiting_and_stepping()
    ensures first { (p : Times) (machine : MachineKind) (m : ℕ) (y : OwingOf machine) →
        Stands (transaction_of machine).figure p [] m y ↔ Wait (key_rules p machine) (λ x. x ≡ (key_rules p machine).first) 0 m y }
    ensures next { (p : Times) (machine : MachineKind) (events : List MachineEvent) (e : MachineEvent) (m : ℕ) (y : OwingOf machine) →
        Stands (transaction_of machine).figure p (events ++ e ∷ []) m y ↔ Wait (key_rules p machine) (StandsAfter (transaction_of machine).figure p events e) e.moment m y }
    ensures after { (p : Times) (machine : MachineKind) (events : List MachineEvent) (e : MachineEvent) (y : OwingOf machine) →
        StandsAfter (transaction_of machine).figure p events e y ↔ RunGives (key_rules p machine) (Stands (transaction_of machine).figure p events e.moment) e y }
{}

/// A run over some events contains a run over the first of them, which stands at any moment between those and the others.
pub fn a_run_holds_one_over_fewer_events()
    ensures { (p : Times) (machine : MachineKind) (events more : List MachineEvent) (m n : ℕ) (y : OwingOf machine) →
        All (λ e. e.moment ≤ m) events → All (λ e. m ≤ e.moment) more → m ≤ n →
        Stands (transaction_of machine).figure p (events ++ more) n y → (x : OwingOf machine) × Stands (transaction_of machine).figure p events m x }
{}

/// By the rules of RFC 6026 a client that has received a final response to its INVITE sends nothing but ACK and CANCEL
/// (RFC 3261 sections 17.1.1.2, 17.1.1.3 and 9.1, RFC 6026 section 7.2). By either rules a client that has received a final response
/// to any other request sends nothing (RFC 3261 section 17.1.2.2).
pub fn after_a_final_response_a_client_sends_no_request()
    ensures invite { (p : Times) (before between later : List MachineEvent) (request final e : MachineEvent) (code : ℕ) (y : OwingOf (machine_of R6026 Client true)) →
        request.action ≡ Sent → request.kind ≡ Request Invite → final.action ≡ Received → final.kind ≡ Response code → IsFinal code → e.action ≡ Sent →
        StandsAfter (transaction_of (machine_of R6026 Client true)).figure p (before ++ request ∷ (between ++ final ∷ later)) e y → (e.kind ≡ Request Ack) ⊎ (e.kind ≡ Request Cancel) }
    ensures plain { (p : Times) (rules : Rules) (before between later : List MachineEvent) (request final e : MachineEvent) (code : ℕ) (y : OwingOf (machine_of rules Client false)) →
        request.action ≡ Sent → (method : Method) × (request.kind ≡ Request method) → final.action ≡ Received → final.kind ≡ Response code → IsFinal code → e.action ≡ Sent →
        StandsAfter (transaction_of (machine_of rules Client false)).figure p (before ++ request ∷ (between ++ final ∷ later)) e y → ⊥ }
{}

/// By the rules of RFC 6026 a client whose first event is an INVITE that it sends repeats it byte for byte, over an unreliable
/// transport alone, and no earlier than T1 after it, less the time by which a timer may fire early (RFC 3261 section 17.1.1.2).
pub fn an_invite_is_sent_again_after_t1()
    ensures { (p : Times) (first : MachineEvent) (between : List MachineEvent) (e : MachineEvent) (y : OwingOf (machine_of R6026 Client true)) → first.action ≡ Sent → first.kind ≡ Request Invite →
        e.action ≡ Sent → e.kind ≡ Request Invite →
        StandsAfter (transaction_of (machine_of R6026 Client true)).figure p (first ∷ between) e y →
        (e.text ≡ first.text) × (first.reliable ≡ false) × (open_at p first.moment p.t1 ≤ e.moment) }
{}

/// A second restart of the element, right after the first, changes nothing.
pub fn a_second_restart_changes_nothing()
    ensures { (machine : MachineKind) (x y z : OwingOf machine) → Restarts (transaction_of machine).figure x y → Restarts (transaction_of machine).figure y z → z ≡ y }
{}

/// A server sends nothing before it has received a request (section 17.2), by both rules, for INVITE and any other method.
pub fn a_server_sends_when_it_was_asked()
    ensures { (p : Times) (rules : Rules) (invite : Bool) (events : List MachineEvent) (e : MachineEvent) (y : OwingOf (machine_of rules Server invite)) →
        StandsAfter (transaction_of (machine_of rules Server invite)).figure p events e y → e.action ≡ Sent →
        Any (λ f. (f.action ≡ Received) × ((method : Method) × (f.kind ≡ Request method))) events }
{}
