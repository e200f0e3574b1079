//! The INVITE server transaction of RFC 3261 section 17.2.1, without the accepted state of RFC 6026.
ghost use Rattle.std.specs.Prelude.{◌≡◌, ◌≤◌, ◌↔◌, ℕ, IsTrue, false};
ghost use Rattle.std.specs.Option.{option_map};
ghost use Rattle.sip_standard.specs.declared.kind.Kind.TheVariants.{Response};
ghost use Rattle.sip_phases.specs.declared.invite_server.InviteServerPhase.TheVariants.{Idle};
ghost use Rattle.sip_phases.specs.declared.invite_server_3261.InviteServer3261Phase.TheVariants.{In};
ghost use Rattle.sip_standard.specs.Times.{Times, last_moment};
ghost use Rattle.sip_machine.specs.Texts.{Texts};
ghost use Rattle.sip_standard.specs.MachineEvent.{MachineEvent};
ghost use Rattle.sip_machine.specs.NumberedEvent.{event_in};
ghost use Rattle.sip_standard.specs.Kind.{IsSuccess};
ghost use Rattle.sip_phases.specs.inner.InviteServer.{invite_server_seen};
ghost use Rattle.sip_machine.specs.inner.Turns.{turn_seen, turn_names, TurnInRange};
ghost use Rattle.sip_standard.specs.InviteServer3261.{Passed, Receives, Sends, remembers};
ghost use Rattle.sip_phases.specs.inner.InviteServer3261.{invite_server_3261_seen, invite_server_3261_names, InviteServer3261InRange};
ghost use Rattle.sip_machine.specs.inner.Rows3261.{turn_within};
ghost use Rattle.sip_machine.specs.inner.Single.{AnswersOne};

use crate::book::Book;
use crate::dues::Dues;
use crate::event::{Event, is_success};
use crate::invite_server::InviteServer;
use crate::paying::equal_bytes;
use crate::phases::{Change, Phase, Phases, Turn};
use crate::told::{Told, ToldField};
use sip_phases::{InviteServer3261Phase, InviteServerPhase};
use sip_standard::{Kind, Method};
use sip_times::Params;
use std::alloc::{AllocError, Global};
use std::marker::Model;

impl Phase for InviteServer3261Phase {
    ghost use Rattle.sip_phases.proofs.phases.InviteServer3261Laws.{invite_server_3261_exact};

    // Phases that `==` finds equal are the same.
    ghost exact = { invite_server_3261_exact };
}

/// The INVITE server transaction of an element that was built before RFC 6026: a 2xx is the last message that it sends.
#[derive(Clone, Copy, Debug)]
pub struct InviteServer3261 {
    corrected: InviteServer,
}

impl Model for InviteServer3261 {
    ghost use Rattle.sip_standard.specs.Times.{Times};

    // A server means the times by which it was made.
    ghost Value = { Times };

    ghost view = { λ m. m.corrected };

    // The server that stands for these times.
    ghost inverse = { λ p. record { corrected = p } };
}

impl InviteServer3261 {
    /// A server with these times.
    pub fn new(params: Params) -> InviteServer3261
        ensures { result ≡ params }
    {
        InviteServer3261 {
            corrected: InviteServer::new(params),
        }
    }
}

impl Phases for InviteServer3261 {
    ghost use Rattle.std.specs.Prelude.{refl, [], false};
    ghost use Rattle.sip_phases.specs.declared.invite_server.InviteServerPhase.TheVariants.{Idle};
    ghost use Rattle.sip_phases.specs.declared.invite_server_3261.InviteServer3261Phase.TheVariants.{In};
    ghost use Rattle.sip_standard.specs.InviteServer3261.{InviteServer3261Phase as Seen, invite_server_3261};
    ghost use Rattle.sip_phases.specs.inner.InviteServer3261.{invite_server_3261_seen, invite_server_3261_names, InviteServer3261InRange};
    ghost use Rattle.sip_standard.specs.PhaseWords.{invite_server_3261_told};
    ghost use Rattle.sip_phases.proofs.phases.CodedLaws.{has_phases};
    ghost use Rattle.sip_phases.proofs.phases.InviteServer3261Laws.{invite_server_3261_is_coded};

    type Phase = InviteServer3261Phase;

    // The figure is that of the INVITE server by RFC 3261 alone; `Seen` is the type of its phases, for which those of the code stand.
    ghost Seen = { Seen };

    // The figure: what may happen, and when.
    ghost figure = { invite_server_3261 };

    // A machine means the times by which it runs, and no more.
    ghost times = { λ p. p };

    // The phase of the figure for which one of the code stands beside a book.
    ghost seen = { invite_server_3261_seen };

    // The numbers of the messages that a phase names.
    ghost names = { invite_server_3261_names };

    // The moments of a phase are within the limits.
    ghost in_range = { InviteServer3261InRange };

    // The words by which a phase is listed.
    ghost told = { invite_server_3261_told };

    // The phase before anything was sent or received, and after the end.
    ghost idle = { λ p. In Idle false };

    // The phase after the end: it is idle again.
    ghost ended = { λ p. In Idle false };

    // The times and rules are those with which the machine was made.
    fn params(&self) -> &Params {
        self.corrected.params()
    }

    fn idle(&self) -> InviteServer3261Phase {
        idle()
    }

    // A transaction that is over may begin again.
    fn ended(&self) -> InviteServer3261Phase {
        idle()
    }

    // In passed, after a 2xx, an INVITE begins the transaction again. All else is received as by the corrected machine.
    fn receives(
        &self,
        alloc: Global,
        book: &Book,
        phase: &InviteServer3261Phase,
        event: &Event,
    ) -> Result<Option<Turn<InviteServer3261Phase>>, AllocError> {
        match *phase {
            InviteServer3261Phase::Passed => Ok(invited_again(event)),
            InviteServer3261Phase::In { phase, again } => {
                let received = self.corrected.receives(alloc, book, &phase, event)?;
                Ok(within(received, again))
            }
        }
    }

    // A 2xx leads to passed. All else is sent as by the corrected machine.
    fn sends(
        &self,
        alloc: Global,
        book: &Book,
        phase: &InviteServer3261Phase,
        event: &Event,
    ) -> Result<Option<Turn<InviteServer3261Phase>>, AllocError> {
        let Kind::Response(code) = event.kind() else {
            return Ok(None);
        };
        if is_success(code) {
            return Ok(succeeds(phase));
        }
        match *phase {
            InviteServer3261Phase::Passed => Ok(None),
            InviteServer3261Phase::In { phase, again } => {
                let sent = self.corrected.sends(alloc, book, &phase, event)?;
                Ok(within(sent, again))
            }
        }
    }

    // A response pays the first debt of the same bytes, but a 2xx pays none.
    fn paid(
        &self,
        _alloc: Global,
        book: &Book,
        _phase: &InviteServer3261Phase,
        event: &Event,
        dues: &mut Dues,
        row: usize,
    ) -> Result<Option<u64>, AllocError> {
        match event.kind() {
            Kind::Request(_) => Ok(None),
            Kind::Response(code) => {
                if is_success(code) {
                    return Ok(None);
                }
                Ok(equal_bytes(book, event, dues, row))
            }
        }
    }

    // Equal bytes have one number in the book, so a response pays the debts of its number alone.
    fn pays(&self, book: &Book, _phase: &InviteServer3261Phase, event: &Event) -> Option<u64> {
        match event.kind() {
            Kind::Request(_) => None,
            Kind::Response(code) => {
                if is_success(code) {
                    return None;
                }
                book.known();
                Some(event.number())
            }
        }
    }

    // Where the transaction began again, the user may still send the 2xx from before, and the state stays as it is.
    fn stays(&self, phase: &InviteServer3261Phase, kind: Kind) -> bool {
        let Kind::Response(code) = kind else {
            return false;
        };
        match *phase {
            InviteServer3261Phase::Passed => false,
            InviteServer3261Phase::In { phase, again } => {
                again && remembers(&phase) && is_success(code)
            }
        }
    }

    // A response that the transport refused counts as sent.
    fn ends_refused(&self, _phase: &InviteServer3261Phase, _kind: Kind) -> bool {
        false
    }

    // Passed has no timer, and the other phases have those of the corrected machine.
    fn timer_window(&self, phase: &InviteServer3261Phase) -> Option<(u64, Option<u64>)> {
        match *phase {
            InviteServer3261Phase::Passed => None,
            InviteServer3261Phase::In { phase, .. } => self.corrected.timer_window(&phase),
        }
    }

    // Passed lasts for ever, and the other phases as long as those of the corrected machine.
    fn closes(&self, phase: &InviteServer3261Phase) -> Option<u64> {
        match *phase {
            InviteServer3261Phase::Passed => None,
            InviteServer3261Phase::In { phase, .. } => self.corrected.closes(&phase),
        }
    }

    // Passed names no message: the user has the 2xx that it sends again.
    fn message(&self, phase: &InviteServer3261Phase) -> Option<u64> {
        match *phase {
            InviteServer3261Phase::Passed => None,
            InviteServer3261Phase::In { phase, .. } => self.corrected.message(&phase),
        }
    }

    // The words are those of docs/standard/MACHINE_WORDS.md.
    fn told(alloc: Global, phase: &InviteServer3261Phase) -> Result<Told, AllocError> {
        match *phase {
            InviteServer3261Phase::Passed => Told::new(alloc, "passed", &[]),
            InviteServer3261Phase::In { phase, again } => {
                let mut told = InviteServer::told(alloc, &phase)?;
                if remembers(&phase) {
                    told.fields.push(ToldField::Flag("again", again))?;
                }
                Ok(told)
            }
        }
    }

    // The laws that a machine's phases have to keep.
    ghost phases = { has_phases invite_server_3261_is_coded };
}

/// The phase before the INVITE, which is also the one after the end.
fn idle() -> InviteServer3261Phase
    ensures { result ≡ In Idle false }
{
    InviteServer3261Phase::In {
        phase: InviteServerPhase::Idle,
        again: false,
    }
}

/// Where a received message leads after a 2xx: an INVITE begins the transaction anew.
fn invited_again(event: &Event) -> Option<Turn<InviteServer3261Phase>>
    requires { event.now.moment ≤ last_moment }
    ensures { (p : Times) (texts : Texts) → AnswersOne (turn_names invite_server_3261_names) (TurnInRange InviteServer3261InRange) (turn_seen invite_server_3261_seen) texts
        (Receives p Passed event.now.kind (event_in texts event.now)) result }
{
    let Kind::Request(Method::Invite) = event.kind() else {
        return None;
    };
    Some(Turn {
        phase: InviteServer3261Phase::In {
            phase: InviteServerPhase::Proceeding {
                reliable: event.reliable(),
                set: event.moment(),
                last: None,
            },
            again: true,
        },
        change: Change::Keeps,
    })
}

/// Where a sent 2xx leads: after another 2xx, or as the final response.
fn succeeds(phase: &InviteServer3261Phase) -> Option<Turn<InviteServer3261Phase>>
    ensures { (p : Times) (texts : Texts) (code : ℕ) (e : MachineEvent) → IsSuccess code →
        AnswersOne (turn_names invite_server_3261_names) (TurnInRange InviteServer3261InRange) (turn_seen invite_server_3261_seen) texts
        (Sends p (invite_server_3261_seen texts phase.now) (Response code) e) result }
{
    // In passed a 2xx changes nothing; in proceeding it ends the transaction, and what is owed is dropped; in no other phase has it a row.
    let change = match *phase {
        InviteServer3261Phase::Passed => Change::Keeps,
        InviteServer3261Phase::In {
            phase: InviteServerPhase::Proceeding { .. },
            ..
        } => Change::Drops,
        InviteServer3261Phase::In { .. } => return None,
    };
    Some(Turn {
        phase: InviteServer3261Phase::Passed,
        change,
    })
}

/// A turn of `InviteServer` as one of this machine.
fn within(turn: Option<Turn<InviteServerPhase>>, again: bool) -> Option<Turn<InviteServer3261Phase>>
    ensures { result ≡ option_map (turn_within again) turn }
{
    match turn {
        Some(turn) => Some(Turn {
            phase: InviteServer3261Phase::In {
                phase: turn.phase,
                again,
            },
            change: turn.change,
        }),
        None => None,
    }
}

/// Whether it matters in the phase whether the INVITE came again.
fn remembers(phase: &InviteServerPhase) -> bool
    ensures { (texts : Texts) → result ≡ remembers (invite_server_seen texts phase.now) }
{
    match *phase {
        InviteServerPhase::Proceeding { .. }
        | InviteServerPhase::Completed { .. }
        | InviteServerPhase::Confirmed { .. } => true,
        InviteServerPhase::Idle | InviteServerPhase::Accepted { .. } => false,
    }
}
