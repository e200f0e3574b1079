//! The INVITE client transaction of RFC 3261 section 17.1.1, without the accepted state of RFC 6026.
ghost use Rattle.std.specs.Prelude.{◌≡◌, ◌↔◌, IsTrue};
ghost use Rattle.sip_machine.specs.Texts.{Texts};
ghost use Rattle.sip_phases.specs.inner.InviteClient.{invite_client_seen};
ghost use Rattle.sip_machine.specs.inner.Rows3261.{IsEndedBy};

use crate::book::Book;
use crate::dues::Dues;
use crate::event::{Event, is_success};
use crate::invite_client::InviteClient;
use crate::phases::{Change, Phases, Turn};
use crate::told::Told;
use sip_phases::InviteClientPhase;
use sip_standard::Kind;
use sip_times::Params;
use std::alloc::{AllocError, Global};
use std::marker::Model;

/// The INVITE client transaction of an element that was built before RFC 6026: a 2xx ends it. Its phases are those of
/// `InviteClient`, and it never enters accepted.
#[derive(Clone, Copy, Debug)]
pub struct InviteClient3261 {
    corrected: InviteClient,
}

impl Model for InviteClient3261 {
    ghost use Rattle.sip_standard.specs.Times.{Times};

    // A client means the times by which it was made.
    ghost Value = { Times };

    ghost view = { λ m. m.corrected };

    // The client that stands for these times.
    ghost inverse = { λ p. record { corrected = p } };
}

impl InviteClient3261 {
    /// A client with these times.
    pub fn new(params: Params) -> InviteClient3261
        ensures { result ≡ params }
    {
        InviteClient3261 {
            corrected: InviteClient::new(params),
        }
    }
}

impl Phases for InviteClient3261 {
    ghost use Rattle.sip_phases.specs.declared.invite_client.InviteClientPhase.TheVariants.{Idle, Ended};
    ghost use Rattle.sip_standard.specs.InviteClient.{InviteClientPhase as Seen};
    ghost use Rattle.sip_phases.specs.inner.InviteClient.{invite_client_seen, invite_client_names, InviteClientInRange};
    ghost use Rattle.sip_standard.specs.PhaseWords.{invite_client_told};
    ghost use Rattle.sip_standard.specs.InviteClient3261.{invite_client_3261};
    ghost use Rattle.sip_phases.proofs.phases.CodedLaws.{has_phases};
    ghost use Rattle.sip_phases.proofs.phases.InviteClient3261Laws.{invite_client_3261_is_coded};

    type Phase = InviteClientPhase;

    // The figure is that of the INVITE client by RFC 3261 alone; `Seen` is the type of its phases, for which those of the code stand.
    ghost Seen = { Seen };

    // The figure: what may happen, and when.
    ghost figure = { invite_client_3261 };

    // A machine means the times by which it runs, and no more.
    ghost times = { λ p. p };

    // The phase of the figure for which one of the code stands beside a book.
    ghost seen = { invite_client_seen };

    // The numbers of the messages that a phase names.
    ghost names = { invite_client_names };

    // The moments of a phase are within the limits.
    ghost in_range = { InviteClientInRange };

    // The words by which a phase is listed.
    ghost told = { invite_client_told };

    // The phase before anything was sent or received.
    ghost idle = { λ p. Idle };

    // The phase after the end.
    ghost ended = { λ p. Ended };

    // The times and rules are those with which the machine was made.
    fn params(&self) -> &Params {
        self.corrected.params()
    }

    fn idle(&self) -> InviteClientPhase {
        InviteClientPhase::Idle
    }

    fn ended(&self) -> InviteClientPhase {
        InviteClientPhase::Ended
    }

    // A 2xx ends the transaction; all else is received as by the corrected machine.
    fn receives(
        &self,
        alloc: Global,
        book: &Book,
        phase: &InviteClientPhase,
        event: &Event,
    ) -> Result<Option<Turn<InviteClientPhase>>, AllocError> {
        if is_ended_by(phase, event.kind()) {
            return Ok(Some(Turn {
                phase: InviteClientPhase::Ended,
                change: Change::Drops,
            }));
        }
        self.corrected.receives(alloc, book, phase, event)
    }

    // What is sent is what the corrected machine sends, and so are the debts, timers and words below.
    fn sends(
        &self,
        alloc: Global,
        book: &Book,
        phase: &InviteClientPhase,
        event: &Event,
    ) -> Result<Option<Turn<InviteClientPhase>>, AllocError> {
        self.corrected.sends(alloc, book, phase, event)
    }

    // The corrected machine tells which response an ACK pays for.
    fn paid(
        &self,
        alloc: Global,
        book: &Book,
        phase: &InviteClientPhase,
        event: &Event,
        dues: &mut Dues,
        row: usize,
    ) -> Result<Option<u64>, AllocError> {
        self.corrected.paid(alloc, book, phase, event, dues, row)
    }

    fn stays(&self, phase: &InviteClientPhase, kind: Kind) -> bool {
        self.corrected.stays(phase, kind)
    }

    fn ends_refused(&self, phase: &InviteClientPhase, kind: Kind) -> bool {
        self.corrected.ends_refused(phase, kind)
    }

    fn timer_window(&self, phase: &InviteClientPhase) -> Option<(u64, Option<u64>)> {
        self.corrected.timer_window(phase)
    }

    fn closes(&self, phase: &InviteClientPhase) -> Option<u64> {
        self.corrected.closes(phase)
    }

    fn message(&self, phase: &InviteClientPhase) -> Option<u64> {
        self.corrected.message(phase)
    }

    fn told(alloc: Global, phase: &InviteClientPhase) -> Result<Told, AllocError> {
        InviteClient::told(alloc, phase)
    }

    // The laws that a machine's phases have to keep.
    ghost phases = { has_phases invite_client_3261_is_coded };
}

/// Whether the phase waits for a final response, and the message is a 2xx.
fn is_ended_by(phase: &InviteClientPhase, kind: Kind) -> bool
    ensures { (texts : Texts) → IsTrue result ↔ IsEndedBy (invite_client_seen texts phase.now) kind }
{
    let Kind::Response(code) = kind else {
        return false;
    };
    match *phase {
        InviteClientPhase::Calling(_) | InviteClientPhase::Proceeding { .. } => is_success(code),
        _ => false,
    }
}
