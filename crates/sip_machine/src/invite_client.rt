//! The INVITE client transaction (RFC 3261 section 17.1.1, with the accepted state of RFC 6026).
ghost use Rattle.std.specs.Prelude.{◌≡◌};

mod acks;

use crate::book::Book;
use crate::dues::Dues;
use crate::event::{Event, is_provisional, is_success, is_unsuccessful};
use crate::invite_client::acks::first_acked;
use crate::phases::{Change, Phase, Phases, Turn};
use crate::timers::timeout;
use crate::told::Told;
use crate::told::ToldField::{Flag, Message, Number};
use crate::waiting::{waiting_closes, waiting_fields, waiting_repeats};
use sip_phases::InviteClientPhase::{Accepted, Calling, Completed, Ended, Idle, Proceeding};
use sip_phases::{InviteClientPhase, Waiting};
use sip_standard::{Kind, Method};
use sip_times::Params;
use std::alloc::{AllocError, Global};
use std::marker::Model;

/// Timer D over an unreliable transport, in milliseconds (RFC 3261 section 17.1.1.2).
const TIMER_D: u64 = 32_000;

impl Phase for InviteClientPhase {
    ghost use Rattle.sip_phases.proofs.phases.InviteClientLaws.{invite_client_exact};

    // Phases that `==` finds equal are the same.
    ghost exact = { invite_client_exact };
}

/// The INVITE client transaction.
#[derive(Clone, Copy, Debug)]
pub struct InviteClient {
    params: Params,
}

impl Model for InviteClient {
    ghost use Rattle.sip_standard.specs.Times.{Times};

    // A client means the times by which it was made.
    ghost Value = { Times };

    ghost view = { λ m. m.params };

    // The client that stands for these times.
    ghost inverse = { λ p. record { params = p } };
}

impl InviteClient {
    /// A client with these times.
    pub fn new(params: Params) -> InviteClient
        ensures { result ≡ params }
    {
        InviteClient { params }
    }
}

impl Phases for InviteClient {
    ghost use Rattle.sip_phases.specs.declared.invite_client.InviteClientPhase.TheVariants.{Idle, Ended};
    ghost use Rattle.sip_standard.specs.InviteClient.{InviteClientPhase as Seen, invite_client};
    ghost use Rattle.sip_phases.specs.inner.InviteClient.{invite_client_seen, invite_client_names, InviteClientInRange};
    ghost use Rattle.sip_standard.specs.PhaseWords.{invite_client_told};
    ghost use Rattle.sip_phases.proofs.phases.CodedLaws.{has_phases};
    ghost use Rattle.sip_phases.proofs.phases.InviteClientLaws.{invite_client_is_coded};

    type Phase = InviteClientPhase;

    // The figure is that of the INVITE client; `Seen` is the type of its phases, for which those of the code stand.
    ghost Seen = { Seen };

    // The figure: what may happen, and when.
    ghost figure = { invite_client };

    // A machine means the times by which it runs, and no more.
    ghost times = { λ p. p };

    // The phase of the figure for which one of the code stands beside a book.
    ghost seen = { invite_client_seen };

    // The numbers of the messages that a phase names.
    ghost names = { invite_client_names };

    // The moments of a phase are within the limits.
    ghost in_range = { InviteClientInRange };

    // The words by which a phase is listed.
    ghost told = { invite_client_told };

    // The phase before anything was sent or received.
    ghost idle = { λ p. Idle };

    // The phase after the end.
    ghost ended = { λ p. Ended };

    // The times and rules are those with which the machine was made.
    fn params(&self) -> &Params {
        &self.params
    }

    fn idle(&self) -> InviteClientPhase {
        Idle
    }

    fn ended(&self) -> InviteClientPhase {
        Ended
    }

    // A provisional response leads to proceeding, a 2xx to accepted, and one of 300 to 699 to completed, where each owes an ACK (section 17.1.1).
    fn receives(
        &self,
        _alloc: Global,
        _book: &Book,
        phase: &InviteClientPhase,
        event: &Event,
    ) -> Result<Option<Turn<InviteClientPhase>>, AllocError> {
        let Kind::Response(code) = event.kind() else {
            return Ok(None);
        };
        // A response of 300 to 699 leads to completed and is owed an ACK, where no 2xx has come.
        let set = event.moment();
        if is_unsuccessful(code) {
            let phase = match *phase {
                Calling(waiting) => Completed {
                    reliable: waiting.reliable,
                    request: waiting.request,
                    set,
                },
                Proceeding {
                    reliable,
                    request,
                    ..
                } => Completed {
                    reliable,
                    request,
                    set,
                },
                // One that comes again leaves completed as it is, and is owed an ACK of its own.
                Completed { .. } => *phase,
                _ => return Ok(None),
            };
            let change = Change::Gains {
                must: true,
                message: event.number(),
            };
            return Ok(Some(Turn { phase, change }));
        }
        // A provisional response and a 2xx are owed nothing.
        let phase = match *phase {
            Calling(waiting) if is_provisional(code) => Proceeding {
                reliable: waiting.reliable,
                request: waiting.request,
                cancel: None,
            },
            Calling(_) | Proceeding { .. } if is_success(code) => Accepted { set },
            _ => return Ok(None),
        };
        let change = Change::Keeps;
        Ok(Some(Turn { phase, change }))
    }

    // The first INVITE begins the transaction, and over UDP timer A sends it again, each time after twice as long. An ACK has no row but in idle.
    fn sends(
        &self,
        _alloc: Global,
        book: &Book,
        phase: &InviteClientPhase,
        event: &Event,
    ) -> Result<Option<Turn<InviteClientPhase>>, AllocError> {
        let Kind::Request(method) = event.kind() else {
            return Ok(None);
        };
        let params = &self.params;
        let t1 = params.t1();
        // `phase` is where the sent request leads.
        let phase = match method {
            Method::Invite => match *phase {
                Idle => Calling(Waiting {
                    reliable: event.reliable(),
                    request: event.number(),
                    start: event.moment(),
                    set: event.moment(),
                    interval: t1,
                }),
                // Timer A: each wait is twice as long as the one before.
                Calling(waiting) if waiting_repeats(&waiting, params, book, event) => Calling(
                    Waiting {
                        set: event.moment(),
                        interval: 2 * waiting.interval,
                        ..waiting
                    },
                ),
                _ => return Ok(None),
            },
            // An ACK before any INVITE, such as one for a 2xx, leaves idle as it is.
            Method::Ack => match *phase {
                Idle => Idle,
                _ => return Ok(None),
            },
            // The first CANCEL counts, and none is sent in calling.
            Method::Cancel => match *phase {
                Calling(_) => return Ok(None),
                Proceeding {
                    reliable,
                    request,
                    cancel: None,
                } => Proceeding {
                    reliable,
                    request,
                    cancel: Some(event.moment()),
                },
                _ => *phase,
            },
            Method::Other => return Ok(None),
        };
        let change = Change::Keeps;
        Ok(Some(Turn { phase, change }))
    }

    // In completed an ACK pays the first response that it belongs to.
    fn paid(
        &self,
        alloc: Global,
        book: &Book,
        phase: &InviteClientPhase,
        event: &Event,
        dues: &mut Dues,
        row: usize,
    ) -> Result<Option<u64>, AllocError> {
        let Kind::Request(Method::Ack) = event.kind() else {
            return Ok(None);
        };
        let Completed { request, .. } = *phase else {
            return Ok(None);
        };
        first_acked(alloc, book, request, event, dues, row)
    }

    // What is sent without a row must pay a debt.
    fn stays(&self, _phase: &InviteClientPhase, _kind: Kind) -> bool {
        false
    }

    // An INVITE that the transport refused ends the transaction, and so does an ACK in completed (section 17.1.4).
    fn ends_refused(&self, phase: &InviteClientPhase, kind: Kind) -> bool {
        match (kind, *phase) {
            (Kind::Request(Method::Invite), _) => true,
            (Kind::Request(Method::Ack), Completed { .. }) => true,
            _ => false,
        }
    }

    // Timers B, M and D end calling, accepted and completed. Proceeding may end 64*T1 after a CANCEL (section 9.1).
    fn timer_window(&self, phase: &InviteClientPhase) -> Option<(u64, Option<u64>)> {
        let params = &self.params;
        match *phase {
            // The window of timer B.
            Calling(waiting) => Some(params.window(waiting.start, timeout(params))),
            Proceeding { cancel, .. } => match cancel {
                Some(first) => Some((params.opens(first, timeout(params)), None)),
                None => None,
            },
            // The window of timer M.
            Accepted { set } => Some(params.window(set, timeout(params))),
            // The window of timer D: at once over a reliable transport, and else after 32 seconds, without a last moment.
            Completed { reliable, set, .. } if reliable => Some(params.window(set, 0)),
            Completed { set, .. } => Some((params.opens(set, TIMER_D), None)),
            Idle | Ended => None,
        }
    }

    // Calling lasts until timer B has fired or the INVITE must be sent again, and accepted until timer M has fired.
    fn closes(&self, phase: &InviteClientPhase) -> Option<u64> {
        let params = &self.params;
        match *phase {
            Calling(waiting) => Some(waiting_closes(&waiting, params)),
            Accepted { set } => Some(params.closes(set, timeout(params))),
            Completed { reliable, set, .. } if reliable => Some(params.closes(set, 0)),
            _ => None,
        }
    }

    // The INVITE, which timer A sends again and to which ACKs belong.
    fn message(&self, phase: &InviteClientPhase) -> Option<u64> {
        match *phase {
            Calling(waiting) => Some(waiting.request),
            Proceeding { request, .. } | Completed { request, .. } => Some(request),
            _ => None,
        }
    }

    // The words are those of docs/standard/MACHINE_WORDS.md.
    fn told(alloc: Global, phase: &InviteClientPhase) -> Result<Told, AllocError> {
        match *phase {
            Idle => Told::new(alloc, "idle", &[]),
            Calling(waiting) => Told::new(alloc, "calling", &waiting_fields(&waiting)),
            Proceeding {
                reliable,
                request,
                cancel,
            } => {
                let invite = Message("request", Some(request));
                let fields = [Flag("reliable", reliable), invite, Number("cancel", cancel)];
                Told::new(alloc, "proceeding", &fields)
            }
            Accepted { set } => Told::new(alloc, "accepted", &[Number("set", Some(set))]),
            Completed {
                reliable,
                request,
                set,
            } => {
                let invite = Message("request", Some(request));
                let fields = [Flag("reliable", reliable), invite, Number("set", Some(set))];
                Told::new(alloc, "completed", &fields)
            }
            Ended => Told::new(alloc, "ended", &[]),
        }
    }

    // The laws that a machine's phases have to keep.
    ghost phases = { has_phases invite_client_is_coded };
}
