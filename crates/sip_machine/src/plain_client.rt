//! The non-INVITE client transaction (RFC 3261 section 17.1.2).
ghost use Rattle.std.specs.Prelude.{◌≡◌};

use crate::book::Book;
use crate::dues::Dues;
use crate::event::{Event, is_final, is_provisional};
use crate::phases::{Change, Phase, Phases, Turn};
use crate::timers::{linger, timeout};
use crate::told::Told;
use crate::told::ToldField::{Flag, Number};
use crate::waiting::{waiting_closes, waiting_fields, waiting_repeats};
use sip_phases::PlainClientPhase::{Completed, Ended, Idle, Proceeding, Trying};
use sip_phases::{PlainClientPhase, Waiting};
use sip_standard::Kind;
use sip_times::Params;
use std::alloc::{AllocError, Global};
use std::marker::Model;

impl Phase for PlainClientPhase {
    ghost use Rattle.sip_phases.proofs.phases.PlainClientLaws.{plain_client_exact};

    // Phases that `==` finds equal are the same.
    ghost exact = { plain_client_exact };
}

/// The non-INVITE client transaction.
#[derive(Clone, Copy, Debug)]
pub struct PlainClient {
    params: Params,
}

impl Model for PlainClient {
    ghost use Rattle.sip_standard.specs.Times.{Times};

    // A client means the times by which it was made.
    ghost Value = { Times };

    ghost view = { λ m. m.params };

    // The client that stands for these times.
    ghost inverse = { λ p. record { params = p } };
}

impl PlainClient {
    /// A client with these times.
    pub fn new(params: Params) -> PlainClient
        ensures { result ≡ params }
    {
        PlainClient { params }
    }
}

impl Phases for PlainClient {
    ghost use Rattle.sip_phases.specs.declared.plain_client.PlainClientPhase.TheVariants.{Idle, Ended};
    ghost use Rattle.sip_standard.specs.PlainClient.{PlainClientPhase as Seen, plain_client};
    ghost use Rattle.sip_phases.specs.inner.PlainClient.{plain_client_seen, plain_client_names, PlainClientInRange};
    ghost use Rattle.sip_standard.specs.PhaseWords.{plain_client_told};
    ghost use Rattle.sip_phases.proofs.phases.CodedLaws.{has_phases};
    ghost use Rattle.sip_phases.proofs.phases.PlainClientLaws.{plain_client_is_coded};

    type Phase = PlainClientPhase;

    // The figure is that of the non-INVITE client; `Seen` is the type of its phases, for which those of the code stand.
    ghost Seen = { Seen };

    // The figure: what may happen, and when.
    ghost figure = { plain_client };

    // A machine means the times by which it runs, and no more.
    ghost times = { λ p. p };

    // The phase of the figure for which one of the code stands beside a book.
    ghost seen = { plain_client_seen };

    // The numbers of the messages that a phase names.
    ghost names = { plain_client_names };

    // The moments of a phase are within the limits.
    ghost in_range = { PlainClientInRange };

    // The words by which a phase is listed.
    ghost told = { plain_client_told };

    // The phase before anything was sent or received.
    ghost idle = { λ p. Idle };

    // The phase after the end.
    ghost ended = { λ p. Ended };

    // The times and rules are those with which the machine was made.
    fn params(&self) -> &Params {
        &self.params
    }

    fn idle(&self) -> PlainClientPhase {
        Idle
    }

    fn ended(&self) -> PlainClientPhase {
        Ended
    }

    // A provisional response leads to proceeding, and a final one to completed (section 17.1.2).
    fn receives(
        &self,
        _alloc: Global,
        _book: &Book,
        phase: &PlainClientPhase,
        event: &Event,
    ) -> Result<Option<Turn<PlainClientPhase>>, AllocError> {
        let Kind::Response(code) = event.kind() else {
            return Ok(None);
        };
        let phase = match *phase {
            Trying(waiting) if is_provisional(code) => Proceeding(waiting),
            Trying(waiting) | Proceeding(waiting) if is_final(code) => Completed {
                reliable: waiting.reliable,
                set: event.moment(),
            },
            _ => return Ok(None),
        };
        let change = Change::Keeps;
        Ok(Some(Turn { phase, change }))
    }

    // The first request begins the transaction. Over UDP timer E sends it again: in trying after twice as long, up to T2, in proceeding after T2.
    fn sends(
        &self,
        _alloc: Global,
        book: &Book,
        phase: &PlainClientPhase,
        event: &Event,
    ) -> Result<Option<Turn<PlainClientPhase>>, AllocError> {
        let Kind::Request(_) = event.kind() else {
            return Ok(None);
        };
        let params = &self.params;
        // `phase` is where the sent request leads.
        let phase = match *phase {
            Idle => Trying(Waiting {
                reliable: event.reliable(),
                request: event.number(),
                start: event.moment(),
                set: event.moment(),
                interval: params.t1(),
            }),
            // Timer E: each wait is twice as long as the one before, up to T2, and it is T2 in proceeding.
            Trying(waiting) if waiting_repeats(&waiting, params, book, event) => Trying(Waiting {
                set: event.moment(),
                interval: (2 * waiting.interval).min(params.t2()),
                ..waiting
            }),
            Proceeding(waiting) if waiting_repeats(&waiting, params, book, event) => Proceeding(
                Waiting {
                    set: event.moment(),
                    interval: params.t2(),
                    ..waiting
                },
            ),
            _ => return Ok(None),
        };
        let change = Change::Keeps;
        Ok(Some(Turn { phase, change }))
    }

    // This client owes nothing: it sends no ACK.
    fn paid(
        &self,
        _alloc: Global,
        _book: &Book,
        _phase: &PlainClientPhase,
        _event: &Event,
        _dues: &mut Dues,
        _row: usize,
    ) -> Result<Option<u64>, AllocError> {
        Ok(None)
    }

    // What is sent has a row, or is not allowed.
    fn stays(&self, _phase: &PlainClientPhase, _kind: Kind) -> bool {
        false
    }

    // A request that the transport refused ends the transaction (section 17.1.4).
    fn ends_refused(&self, _phase: &PlainClientPhase, _kind: Kind) -> bool {
        true
    }

    // Timer F ends trying and proceeding, and timer K ends completed.
    fn timer_window(&self, phase: &PlainClientPhase) -> Option<(u64, Option<u64>)> {
        let params = &self.params;
        match *phase {
            // The window of timer F.
            Trying(waiting) | Proceeding(waiting) => {
                Some(params.window(waiting.start, timeout(params)))
            }
            // The window of timer K.
            Completed { reliable, set } => Some(params.window(set, linger(params, reliable))),
            Idle | Ended => None,
        }
    }

    // Trying and proceeding last until timer F has fired or the request must be sent again, and completed until timer K has fired.
    fn closes(&self, phase: &PlainClientPhase) -> Option<u64> {
        let params = &self.params;
        match *phase {
            Trying(waiting) => Some(waiting_closes(&waiting, params)),
            Proceeding(waiting) => Some(waiting_closes(&waiting, params)),
            Completed { reliable, set } => Some(params.closes(set, linger(params, reliable))),
            Idle | Ended => None,
        }
    }

    // The request, which timer E sends again.
    fn message(&self, phase: &PlainClientPhase) -> Option<u64> {
        match *phase {
            Trying(waiting) | Proceeding(waiting) => Some(waiting.request),
            Completed { .. } | Idle | Ended => None,
        }
    }

    // The words are those of docs/standard/MACHINE_WORDS.md.
    fn told(alloc: Global, phase: &PlainClientPhase) -> Result<Told, AllocError> {
        match *phase {
            Idle => Told::new(alloc, "idle", &[]),
            Trying(waiting) => Told::new(alloc, "trying", &waiting_fields(&waiting)),
            Proceeding(waiting) => Told::new(alloc, "proceeding", &waiting_fields(&waiting)),
            Completed { reliable, set } => {
                let fields = [Flag("reliable", reliable), Number("set", Some(set))];
                Told::new(alloc, "completed", &fields)
            }
            Ended => Told::new(alloc, "ended", &[]),
        }
    }

    // The laws that a machine's phases have to keep.
    ghost phases = { has_phases plain_client_is_coded };
}
