//! The states of one transaction, whichever machine it has.
ghost use Rattle.std.specs.Prelude.{◌≡◌, ◌↔◌, ◌≤◌, false, Contains, IfOk, IsErrOf, IsTrue, OnErr, OnOk};
ghost use Rattle.sip_machine.specs.NumberedEvent.{FitsBook};
ghost use Rattle.sip_states.specs.AnySet.{moment_of, start_of, IsEmpty, IsProperSet, IsQuietSet, IsKnownSet, SetWaits, SetTakes, IsSetTooWide, IsAgendaOf};
ghost use Rattle.sip_states.specs.Sweep.{AppendsNumbers, SetMayName, numbers_of};
ghost use Rattle.sip_states.specs.Told.{AreTold};

use crate::state_set::{StateSet, TakeError};
use crate::told::{ToldState, told_states};
use sip_key::{Key, Role};
use sip_machine::{Book, Event, Params, Rules};
use std::alloc::{AllocError, Global};

/// The states in which the runs of one of the machines of RFC 3261 section 17 can stand.
#[derive(Debug, Drop)]
pub enum AnySet {
    /// The INVITE client transaction (RFC 3261 section 17.1.1, with the accepted state of RFC 6026).
    InviteClient(StateSet<sip_machine::InviteClient>),
    /// The INVITE client transaction of RFC 3261 section 17.1.1, without the accepted state of RFC 6026.
    InviteClient3261(StateSet<sip_machine::InviteClient3261>),
    /// The INVITE server transaction of RFC 3261 section 17.2.1, without the accepted state of RFC 6026.
    InviteServer3261(StateSet<sip_machine::InviteServer3261>),
    /// The non-INVITE client transaction (RFC 3261 section 17.1.2).
    PlainClient(StateSet<sip_machine::PlainClient>),
    /// The non-INVITE server transaction (RFC 3261 section 17.2.2).
    PlainServer(StateSet<sip_machine::PlainServer>),
    /// The INVITE server transaction (RFC 3261 section 17.2.1, with the accepted state of RFC 6026).
    InviteServer(StateSet<sip_machine::InviteServer>),
}

/// Gives the macro `$then` what stands in brackets, and each machine with its keys: their role, whether their method is INVITE, and
/// the rules.
macro_rules! machines {
    ($then:ident $given:tt) => {
        $then! { $given
            InviteClient: (Role::Client, true, Rules::R6026),
            PlainClient: (Role::Client, false, _),
            InviteServer: (Role::Server, true, Rules::R6026),
            PlainServer: (Role::Server, false, _),
            InviteClient3261: (Role::Client, true, Rules::R3261),
            InviteServer3261: (Role::Server, true, Rules::R3261),
        }
    };
}

/// The set with which the machine of a key starts.
macro_rules! start_of_machine {
    ([$key:expr, $alloc:expr, $params:expr] $($name:ident: $of:pat,)*) => {
        match $key {
            $($of => AnySet::$name(StateSet::start($alloc, sip_machine::$name::new($params))?),)*
        }
    };
}

/// What `$answer` gives of the set of states, whichever of the machines it is of.
macro_rules! answer_of_machine {
    ([$any:expr, $set:ident => $answer:expr] $($name:ident: $of:pat,)*) => {
        match $any {
            $(AnySet::$name($set) => $answer,)*
        }
    };
}

/// What `$answer` gives of the set of states that a set of any machine holds.
macro_rules! each_machine {
    ($any:expr, $set:ident => $answer:expr) => {
        machines!(answer_of_machine [$any, $set => $answer])
    };
}

impl AnySet {
    /// The set that the key starts with: its role, its method, INVITE or another, and the rules tell the machine.
    pub(crate) fn start(alloc: Global, params: Params, key: &Key) -> Result<Self, AllocError>
        ensures { IfOk result (λ set. set ≡ start_of params key.now) }
    {
        let is_invite = key.method() == b"INVITE".as_slice();
        let set =
            machines!(start_of_machine [(key.role(), is_invite, params.rules()), alloc, params]);
        Ok(set)
    }

    /// Lets the set wait until the moment, in milliseconds. On an error it is as before.
    #[tactic(auto, using(crate::proofs::keyed::AnyLemmas::has_waited))]
    pub fn advance(&mut self, moment: u64) -> Result<(), AllocError>
        requires { moment_of self.old ≤ moment }
        ensures ok { OnOk result (SetWaits moment self.old self.new) }
        ensures err { OnErr result (self.new ≡ self.old) }
    {
        each_machine!(self, set => set.advance(moment))
    }

    /// Takes the event, after waiting until its moment. On an error the set is as before.
    #[tactic(auto, using(crate::proofs::keyed::AnyLemmas::has_taken))]
    pub fn take(&mut self, book: &Book, event: &Event) -> Result<(), TakeError>
        requires order { moment_of self.old ≤ event.now.moment }
        requires fits { FitsBook book.now event.now }
        requires known { IsKnownSet book.now self.old }
        ensures ok { OnOk result (SetTakes book.now event.now self.old self.new) }
        ensures too_many { IsErrOf result TakeError.TooMany → IsSetTooWide book.now event.now self.old }
        ensures err { OnErr result (self.new ≡ self.old) }
    {
        each_machine!(self, set => set.take(book, event))
    }

    /// Gives back the room that no state needs.
    pub(crate) fn trim(&mut self)
        ensures { self.new ≡ self.old }
    {
        each_machine!(self, set => set.trim())
    }

    /// What every set keeps: each state is in it once, is in range and can wait at the moment, and beside the ended one there are
    /// at most 1,024.
    pub fn known(&self)
        ensures { IsProperSet self.now }
    {
        each_machine!(self, set => set.known())
    }

    /// The last moment to which some run can wait, in milliseconds, or `None` where every moment can be reached.
    pub fn last_moment(&self) -> Option<u64>
        requires { ¬ IsEmpty self.now }
        ensures { IsAgendaOf result self.now }
    {
        each_machine!(self, set => set.last_moment())
    }

    /// Appends the numbers of the messages that its states name, each at least once.
    pub(crate) fn names(&self, out: &mut Vec<u64>) -> Result<(), AllocError>
        ensures { OnOk result (AppendsNumbers self.now out.old.items out.new.items) }
    {
        each_machine!(self, set => set.names(out))
    }

    /// Whether one of its states may name the message with this number: its phase names it, or it owes something. A number that none may
    /// name is named by none.
    pub fn may_name(&self, number: u64) -> bool
        ensures may { IsTrue result ↔ SetMayName number self.now }
        ensures none { result ≡ false → ¬ Contains (numbers_of self.now) number }
    {
        each_machine!(self, set => set.may_name(number))
    }

    /// Whether its only state is the first one, before anything was sent or received, or the ended one.
    pub fn is_quiet(&self) -> bool
        ensures { IsTrue result ↔ IsQuietSet self.now }
    {
        each_machine!(self, set => set.is_quiet())
    }

    /// Its states in words, in no order.
    pub fn told(&self, alloc: Global) -> Result<Vec<ToldState>, AllocError>
        ensures { IfOk result (λ told. AreTold self.now told.items) }
    {
        each_machine!(self, set => told_states(alloc, set))
    }

    /// Whether it has no state, so that no run is left.
    pub fn is_empty(&self) -> bool
        ensures { IsTrue result ↔ IsEmpty self.now }
    {
        each_machine!(self, set => set.is_empty())
    }
}
