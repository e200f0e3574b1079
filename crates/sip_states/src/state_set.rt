//! The states in which the runs of a machine can stand at a moment.
ghost use Rattle.std.specs.Prelude.{◌≡◌, ◌≢◌, ◌↔◌, ◌+◌, ◌⊎◌, [], ◌∷◌, ◌<◌, ◌≤◌, false, OnOk, OnErr, All, AllPairs, Any, Contains, IfOk, IsErrOf, IsTrue, flat_map, length, map, take};
ghost use Rattle.std.specs.Bool.{OnTrue, OnFalse};
ghost use Rattle.std.specs.List.{HoldsAt};
ghost use Rattle.sip_machine.specs.Texts.{Texts, IsBook};
ghost use Rattle.sip_machine.specs.NumberedEvent.{FitsBook, event_in};
ghost use Rattle.sip_machine.specs.Naming.{AppendsAll};
ghost use Rattle.sip_machine.specs.Owing.{CodeOwing, owing_names};
ghost use Rattle.sip_machine.specs.Rules.{Knows, StandFor};
ghost use Rattle.sip_machine.specs.inner.Pools.{picked};
ghost use Rattle.sip_states.specs.Held.{IsProper};
ghost use Rattle.sip_states.specs.Naming.{MayName};
ghost use Rattle.sip_states.specs.Waits.{Wait, RunGives, IsAgenda};
ghost use Rattle.sip_standard.specs.VerdictOf.{IsWide, widest};
ghost use Rattle.sip_states.specs.inner.Ways.{GivesAfter};

use crate::ends::{advance_states, last_of_all};
use crate::moment::Moment;
use crate::steps::{find_given, step_alone};
use sip_machine::{Book, Event, Machine, Phases, Pool};
use std::alloc::{AllocError, Global};
use std::marker::Model;
use thiserror::Error;

/// The most states that are followed after an event.
const WIDEST: usize = 1_024;

/// Why an event is not taken.
#[derive(Clone, Copy, Debug, PartialEq, Eq, Error)]
pub enum TakeError {
    /// A growth was refused.
    #[error("out of memory")]
    Memory,
    /// The event leads to more than 1,024 states.
    #[error("more than 1,024 possible states")]
    TooMany,
}

impl From<AllocError> for TakeError {
    ghost use Rattle.std.specs.Prelude.{◌≡◌};
    ghost use Rattle.sip_states.specs.declared.state_set.TakeError.TheVariants.{Memory};

    // A refused growth becomes `Memory`.
    ghost from_gives = { λ _ e. e ≡ Memory };

    fn from(_error: AllocError) -> Self {
        TakeError::Memory
    }
}

/// The states in which the runs of a machine can stand at a moment, in milliseconds.
#[derive(Drop)]
#[derive_where(Debug; M, M::Phase)]
pub struct StateSet<M: Machine> {
    machine: M,
    moment: Moment,
    states: Pool<M::Phase>,
}

impl<M: Machine> Model for StateSet<M> {
    ghost use Rattle.sip_machine.specs.Owing.{CodeOwing};
    ghost use Rattle.sip_states.specs.Held.{Held, IsProper};

    // A set means its machine, its moment and its states. The states differ, their numbers are in range, and each can last until the moment.
    ghost Value = { Held M (CodeOwing M.Phase) };

    ghost view = { λ s. record { machine = s.machine; moment = s.moment; states = s.states } };

    ghost invariant = { λ s. IsProper M.in_range M.until M.ended (record { machine = s.machine; moment = s.moment; states = s.states }) };
}

impl<M: Machine> StateSet<M> {
    /// A set of the first state alone, at moment 0, with room for no other one.
    pub fn start(alloc: Global, machine: M) -> Result<Self, AllocError>
        ensures { IfOk result (λ set. set ≡ record { machine = machine; moment = 0; states = M.first machine ∷ [] }) }
    {
        let mut states = Pool::with_capacity(alloc, 1)?;
        states.push(machine.first())?;
        Ok(StateSet {
            machine,
            moment: Moment::zero(),
            states,
        })
    }

    /// Lets the set wait until the moment. It then has the states in which one can stand there. On an error the set is as before.
    pub fn advance(&mut self, moment: u64) -> Result<(), AllocError>
        requires { self.old.moment ≤ moment }
        ensures at { OnOk result ((self.new.machine ≡ self.old.machine) × (self.new.moment ≡ moment)) }
        ensures states { OnOk result ((texts : Texts) → IsBook texts → All (Knows M.names texts) self.old.states →
            StandFor M.names M.in_range M.seen texts
            (Wait (M.rules self.old.machine) (Contains (map (M.seen texts) self.old.states)) self.old.moment moment) self.new.states) }
        ensures one_more { OnOk result (length self.new.states ≤ length self.old.states + 1) }
        ensures err { OnErr result (self.new ≡ self.old) }
    {
        let at = Moment::new(moment)?;
        advance_states(&self.machine, &mut self.states, self.moment.get(), moment)?;
        self.moment = at;
        Ok(())
    }

    /// Takes the event. The set then has the states that the event gives from those in which one can stand at its moment. On an error
    /// the set is as before.
    pub fn take(&mut self, book: &Book, event: &Event) -> Result<(), TakeError>
        requires order { self.old.moment ≤ event.now.moment }
        requires fits { FitsBook book.now event.now }
        requires known { All (Knows M.names book.now) self.old.states }
        ensures at { OnOk result ((self.new.machine ≡ self.old.machine) × (self.new.moment ≡ event.now.moment)) }
        ensures states { OnOk result (StandFor M.names M.in_range M.seen book.now
            (RunGives (M.rules self.old.machine) (Wait (M.rules self.old.machine) (Contains (map (M.seen book.now) self.old.states)) self.old.moment event.now.moment)
            (event_in book.now event.now)) self.new.states) }
        ensures few { OnOk result (length self.new.states ≤ widest) }
        ensures too_many { IsErrOf result TakeError.TooMany → IsWide
            (RunGives (M.rules self.old.machine) (Wait (M.rules self.old.machine) (Contains (map (M.seen book.now) self.old.states)) self.old.moment event.now.moment)
            (event_in book.now event.now)) }
        ensures err { OnErr result (self.new ≡ self.old) }
    {
        // The only state of a set may take the event where it stands. Where that cannot be, each state takes it.
        if !self.take_alone(book, event)? {
            self.take_each(book, event)?;
        }
        self.states.tidy();
        Ok(())
    }

    /// Lets the only state take the event where it stands, and tells whether it did. Where it did not, and on an error, the set is as
    /// before.
    #[inline(always)]
    fn take_alone(&mut self, book: &Book, event: &Event) -> Result<bool, AllocError>
        requires order { self.old.moment ≤ event.now.moment }
        requires fits { FitsBook book.now event.now }
        requires known { All (Knows M.names book.now) self.old.states }
        ensures at { IfOk result (λ taken. OnTrue taken ((self.new.machine ≡ self.old.machine) × (self.new.moment ≡ event.now.moment))) }
        ensures states { IfOk result (λ taken. OnTrue taken (StandFor M.names M.in_range M.seen book.now
            (RunGives (M.rules self.old.machine) (Wait (M.rules self.old.machine) (Contains (map (M.seen book.now) self.old.states)) self.old.moment event.now.moment)
            (event_in book.now event.now)) self.new.states)) }
        ensures few { IfOk result (λ taken. OnTrue taken (length self.new.states ≤ widest)) }
        ensures other { IfOk result (λ taken. OnFalse taken (self.new ≡ self.old)) }
        ensures err { OnErr result (self.new ≡ self.old) }
    {
        let stepped = step_alone(
            &self.machine,
            book,
            &mut self.states,
            self.moment.get(),
            event,
        )?;
        if stepped {
            self.moment = Moment::within(event.moment());
        }
        Ok(stepped)
    }

    /// Lets each state take the event, and keeps the states that it leads to, each once.
    #[inline(never)]
    fn take_each(&mut self, book: &Book, event: &Event) -> Result<(), TakeError>
        requires order { self.old.moment ≤ event.now.moment }
        requires fits { FitsBook book.now event.now }
        requires known { All (Knows M.names book.now) self.old.states }
        ensures at { OnOk result ((self.new.machine ≡ self.old.machine) × (self.new.moment ≡ event.now.moment)) }
        ensures states { OnOk result (StandFor M.names M.in_range M.seen book.now
            (RunGives (M.rules self.old.machine) (Wait (M.rules self.old.machine) (Contains (map (M.seen book.now) self.old.states)) self.old.moment event.now.moment)
            (event_in book.now event.now)) self.new.states) }
        ensures few { OnOk result (length self.new.states ≤ widest) }
        ensures too_many { IsErrOf result TakeError.TooMany → IsWide
            (RunGives (M.rules self.old.machine) (Wait (M.rules self.old.machine) (Contains (map (M.seen book.now) self.old.states)) self.old.moment event.now.moment)
            (event_in book.now event.now)) }
        ensures err { OnErr result (self.new ≡ self.old) }
    {
        // This does nothing. Its contract says that the book is one (IsBook), which the next call asks for.
        book.known();
        let before = self.states.len();
        match given_rows(
            &self.machine,
            book,
            &mut self.states,
            self.moment.get(),
            event,
        ) {
            Ok(rows) => {
                self.states.keep(&rows);
                self.moment = Moment::within(event.moment());
                Ok(())
            }
            Err(error) => {
                // What was put after the old states is taken away again.
                self.states.truncate(before);
                Err(error)
            }
        }
    }

    /// Gives back the room that no state needs.
    pub(crate) fn trim(&mut self)
        ensures { self.new ≡ self.old }
    {
        self.states.fit();
    }

    /// What every set keeps: each state is in it once, is in range and can wait at the moment, and beside the ended one there are
    /// at most 1,024.
    pub fn known(&self)
        ensures { IsProper M.in_range M.until M.ended self.now }
    {
        // Nothing is done: what the contract says holds of each set at all times.
        let _ = &self.states;
    }

    /// The last moment to which some run can wait, in milliseconds, or `None` where every moment can be reached.
    pub fn last_moment(&self) -> Option<u64>
        requires { self.now.states ≢ [] }
        ensures { (texts : Texts) → IsAgenda (M.rules self.now.machine) (Contains (map (M.seen texts) self.now.states)) self.now.moment result }
    {
        last_of_all(&self.machine, &self.states, self.moment.get())
    }

    /// Appends the numbers of the messages that the states name, each at least once.
    pub(crate) fn names(&self, out: &mut Vec<u64>) -> Result<(), AllocError>
        ensures { OnOk result (AppendsAll (flat_map M.names self.now.states) out.old.items out.new.items) }
    {
        self.machine.names_all(&self.states, out)
    }

    /// Whether its only state is the first or the ended one.
    pub(crate) fn is_quiet(&self) -> bool
        ensures { IsTrue result ↔ (self.now.states ≡ M.first self.now.machine ∷ []) ⊎ (self.now.states ≡ M.ended self.now.machine ∷ []) }
    {
        self.states.len() == 1
            && (self.states.is_at_rest(0, self.machine.first())
                || self.states.is_at_rest(0, self.machine.ended()))
    }

    /// Whether it has no state, so that no run is left.
    pub fn is_empty(&self) -> bool
        ensures { IsTrue result ↔ (self.now.states ≡ []) }
    {
        self.states.is_empty()
    }

    /// The states, each once, in no order.
    pub fn states(&self) -> &Pool<M::Phase>
        ensures { result.now ≡ self.now.states }
    {
        &self.states
    }
}

impl<M: Phases> StateSet<M> {
    /// Whether a state may name the message with this number. A state that owes something is taken to name any.
    pub(crate) fn may_name(&self, number: u64) -> bool
        ensures may { IsTrue result ↔ Any (MayName M.names number) self.now.states }
        ensures none { result ≡ false → ¬ Contains (flat_map (owing_names M.names) self.now.states) number }
    {
        for at in 0..self.states.len() {
            if state_may_name(&self.machine, &self.states, at, number) {
                return true;
            }
        }
        false
    }
}

/// Whether the state at the index may name the message with this number.
fn state_may_name<M: Phases>(machine: &M, states: &Pool<M::Phase>, at: usize, number: u64) -> bool
    requires { at < length states.now }
    ensures { HoldsAt (λ x. IsTrue result ↔ MayName M.names number x) states.now at }
{
    let phase = states.phase(at);
    if !states.is_at_rest(at, phase) {
        return true;
    }
    match machine.message(&phase) {
        Some(named) => named == number,
        None => false,
    }
}

/// Puts the states that the event gives after the others, and tells where the first of each of them stands. On an error some may
/// stay there.
fn given_rows<M: Machine>(
    machine: &M,
    book: &Book,
    states: &mut Pool<M::Phase>,
    from: u64,
    event: &Event,
) -> Result<Vec<usize>, TakeError>
    requires order { from ≤ event.now.moment }
    requires fits { FitsBook book.now event.now }
    requires book { IsBook book.now }
    requires known { All (Knows M.names book.now) states.old }
    requires in_range { All M.in_range states.old }
    ensures within { IfOk result (λ rows. All (λ row. row < length states.new) rows.items) }
    ensures rising { IfOk result (λ rows. AllPairs (λ a b. a < b) rows.items) }
    ensures gives { (x : CodeOwing M.Phase) → IfOk result (λ rows. StandFor M.names M.in_range M.seen book.now
        (GivesAfter M.seen book.now (M.rules machine.now) states.old from (event_in book.now event.now)) (picked states.new x rows.items)) }
    ensures few { IfOk result (λ rows. length rows.items ≤ widest) }
    ensures too_many { IsErrOf result TakeError.TooMany → IsWide (GivesAfter M.seen book.now (M.rules machine.now) states.old from (event_in book.now event.now)) }
    ensures before { take (length states.old) states.new ≡ states.old }
{
    // From `first` on stand the states that were found, some perhaps more than once. `rows` has the first place of each.
    let first = find_given(machine, book, states, from, event)?;
    let rows = states.first_ones(first)?;
    if rows.len() > WIDEST {
        return Err(TakeError::TooMany);
    }
    Ok(rows)
}
