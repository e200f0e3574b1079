//! What every machine of a transaction (RFC 3261 section 17) offers, and the laws that it keeps.
//! In the clauses `texts` are the messages of a book, x is a state of the code, and `added` are the states that stand after the old ones in the pool.
ghost use Rattle.std.specs.Prelude.{◌≡◌, ◌<◌, ◌≤◌, ◌++◌, [], ℕ, List, Option, IfOk, OnOk, OnErr, All, Contains, flat_map, length, take};
ghost use Rattle.std.specs.List.{HoldsAt};
ghost use Rattle.std.specs.Bool.{OnTrue, OnFalse};
ghost use Rattle.sip_machine.specs.NumberedEvent.{FitsBook, event_in};
ghost use Rattle.sip_machine.specs.Texts.{Texts, IsBook, text_of};
ghost use Rattle.sip_machine.specs.Rules.{MachineRules, Covers, FromSome, IsLawful, Knows, StandFor};
ghost use Rattle.sip_machine.specs.Naming.{AppendsAll};
ghost use Rattle.sip_machine.specs.Owing.{CodeOwing, at_rest};

use crate::book::Book;
use crate::event::Event;
use crate::phases::Phase;
use crate::pool::Pool;
use std::alloc::AllocError;

/// A machine of a transaction. Its meaning is its rules, over states that hold their messages as bytes. A state of the code
/// holds numbers of a `Book` in their place, and stands in a `Pool`.
pub trait Machine: Drop {
    /// A phase of the code: a state is a phase with what is owed beside it.
    type Phase: Phase;

    /// A state as the rules see it.
    ghost Seen: { Type 0 };

    /// What a state of the code stands for, beside the texts of a book.
    ghost seen: { Texts → CodeOwing Self.Phase → Seen };

    /// The numbers of the messages that a state of the code names.
    ghost names: { CodeOwing Self.Phase → List ℕ };

    /// The moments of a state of the code are within the limits, so that no sum wraps.
    ghost in_range: { CodeOwing Self.Phase → Type 0 };

    /// The rules: what may happen, and when.
    ghost rules: { Self → MachineRules Seen };

    /// The state before anything was sent or received.
    ghost first: { Self → CodeOwing Self.Phase };

    /// The state after an end.
    ghost ended: { Self → CodeOwing Self.Phase };

    /// From when and until when a state of the code may end.
    ghost end_window: { Self → CodeOwing Self.Phase → Option (ℕ × Option ℕ) };

    /// The last moment of a state of the code.
    ghost until: { Self → CodeOwing Self.Phase → Option ℕ };

    /// The phase of the state before anything was sent or received, which owes nothing.
    fn first(&self) -> Self::Phase
        ensures { at_rest result ≡ first self.now };

    /// The phase of the state after an end, which owes nothing.
    fn ended(&self) -> Self::Phase
        ensures { at_rest result ≡ ended self.now };

    /// Puts each state that the event gives from the one at the index after the others, once each. On an error all is as before.
    fn successors(
        &self,
        book: &Book,
        pool: &mut Pool<Self::Phase>,
        at: usize,
        event: &Event,
    ) -> Result<(), AllocError>
        requires at { at < length pool.old }
        requires fits { FitsBook book.now event.now }
        requires known { HoldsAt (Knows names book.now) pool.old at }
        requires in_range { HoldsAt in_range pool.old at }
        ensures ok { HoldsAt (λ x. OnOk result ((added : List (CodeOwing Self.Phase)) × (pool.new ≡ pool.old ++ added)
            × StandFor names in_range seen book.now
            ((rules self.now).Take (seen book.now x) (event_in book.now event.now)) added)) pool.old at }
        ensures err { OnErr result (pool.new ≡ pool.old) };

    /// Puts the states that the event gives from the first `count` states after the others. Some may be found more than once. On an
    /// error some may have been put there already.
    fn successors_each(
        &self,
        book: &Book,
        pool: &mut Pool<Self::Phase>,
        count: usize,
        event: &Event,
    ) -> Result<(), AllocError>
        requires count { count ≤ length pool.old }
        requires fits { FitsBook book.now event.now }
        requires known { All (Knows names book.now) (take count pool.old) }
        requires in_range { All in_range (take count pool.old) }
        ensures gives { OnOk result ((added : List (CodeOwing Self.Phase)) × (pool.new ≡ pool.old ++ added)
            × Covers names in_range seen book.now
            (FromSome (λ x. (rules self.now).Take (seen book.now x) (event_in book.now event.now)) (take count pool.old)) added) }
        ensures before { take (length pool.old) pool.new ≡ pool.old };

    /// Lets the only state of the pool take the event, if the event gives just one state, and tells whether it did. If it did not,
    /// or on an error, all is as before.
    fn step(
        &self,
        book: &Book,
        pool: &mut Pool<Self::Phase>,
        event: &Event,
    ) -> Result<bool, AllocError>
        requires alone { length pool.old ≡ 1 }
        requires fits { FitsBook book.now event.now }
        requires known { HoldsAt (Knows names book.now) pool.old 0 }
        requires in_range { HoldsAt in_range pool.old 0 }
        ensures one { HoldsAt (λ x. IfOk result (λ stepped. OnTrue stepped (StandFor names in_range seen book.now
            ((rules self.now).Take (seen book.now x) (event_in book.now event.now)) pool.new))) pool.old 0 }
        ensures alone { IfOk result (λ stepped. OnTrue stepped (length pool.new ≡ 1)) }
        ensures other { IfOk result (λ stepped. OnFalse stepped (pool.new ≡ pool.old)) }
        ensures err { OnErr result (pool.new ≡ pool.old) };

    /// From when the state at the index may end, and until when if there is such a moment; None if it may not end.
    /// Moments are in milliseconds.
    fn end_window(&self, pool: &Pool<Self::Phase>, at: usize) -> Option<(u64, Option<u64>)>
        requires at { at < length pool.now }
        requires in_range { HoldsAt in_range pool.now at }
        ensures { HoldsAt (λ x. result ≡ end_window self.now x) pool.now at };

    /// The last moment to which the state at the index may be waited in, in milliseconds; None if it may be waited in for ever.
    fn until(&self, pool: &Pool<Self::Phase>, at: usize) -> Option<u64>
        requires at { at < length pool.now }
        requires in_range { HoldsAt in_range pool.now at }
        ensures { HoldsAt (λ x. result ≡ until self.now x) pool.now at };

    /// Appends the numbers of the messages that the state at the index names, each at least once. On an error the vector is as before.
    fn names(
        &self,
        pool: &Pool<Self::Phase>,
        at: usize,
        out: &mut Vec<u64>,
    ) -> Result<(), AllocError>
        requires { at < length pool.now }
        ensures ok { HoldsAt (λ x. OnOk result (AppendsAll (names x) out.old.items out.new.items)) pool.now at }
        ensures err { OnErr result (out.new.items ≡ out.old.items) };

    /// Appends the numbers of the messages that the states name, each at least once. On an error the vector is as before.
    fn names_all(&self, pool: &Pool<Self::Phase>, out: &mut Vec<u64>) -> Result<(), AllocError>
        ensures ok { OnOk result (AppendsAll (flat_map names pool.now) out.old.items out.new.items) }
        ensures err { OnErr result (out.new.items ≡ out.old.items) };

    /// The first and the ended state stay for ever, and an event leads from and to states that can wait at its moment.
    ghost lawful: { (m : Self) → IsLawful (rules m) };

    /// The first state of the code stands for that of the rules.
    ghost first_stands: { (m : Self) (texts : Texts) → seen texts (first m) ≡ (rules m).first };

    /// The ended state of the code stands for that of the rules.
    ghost ended_stands: { (m : Self) (texts : Texts) → seen texts (ended m) ≡ (rules m).ended };

    /// The first state names no message and is in range.
    ghost first_fits: { (m : Self) → (names (first m) ≡ []) × in_range (first m) };

    /// The ended state names no message and is in range.
    ghost ended_fits: { (m : Self) → (names (ended m) ≡ []) × in_range (ended m) };

    /// A state of the code may end when the state that it stands for may.
    ghost window_stands: { (m : Self) (texts : Texts) (x : CodeOwing Self.Phase) → (rules m).window (seen texts x) ≡ end_window m x };

    /// A state of the code may be waited in as long as the state that it stands for.
    ghost until_stands: { (m : Self) (texts : Texts) (x : CodeOwing Self.Phase) → (rules m).until (seen texts x) ≡ until m x };

    /// States that stand for the same beside one book are the same one.
    ghost apart: { (texts : Texts) (x y : CodeOwing Self.Phase) → IsBook texts → Knows names texts x → Knows names texts y →
        seen texts x ≡ seen texts y → x ≡ y };

    /// A state stands for the same beside books that agree on what it names.
    ghost by_names: { (a b : Texts) (x : CodeOwing Self.Phase) → ((n : ℕ) → Contains (names x) n → text_of a n ≡ text_of b n) →
        seen a x ≡ seen b x };
}
