//! A law of the machines, beside those of the trait `Machine`. The function does nothing.
ghost use Rattle.std.specs.Prelude.{◌∷◌, [], ◌++◌, ℕ, List, Contains};
ghost use Rattle.sip_machine.specs.Texts.{Texts};
ghost use Rattle.sip_machine.specs.Owing.{CodeOwing};
ghost use Rattle.sip_machine.specs.Rules.{StandFor};

use crate::machine::Machine;

/// States stand for the same beside a book that has grown.
pub fn states_stay_when_the_book_grows<M: Machine>(_machine: &M)
    ensures { (texts : Texts) (number : ℕ) (bytes : List ℕ) (seen : List M.Seen) (xs : List (CodeOwing M.Phase)) →
        StandFor M.names M.in_range M.seen texts (Contains seen) xs →
        StandFor M.names M.in_range M.seen (texts ++ (number, bytes) ∷ []) (Contains seen) xs }
{}
