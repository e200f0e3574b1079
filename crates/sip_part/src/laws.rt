//! Laws of parts. The functions do nothing: their contracts are the laws.
ghost use Rattle.std.specs.Prelude.{◌≡◌, ◌<◌, ◌≤◌, ℕ, List, Some, true};
ghost use Rattle.sip_standard.specs.Outcome.{gives};
ghost use Rattle.sip_standard.specs.Says.{Said, Says};
ghost use Rattle.sip_part.specs.Led.{led_branch};
ghost use Rattle.sip_part.specs.Part.{TellsBranch, compared, falls_into};

/// The branch that stands plainly in a message without a fault is that of its top Via.
pub fn a_plain_branch_is_that_of_the_top_via()
    ensures { (text : List ℕ) (s : Said) (branch : List ℕ) → Says text (gives s) → led_branch text ≡ Some branch → s.via.branch ≡ Some branch }
{}

/// The branch by which a message falls into its part is that of its top Via, wherever it has no fault.
pub fn a_message_falls_by_its_branch()
    ensures { (text : List ℕ) (s : Said) (branch : List ℕ) → Says text (gives s) → TellsBranch text branch → branch ≡ compared s.via.branch }
{}

/// A message, with a fault or without, falls by one branch.
pub fn a_message_falls_by_one_branch()
    ensures { (text a b : List ℕ) → TellsBranch text a → TellsBranch text b → a ≡ b }
{}

/// A branch falls into one of the parts, and into no other.
pub fn a_branch_falls_into_one_part()
    ensures one { (branch : List ℕ) (count : ℕ) → 0 < count → (number : ℕ) × (0 < number) × (number ≤ count) × (falls_into (record { number = number; count = count }) branch ≡ true) }
    ensures alone { (branch : List ℕ) (count i j : ℕ) → falls_into (record { number = i; count = count }) branch ≡ true → falls_into (record { number = j; count = count }) branch ≡ true → i ≡ j }
{}
