//! Laws of the format. The functions do nothing: their contracts are the laws.
ghost use Rattle.std.specs.Prelude.{◌≡◌, ◌≢◌, ◌⊎◌, ◌↔◌, ◌<◌, ◌≤◌, ◌++◌, ℕ, List, All, length, flat_map};
ghost use Rattle.sip_standard.specs.Times.{Times, AreTimes};
ghost use Rattle.sip_standard.specs.declared.action.Action.TheVariants.{Restart};
ghost use Rattle.sip_standard.specs.declared.rules.Rules.TheVariants.{R6026};
ghost use Rattle.sip_log.specs.Next.{Next, gives, ComesNext};
ghost use Rattle.sip_standard.specs.declared.format.Format.{Format};
ghost use Rattle.sip_standard.specs.declared.format.Format.TheVariants.{One, Two};
ghost use Rattle.sip_standard.specs.LogEntry.{Item, entry_says, IsEntry, IsWithinLimits, InOrder};
ghost use Rattle.sip_standard.specs.LogHeader.{Header, lines_text};
ghost use Rattle.sip_log.specs.Writing.{header_text};
ghost use Rattle.sip_log.specs.Turn.{ComeInTurn};
ghost use Rattle.sip_log.specs.Stream.{StreamSays};
ghost use Rattle.sip_standard.specs.LogSays.{most_entries, LogEnd, Clean, LogSays, LacksHeader};

/// Each input has a log, or it lacks a header.
pub fn each_input_has_a_log()
    ensures { (input : List ℕ) → LacksHeader input ⊎ ((p : Times) × (items : List Item) × (end : LogEnd) × LogSays input p items end) }
{}

/// No input both has a log and lacks a header, and none has two logs.
pub fn an_input_has_one_log()
    ensures either { (input : List ℕ) (p : Times) (items : List Item) (end : LogEnd) → LacksHeader input → LogSays input p items end → ⊥ }
    ensures one { (input : List ℕ) (p q : Times) (items others : List Item) (end close : LogEnd) → LogSays input p items end → LogSays input q others close →
        (p ≡ q) × (items ≡ others) × (end ≡ close) }
{}

/// A header and entries that are written one after another are read as the log of what was written, where the times are within their
/// limits, format 1 has one tolerance, and the entries are in order, within the limits and not too many.
pub fn what_is_written_is_read()
    ensures { (format : Format) (p : Times) (items : List Item) → AreTimes p → (format ≡ One → p.early ≡ p.late) →
        length items ≤ most_entries → InOrder format 0 items →
        LogSays (header_text format p ++ flat_map entry_says items) p items Clean }
{}

/// After fewer entries than the most, an entry of the format that keeps the order is what comes next where its spelling stands,
/// whatever stands after it.
pub fn an_entry_is_read_as_it_was_written()
    ensures { (format : Format) (count last : ℕ) (e : Item) (behind : List ℕ) (next : Next Item) → count < most_entries → last ≤ e.moment → IsEntry format e →
        ComesNext format count last (entry_says e ++ behind) next → next ≡ gives e behind }
{}

/// An entry that was read is within the limits, and its spelling is the bytes that were read.
pub fn an_entry_is_written_as_it_was_read()
    ensures { (format : Format) (count last : ℕ) (rest : List ℕ) (e : Item) (behind : List ℕ) → ComesNext format count last rest (gives e behind) →
        (rest ≡ entry_says e ++ behind) × IsWithinLimits e.action e.moment (length e.text) }
{}

/// Entries that were read one after another, after the header, are the first entries of the log.
pub fn entries_read_in_turn_are_a_front_of_the_log()
    ensures { (input : List ℕ) (p : Times) (items : List Item) (end : LogEnd) → LogSays input p items end →
        (format : Format) (q : Times) (behind left : List ℕ) (read : List Item) → Header format q input behind → ComeInTurn format 0 0 behind read left →
        (more : List Item) × (items ≡ read ++ more) }
{}

/// In a log of format 1 the early and the late tolerance are one, no entry is a restart, and the rules are those of RFC 6026 where no line
/// tells them. So it says what it said before there were two tolerances, restarts and rules.
pub fn a_log_of_format_1_is_as_it_was()
    ensures tolerance { (input : List ℕ) (p : Times) (behind : List ℕ) → Header One p input behind → p.early ≡ p.late }
    ensures rules { (input : List ℕ) (p : Times) (behind : List ℕ) → Header One p input behind → input ≡ lines_text One p ++ behind → p.rules ≡ R6026 }
    ensures restarts { (input : List ℕ) (p q : Times) (behind : List ℕ) (items : List Item) (end : LogEnd) → Header One p input behind →
        LogSays input q items end → All (λ e. e.action ≢ Restart) items }
{}

/// A log of format 1 that can be read to its end is the same log after a header of format 2 with the same times.
pub fn a_log_of_format_1_is_one_of_format_2()
    ensures { (input other : List ℕ) (p : Times) (behind : List ℕ) (items : List Item) → Header One p input behind → Header Two p other behind →
        LogSays input p items Clean → LogSays other p items Clean }
{}

/// A log of fewer than 1,000,000 entries is the same log where any number of entries may come, and so is one of 1,000,000 that ends there.
pub fn a_log_is_a_stream()
    ensures few { (input : List ℕ) (p : Times) (items : List Item) (end : LogEnd) → length items < most_entries → LogSays input p items end ↔ StreamSays input p items end }
    ensures whole { (input : List ℕ) (p : Times) (items : List Item) → length items ≤ most_entries → LogSays input p items Clean ↔ StreamSays input p items Clean }
{}

/// Where any number of entries may come, each input has a log too, or lacks a header.
pub fn each_input_has_a_stream()
    ensures { (input : List ℕ) → LacksHeader input ⊎ ((p : Times) × (items : List Item) × (end : LogEnd) × StreamSays input p items end) }
{}

/// Where any number of entries may come, no input both has a log and lacks a header, and none has two logs.
pub fn an_input_has_one_stream()
    ensures either { (input : List ℕ) (p : Times) (items : List Item) (end : LogEnd) → LacksHeader input → StreamSays input p items end → ⊥ }
    ensures one { (input : List ℕ) (p q : Times) (items others : List Item) (end close : LogEnd) → StreamSays input p items end → StreamSays input q others close →
        (p ≡ q) × (items ≡ others) × (end ≡ close) }
{}
