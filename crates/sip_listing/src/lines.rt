//! The lines of states in a listing.
ghost use Rattle.std.specs.Prelude.{◌≡◌, ◌++◌, IfOk, OnOk, map, string_bytes};
ghost use Rattle.sip_standard.specs.StateLines.{AreInOrder, indented};
ghost use Rattle.sip_listing.specs.inner.StateLine.{state_line};

use crate::state::push_state;
use sip_states::ToldState;
use std::alloc::{AllocError, Global};

/// The texts of states, in ascending order of their bytes. Their messages are told by their numbers in the book.
pub(crate) fn lines_of(alloc: Global, states: &[ToldState]) -> Result<Vec<String>, AllocError>
    ensures { IfOk result (λ lines. AreInOrder (map state_line states.now) (map string_bytes lines.items)) }
{
    let mut lines = Vec::new(alloc);
    for state in states {
        let mut line = String::new(alloc);
        push_state(&mut line, state)?;
        lines.push(line)?;
    }
    lines.sort()?;
    Ok(lines)
}

/// Appends lines, each after two blanks and with a line end.
pub(crate) fn push_indented(text: &mut String, lines: &[String]) -> Result<(), AllocError>
    ensures { OnOk result (string_bytes text.new ≡ string_bytes text.old ++ indented (map string_bytes lines.now)) }
{
    for line in lines {
        text.push_str("  ")?;
        text.push_str(line)?;
        text.push_str("\n")?;
    }
    Ok(())
}
