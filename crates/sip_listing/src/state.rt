//! The text of a state: its phase, and what is owed.
ghost use Rattle.std.specs.Prelude.{◌≡◌, ◌++◌, OnOk, string_bytes};
ghost use Rattle.sip_machine.specs.Told.{told_of};
ghost use Rattle.sip_standard.specs.StateText.{phase_text};
ghost use Rattle.sip_listing.specs.inner.StateLine.{state_line};

use crate::fields::{push_field, push_owes};
use sip_machine::Told;
use sip_states::ToldState;
use std::alloc::AllocError;

/// Appends the text of a state. Its messages are told by their numbers in the book.
pub(crate) fn push_state(line: &mut String, state: &ToldState) -> Result<(), AllocError>
    ensures { OnOk result (string_bytes line.new ≡ string_bytes line.old ++ state_line state.now) }
{
    push_phase(line, &state.phase)?;
    push_owes(line, &state.owes)
}

/// Appends the text of a phase.
fn push_phase(line: &mut String, told: &Told) -> Result<(), AllocError>
    ensures { OnOk result (string_bytes line.new ≡ string_bytes line.old ++ phase_text (told_of told.now)) }
{
    line.push_str(told.name)?;
    for field in &told.fields {
        push_field(line, *field)?;
    }
    Ok(())
}
