//! The words of which the text of a state is made.
ghost use Rattle.std.specs.Prelude.{◌≡◌, ◌++◌, OnOk, flat_map, replicate, string_bytes};
ghost use Rattle.sip_standard.specs.StateText.{field, told_text, number_field, optional_field, flag_field, owed_field};
ghost use Rattle.sip_machine.specs.Told.{field_of_code};
ghost use Rattle.sip_listing.specs.inner.FieldWords.{debts_fields};

use itoa::Buffer;
use sip_machine::{Debt, Run, ToldField};
use std::alloc::AllocError;

/// Appends a blank, a name, `=` and a value.
fn push_named(line: &mut String, name: &str, value: &str) -> Result<(), AllocError>
    ensures { OnOk result (string_bytes line.new ≡ string_bytes line.old ++ field name.now value.now) }
{
    line.push_str(" ")?;
    line.push_str(name)?;
    line.push_str("=")?;
    line.push_str(value)
}

/// Appends a number with its name: a moment, an interval, or the number of a message.
fn push_number(line: &mut String, name: &str, value: u64) -> Result<(), AllocError>
    ensures { OnOk result (string_bytes line.new ≡ string_bytes line.old ++ number_field name.now value) }
{
    push_named(line, name, Buffer::new().format(value))
}

/// Appends an optional number with its name.
fn push_optional(line: &mut String, name: &str, value: Option<u64>) -> Result<(), AllocError>
    ensures { OnOk result (string_bytes line.new ≡ string_bytes line.old ++ optional_field name.now value) }
{
    match value {
        None => push_named(line, name, "none"),
        Some(value) => push_number(line, name, value),
    }
}

/// Appends a flag with its name: whether something is so.
fn push_flag(line: &mut String, name: &str, value: bool) -> Result<(), AllocError>
    ensures { OnOk result (string_bytes line.new ≡ string_bytes line.old ++ flag_field name.now value) }
{
    push_named(line, name, if value { "yes" } else { "no" })
}

/// Appends a field of a phase, with its name.
pub(crate) fn push_field(line: &mut String, told: ToldField) -> Result<(), AllocError>
    ensures { OnOk result (string_bytes line.new ≡ string_bytes line.old ++ told_text (field_of_code told)) }
{
    match told {
        ToldField::Flag(name, is) => push_flag(line, name, is),
        ToldField::Number(name, value) => push_optional(line, name, value),
        ToldField::Message(name, number) => push_optional(line, name, number.map(u64::from)),
    }
}

/// Appends a message that is owed, with its deadline.
fn push_owed(line: &mut String, debt: Debt) -> Result<(), AllocError>
    ensures { OnOk result (string_bytes line.new ≡ string_bytes line.old ++ owed_field debt.message debt.deadline debt.must) }
{
    push_number(line, "owes", debt.message.into())?;
    line.push_str("/")?;
    line.push_str(Buffer::new().format(debt.deadline))?;
    line.push_str("/")?;
    line.push_str(if debt.must { "must" } else { "may" })
}

/// Appends a message that is owed several times, once for each.
fn push_run(line: &mut String, run: Run) -> Result<(), AllocError>
    ensures { OnOk result (string_bytes line.new ≡ string_bytes line.old ++ debts_fields (replicate run.count run.debt)) }
{
    for time in 0..run.count {
        push_owed(line, run.debt)?;
    }
    Ok(())
}

/// Appends the debts of the runs, one after another.
pub(crate) fn push_owes(line: &mut String, owes: &[Run]) -> Result<(), AllocError>
    ensures { OnOk result (string_bytes line.new ≡ string_bytes line.old ++ debts_fields (flat_map (λ run. replicate run.count run.debt) owes.now)) }
{
    for run in owes {
        push_run(line, *run)?;
    }
    Ok(())
}
