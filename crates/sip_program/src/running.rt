//! What the program does.
ghost use Rattle.std.specs.Prelude.{◌≡◌, None, false, true, IfSome, OnOk, IfOk, IfErr, IsErrOf};
ghost use Rattle.sip_standard.specs.Answers.{IsAnswer, IsAnswerTo, log_for};
ghost use Rattle.sip_standard.specs.Asked.{IsAskedBy};
ghost use Rattle.sip_program.specs.Ending.{IsEnd};
ghost use Rattle.sip_program.specs.Failures.{Blames, IsCause, status_without};
ghost use Rattle.sip_standard.specs.Failures.{line_of};
ghost use Rattle.sip_standard.specs.Sent.{sent};
ghost use Rattle.sip_standard.specs.declared.failure.Failure.TheVariants.{Read, Usage, Write};

use crate::answering::{check, list_states, show_log};
use crate::asking::asked;
use crate::ending::end;
use crate::failure::read_failure;
use sip_log::{Sink, Source};
use sip_standard::{Asked, Failure, Output, System};
use std::alloc::Global;
use std::io::Write;

/// Writes what is asked for, and answers its status.
fn answer<S: System, W: Sink>(
    alloc: Global,
    system: &mut S,
    asked: Asked<'_>,
    writer: &mut W,
) -> Result<u8, Failure>
    requires { S.has_failed system.old ≡ false }
    ensures answer { IfOk result (IsAnswer asked.entry (log_for asked.entry (S.left system.old) (S.file system.old)) (W.written writer.old) (W.written writer.new)) }
    ensures fine { OnOk result ((S.has_failed system.new ≡ false) × (W.has_failed writer.new ≡ W.has_failed writer.old)) }
    ensures err { IfErr result (Blames (S.has_failed system.new) (W.has_failed writer.new)) }
{
    // What judges a log needs a seed for its hashers; what shows one needs none.
    match asked {
        Asked::Input => {
            let seed = system.seed().map_err(read_failure)?;
            check(alloc, seed, system, writer)
        }
        Asked::Check(path) => {
            let seed = system.seed().map_err(read_failure)?;
            system.open(path).map_err(read_failure)?;
            check(alloc, seed, system, writer)
        }
        Asked::Show(path) => {
            system.open(path).map_err(read_failure)?;
            show_log(alloc, system, writer)
        }
        Asked::States(path, entry) => {
            let seed = system.seed().map_err(read_failure)?;
            system.open(path).map_err(read_failure)?;
            list_states(alloc, seed, system, entry, writer)
        }
    }
}

/// Writes what the words of the system ask for, to the last byte, and answers its status.
pub fn run<S: System, W: Write + Drop>(
    alloc: Global,
    system: &mut S,
    output: &mut Output<W>,
) -> Result<u8, Failure>
    requires { S.has_failed system.old ≡ false }
    ensures answer { IfOk result (λ status. IfSome (S.words system.old) (λ words. IsAnswerTo words (S.left system.old) (S.file system.old) (⟦<Output<W> as Sink>⟧.written output.old) (sent W.contents output.new) status)) }
    ensures fine { OnOk result ((S.has_failed system.new ≡ false) × (⟦<Output<W> as Sink>⟧.has_failed output.new ≡ ⟦<Output<W> as Sink>⟧.has_failed output.old)) }
    ensures words { IsErrOf result Usage → IfSome (S.words system.old) (λ words. IsAskedBy words None) }
    ensures read { IsErrOf result Read → S.has_failed system.new ≡ true }
    ensures write { IsErrOf result Write → ⟦<Output<W> as Sink>⟧.has_failed output.new ≡ true }
{
    let words = system.words().map_err(read_failure)?;
    // The words come first: where they ask for nothing, neither a seed nor a file is asked for.
    let Some(asked) = asked(words.as_slice()) else {
        return Err(Failure::Usage);
    };
    let status = answer(alloc, system, asked, output)?;
    // What was put may still stand in the output's buffer, and now goes to the writer.
    output.flush()?;
    Ok(status)
}

/// The whole program: it runs, and tells on the standard error why it has no answer. The result is the status that it ends with.
pub fn program<S: System, W: Write + Drop, E: Sink>(
    alloc: Global,
    system: &mut S,
    output: &mut Output<W>,
    errors: &mut E,
) -> u8
    requires { S.has_failed system.old ≡ false }
    ensures { IsEnd (λ status. IfSome (S.words system.old) (λ words. IsAnswerTo words (S.left system.old) (S.file system.old) (⟦<Output<W> as Sink>⟧.written output.old) (sent W.contents output.new) status))
        (IsCause (IfSome (S.words system.old) (λ words. IsAskedBy words None)) (S.has_failed system.new) (⟦<Output<W> as Sink>⟧.has_failed output.new)) status_without line_of
        (E.written errors.old) (E.written errors.new) (E.has_failed errors.new) result }
{
    end(run(alloc, system, output), errors)
}
