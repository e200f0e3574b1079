//! What is proved of the program's `run`: its contract, word for word, over this crate alone. In it `⟦<Output<W> as Sink>⟧` is what an output has as a
//! sink: what it has written, and whether it has failed.
ghost use Rattle.std.specs.Prelude.{◌≡◌, None, false, true, IfSome, OnOk, IfOk, IsErrOf};
ghost use Rattle.sip_standard.specs.Answers.{IsAnswerTo};
ghost use Rattle.sip_standard.specs.Asked.{IsAskedBy};
ghost use Rattle.sip_standard.specs.Sent.{sent};
ghost use Rattle.sip_standard.specs.declared.failure.Failure.TheVariants.{Read, Usage, Write};

use crate::failure::Failure;
use crate::output::Output;
use crate::sink::Sink;
use crate::system::System;
use std::alloc::Global;
use std::io::Write;

/// What a program does. `sip_program` does it, by its function of the same name.
pub trait Program {
    /// Writes what the words of the system ask for, to the last byte. The answer is its status.
    fn run<S: System, W: Write + Drop>(
        alloc: Global,
        system: &mut S,
        output: &mut Output<W>,
    ) -> Result<u8, Failure>
        requires { S.has_failed system.old ≡ false }
        ensures answer { IfOk result (λ status. IfSome (S.words system.old) (λ words. IsAnswerTo words (S.left system.old) (S.file system.old) (⟦<Output<W> as Sink>⟧.written output.old) (sent W.contents output.new) status)) }
        ensures fine { OnOk result ((S.has_failed system.new ≡ false) × (⟦<Output<W> as Sink>⟧.has_failed output.new ≡ ⟦<Output<W> as Sink>⟧.has_failed output.old)) }
        ensures words { IsErrOf result Usage → IfSome (S.words system.old) (λ words. IsAskedBy words None) }
        ensures read { IsErrOf result Read → S.has_failed system.new ≡ true }
        ensures write { IsErrOf result Write → ⟦<Output<W> as Sink>⟧.has_failed output.new ≡ true };
}
