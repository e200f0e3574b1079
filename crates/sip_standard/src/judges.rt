//! What is proved of `judge`, `judge_bytes`, `show` and `states_at`: their contracts, word for word, over this crate alone.
ghost use Rattle.std.specs.Prelude.{◌≡◌, ℕ, true, false, List, IfOk, OnOk, IfSome, IsErrOf};
ghost use Rattle.std.specs.Io.KnownBytes.{Appends};
ghost use Rattle.sip_standard.specs.VerdictOf.{IsVerdictOf};
ghost use Rattle.sip_standard.specs.Showing.{IsShownOf};
ghost use Rattle.sip_standard.specs.ListingOf.{IsListingOf};
ghost use Rattle.sip_standard.specs.declared.show_error.ShowError.TheVariants.{Read, Write};

use crate::judge_error::JudgeError;
use crate::listing::Listing;
use crate::show_error::ShowError;
use crate::shown::Shown;
use crate::sink::Sink;
use crate::source::Source;
use crate::verdict::Verdict;
use std::alloc::Global;
use std::hash::BuildHasher;

/// What judges logs, shows them and lists states. `sip_verdict` does, by its functions of the same names.
pub trait Judges {
    /// The verdict on the log of the reader's bytes.
    fn judge<R: Source, H: BuildHasher + Drop>(
        alloc: Global,
        reader: &mut R,
        hasher: H,
    ) -> Result<Verdict, JudgeError>
        requires { R.has_failed reader.old ≡ false }
        ensures verdict { IfOk result (λ verdict. IfSome (R.left reader.old) (λ input. IsVerdictOf input verdict)) }
        ensures ok { OnOk result (R.has_failed reader.new ≡ false) }
        ensures io { IsErrOf result JudgeError.Io → R.has_failed reader.new ≡ true };

    /// The verdict on the log of these bytes.
    fn judge_bytes<H: BuildHasher + Drop>(
        alloc: Global,
        bytes: &[u8],
        hasher: H,
    ) -> Result<Verdict, JudgeError>
        ensures verdict { IfOk result (IsVerdictOf bytes.now) }
        ensures io { IsErrOf result JudgeError.Io → ⊥ };

    /// Writes what is shown of the log of the reader's bytes.
    fn show<R: Source, W: Sink>(
        alloc: Global,
        reader: &mut R,
        writer: &mut W,
    ) -> Result<Shown, ShowError>
        ensures shown { IfOk result (λ shown. IfSome (R.left reader.old) (λ input. (text : List ℕ) × IsShownOf input text shown × Appends (W.written writer.old) (W.written writer.new) text)) }
        ensures fine { OnOk result ((R.has_failed reader.new ≡ R.has_failed reader.old) × (W.has_failed writer.new ≡ W.has_failed writer.old)) }
        ensures read { IsErrOf result Read → R.has_failed reader.new ≡ true }
        ensures write { IsErrOf result Write → W.has_failed writer.new ≡ true };

    /// The states in which the transactions of an entry can stand after it.
    fn states_at<R: Source, H: BuildHasher + Drop>(
        alloc: Global,
        reader: &mut R,
        hasher: H,
        entry: u64,
    ) -> Result<Listing, JudgeError>
        requires { R.has_failed reader.old ≡ false }
        ensures listing { IfOk result (λ listing. IfSome (R.left reader.old) (λ input. IsListingOf input entry listing)) }
        ensures ok { OnOk result (R.has_failed reader.new ≡ false) }
        ensures io { IsErrOf result JudgeError.Io → R.has_failed reader.new ≡ true };
}
