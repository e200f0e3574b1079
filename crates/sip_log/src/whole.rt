//! Reads a whole log at once.
ghost use Rattle.std.specs.Prelude.{◌≡◌, ◌++◌, ◌∷◌, [], List, map, IfOk, IfErr, IfSome, OnOk};
ghost use Rattle.sip_standard.specs.Times.{Times};
ghost use Rattle.sip_standard.specs.LogSays.{LogSays, Clean};
ghost use Rattle.sip_log.specs.Told.{FailsAs, IsFaultOf, item};

use crate::entry::Entry;
use crate::log_error::LogError;
use crate::progress::Progress;
use sip_standard::Source;
use std::alloc::{AllocError, Global};

/// All entries of a log that can be read to its end, or why it cannot be read. A long log takes as much memory as it has bytes.
///
/// `LogError::Io` is answered only if the source has failed, and `LogError::Failed` never.
pub fn read_entries<R: Source>(alloc: Global, source: &mut R) -> Result<Vec<Entry>, LogError>
    ensures log { IfOk result (λ entries. IfSome (R.left source.old) (λ input. (p : Times) × LogSays input p (map item entries.items) Clean)) }
    ensures fine { OnOk result (R.has_failed source.new ≡ R.has_failed source.old) }
    ensures err { IfErr result (FailsAs (R.has_failed source.old) (R.has_failed source.new)
        (λ fault. IfSome (R.left source.old) (λ input. IsFaultOf input fault))) }
{
    let mut progress = Progress::new(alloc);
    let mut entries = Vec::new(alloc);
    loop {
        match progress.next(source) {
            Ok(Some(entry)) => keep(&mut entries, entry)?,
            Ok(None) => return Ok(entries),
            Err(error) => return Err(error),
        }
    }
}

/// Keeps an entry after the others.
fn keep(entries: &mut Vec<Entry>, entry: Entry) -> Result<(), AllocError>
    ensures { OnOk result (entries.new.items ≡ entries.old.items ++ entry ∷ []) }
{
    entries.push(entry)?;
    Ok(())
}
