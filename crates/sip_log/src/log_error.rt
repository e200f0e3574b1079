//! Why a log cannot be read on.
ghost use Rattle.std.specs.Prelude.{◌≡◌};
ghost use Rattle.sip_log.specs.declared.log_error.LogError.TheVariants.{Io, Memory};

use sip_standard::Broken;
use std::alloc::AllocError;
use thiserror::Error;

/// Why an entry of a log, or its header, cannot be read. The first five are faults of the log itself.
#[derive(Clone, Copy, Debug, PartialEq, Eq, Error)]
pub enum LogError {
    /// The first two lines are not those of a header.
    #[error("no header")]
    Header,
    /// The line is not that of an entry, or the byte after a message is no line feed.
    #[error("no entry line")]
    EntryLine,
    /// The input ends within an entry.
    #[error("truncated")]
    Truncated,
    /// The moment is below that of the entry before it.
    #[error("out of order")]
    Order,
    /// A moment or a length is outside the limits, or there are more than 1,000,000 entries.
    #[error("outside the limits")]
    Limit,
    /// The source has failed.
    #[error("cannot read")]
    Io,
    /// A growth was refused.
    #[error("out of memory")]
    Memory,
    /// An earlier call answered an error.
    #[error("failed before")]
    Failed,
}

impl From<Broken> for LogError {
    // Where the source has failed, the error is `Io`.
    ghost from_gives = { λ _ e. e ≡ Io };

    fn from(_broken: Broken) -> LogError {
        LogError::Io
    }
}

impl From<AllocError> for LogError {
    // Where memory was refused, the error is `Memory`.
    ghost from_gives = { λ _ e. e ≡ Memory };

    fn from(_error: AllocError) -> LogError {
        LogError::Memory
    }
}
