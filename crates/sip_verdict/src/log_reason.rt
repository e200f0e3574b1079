//! The reason by which a verdict names a log's fault.
ghost use Rattle.std.specs.Prelude.{◌≡◌};
ghost use Rattle.sip_verdict.specs.inner.Judging.{told_as};

use sip_log::LogError;
use sip_standard::{JudgeError, LogReason};

/// The reason by which a verdict names a log's fault, or, where the error is no fault of the log, the error of judging.
pub(crate) fn reason_of(error: LogError) -> Result<LogReason, JudgeError>
    ensures { result ≡ told_as error }
{
    match error {
        LogError::Header => Ok(LogReason::Header),
        LogError::EntryLine => Ok(LogReason::EntryLine),
        LogError::Truncated => Ok(LogReason::Truncated),
        LogError::Order => Ok(LogReason::Order),
        LogError::Limit => Ok(LogReason::Limit),
        LogError::Io | LogError::Failed => Err(JudgeError::Io),
        LogError::Memory => Err(JudgeError::Memory),
    }
}
