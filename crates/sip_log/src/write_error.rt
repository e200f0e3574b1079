//! Why a log could not be written.
ghost use Rattle.std.specs.Prelude.{◌≡◌};
ghost use Rattle.sip_log.specs.declared.write_error.WriteError.TheVariants.{Io};

use sip_standard::Broken;
use thiserror::Error;

/// Why a header or an entry could not be written.
#[derive(Clone, Copy, Debug, PartialEq, Eq, Error)]
pub enum WriteError {
    /// The moment or the length is outside the limits of a log, or there are two tolerances and the format has one. Nothing was written.
    #[error("outside the limits")]
    Limit,
    /// The sink failed. How much was written before is not told.
    #[error("cannot write")]
    Io,
}

impl From<Broken> for WriteError {
    // Where the sink has failed, the error is `Io`.
    ghost from_gives = { λ _ e. e ≡ Io };

    fn from(_broken: Broken) -> WriteError {
        WriteError::Io
    }
}
