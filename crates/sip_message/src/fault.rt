//! Why bytes are read as no message.
use sip_standard::Fault;
use std::alloc::AllocError;
use thiserror::Error;

/// Why bytes are read as no message: want of memory, or their first fault.
#[derive(Clone, Copy, Debug, PartialEq, Eq, Error)]
pub enum ReadError {
    /// A growth was refused.
    #[error("out of memory")]
    Memory,
    /// The first fault.
    #[error(transparent)]
    Fault(Fault),
}

impl From<AllocError> for ReadError {
    ghost use Rattle.std.specs.Prelude.{◌≡◌};
    ghost use Rattle.sip_message.specs.declared.fault.ReadError.TheVariants.{Memory};

    // Whatever was refused, the error is `Memory`.
    ghost from_gives = { λ _ e. e ≡ Memory };

    fn from(_error: AllocError) -> Self {
        ReadError::Memory
    }
}

impl From<Fault> for ReadError {
    ghost use Rattle.std.specs.Prelude.{◌≡◌};
    ghost use Rattle.sip_message.specs.declared.fault.ReadError.TheVariants.{Fault};

    // The error has the fault that was found.
    ghost from_gives = { λ fault e. e ≡ Fault fault };

    fn from(fault: Fault) -> Self {
        ReadError::Fault(fault)
    }
}
