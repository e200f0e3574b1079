//! What a device answers that failed.

use thiserror::Error;

/// A source that failed, or a sink: nothing more can be read from it, or written to it.
#[derive(Clone, Copy, Debug, Error)]
#[error("failed")]
pub struct Broken;
