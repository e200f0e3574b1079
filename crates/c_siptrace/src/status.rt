//! What a call answers: whether it gave what it is for.
/// The call gave its answer.
pub(crate) const ANSWERED: u32 = 0;

/// The call wants memory.
pub(crate) const NO_MEMORY: u32 = 1;

/// The call gave its answer, but not all findings have room.
pub(crate) const NO_ROOM: u32 = 2;
