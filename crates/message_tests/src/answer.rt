//! What reading bytes as a message comes to.

use sip_message::{Fault, Message, ReadError, Reason, Unit};
use std::alloc::{AllocError, Global};

/// What bytes come to: a message, with how many bytes its body has, or the first fault.
#[derive(Clone, Copy, Debug, PartialEq, Eq)]
pub(crate) enum Answer {
    /// A message, whose body has this many bytes.
    Read { body: usize },
    /// A fault of the head.
    Head(Reason),
    /// A fault of the line with this number.
    Line(usize, Reason),
    /// A fault of the body.
    Body(Reason),
}

/// The bytes of a message, and what they come to.
#[derive(Clone, Copy)]
pub(crate) struct Row {
    /// The name of the message in its RFC.
    pub(crate) name: &'static str,
    /// The bytes of the message.
    pub(crate) text: &'static [u8],
    /// What the bytes come to.
    pub(crate) answer: Answer,
}

/// What the bytes come to.
pub(crate) fn answer_to(alloc: Global, bytes: &[u8]) -> Result<Answer, AllocError> {
    match Message::read(alloc, bytes) {
        Ok(message) => Ok(Answer::Read {
            body: message.body().len(),
        }),
        Err(ReadError::Fault(Fault { unit, reason })) => Ok(match unit {
            Unit::Head => Answer::Head(reason),
            Unit::Line(number) => Answer::Line(number, reason),
            Unit::Body => Answer::Body(reason),
        }),
        Err(ReadError::Memory) => Err(AllocError),
    }
}
