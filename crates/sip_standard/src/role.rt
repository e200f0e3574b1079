//! The role of an element in a transaction, and the way of a message.

/// The role of an element in a transaction (RFC 3261, section 17).
#[derive(Clone, Copy, Debug, PartialEq, Eq, Hash)]
pub enum Role {
    /// The role of the element that sends the request.
    Client,
    /// The role of the element that receives the request.
    Server,
}

/// Which way a message went.
#[derive(Clone, Copy, Debug, PartialEq, Eq)]
pub enum Direction {
    /// The message was sent, or its send was refused by the transport.
    Sent,
    /// The message was received.
    Received,
}
