//! What a machine asks of a message.

/// The methods of requests that machines tell apart (RFC 3261, sections 9, 13 and 17.1.1.3).
#[derive(Clone, Copy, Debug, PartialEq, Eq)]
pub enum Method {
    Invite,
    Ack,
    Cancel,
    /// Any other method.
    Other,
}

/// What a machine asks of a message: a request's method, or a response's code, 100 to 699.
#[derive(Clone, Copy, Debug, PartialEq, Eq)]
pub enum Kind {
    Request(Method),
    Response(u16),
}
