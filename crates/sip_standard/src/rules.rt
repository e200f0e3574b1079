//! The rules by which an element was built.

/// The rules by which an element was built: RFC 3261 alone, or with its correction for 2xx responses to INVITE, RFC 6026.
#[derive(Clone, Copy, Debug, PartialEq, Eq)]
pub enum Rules {
    R3261,
    R6026,
}
