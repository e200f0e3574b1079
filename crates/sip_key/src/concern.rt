//! The keys of the transactions that a message concerns.
ghost use Rattle.std.specs.Prelude.{◌≡◌, ◌≢◌, IfOk, IfSome, MatchOption, None, Some, option_copied};
ghost use Rattle.sip_standard.specs.Case.{folded};
ghost use Rattle.sip_standard.specs.Profile.{Port};
ghost use Rattle.sip_standard.specs.Branch.{cookie_branch};
ghost use Rattle.sip_message.specs.ValueParts.{start_parts, element};
ghost use Rattle.sip_standard.specs.Concerns.{cancelled_key, method_of, own_key, role_of, sent_by_of};
ghost use Rattle.sip_key.specs.OwnKey.{IsOwnKey};
ghost use Rattle.sip_message.specs.SaidOf.{said_of};

use crate::branch::has_cookie;
use crate::key::Key;
use sip_message::{Message, StartLine, Via};
use sip_standard::{Direction, Role};
use std::alloc::{AllocError, Global};
use thiserror::Error;

/// Why the key of a message is not answered.
#[derive(Clone, Copy, Debug, PartialEq, Eq, Error)]
pub enum KeyError {
    /// A growth was refused.
    #[error("out of memory")]
    Memory,
    /// A request is sent, and its top branch lacks the cookie.
    #[error("the top branch of a sent request lacks the cookie")]
    NoCookie,
}

impl From<AllocError> for KeyError {
    ghost use Rattle.std.specs.Prelude.{◌≡◌};
    ghost use Rattle.sip_key.specs.declared.concern.KeyError.TheVariants.{Memory};

    // Whatever was refused, the error is `Memory`.
    ghost from_gives = { λ _ e. e ≡ Memory };

    fn from(_error: AllocError) -> Self {
        KeyError::Memory
    }
}

/// The key of the transaction that a message matches when it is sent or received (RFC 3261, sections
/// 17.1.3 and 17.2.3): None where a message that is received, or a response, lacks the cookie. A send
/// that the transport refused has the direction Sent.
pub fn key_of(
    alloc: Global,
    message: &Message<'_>,
    direction: Direction,
) -> Result<Option<Key>, KeyError>
    ensures { IsOwnKey (said_of message.now) direction result }
{
    // Some bytes are read as this message, so what its Via has as port is a port.
    message.known();
    let start = message.start();
    let via = message.top_via();
    let Some(branch) = cookie_branch(via) else {
        return match (start, direction) {
            (StartLine::Request { .. }, Direction::Sent) => Err(KeyError::NoCookie),
            _ => Ok(None),
        };
    };
    let role = role_of(start, direction);
    let key = key_with(alloc, role, branch, via, method_of(message))?;
    Ok(Some(key))
}

/// The key of the INVITE client transaction that a sent CANCEL cancels (RFC 3261, section 9.1), if it
/// has the cookie; None for any other message. It is never the message's own.
pub fn cancelled_key(
    alloc: Global,
    message: &Message<'_>,
    direction: Direction,
) -> Result<Option<Key>, AllocError>
    ensures key { IfOk result (λ key. key ≡ cancelled_key (said_of message.now) direction) }
    ensures other { IfOk result (λ key. IfSome key (λ k. own_key (said_of message.now) direction ≢ Some k)) }
{
    match (message.start(), direction) {
        (StartLine::Request { method, .. }, Direction::Sent) if method == b"CANCEL".as_slice() => {}
        _ => return Ok(None),
    }
    let Some(branch) = cookie_branch(message.top_via()) else {
        return Ok(None);
    };
    let key = Key::client(alloc, branch, b"INVITE")?;
    Ok(Some(key))
}

// The branch of the top Via, if it has the cookie.
#[inline(always)]
fn cookie_branch(via: Via<'_>) -> Option<&[u8]>
    ensures { MatchOption result (cookie_branch (option_copied via.entry.branch) ≡ None) (λ branch. cookie_branch (option_copied via.entry.branch) ≡ Some (folded branch.now)) }
{
    via.branch.filter(|branch| has_cookie(branch))
}

// The role that an element has in the transaction of a message that it sends or receives.
fn role_of(start: StartLine<'_>, direction: Direction) -> Role
    ensures { result ≡ role_of (start_parts start.entry) direction }
{
    match (start, direction) {
        (StartLine::Request { .. }, Direction::Sent)
        | (StartLine::Status { .. }, Direction::Received) => Role::Client,
        _ => Role::Server,
    }
}

// The key with this role, branch and method, and with the sent-by of the Via where the role is that of a server.
fn key_with(
    alloc: Global,
    role: Role,
    branch: &[u8],
    via: Via<'_>,
    method: &[u8],
) -> Result<Key, AllocError>
    requires { IfSome (option_copied via.port) Port }
    ensures { IfOk result (λ key. key ≡ record { role = role; branch = folded branch.now; sent_by = sent_by_of role (element via.entry); method = method.now }) }
{
    match role {
        Role::Client => Key::client(alloc, branch, method),
        Role::Server => Key::server(alloc, branch, via.host, via.port, method),
    }
}

// The method of the request that made the transaction: INVITE for an ACK, and for a response the method of its CSeq.
fn method_of<'a>(message: &Message<'a>) -> &'a [u8]
    ensures { result.now ≡ method_of message.now.message.start message.now.parts.cseq.1 }
{
    match message.start() {
        StartLine::Request { method, .. } if method == b"ACK".as_slice() => b"INVITE",
        StartLine::Request { method, .. } => method,
        StartLine::Status { .. } => message.cseq().method,
    }
}
