//! The smallest texts of SIP's grammar (RFC 3261, section 25.1), read exactly: tokens, blank runs, quoted
//! strings, hosts and URIs. No call allocates, and none fails.
#![tactic(auto)]

mod blanks;
mod case;
mod class;
mod cut;
mod host;
mod quoted;
mod token;
mod uri;

pub use crate::blanks::skip_lws;
pub use crate::case::same_text;
pub use crate::host::{is_host, is_ipv6_address};
pub use crate::quoted::read_quoted;
pub use crate::token::token_len;
pub use crate::uri::{is_port, is_uri};
