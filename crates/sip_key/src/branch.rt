//! Branches, and the cookie at their front (RFC 3261, section 8.1.1.7).
ghost use Rattle.std.specs.Prelude.{◌≡◌, take, codes, bytes_eq};
ghost use Rattle.sip_standard.specs.Case.{folded};

use sip_text::same_text;

/// The cookie with which every branch of RFC 3261 begins.
const COOKIE: &[u8] = b"z9hG4bK";

/// Whether the branch begins with the cookie, without case.
#[inline(always)]
pub(crate) fn has_cookie(branch: &[u8]) -> bool
    ensures { result ≡ bytes_eq (take 7 (folded branch.now)) (codes "z9hg4bk") }
{
    branch.len() >= COOKIE.len() && same_text(&branch[..COOKIE.len()], COOKIE)
}
