//! Texts compared without case.
ghost use Rattle.std.specs.Prelude.{◌≡◌, ◌↔◌, IsTrue};
ghost use Rattle.sip_standard.specs.Case.{folded};

/// Whether two texts are the same without case: ASCII letters are folded, and no other byte is
/// (RFC 3261, section 7.3.1).
pub fn same_text(a: &[u8], b: &[u8]) -> bool
    ensures { IsTrue result ↔ (folded a.now ≡ folded b.now) }
{
    a == b || a.eq_ignore_ascii_case(b)
}
