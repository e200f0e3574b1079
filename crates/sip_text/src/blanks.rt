//! Blank runs.
ghost use Rattle.std.specs.Prelude.{◌≡◌, ◌≤◌, length};
ghost use Rattle.sip_standard.specs.Profile.{Blanks};
ghost use Rattle.sip_text.specs.Front.{IsLongestFront};
ghost use Rattle.sip_text.specs.inner.Blanks.{blank_len};

/// The length in bytes of the longest front of the text that is a blank run: one `LWS` (RFC 3261,
/// section 25.1) or more in a row. It is 0 if there is none.
pub fn skip_lws(text: &[u8]) -> usize
    ensures reads { IsLongestFront Blanks text.now result }
    ensures within { result ≤ length text.now }
{
    let mut at = 0;
    'blanks: loop {
        let step = blank_len(&text[at..]);
        if step == 0 {
            return at;
        }
        at += step;
    }
}

/// The length of the blank at the front of the text, with the line end of a fold before it, and 0
/// if there is none.
#[inline]
pub fn blank_len(text: &[u8]) -> usize
    ensures len { result ≡ blank_len text.now }
    ensures within { result ≤ length text.now }
{
    match text {
        [b' ' | b'\t', ..] => 1,
        [b'\r', b'\n', b' ' | b'\t', ..] => 3,
        _ => 0,
    }
}
