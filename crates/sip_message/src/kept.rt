//! What is kept of the first Via and the first CSeq while fields are read.
ghost use Rattle.std.specs.Prelude.{◌≡◌, [], is_some};
ghost use Rattle.std.specs.Option.{option_or};
ghost use Rattle.sip_message.specs.inner.Kept.{KeptOf};

use crate::values::CSeq;
use crate::via::Via;

/// What the first Via and the first CSeq of some fields say.
#[derive(Clone, Copy, Drop)]
pub(crate) struct Kept<'a> {
    pub(crate) via: Option<Via<'a>>,
    pub(crate) cseq: Option<CSeq<'a>>,
}

impl Kept<'_> {
    /// What is kept where no fields were read.
    pub(crate) fn new() -> Self
        ensures { KeptOf [] result }
    {
        Kept {
            via: None,
            cseq: None,
        }
    }
}

/// Keeps what a value says, if it says something and nothing is kept yet. Answers whether it says something.
pub(crate) fn keep<T: Copy>(said: Option<T>, kept: &mut Option<T>) -> bool
    ensures says { result ≡ is_some said }
    ensures kept { kept.new ≡ option_or kept.old said }
{
    if kept.is_none() {
        *kept = said;
    }
    said.is_some()
}
