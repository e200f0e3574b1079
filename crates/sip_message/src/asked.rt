//! What the quick reader keeps of the fields that are asked for by their names, as they come.
ghost use Rattle.std.specs.Prelude.{◌≡◌, [], None, Some, IsTrue, IsSome};
ghost use Rattle.sip_message.specs.inner.Asked.{AskedOf};

use crate::values::CSeq;
use crate::via::Via;

/// What is kept of the fields: the first element of the first Via, and for each other name what the one field of the name says.
#[derive(Clone, Copy, Drop)]
pub(crate) struct Asked<'a> {
    pub(crate) via: Option<Via<'a>>,
    pub(crate) from: Option<&'a [u8]>,
    pub(crate) to: Option<&'a [u8]>,
    pub(crate) call_id: Option<&'a [u8]>,
    pub(crate) cseq: Option<CSeq<'a>>,
    pub(crate) content_length: Option<&'a [u8]>,
}

impl Asked<'_> {
    /// What is kept where no fields were read.
    pub(crate) fn new() -> Self
        ensures { AskedOf [] result }
    {
        Asked {
            via: None,
            from: None,
            to: None,
            call_id: None,
            cseq: None,
            content_length: None,
        }
    }

    /// Whether something is kept of each name of which a message must have a field.
    #[inline]
    pub(crate) fn is_complete(&self) -> bool
        ensures { IsTrue result → IsSome self.now.via × IsSome self.now.from × IsSome self.now.to × IsSome self.now.call_id × IsSome self.now.cseq }
    {
        self.via.is_some()
            && self.from.is_some()
            && self.to.is_some()
            && self.call_id.is_some()
            && self.cseq.is_some()
    }
}

/// Keeps the value of a field whose name stands at most once, if `is` says that it is a right value, and if none is kept yet.
/// Answers whether it was kept.
#[inline]
pub(crate) fn keep_once<'a>(is: bool, value: &'a [u8], kept: &mut Option<&'a [u8]>) -> bool
    ensures is { IsTrue result → IsTrue is }
    ensures kept { IsTrue result → (kept.old ≡ None) × (kept.new ≡ Some value.entry) }
{
    if !is || kept.is_some() {
        return false;
    }
    *kept = Some(value);
    true
}

/// Keeps what a field whose name stands at most once says, if it says something and nothing is kept yet. Answers whether it was kept.
#[inline]
pub(crate) fn keep_one<T: Copy>(said: Option<T>, kept: &mut Option<T>) -> bool
    ensures says { IsTrue result → IsSome said }
    ensures kept { IsTrue result → (kept.old ≡ None) × (kept.new ≡ said) }
{
    if kept.is_some() {
        return false;
    }
    *kept = said;
    said.is_some()
}
