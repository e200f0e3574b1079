//! The response to which an ACK belongs: the INVITE and the ACK are read anew, and tell all but the response, which is told by its To alone.
ghost use Rattle.std.specs.Prelude.{◌≡◌, ◌<◌, IfOk, All, length};
ghost use Rattle.sip_standard.specs.AckOf.{AckOf};
ghost use Rattle.sip_machine.specs.Owes.{owed_in, owes_names};
ghost use Rattle.sip_machine.specs.Texts.{Keeps, text_of};
ghost use Rattle.sip_machine.specs.inner.Paying.{FindsFirst, HasTo, PaysFor};

use crate::book::Book;
use crate::dues::Dues;
use crate::event::Event;
use crate::hashed::Hashed;
use sip_key::{is_ack_for, solid_of};
use sip_numbers::Numbers;
use std::alloc::{AllocError, Global};

/// The message of the first debt of the row that is a response to the INVITE to which the event's ACK belongs (RFC 3261,
/// section 17.1.1.3), and whose deadline has not passed; None if there is none.
pub(crate) fn first_acked(
    alloc: Global,
    book: &Book,
    request: u64,
    event: &Event,
    dues: &mut Dues,
    row: usize,
) -> Result<Option<u64>, AllocError>
    requires row { row < length dues.old }
    requires ack { Keeps book.now event.now.number }
    requires invite { Keeps book.now request }
    requires owed { All (Keeps book.now) (owes_names (owed_in dues.old row)) }
    ensures same { dues.new ≡ dues.old }
    ensures finds { IfOk result (FindsFirst (PaysFor (AckOf (text_of book.now event.now.number) (text_of book.now request)) book.now event.now.moment) event.now.moment (owed_in dues.old row)) }
{
    // Nothing is read where nothing is owed.
    if dues.owes_nothing(row) {
        return Ok(None);
    }
    // Bytes that are no message are no ACK, and no ACK belongs to them.
    let Some(ack) = book.message(alloc, event.number())? else {
        return Ok(None);
    };
    let Some(invite) = book.message(alloc, request)? else {
        return Ok(None);
    };
    // The two tell whether it is an ACK for the INVITE. To which response it belongs, its To alone tells.
    if !is_ack_for(&ack, &invite) {
        return Ok(None);
    }
    let to = solid_of(alloc, ack.to())?;
    let to = Hashed::of(to);
    first_with_to(alloc, book, &to, event.moment(), dues, row)
}

/// The message of the first debt of the row whose message has this To, from which the blanks were taken, and whose deadline has
/// not passed. The first debt of all is looked at first. Where it is another one, it is looked for among the messages that stand under
/// the To in the book. Where the book does not tell these, each different message that the row owes is looked at.
#[tactic(auto, using(crate::proofs::debts::DuesEachLemmas::of_blank))]
fn first_with_to(
    alloc: Global,
    book: &Book,
    to: &Hashed,
    moment: u64,
    dues: &mut Dues,
    row: usize,
) -> Result<Option<u64>, AllocError>
    requires row { row < length dues.old }
    requires owed { All (Keeps book.now) (owes_names (owed_in dues.old row)) }
    ensures same { dues.new ≡ dues.old }
    ensures finds { IfOk result (FindsFirst (HasTo book.now to.now moment) moment (owed_in dues.old row)) }
{
    let Some(accounts) = dues.accounts() else {
        return Ok(None);
    };
    let Some(debt) = accounts.first_debt(row) else {
        return Ok(None);
    };
    let message = debt.message;
    if moment <= debt.deadline && book.has_to(alloc, message, to, &mut 0)? {
        return Ok(Some(message));
    }
    let (low, high) = accounts.span();
    let Some(messages) = book.under(low, high, to) else {
        return first_named(alloc, book, to, moment, dues, row);
    };
    dues.first_payable(row, messages, moment)
}

/// What `first_with_to` finds, by a look at each message that the row owes, once.
#[tactic(auto, using(crate::proofs::debts::DuesEachLemmas::of_blank))]
fn first_named(
    alloc: Global,
    book: &Book,
    to: &Hashed,
    moment: u64,
    dues: &mut Dues,
    row: usize,
) -> Result<Option<u64>, AllocError>
    requires row { row < length dues.old }
    requires owed { All (Keeps book.now) (owes_names (owed_in dues.old row)) }
    ensures same { dues.new ≡ dues.old }
    ensures finds { IfOk result (FindsFirst (HasTo book.now to.now moment) moment (owed_in dues.old row)) }
{
    let Some(accounts) = dues.accounts() else {
        return Ok(None);
    };
    let mut messages = Vec::new(alloc);
    accounts.names_once(row, &mut messages)?;
    book.count_messages(messages.len());
    let mut those = Numbers::new(alloc);
    let mut near = 0;
    for message in &messages {
        if book.has_to(alloc, *message, to, &mut near)? {
            those.put(*message)?;
        }
    }
    dues.first_payable(row, &those, moment)
}
