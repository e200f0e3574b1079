//! Which transactions an entry concerns.

/// The transactions that an entry concerns, each by its key or by its number.
#[derive(Clone, Copy, Drop)]
pub(crate) enum Concerned<T> {
    /// None: the entry has no message, or a message without a key.
    None,
    /// The transaction of its message.
    Own(T),
    /// The transaction of its message, and the one that this message cancels.
    OwnAndCancelled(T, T),
    /// All transactions that there are: the entry is a restart of the element.
    All,
}
