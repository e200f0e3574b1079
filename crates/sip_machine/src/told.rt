//! A phase in words, as a listing tells it.
ghost use Rattle.std.specs.Prelude.{◌≡◌, IfOk};

use std::alloc::{AllocError, Global};

/// A field of a phase in words: a name with its value.
#[derive(Clone, Copy, Debug)]
pub enum ToldField {
    /// Whether something is so.
    Flag(&'static str, bool),
    /// A moment or an interval in milliseconds, if there is one.
    Number(&'static str, Option<u64>),
    /// A message by its number in the `Book`, if there is one.
    Message(&'static str, Option<u64>),
}

/// The name of a phase, and its fields in their order.
#[derive(Debug, Drop)]
pub struct Told {
    /// The phase's name, as a listing writes it.
    pub name: &'static str,
    /// What the phase keeps besides what is owed, in the order of a listing.
    pub fields: Vec<ToldField>,
}

impl Told {
    /// What is told of a phase with this name and these fields.
    pub(crate) fn new(
        alloc: Global,
        name: &'static str,
        fields: &[ToldField],
    ) -> Result<Told, AllocError>
        ensures name { IfOk result (λ told. told.name.now ≡ name.now) }
        ensures fields { IfOk result (λ told. told.fields.items ≡ fields.now) }
    {
        Ok(Told {
            name,
            fields: fields.to_vec(alloc)?,
        })
    }
}
