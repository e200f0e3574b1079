//! The states of a set in words.
ghost use Rattle.std.specs.Prelude.{IfOk};
ghost use Rattle.sip_states.specs.Told.{AreToldAs};

use crate::state_set::StateSet;
use sip_machine::{Phases, Run, Told};
use std::alloc::{AllocError, Global};

/// A state in words: its phase, and what it owes.
#[derive(Debug, Drop)]
pub struct ToldState {
    pub phase: Told,
    pub owes: Vec<Run>,
}

/// The states of the set in words, in the order of the set.
pub(crate) fn told_states<M: Phases>(
    alloc: Global,
    set: &StateSet<M>,
) -> Result<Vec<ToldState>, AllocError>
    ensures { IfOk result (λ told. AreToldAs M.told M.seen M.names set.now.states told.items) }
{
    let states = set.states();
    let mut told = Vec::new(alloc);
    for at in 0..states.len() {
        told.push(ToldState {
            phase: M::told(alloc, &states.phase(at))?,
            owes: states.runs(alloc, at)?,
        })?;
    }
    Ok(told)
}
