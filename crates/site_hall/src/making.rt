//! What it takes to keep an edit and to publish it, made before it is kept.
ghost use Rattle.std.specs.Prelude.{◌≡◌, ◌<◌, ◌^◌, None, IfOk};
ghost use Rattle.std.specs.Arc.{arc_value};
ghost use Rattle.state_commits.specs.Apply.{full_tag};
ghost use Rattle.site_hall.specs.ReadyEdit.{ready_of};

use content_state::{Commit, State};
use site_commands::Done;
use site_keeper::{Batch, batch_over};
use state_commits::{ApplyFault, apply};
use std::alloc::{AllocError, Global};
use std::marker::Model;
use std::sync::Arc;

/// An accepted edit, with all that it takes to keep and to publish it.
#[derive(Drop)]
pub struct Ready {
    /// What is to be kept of it.
    pub batch: Batch,
    /// What it did.
    pub done: Done,
    /// The state that it makes.
    pub state: Arc<State>,
}

impl Model for Ready {
    ghost use Rattle.std.specs.Arc.{arc_value};
    ghost use Rattle.site_hall.specs.ReadyEdit.{Ready as ReadyValue};

    ghost Value = { ReadyValue };

    ghost view = { λ r. record { batch = r.batch; done = r.done; state = arc_value r.state } };
}

/// Makes all that it takes to keep and to publish an edit of a state, none of whose tags has a count that cannot be raised.
/// `Err` only where memory is wanting.
#[tactic(auto, unfolding(content_state::specs::Replay::step))]
pub(crate) fn made_ready(
    alloc: Global,
    state: &State,
    commit: Arc<Commit>,
    done: Done,
) -> Result<Ready, AllocError>
    requires small { state.now.number < 2 ^ 63 }
    requires none_full { full_tag state.now (arc_value commit) ≡ None }
    ensures { IfOk result (λ ready. ready ≡ ready_of state.now (arc_value commit) done) }
{
    let after = match apply(alloc, state, &commit) {
        Ok(after) => after,
        Err(ApplyFault::CountFull(_)) => unreachable!(),
        Err(ApplyFault::OutOfMemory) => return Err(AllocError),
    };
    let batch = batch_over(alloc, state.rows(), state.counts(), state.number(), commit)?;
    Ok(Ready {
        batch,
        done,
        state: after,
    })
}
