//! The log of a hall.
ghost use Rattle.std.specs.Prelude.{◌≡◌, ◌≤◌, ◌<◌, ◌^◌, ◌++◌, ◌∷◌, ◌↔◌, [], length, IfOk, OnOk, IsTrue};
ghost use Rattle.std.specs.Arc.{arc_value};
ghost use Rattle.content_state.specs.Replay.{step, replay};
ghost use Rattle.site_house.specs.History.{newest_of};
ghost use Rattle.site_hall.specs.Log.{newest_in, IsNext};

use crate::edit::{Made, SharedEdit};
use content_state::State;
use std::alloc::{AllocError, Global};
use std::marker::Model;
use std::sync::Arc;

/// How many edits a log can have.
const LIMIT: usize = 1_000_000;

/// The state that was loaded, the edits that were published since, and the state that they make of it.
pub(crate) struct Log {
    base: Arc<State>,
    edits: Vec<SharedEdit>,
    newest: Arc<State>,
}

impl Drop for Log {
    fn drop(self) {
        let Log {
            base: _,
            edits: _,
            newest: _,
        } = self;
    }
}

impl Model for Log {
    ghost use Rattle.std.specs.Prelude.{◌-◌};
    ghost use Rattle.std.specs.Arc.{arc_value};
    ghost use Rattle.std.specs.Vec.{vec_len, vec_capacity};
    ghost use Rattle.site_hall.specs.Log.{Log as LogValue, IsLog};

    ghost Value = { LogValue };

    ghost view = { λ l. record { base = arc_value l.base; edits = l.edits.items; room = vec_capacity l.edits - vec_len l.edits } };

    ghost invariant = { λ l. IsLog (arc_value l.base) l.edits.items (arc_value l.newest) };
}

impl Log {
    /// The log of a state that was loaded, with no edits yet. `Err` only where memory is wanting.
    #[tactic(auto, unfolding(content_state::specs::Replay::replay))]
    pub(crate) fn new(alloc: Global, base: State) -> Result<Log, AllocError>
        requires { base.number ≤ 2 ^ 62 }
        ensures base { IfOk result (λ log. log.base ≡ base) }
        ensures edits { IfOk result (λ log. log.edits ≡ []) }
    {
        let base = Arc::new(alloc, base)?;
        let newest = Arc::try_clone(&base)?;
        Ok(Log {
            base,
            edits: Vec::new(alloc),
            newest,
        })
    }

    /// The newest state. One more than its number is a u64 too.
    pub(crate) fn newest(&self) -> &Arc<State>
        ensures newest { arc_value result.now ≡ newest_in self.now }
        ensures small { (arc_value result.now).number < 2 ^ 63 }
    {
        &self.newest
    }

    /// The number of the newest state. One more is a u64 too.
    pub(crate) fn number(&self) -> u64
        ensures number { result ≡ newest_of self.now.base self.now.edits }
        ensures small { result < 2 ^ 63 }
    {
        self.newest.number()
    }

    /// How many edits were published.
    pub(crate) fn len(&self) -> usize
        ensures { result ≡ length self.now.edits }
    {
        self.edits.len()
    }

    /// Whether the log can have no more edits.
    pub(crate) fn is_full(&self) -> bool
        ensures full { IsTrue result ↔ (1000000 ≤ length self.now.edits) }
    {
        self.edits.len() >= LIMIT
    }

    /// Makes a place for an edit. `Err` only where memory is wanting.
    pub(crate) fn reserve(&mut self) -> Result<(), AllocError>
        ensures base { self.new.base ≡ self.old.base }
        ensures edits { self.new.edits ≡ self.old.edits }
        ensures room { OnOk result (0 < self.new.room) }
    {
        self.edits.reserve(1)
    }

    /// Publishes an edit of the newest state in a place that was made for it. It takes no memory.
    pub(crate) fn publish(&mut self, made: Made)
        requires next { IsNext self.old made }
        requires room { 0 < self.old.room }
        requires short { length self.old.edits < 1000000 }
        ensures base { self.new.base ≡ self.old.base }
        ensures edits { self.new.edits ≡ self.old.edits ++ made.commit ∷ [] }
    {
        let Made { commit, state } = made;
        match self.edits.push(SharedEdit { commit }) {
            Ok(()) => self.newest = state,
            Err(_) => unreachable!(),
        }
    }
}
