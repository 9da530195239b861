//! What is kept at once.
ghost use Rattle.std.specs.Prelude.{◌≡◌, IfOk};

use cacheability::Tag;
use content_rows::Items;
use content_state::Commit;
use std::alloc::{AllocError, Global};
use std::marker::Model;
use std::sync::Arc;

/// What is kept at once: the writes of an accepted edit, the new count of each tag that it invalidates, and the number
/// of the state that it makes. Contracts see the edit, and not who shares it.
#[derive(Drop)]
pub struct Batch {
    /// The edit, whose writes are to be made in turn.
    pub commit: Arc<Commit>,
    /// The tags that the edit invalidates, each with how often it was invalidated once the edit is made.
    pub counts: Items<(Tag, u64)>,
    /// The number of the state that the edit makes.
    pub head: u64,
}

impl Model for Batch {
    ghost use Rattle.std.specs.Arc.{arc_value};
    ghost use Rattle.site_keeper.specs.Batch.{Batch as BatchValue};

    ghost Value = { BatchValue };

    ghost view = { λ b. record { commit = arc_value b.commit; counts = b.counts; head = b.head } };
}

impl Batch {
    /// A copy of the batch, which shares the edit with it. `Err` only where memory is wanting.
    pub fn duplicate(&self, alloc: Global) -> Result<Batch, AllocError>
        ensures { IfOk result (λ copy. copy ≡ self.now) }
    {
        Ok(Batch {
            commit: Arc::try_clone(&self.commit)?,
            counts: Items::from_vec(Vec::from_slice(alloc, self.counts.as_slice())?),
            head: self.head,
        })
    }
}
