//! All that a keeper holds.
ghost use Rattle.std.specs.Prelude.{◌≡◌, ◌↔◌, IfOk, OnOk, IsTrue};
ghost use Rattle.std.specs.List.{fold};
ghost use Rattle.indexed_rows.specs.Write.{written};
ghost use Rattle.indexed_rows.specs.Rows.{AreValidRows};
ghost use Rattle.site_keeper.specs.Keeper.{with_batch, with_entry};

use crate::batch::Batch;
use cacheability::Tag;
use content_state::{Rows, Write};
use std::alloc::{AllocError, Global};
use std::sync::Arc;
use tag_counts::Counts;

/// All that a keeper holds of a site.
#[derive(Drop)]
pub struct Stored {
    /// The rows.
    pub rows: Rows,
    /// How often each tag was invalidated.
    pub counts: Counts,
    /// The number of the last batch that was kept, or what the keeper was made with.
    pub head: u64,
}

impl Stored {
    /// A copy of all that is held, which shares each row with the original. `Err` only where memory is wanting.
    pub fn duplicate(&self, alloc: Global) -> Result<Stored, AllocError>
        ensures { IfOk result (λ copy. copy ≡ self.now) }
    {
        Ok(Stored {
            rows: self.rows.duplicate(alloc)?,
            counts: self.counts.duplicate(alloc)?,
            head: self.head,
        })
    }

    /// Whether each row is right by itself, once a batch is kept. `Err` only where memory is wanting.
    pub fn is_right_with(&self, alloc: Global, batch: &Batch) -> Result<bool, AllocError>
        ensures { IfOk result (λ right. IsTrue right ↔ AreValidRows (with_batch self.now batch.now).rows) }
    {
        let mut after = self.duplicate(alloc)?;
        after.keep(batch)?;
        Ok(after.rows.are_right())
    }

    /// Keeps a batch. `Err` only where memory is wanting, and then a part of it may be kept.
    #[tactic(auto, unfolding(crate::specs::Keeper::with_batch))]
    pub(crate) fn keep(&mut self, batch: &Batch) -> Result<(), AllocError>
        ensures { OnOk result (self.new ≡ with_batch self.old batch.now) }
    {
        make_writes(&mut self.rows, batch.commit.writes.as_slice())?;
        set_counts(&mut self.counts, batch.counts.as_slice())?;
        self.head = batch.head;
        Ok(())
    }
}

// Makes writes in turn.
fn make_writes(rows: &mut Rows, writes: &[Write]) -> Result<(), AllocError>
    ensures { OnOk result (rows.new ≡ fold written rows.old writes.now) }
{
    'writes: for write in writes {
        make_write(rows, write)?;
    }
    Ok(())
}

// Makes a write.
fn make_write(rows: &mut Rows, write: &Write) -> Result<(), AllocError>
    ensures { OnOk result (rows.new ≡ written rows.old write.now) }
{
    match &write.row {
        Some(row) => rows.set(write.cell, Arc::try_clone(row)?)?,
        None => rows.remove(&write.cell)?,
    }
    Ok(())
}

// Sets counts in turn.
fn set_counts(counts: &mut Counts, entries: &[(Tag, u64)]) -> Result<(), AllocError>
    ensures { OnOk result (counts.new ≡ fold with_entry counts.old entries.now) }
{
    'entries: for entry in entries {
        let (tag, count) = *entry;
        counts.set(&tag, count)?;
    }
    Ok(())
}
