//! Keeps a batch in a store of two tables, in one transaction.
ghost use Rattle.std.specs.Prelude.{◌≡◌, false, OnErr};
ghost use Rattle.store_six.specs.At.{at};
ghost use Rattle.store_six.specs.Calls.{Commits, Runs};
ghost use Rattle.keeper_sqlite.specs.Batches.{InTurn, PutsRow, MakesWrite, SetsCount, SetsHead, SetsRest, KeepsBatch, Makes, Undoes, Keeps};

use crate::body::body_of;
use crate::number::{count_bytes, head_text};
use crate::typed::{has_its_number, is_read_back};
use cacheability::Tag;
use content_rows::{Cell, Row};
use content_state::Write;
use site_keeper::Batch;
use std::alloc::Global;
use store_six::{Six, StoreFault};

/// Keeps a batch: all of it where it answers so, and else nothing. A crash meanwhile leaves what is kept then, or before.
#[tactic(none)]
pub fn keep<X: Six>(alloc: Global, six: &mut X, batch: &Batch) -> Result<(), StoreFault>
    ensures { Keeps batch.now (at X.Six six.old) (at X.Six six.new) result }
{
    match six.begin() {
        Ok(()) => match write_batch(alloc, six, batch) {
            Ok(()) => commit(six),
            Err(fault) => Err(given_up(six, fault)),
        },
        Err(fault) => Err(fault),
    }
}

/// Commits a transaction, or rolls it back where that is refused.
#[tactic(none)]
fn commit<X: Six>(six: &mut X) -> Result<(), StoreFault>
    ensures runs { Runs (λ t. t ≡ X.Six.seen six.old) Commits (at X.Six six.old) (at X.Six six.new) result }
    ensures outside { X.Six.clean six.new → OnErr result (X.Six.inside six.new ≡ false) }
{
    match six.commit() {
        Ok(()) => Ok(()),
        Err(refusal) => Err(given_up(six, refusal)),
    }
}

/// Rolls a transaction back, for a fault.
#[tactic(none)]
fn given_up<X: Six>(six: &mut X, fault: StoreFault) -> StoreFault
    ensures same { result ≡ fault }
    ensures undone { Undoes (at X.Six six.old) (at X.Six six.new) }
{
    six.rollback();
    fault
}

/// Writes all of a batch: its writes, its counts and its head.
#[tactic(none)]
fn write_batch<X: Six>(alloc: Global, six: &mut X, batch: &Batch) -> Result<(), StoreFault>
    ensures { Makes (KeepsBatch batch.now) (at X.Six six.old) (at X.Six six.new) result }
{
    match make_writes(alloc, six, batch.commit.writes.as_slice()) {
        Ok(()) => set_rest(alloc, six, batch),
        Err(fault) => Err(fault),
    }
}

/// Writes the counts and the head of a batch.
#[tactic(none)]
fn set_rest<X: Six>(alloc: Global, six: &mut X, batch: &Batch) -> Result<(), StoreFault>
    ensures { Makes (SetsRest batch.now) (at X.Six six.old) (at X.Six six.new) result }
{
    match set_counts(alloc, six, batch.counts.as_slice()) {
        Ok(()) => set_head(alloc, six, batch.head),
        Err(fault) => Err(fault),
    }
}

/// Makes writes in turn.
fn make_writes<X: Six>(alloc: Global, six: &mut X, writes: &[Write]) -> Result<(), StoreFault>
    ensures { Makes (InTurn MakesWrite writes.now) (at X.Six six.old) (at X.Six six.new) result }
{
    'writes: for write in writes {
        match make_write(alloc, six, write) {
            Ok(()) => {}
            Err(fault) => return Err(fault),
        }
    }
    Ok(())
}

/// Makes a write.
#[tactic(none)]
fn make_write<X: Six>(alloc: Global, six: &mut X, write: &Write) -> Result<(), StoreFault>
    ensures { Makes (MakesWrite write.now) (at X.Six six.old) (at X.Six six.new) result }
{
    has_its_number(&write.cell);
    let Ok(cell) = write.cell.text(alloc) else {
        return Err(StoreFault::OutOfMemory);
    };
    match &write.row {
        Some(row) => set_row(alloc, six, &write.cell, row, cell.as_slice()),
        None => six.remove_row(cell.as_slice()),
    }
}

/// Sets the row of a cell, under this text.
#[tactic(none)]
fn set_row<X: Six>(
    alloc: Global,
    six: &mut X,
    cell: &Cell,
    row: &Row,
    text: &[u8],
) -> Result<(), StoreFault>
    ensures { Makes (PutsRow cell.now row.now text.now) (at X.Six six.old) (at X.Six six.new) result }
{
    let Ok(body) = body_of(alloc, cell, row) else {
        return Err(StoreFault::OutOfMemory);
    };
    six.set_row(text, body.as_bytes())
}

/// Sets counts in turn.
fn set_counts<X: Six>(alloc: Global, six: &mut X, counts: &[(Tag, u64)]) -> Result<(), StoreFault>
    ensures { Makes (InTurn SetsCount counts.now) (at X.Six six.old) (at X.Six six.new) result }
{
    'counts: for entry in counts {
        match set_count(alloc, six, entry) {
            Ok(()) => {}
            Err(fault) => return Err(fault),
        }
    }
    Ok(())
}

/// Sets a count.
fn set_count<X: Six>(alloc: Global, six: &mut X, entry: &(Tag, u64)) -> Result<(), StoreFault>
    ensures { Makes (SetsCount entry.now) (at X.Six six.old) (at X.Six six.new) result }
{
    let (tag, count) = *entry;
    is_read_back(&tag);
    let Ok(text) = tag.text(alloc) else {
        return Err(StoreFault::OutOfMemory);
    };
    six.set_tag(text.as_slice(), &count_bytes(count))
}

/// Sets the head.
#[tactic(none)]
fn set_head<X: Six>(alloc: Global, six: &mut X, head: u64) -> Result<(), StoreFault>
    ensures { Makes (SetsHead head) (at X.Six six.old) (at X.Six six.new) result }
{
    let Ok(text) = head_text(alloc, head) else {
        return Err(StoreFault::OutOfMemory);
    };
    six.set_row(b"head", text.as_bytes())
}
