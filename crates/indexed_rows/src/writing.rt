//! Writes to the rows of a state.
ghost use Rattle.std.specs.Prelude.{◌≡◌, ◌≤◌, ◌+◌, ◌*◌, ℕ, OnOk, fold, length};
ghost use Rattle.bucket_map.specs.Buckets.{bucket_size, AtMost};
ghost use Rattle.cell_keys.specs.Places.{cell_place};
ghost use Rattle.indexed_rows.specs.Cells.{cells_of};
ghost use Rattle.indexed_rows.specs.Indexes.{AreIndexes};
ghost use Rattle.indexed_rows.specs.Write.{written};

use crate::indexes::Indexes;
use crate::rows::Rows;
use crate::write::Write;
use bucket_map::Steps;
use std::alloc::{AllocError, Global};
use std::sync::Arc;
use std::sync::ledger::Ledger;

/// Makes each of these writes in turn, and keeps the indexes of the rows with them. `Err` only where memory is wanting. The
/// steps are the rows that are put into buckets.
pub fn write_all<L: Ledger>(
    alloc: Global,
    rows: &mut Rows,
    indexes: &mut Indexes,
    writes: &[Write],
    steps: &mut Steps<L>,
) -> Result<(), AllocError>
    requires { AreIndexes rows.old indexes.old }
    ensures rows { OnOk result (rows.new ≡ fold written rows.old writes.now) }
    ensures indexes { OnOk result (AreIndexes rows.new indexes.new) }
    ensures cost { (most : ℕ) → AtMost cell_place rows.old most (cells_of writes.now) → steps.new ≤ steps.old + (most + length writes.now) * length writes.now }
{
    'writes: for write in writes {
        indexes.follow(alloc, rows, write)?;
        make_write(rows, write, steps)?;
    }
    Ok(())
}

/// Makes one write: the cell gets the row, which is shared with the edit, or it has none then.
fn make_write<L: Ledger>(
    rows: &mut Rows,
    write: &Write,
    steps: &mut Steps<L>,
) -> Result<(), AllocError>
    ensures same { OnOk result (rows.new ≡ written rows.old write.now) }
    ensures cost { steps.new ≤ steps.old + (bucket_size cell_place rows.old (cell_place write.now.cell) + 1) }
{
    match &write.row {
        Some(row) => rows.set_counted(write.cell, Arc::try_clone(row)?, steps),
        None => rows.remove_counted(&write.cell, steps),
    }
}
