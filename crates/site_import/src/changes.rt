//! What the rows of a file change where some rows stand.
ghost use Rattle.std.specs.Prelude.{◌≡◌, All, IfOk, OnOk, fold};
ghost use Rattle.content_rows.specs.ValidRow.{IsValidRow};
ghost use Rattle.indexed_rows.specs.Write.{written};
ghost use Rattle.indexed_rows.specs.Rows.{AreValidRows, InOrder};
ghost use Rattle.site_import.specs.Changes.{is_change, writes_of, KeepsUnchanged};

use crate::line::is_same;
use content_rows::{Cell, Row};
use content_state::{Rows, State, Write};
use std::alloc::{AllocError, Global};
use std::sync::Arc;

/// Whether a row changes what a state has in its cell. `Err` only where memory is wanting.
///
/// A right row that changes nothing there stands there already.
fn is_change(alloc: Global, base: &State, cell: &Cell, row: &Row) -> Result<bool, AllocError>
    ensures changed { IfOk result (λ changed. changed ≡ is_change base.now.rows (cell.now, row.now)) }
    ensures kept { OnOk result (AreValidRows base.now.rows → IsValidRow cell.now row.now → KeepsUnchanged base.now.rows (cell.now, row.now)) }
{
    match base.rows().get(*cell) {
        Some(old) => {
            let same = is_same(alloc, cell, old, row)?;
            Ok(!same)
        }
        None => Ok(true),
    }
}

/// The writes of those rows of a file that change what a state has in their cells, in cell order. `Err` only where memory is
/// wanting.
pub(crate) fn changes_of(alloc: Global, base: &State, file: &Rows) -> Result<Vec<Write>, AllocError>
    ensures writes { IfOk result (λ writes. writes.items ≡ writes_of base.now.rows file.now) }
    ensures kept { OnOk result (AreValidRows base.now.rows → AreValidRows file.now → All (KeepsUnchanged base.now.rows) file.now) }
    ensures ordered { InOrder file.now }
{
    let entries = file.in_order(alloc)?;
    let mut writes = Vec::new(alloc);
    'rows: for (cell, row) in entries {
        if is_change(alloc, base, &cell, row)? {
            writes.push(Write {
                cell,
                row: file.shared(cell)?,
            })?;
        }
    }
    Ok(writes)
}

/// The rows of a state after some writes. `Err` only where memory is wanting.
pub(crate) fn rows_after(alloc: Global, base: &State, writes: &[Write]) -> Result<Rows, AllocError>
    ensures { IfOk result (λ rows. rows ≡ fold written base.now.rows writes.now) }
{
    let mut rows = base.rows().duplicate(alloc)?;
    'writes: for write in writes {
        make_write(&mut rows, write)?;
    }
    Ok(rows)
}

/// Makes one write: the cell gets the row, which is shared with the edit, or it has none then.
fn make_write(rows: &mut Rows, write: &Write) -> Result<(), AllocError>
    ensures { OnOk result (rows.new ≡ written rows.old write.now) }
{
    match &write.row {
        Some(row) => {
            let shared = Arc::try_clone(row)?;
            rows.set(write.cell, shared)?;
        }
        None => rows.remove(&write.cell)?,
    }
    Ok(())
}
