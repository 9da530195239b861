//! Rows, with the indexes of them.
ghost use Rattle.std.specs.Prelude.{◌≡◌, ◌≤◌, ◌+◌, ◌*◌, ℕ, IfErr, IfOk, fold, length};
ghost use Rattle.bucket_map.specs.Buckets.{AtMost};
ghost use Rattle.cell_keys.specs.Places.{cell_place};
ghost use Rattle.indexed_rows.specs.Cells.{cells_of};
ghost use Rattle.indexed_rows.specs.Indexes.{AreIndexes};
ghost use Rattle.indexed_rows.specs.Write.{written};

use crate::indexes::Indexes;
use crate::rows::Rows;
use crate::write::Write;
use crate::writing::write_all;
use bucket_map::Steps;
use std::alloc::{AllocError, Global};
use std::marker::Model;
use std::sync::ledger::Ledger;

/// Rows, which contracts see alone, with the indexes of them.
pub struct IndexedRows {
    rows: Rows,
    indexes: Indexes,
}

impl Drop for IndexedRows {
    fn drop(self) {
        let IndexedRows {
            rows: _,
            indexes: _,
        } = self;
    }
}

impl Model for IndexedRows {
    ghost use Rattle.std.specs.Prelude.{List};
    ghost use Rattle.content_rows.specs.declared.cell.Cell.{Cell as CellValue};
    ghost use Rattle.content_rows.specs.declared.row.Row.{Row as RowValue};
    ghost use Rattle.indexed_rows.specs.Indexes.{AreIndexes};

    ghost Value = { List (CellValue × RowValue) };

    ghost view = { λ r. r.rows };

    ghost invariant = { λ r. AreIndexes r.rows r.indexes };
}

impl IndexedRows {
    /// These rows, with their indexes. Where memory is wanting, the rows come back.
    pub fn of(alloc: Global, rows: Rows) -> Result<IndexedRows, Rows>
        ensures ok { IfOk result (λ r. r ≡ rows) }
        ensures back { IfErr result (λ r. r ≡ rows) }
    {
        match Indexes::of(alloc, &rows) {
            Ok(indexes) => Ok(IndexedRows { rows, indexes }),
            Err(_) => Err(rows),
        }
    }

    /// The rows.
    pub fn rows(&self) -> &Rows
        ensures { result.now ≡ self.now }
    {
        &self.rows
    }

    /// The indexes of the rows.
    pub fn indexes(&self) -> &Indexes
        ensures { AreIndexes self.now result.now }
    {
        &self.indexes
    }

    /// The rows alone.
    pub fn into_rows(self) -> Rows
        ensures { result ≡ self }
    {
        let IndexedRows { rows, indexes: _ } = self;
        rows
    }

    /// A copy of the rows and their indexes, which shares each of them with these. `Err` only where memory is wanting.
    pub fn duplicate(&self, alloc: Global) -> Result<IndexedRows, AllocError>
        ensures { IfOk result (λ copy. copy ≡ self.now) }
    {
        Ok(IndexedRows {
            rows: self.rows.duplicate(alloc)?,
            indexes: self.indexes.share()?,
        })
    }

    /// The rows after these writes. Each row is shared, and none is copied: the steps are those that are put into buckets.
    /// `Err` only where memory is wanting.
    pub fn after<L: Ledger>(
        &self,
        alloc: Global,
        writes: &[Write],
        steps: &mut Steps<L>,
    ) -> Result<IndexedRows, AllocError>
        ensures same { IfOk result (λ r. r ≡ fold written self.now writes.now) }
        ensures cost { (most : ℕ) → AtMost cell_place self.now most (cells_of writes.now) → steps.new ≤ steps.old + (most + length writes.now) * length writes.now }
    {
        let mut rows = self.rows.duplicate(alloc)?;
        let mut indexes = self.indexes.share()?;
        write_all(alloc, &mut rows, &mut indexes, writes, steps)?;
        Ok(IndexedRows { rows, indexes })
    }
}
