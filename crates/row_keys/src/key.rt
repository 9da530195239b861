//! Keys of rows.
ghost use Rattle.std.specs.Prelude.{◌≡◌, ◌++◌, List, OnOk};
ghost use Rattle.content_rows.specs.declared.cell.Cell.{Cell};
ghost use Rattle.content_rows.specs.declared.row.Row.{Row};
ghost use Rattle.index_law.specs.Index.{TellsApart, NameOwners};

use content_rows::{Cell, Row};
use std::alloc::AllocError;

/// A key of an index of rows.
pub trait Key: Ord + Copy {
    /// The keys that a row gives.
    ghost keys: { Cell × Row → List Self };

    /// The cell that a key names.
    ghost owner: { Self → Cell };

    /// Adds the keys that the row of a cell gives. `Err` only where memory is wanting.
    fn add(found: &mut Vec<Self>, cell: &Cell, row: &Row) -> Result<(), AllocError>
        ensures { OnOk result (found.new.items ≡ found.old.items ++ keys (cell.now, row.now)) };

    /// Two keys are level where they are one.
    ghost exact: { TellsApart Self.cmp };

    /// Each key names the cell whose row gives it.
    ghost named: { NameOwners Self.cmp keys owner };
}
