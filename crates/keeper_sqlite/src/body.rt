//! Rows as a database holds them: each is one object of JSON.
ghost use Rattle.std.specs.Prelude.{◌≡◌, ◌≢◌, IfOk, IfSome, None, Some, option_map, string_bytes};
ghost use Rattle.serde_json.specs.View.{view};
ghost use Rattle.std.specs.Str.{bytes_eq};
ghost use Rattle.content_rows.specs.CellText.{cell_text};
ghost use Rattle.content_rows.specs.ValidRow.{IsValidRow};
ghost use Rattle.json_keys.specs.declared.checked.Checked.TheVariants as checked;
ghost use Rattle.keeper_sqlite.specs.Batches.{IsBody};
ghost use Rattle.keeper_sqlite.specs.Bodies.{value_of, in_its_cell, row_told, row_of};

use content_rows::{Cell, Row};
use row_json::{RowFault, row_from_json, row_to_json};
use serde_json::Value;
use std::alloc::{AllocError, Global};

/// The value of JSON that a body is; none where it is no JSON. `Err` only where memory is wanting.
fn value_of(alloc: Global, body: &[u8]) -> Result<Option<Value>, AllocError>
    ensures { IfOk result (λ value. option_map view value ≡ value_of body.now) }
{
    match Value::from_slice(alloc, body) {
        Ok(value) => Ok(Some(value)),
        Err(error) => {
            if error.is_memory() {
                Err(AllocError)
            } else {
                Ok(None)
            }
        }
    }
}

/// Whether a cell has this text. `Err` only where memory is wanting.
fn has_text(alloc: Global, cell: &Cell, text: &[u8]) -> Result<bool, AllocError>
    ensures { IfOk result (λ same. same ≡ bytes_eq (cell_text cell.now) text.now) }
{
    let own = cell.text(alloc)?;
    Ok(own.as_slice() == text)
}

/// A right row, where the cell that it stands in is its own. `Err` only where memory is wanting.
fn in_its_cell(
    alloc: Global,
    cell: &[u8],
    row: (Cell, Row),
) -> Result<Option<(Cell, Row)>, AllocError>
    requires { IsValidRow row.0 row.1 }
    ensures told { IfOk result (λ told. told ≡ in_its_cell cell.now (checked.Right row)) }
    ensures right { IfOk result (λ told. IfSome told (λ row. IsValidRow row.0 row.1)) }
{
    // a row is dropped by a call: one that ends by itself is proved kind by kind, at each way out
    match has_text(alloc, &row.0, cell) {
        Ok(true) => Ok(Some(row)),
        Ok(false) => {
            drop(row);
            Ok(None)
        }
        Err(error) => {
            drop(row);
            Err(error)
        }
    }
}

/// The row of a cell that a value is. `Err` only where memory is wanting.
fn row_told(alloc: Global, cell: &[u8], value: &Value) -> Result<Option<(Cell, Row)>, AllocError>
    ensures told { IfOk result (λ row. row ≡ row_told cell.now (Some (view value.now))) }
    ensures right { IfOk result (λ row. IfSome row (λ row. IsValidRow row.0 row.1)) }
{
    match row_from_json(alloc, value) {
        Ok(row) => in_its_cell(alloc, cell, row),
        Err(fault) => no_row(fault),
    }
}

/// No row, for a rule that is broken. `Err` where memory is wanting.
fn no_row(fault: RowFault) -> Result<Option<(Cell, Row)>, AllocError>
    ensures { IfOk result (λ row. row ≡ None × fault ≢ RowFault.OutOfMemory) }
{
    match fault {
        RowFault::Rule { .. } => Ok(None),
        RowFault::OutOfMemory => Err(AllocError),
    }
}

/// The row of a cell that a body is, right by itself; none where it is none. `Err` only where memory is wanting.
pub(crate) fn row_of(
    alloc: Global,
    cell: &[u8],
    body: &[u8],
) -> Result<Option<(Cell, Row)>, AllocError>
    ensures told { IfOk result (λ row. row ≡ row_of cell.now body.now) }
    ensures right { IfOk result (λ row. IfSome row (λ row. IsValidRow row.0 row.1)) }
{
    match value_of(alloc, body)? {
        Some(value) => row_told(alloc, cell, &value),
        None => Ok(None),
    }
}

/// The body of a row, which is read as that row where it is right for the cell. `Err` only where memory is wanting.
pub(crate) fn body_of(alloc: Global, cell: &Cell, row: &Row) -> Result<String, AllocError>
    ensures back { IfOk result (λ body. IsBody cell.now row.now (string_bytes body)) }
{
    let value = row_to_json(alloc, cell, row)?;
    let body = value.to_string(alloc)?;
    Ok(body)
}
