//! The line that a row is in a file.
ghost use Rattle.std.specs.Prelude.{◌≡◌, true, IfOk};
ghost use Rattle.std.specs.Str.{bytes_eq};
ghost use Rattle.content_rows.specs.ValidRow.{IsValidRow};
ghost use Rattle.site_import.specs.Lines.{line, TellsItsRow};

use content_rows::{Cell, Row};
use row_json::row_to_json;
use std::alloc::{AllocError, Global};

/// The line of a row, without its end. `Err` only where memory is wanting.
///
/// What the line of a right row says is that row.
pub(crate) fn line_of(alloc: Global, cell: &Cell, row: &Row) -> Result<Vec<u8>, AllocError>
    ensures written { IfOk result (λ text. text.items ≡ line cell.now row.now) }
    ensures told { IfOk result (λ _. IsValidRow cell.now row.now → TellsItsRow cell.now row.now) }
{
    let value = row_to_json(alloc, cell, row)?;
    let text = value.to_vec(alloc)?;
    Ok(text)
}

/// Whether two rows for a cell have the same line. `Err` only where memory is wanting.
///
/// Right rows that have are the same.
pub(crate) fn is_same(alloc: Global, cell: &Cell, old: &Row, new: &Row) -> Result<bool, AllocError>
    ensures lines { IfOk result (λ same. same ≡ bytes_eq (line cell.now old.now) (line cell.now new.now)) }
    ensures rows { IfOk result (λ same. same ≡ true → IsValidRow cell.now old.now → IsValidRow cell.now new.now → old.now ≡ new.now) }
{
    let before = line_of(alloc, cell, old)?;
    let after = line_of(alloc, cell, new)?;
    Ok(before.as_slice() == after.as_slice())
}
