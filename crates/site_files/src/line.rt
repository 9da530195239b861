//! The row that a line is.
ghost use Rattle.std.specs.Prelude.{◌≡◌, IfOk, IfErr, OnOk, Ok, Some, option_map};
ghost use Rattle.std.specs.Arc.{arc_value};
ghost use Rattle.serde_json.specs.View.{view};
ghost use Rattle.content_rows.specs.ValidRow.{IsValidRow};
ghost use Rattle.indexed_rows.specs.Rows.{AreValidRows};
ghost use Rattle.site_files.specs.declared.fault.LineFault.TheVariants as fault;
ghost use Rattle.site_files.specs.declared.fault.ReadFault.TheVariants as why;
ghost use Rattle.site_files.specs.Rows.{row_of_line, row_told, value_of, with_one_more, IsLineFault};

use crate::fault::{LineFault, ReadFault};
use content_rows::{Cell, Row, Text};
use content_state::Rows;
use json_keys::Rule;
use row_json::{RowFault, row_from_json};
use serde_json::Value;
use std::alloc::{AllocError, Global};
use std::sync::Arc;

/// At most so many bytes are a line.
pub(crate) const LONGEST: usize = 1_048_576;

/// The value of JSON that a line is; none where it is no JSON.
fn value_of(alloc: Global, line: &[u8]) -> Result<Option<Value>, AllocError>
    ensures { IfOk result (λ o. option_map view o ≡ value_of line.now) }
{
    match Value::from_slice(alloc, line) {
        Ok(value) => Ok(Some(value)),
        Err(error) => {
            if error.is_memory() {
                Err(AllocError)
            } else {
                Ok(None)
            }
        }
    }
}

/// The row that an object is, or what is wrong with what should be one.
fn row_told(alloc: Global, number: u32, value: &Value) -> Result<(Cell, Row), ReadFault>
    ensures told { IfOk result (λ row. row_told (Some (view value.now)) ≡ Ok row) }
    ensures right { IfOk result (λ row. IsValidRow row.0 row.1) }
    ensures fault { IfErr result (IsLineFault number (row_told (Some (view value.now)))) }
{
    match value {
        Value::Object(_) => match row_from_json(alloc, value) {
            Ok(row) => Ok(row),
            Err(RowFault::Rule { field, rule }) => Err(broken(number, field, rule)),
            Err(RowFault::OutOfMemory) => Err(ReadFault::OutOfMemory),
        },
        _ => Err(bad_json(number)),
    }
}

/// A line that is no JSON object.
fn bad_json(number: u32) -> ReadFault
    ensures { result ≡ why.Line number fault.BadJson }
{
    ReadFault::Line {
        number,
        fault: LineFault::BadJson,
    }
}

/// A line that breaks a rule.
pub(crate) fn broken(number: u32, field: Text, rule: Rule) -> ReadFault
    ensures { result ≡ why.Line number (fault.Rule field rule) }
{
    ReadFault::Line {
        number,
        fault: LineFault::Rule { field, rule },
    }
}

/// The row that a line is, or what is wrong with it.
fn row_of_line(alloc: Global, number: u32, line: &[u8]) -> Result<(Cell, Row), ReadFault>
    ensures told { IfOk result (λ row. row_of_line line.now ≡ Ok row) }
    ensures right { IfOk result (λ row. IsValidRow row.0 row.1) }
    ensures fault { IfErr result (IsLineFault number (row_of_line line.now)) }
{
    if line.len() > LONGEST {
        return Err(broken(number, Text::copied(alloc, b"-")?, Rule::Length));
    }
    match value_of(alloc, line)? {
        Some(value) => row_told(alloc, number, &value),
        None => Err(bad_json(number)),
    }
}

/// Adds the row that a line is, whose cell isn't among those of the rows.
pub(crate) fn add_line(
    alloc: Global,
    number: u32,
    rows: &mut Rows,
    line: &[u8],
) -> Result<(), ReadFault>
    ensures added { OnOk result (with_one_more rows.old (row_of_line line.now) ≡ Ok rows.new) }
    ensures valid { OnOk result (AreValidRows rows.old → AreValidRows rows.new) }
    ensures fault { IfErr result (IsLineFault number (with_one_more rows.old (row_of_line line.now))) }
{
    let (cell, row) = row_of_line(alloc, number, line)?;
    // first of all, so that no way out ends a row by itself, which is proved kind by kind
    let row = shared(alloc, row)?;
    if rows.get(cell).is_some() {
        return Err(broken(number, Text::copied(alloc, b"cell")?, Rule::Twice));
    }
    let Ok(()) = rows.set(cell, row) else {
        return Err(ReadFault::OutOfMemory);
    };
    Ok(())
}

/// A row, to be shared. `Err` only where memory is wanting.
fn shared(alloc: Global, row: Row) -> Result<Arc<Row>, AllocError>
    ensures { IfOk result (λ shared. arc_value shared ≡ row) }
{
    Ok(Arc::new(alloc, row)?)
}
