//! The rows of an answer, as lines.
ghost use Rattle.std.specs.Prelude.{◌≡◌, IfOk, map, option_map};
ghost use Rattle.sqlite.specs.Order.{column};
ghost use Rattle.table_laws.specs.Stored.{text_of, bytes_of, shown_entry};

use sqlite::Row;
use sqlite::types::ValueRef;
use std::alloc::{AllocError, Global};
use store_six::Line;

/// The text in a column; none where something else stands there.
fn text_at(row: &Row, at: usize) -> Option<&[u8]>
    ensures { option_map (λ text. text.now) result ≡ text_of (column row.now at) }
{
    match row.get_ref(at) {
        Ok(ValueRef::Text(text)) => Some(text),
        _ => None,
    }
}

/// The bytes in a column; none where something else stands there.
fn bytes_at(row: &Row, at: usize) -> Option<&[u8]>
    ensures { option_map (λ bytes. bytes.now) result ≡ bytes_of (column row.now at) }
{
    match row.get_ref(at) {
        Ok(ValueRef::Blob(bytes)) => Some(bytes),
        _ => None,
    }
}

/// A cell with its body. `Err` only where memory is wanting.
fn row_line(alloc: Global, row: &Row) -> Result<Option<Line>, AllocError>
    ensures { IfOk result (λ line. line ≡ shown_entry text_of row.now) }
{
    let Some(cell) = text_at(row, 0) else {
        return Ok(None);
    };
    match text_at(row, 1) {
        Some(body) => Ok(Some(Line::new(alloc, cell, body)?)),
        None => Ok(None),
    }
}

/// A tag with its count. `Err` only where memory is wanting.
fn tag_line(alloc: Global, row: &Row) -> Result<Option<Line>, AllocError>
    ensures { IfOk result (λ line. line ≡ shown_entry bytes_of row.now) }
{
    let Some(tag) = text_at(row, 0) else {
        return Ok(None);
    };
    match bytes_at(row, 1) {
        Some(count) => Ok(Some(Line::new(alloc, tag, count)?)),
        None => Ok(None),
    }
}

/// A body alone. `Err` only where memory is wanting.
fn body_in(alloc: Global, row: &Row) -> Result<Option<Vec<u8>>, AllocError>
    ensures { IfOk result (λ body. option_map (λ body. body.items) body ≡ text_of (column row.now 0)) }
{
    match text_at(row, 0) {
        Some(body) => Ok(Some(Vec::from_slice(alloc, body)?)),
        None => Ok(None),
    }
}

/// The cells with their bodies. `Err` only where memory is wanting.
pub(crate) fn row_lines(alloc: Global, rows: &[Row]) -> Result<Vec<Option<Line>>, AllocError>
    ensures { IfOk result (λ lines. lines.items ≡ map (shown_entry text_of) rows.now) }
{
    let mut lines = Vec::new(alloc);
    'rows: for row in rows {
        lines.push(row_line(alloc, row)?)?;
    }
    Ok(lines)
}

/// The tags with their counts. `Err` only where memory is wanting.
pub(crate) fn tag_lines(alloc: Global, rows: &[Row]) -> Result<Vec<Option<Line>>, AllocError>
    ensures { IfOk result (λ lines. lines.items ≡ map (shown_entry bytes_of) rows.now) }
{
    let mut lines = Vec::new(alloc);
    'rows: for row in rows {
        lines.push(tag_line(alloc, row)?)?;
    }
    Ok(lines)
}

/// The bodies. `Err` only where memory is wanting.
pub(crate) fn bodies(alloc: Global, rows: &[Row]) -> Result<Vec<Option<Vec<u8>>>, AllocError>
    ensures { IfOk result (λ found. map (option_map (λ body. body.items)) found.items ≡ map (λ x. text_of (column x 0)) rows.now) }
{
    let mut found = Vec::new(alloc);
    'rows: for row in rows {
        found.push(body_in(alloc, row)?)?;
    }
    Ok(found)
}
