//! The cells that texts name.
ghost use Rattle.std.specs.Prelude.{◌≡◌, IsTrue};
ghost use Rattle.content_rows.specs.LiteralName.{is_name};
ghost use Rattle.row_json.specs.Cells.{name_if, name_after, id_after, named_cell, placed_cell, numbered_cell, talked_cell, cell_of, IsTypedCell};

use cacheability::Name;
use content_rows::{Cell, id_of};
use json_keys::is_name;
use row_kinds::{name_bytes, name_of};

/// The name that a text is.
fn name_if(text: &[u8]) -> Option<Name>
    ensures { result ≡ name_if text.now }
{
    if is_name(text) {
        Some(name_of(text))
    } else {
        None
    }
}

/// The name that follows a front.
fn name_after(front: &[u8], text: &[u8]) -> Option<Name>
    ensures { result ≡ name_after front.now text.now }
{
    if text.starts_with(front) {
        name_if(&text[front.len()..])
    } else {
        None
    }
}

/// The id that follows a front.
fn id_after(front: &[u8], text: &[u8]) -> Option<u32>
    ensures { result ≡ id_after front.now text.now }
{
    if text.starts_with(front) {
        id_of(&text[front.len()..])
    } else {
        None
    }
}

/// The type, role or session that a text names.
fn named_cell(text: &[u8]) -> Option<Cell>
    ensures { result ≡ named_cell text.now }
{
    if let Some(name) = name_after(b"type:", text) {
        return Some(Cell::NodeType(name));
    }
    if let Some(name) = name_after(b"role:", text) {
        return Some(Cell::Role(name));
    }
    match name_after(b"session:", text) {
        Some(name) => Some(Cell::Session(name)),
        None => None,
    }
}

/// The menu, listing or block that a text names.
fn placed_cell(text: &[u8]) -> Option<Cell>
    ensures { result ≡ placed_cell text.now }
{
    if let Some(name) = name_after(b"menu:", text) {
        return Some(Cell::Menu(name));
    }
    if let Some(name) = name_after(b"listing:", text) {
        return Some(Cell::Listing(name));
    }
    match name_after(b"block:", text) {
        Some(name) => Some(Cell::Block(name)),
        None => None,
    }
}

/// The user, term or node that a text names.
fn numbered_cell(text: &[u8]) -> Option<Cell>
    ensures { result ≡ numbered_cell text.now }
{
    if let Some(id) = id_after(b"user:", text) {
        return Some(Cell::User(id));
    }
    if let Some(id) = id_after(b"term:", text) {
        return Some(Cell::Term(id));
    }
    match id_after(b"node:", text) {
        Some(id) => Some(Cell::Node(id)),
        None => None,
    }
}

/// The comment, or the next id of one, that a text names.
fn talked_cell(text: &[u8]) -> Option<Cell>
    ensures { result ≡ talked_cell text.now }
{
    if text == b"talk".as_slice() {
        return Some(Cell::Talk);
    }
    match id_after(b"comment:", text) {
        Some(id) => Some(Cell::Comment(id)),
        None => None,
    }
}

/// The cell that a text names, as `site` or `node:1`; none where no row can stand there. The head
/// number is no row.
pub fn cell_of(text: &[u8]) -> Option<Cell>
    ensures { result ≡ cell_of text.now }
{
    if text == b"site".as_slice() {
        return Some(Cell::Site);
    }
    if text == b"seq".as_slice() {
        return Some(Cell::Seq);
    }
    if let Some(cell) = named_cell(text) {
        return Some(cell);
    }
    if let Some(cell) = placed_cell(text) {
        return Some(cell);
    }
    if let Some(cell) = numbered_cell(text) {
        return Some(cell);
    }
    talked_cell(text)
}

/// The name of a cell is one, as its type says.
pub(crate) fn has_its_name(cell: &Cell)
    ensures { IsTypedCell cell.now }
{
    match cell {
        Cell::NodeType(name) => is_one(name),
        Cell::Role(name) => is_one(name),
        Cell::Menu(name) => is_one(name),
        Cell::Listing(name) => is_one(name),
        Cell::Block(name) => is_one(name),
        Cell::Session(name) => is_one(name),
        _ => {}
    }
}

/// A name is one.
fn is_one(name: &Name)
    ensures { IsTrue (is_name name.now) }
{
    let _ = name_bytes(name);
}
