//! Rows with their cells, of JSON and in JSON.
ghost use Rattle.std.specs.Prelude.{◌≡◌, IfOk, IfErr, codes};
ghost use Rattle.serde_json.specs.Find.{get};
ghost use Rattle.serde_json.specs.View.{view, members_view};
ghost use Rattle.content_rows.specs.ValidRow.{IsValidRow};
ghost use Rattle.json_keys.specs.Checked.{unless_faulty};
ghost use Rattle.json_keys.specs.Fault.{seen, members_in};
ghost use Rattle.json_keys.specs.declared.checked.Checked.TheVariants as checked;
ghost use Rattle.row_json.specs.Cells.{IsTypedCell};
ghost use Rattle.row_json.specs.Whole.{whole_fault};
ghost use Rattle.row_json.specs.Reading.{cell_in, of_kind, row_in, reading, row_data, written, HasAllKeys, IsFaultOf, IsRefused, IsTypedRow};

use crate::cell::{cell_of, has_its_name};
use crate::fault::RowFault;
use crate::kind::Kind;
use crate::whole::whole_fault;
use content_rows::{
    Block, Cell, Comment, Listing, Menu, Node, NodeType, Role, Row, Seq, Session, Site, Talk, Term,
    Text, User,
};
use json_keys::{Checked, Key, Rule, walk};
use row_kinds::{
    BLOCK, COMMENT, LISTING, MENU, NODE, ROLE, SEQ, SESSION, SITE, TALK, TERM, TYPE, USER, Write,
    put_at, read_checked,
};
use serde_json::{Map, Value};
use std::alloc::{AllocError, Global};

/// The cell of an object, or what is wrong with it.
fn cell_in(alloc: Global, value: &Value) -> Result<Checked<Cell>, AllocError>
    ensures { IfOk result (λ c. c ≡ cell_in (get (codes "cell") (view value.now))) }
{
    let rule = match value.get("cell") {
        Some(Value::String(text)) => match cell_of(text.as_bytes()) {
            Some(cell) => return Ok(Checked::Right(cell)),
            None => Rule::Bytes,
        },
        Some(_) => Rule::Kind,
        None => Rule::Missing,
    };
    Ok(Checked::Broken(Text::copied(alloc, b"cell")?, rule))
}

/// A row of a kind, by a table of keys, or the first rule that one key breaks. `Err` only where
/// memory is wanting.
pub fn of_kind<T: Kind>(
    alloc: Global,
    keys: &[Key],
    value: &Value,
) -> Result<Checked<Row>, AllocError>
    ensures { IfOk result (λ c. c ≡ of_kind T.made T.of (seen keys.now) (view value.now)) }
{
    let read: Checked<T> = read_checked(alloc, keys, value)?;
    match read {
        Checked::Right(row) => Ok(Checked::Right(row.into_row())),
        Checked::Broken(field, rule) => Ok(Checked::Broken(field, rule)),
    }
}

/// The row of a cell, by its table of keys.
fn row_in(alloc: Global, value: &Value, cell: &Cell) -> Result<Checked<Row>, AllocError>
    ensures { IfOk result (λ c. c ≡ row_in (view value.now) cell.now) }
{
    match cell {
        Cell::Site => of_kind::<Site>(alloc, &SITE, value),
        Cell::Seq => of_kind::<Seq>(alloc, &SEQ, value),
        Cell::NodeType(_) => of_kind::<NodeType>(alloc, &TYPE, value),
        Cell::Role(_) => of_kind::<Role>(alloc, &ROLE, value),
        Cell::User(_) => of_kind::<User>(alloc, &USER, value),
        Cell::Term(_) => of_kind::<Term>(alloc, &TERM, value),
        Cell::Node(_) => of_kind::<Node>(alloc, &NODE, value),
        Cell::Menu(_) => of_kind::<Menu>(alloc, &MENU, value),
        Cell::Listing(_) => of_kind::<Listing>(alloc, &LISTING, value),
        Cell::Block(_) => of_kind::<Block>(alloc, &BLOCK, value),
        Cell::Session(_) => of_kind::<Session>(alloc, &SESSION, value),
        Cell::Comment(_) => of_kind::<Comment>(alloc, &COMMENT, value),
        Cell::Talk => of_kind::<Talk>(alloc, &TALK, value),
        Cell::Head => Ok(Checked::Broken(Text::copied(alloc, b"cell")?, Rule::Bytes)),
    }
}

/// A row, or what its keys break together.
fn unless_faulty(alloc: Global, cell: Cell, row: Row) -> Result<Checked<(Cell, Row)>, AllocError>
    ensures { IfOk result (λ c. c ≡ unless_faulty (cell, row) (whole_fault row)) }
{
    match whole_fault(&row) {
        Some((field, rule)) => {
            // by a call, since a row that ends by itself is proved kind by kind at each way out
            drop(row);
            Ok(Checked::Broken(Text::copied(alloc, field.as_bytes())?, rule))
        }
        None => Ok(Checked::Right((cell, row))),
    }
}

/// What an object says as a row with its cell, or the first rule that it breaks: first of its
/// cell; then of the keys that are there, in the order of their bytes; then of those that are
/// missing; then of all of them together. `Err` only where memory is wanting.
pub fn reading(alloc: Global, value: &Value) -> Result<Checked<(Cell, Row)>, AllocError>
    ensures { IfOk result (λ c. c ≡ reading (view value.now)) }
{
    match cell_in(alloc, value)? {
        Checked::Right(cell) => match row_in(alloc, value, &cell)? {
            Checked::Right(row) => unless_faulty(alloc, cell, row),
            Checked::Broken(field, rule) => Ok(Checked::Broken(field, rule)),
        },
        Checked::Broken(field, rule) => Ok(Checked::Broken(field, rule)),
    }
}

/// The row with its cell that an object says; `Rule` exactly where it breaks one, the first of
/// them, and `OutOfMemory` where memory is wanting. A row that was read is right for its cell,
/// and is written as the object that it was read of, where that has all keys: of a term's,
/// `parent` may be missing, and is read as null. No right row is written, or was before terms had
/// parents, as an object that was refused.
pub fn row_from_json(alloc: Global, value: &Value) -> Result<(Cell, Row), RowFault>
    ensures told { IfOk result (λ row. reading (view value.now) ≡ checked.Right row) }
    ensures right { IfOk result (λ row. IsValidRow row.0 row.1) }
    ensures same { IfOk result (λ row. HasAllKeys row.0 (view value.now) → written row.0 row.1 ≡ view value.now) }
    ensures fault { IfErr result (IsFaultOf (view value.now)) }
    ensures refused { IfErr result (IsRefused (view value.now)) }
{
    walk(value);
    match reading(alloc, value)? {
        Checked::Right(row) => Ok(row),
        Checked::Broken(field, rule) => Err(RowFault::Rule { field, rule }),
    }
}

/// A row with its cell as one object, which is read as that row again where it is right for the
/// cell. `Err` only where memory is wanting.
pub fn row_to_json(alloc: Global, cell: &Cell, row: &Row) -> Result<Value, AllocError>
    ensures written { IfOk result (λ v. view v ≡ written cell.now row.now) }
    ensures back { IfOk result (λ v. IsValidRow cell.now row.now → reading (view v) ≡ checked.Right (cell.now, row.now)) }
{
    Ok(object_of(alloc, cell, row)?)
}

/// A row with its cell as one object, and what their types say.
fn object_of(alloc: Global, cell: &Cell, row: &Row) -> Result<Value, AllocError>
    ensures written { IfOk result (λ v. view v ≡ written cell.now row.now) }
    ensures of_cell { IfOk result (λ v. IsTypedCell cell.now) }
    ensures of_row { IfOk result (λ v. IsTypedRow row.now) }
{
    let mut map = members(alloc, row_value(alloc, row)?);
    let text = cell.text(alloc)?;
    has_its_name(cell);
    put_at(alloc, &mut map, "cell", &text)?;
    Ok(Value::Object(map))
}

/// The keys of a row as an object.
fn row_value(alloc: Global, row: &Row) -> Result<Value, AllocError>
    ensures written { IfOk result (λ v. view v ≡ row_data row.now) }
    ensures of_type { IfOk result (λ v. IsTypedRow row.now) }
{
    match row {
        Row::Site(row) => row.write(alloc),
        Row::Seq(row) => row.write(alloc),
        Row::NodeType(row) => row.write(alloc),
        Row::Role(row) => row.write(alloc),
        Row::User(row) => row.write(alloc),
        Row::Term(row) => row.write(alloc),
        Row::Node(row) => row.write(alloc),
        Row::Menu(row) => row.write(alloc),
        Row::Listing(row) => row.write(alloc),
        Row::Block(row) => row.write(alloc),
        Row::Session(row) => row.write(alloc),
        Row::Comment(row) => row.write(alloc),
        Row::Talk(row) => row.write(alloc),
    }
}

/// The members of an object; none of what is no object.
fn members(alloc: Global, value: Value) -> Map<String, Value>
    ensures { members_view result.entries ≡ members_in (view value) }
{
    match value {
        Value::Object(map) => map,
        _ => Map::new(alloc),
    }
}
