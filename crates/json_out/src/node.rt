//! What is told of a node.
ghost use Rattle.std.specs.Prelude.{◌≡◌, IfOk, map};
ghost use Rattle.serde_json.specs.Data.{object, array};
ghost use Rattle.serde_json.specs.View.{view, members_view, items_view};
ghost use Rattle.row_kinds.specs.Look.{whole_data, items_data, texts_data};
ghost use Rattle.json_out.specs.Told.{node_json};

use crate::object::{no_keys, text_of, with_key, with_value};
use cacheability::Name;
use content_rows::{FieldValue, Node};
use row_kinds::{name_bytes, put_at};
use serde_json::{Map, Value};
use std::alloc::{AllocError, Global};

/// The text of a name, which is one.
fn name_text(name: &Name) -> &str
    ensures { result.now ≡ name.now }
{
    match str::from_utf8(name_bytes(name)) {
        Ok(text) => text,
        Err(_) => unreachable!(),
    }
}

/// Values by the names of their fields.
fn values_by_name(alloc: Global, fields: &[&FieldValue]) -> Result<Map<String, Value>, AllocError>
    ensures { IfOk result (λ m. members_view m.entries ≡ texts_data (map (λ field. field.now) fields.now)) }
{
    let mut values = Map::new(alloc);
    'fields: for field in fields {
        put_at(alloc, &mut values, name_text(&field.name), &field.value)?;
    }
    Ok(values)
}

/// The object of the values of fields, by their names.
fn fields_value(alloc: Global, fields: &[&FieldValue]) -> Result<Value, AllocError>
    ensures { IfOk result (λ v. view v ≡ object (texts_data (map (λ field. field.now) fields.now))) }
{
    Ok(Value::Object(values_by_name(alloc, fields)?))
}

/// Numbers, each as a value.
fn numbers(alloc: Global, ids: &[u32]) -> Result<Vec<Value>, AllocError>
    ensures { IfOk result (λ vs. items_view vs.items ≡ items_data whole_data ids.now) }
{
    let mut values = Vec::with_capacity(alloc, ids.len())?;
    'ids: for id in ids {
        values.push(Value::from(*id))?;
    }
    Ok(values)
}

/// The array of these numbers.
fn numbers_value(alloc: Global, ids: &[u32]) -> Result<Value, AllocError>
    ensures { IfOk result (λ v. view v ≡ array (items_data whole_data ids.now)) }
{
    Ok(Value::Array(numbers(alloc, ids)?))
}

/// What is told of a node (RFC 8259): its number and its row, and of its fields and terms these. `Err` only where memory is wanting.
pub fn node_json(
    alloc: Global,
    n: u32,
    node: &Node,
    fields: &[&FieldValue],
    terms: &[u32],
) -> Result<Vec<u8>, AllocError>
    ensures { IfOk result (λ text. text.items ≡ node_json n node.now (map (λ field. field.now) fields.now) terms.now) }
{
    let map = no_keys(alloc);
    let map = with_key(alloc, map, "created", &node.created);
    let map = with_value(alloc, map, "fields", fields_value(alloc, fields));
    let map = with_key(alloc, map, "nid", &n);
    let map = with_key(alloc, map, "path", &node.path);
    let map = with_value(alloc, map, "terms", numbers_value(alloc, terms));
    let map = with_key(alloc, map, "title", &node.title);
    let map = with_key(alloc, map, "type", &node.node_type);
    let map = with_key(alloc, map, "uid", &node.uid);
    text_of(alloc, map)
}
