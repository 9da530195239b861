//! Texts by machine names, as the fields of a node are.
ghost use Rattle.std.specs.Prelude.{◌≡◌, IfOk, OnOk, IsOk};
ghost use Rattle.std.specs.List.{AllByRecursion};
ghost use Rattle.serde_json.specs.Data.{Members, object, put};
ghost use Rattle.serde_json.specs.View.{view, members_view};
ghost use Rattle.json_keys.specs.Fault.{members_in};
ghost use Rattle.row_kinds.specs.Look.{value_at, texts_in, texts_data, IsTypedText, IsNameText};

use crate::field::{Read, name_bytes, name_in, put_at};
use cacheability::Name;
use content_rows::{FieldValue, Items};
use serde_json::{Map, Value};
use std::alloc::{AllocError, Global};

/// The texts at a key, by their names; none where it has no object. `Err` only where memory is
/// wanting.
pub fn texts_at(alloc: Global, value: &Value, key: &str) -> Result<Items<FieldValue>, AllocError>
    ensures { IfOk result (λ xs. xs ≡ texts_in (members_in (value_at key.now (view value.now)))) }
{
    match value.get(key) {
        Some(Value::Object(members)) => Ok(read_texts(alloc, members)?),
        _ => Ok(Items::none(alloc)),
    }
}

/// Texts by their names.
fn read_texts(alloc: Global, members: &Map<String, Value>) -> Result<Items<FieldValue>, AllocError>
    ensures { IfOk result (λ xs. xs ≡ texts_in (members_view members.now.entries)) }
{
    let mut read = Vec::new(alloc);
    'members: for (name, value) in members.iter() {
        read.push(FieldValue {
            name: name_in(name.as_bytes()),
            value: Read::read(alloc, value)?,
        })?;
    }
    Ok(Items::from_vec(read))
}

/// An object with texts by their names at a key more. `Err` where memory is wanting, or was wanting
/// before.
pub(crate) fn with_texts(
    alloc: Global,
    map: Result<Map<String, Value>, AllocError>,
    key: &str,
    texts: &Items<FieldValue>,
) -> Result<Map<String, Value>, AllocError>
    ensures written { (ms : Members) → IfOk map (λ m. members_view m.entries ≡ ms) → IfOk result (λ m. members_view m.entries ≡ put key.now (object (texts_data texts.now)) ms) }
    ensures of_type { OnOk result (IsOk map × AllByRecursion IsTypedText texts.now) }
{
    let mut map = map?;
    let written = write_texts(alloc, texts.as_slice())?;
    serde_json::put(&mut map, alloc, key, Value::Object(written))?;
    Ok(map)
}

/// Writes texts by their names.
fn write_texts(alloc: Global, texts: &[FieldValue]) -> Result<Map<String, Value>, AllocError>
    ensures written { IfOk result (λ m. members_view m.entries ≡ texts_data texts.now) }
    ensures of_type { IfOk result (λ m. AllByRecursion IsTypedText texts.now) }
{
    let mut map = Map::new(alloc);
    'texts: for text in texts {
        put_at(alloc, &mut map, name_text(&text.name), &text.value)?;
    }
    Ok(map)
}

/// The text of a name, which is one.
fn name_text(name: &Name) -> &str
    ensures same { result.now ≡ name.now }
    ensures of_name { IsNameText name.now }
{
    match str::from_utf8(name_bytes(name)) {
        Ok(text) => text,
        Err(_) => unreachable!(),
    }
}
