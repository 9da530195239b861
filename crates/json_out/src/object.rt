//! Objects of JSON, key by key. Who writes one asks once, at its end, whether memory was wanting.
ghost use Rattle.std.specs.Prelude.{◌≡◌, false, IfOk};
ghost use Rattle.serde_json.specs.Data.{Data, Members, object, no_members, put};
ghost use Rattle.serde_json.specs.View.{view, members_view};
ghost use Rattle.serde_json.specs.Written.{compact_text, has_float};

use row_kinds::Write;
use serde_json::{Map, Value};
use std::alloc::{AllocError, Global};

/// An object with no key yet.
pub(crate) fn no_keys(alloc: Global) -> Result<Map<String, Value>, AllocError>
    ensures { IfOk result (λ m. members_view m.entries ≡ no_members) }
{
    Ok(Map::new(alloc))
}

/// An object with a value more, at a key. `Err` where memory is wanting, or was wanting before.
pub(crate) fn with_value(
    alloc: Global,
    map: Result<Map<String, Value>, AllocError>,
    key: &str,
    value: Result<Value, AllocError>,
) -> Result<Map<String, Value>, AllocError>
    ensures { (ms : Members) (d : Data) → IfOk map (λ m. members_view m.entries ≡ ms) → IfOk value (λ v. view v ≡ d) → IfOk result (λ m. members_view m.entries ≡ put key.now d ms) }
{
    let mut map = map?;
    serde_json::put(&mut map, alloc, key, value?)?;
    Ok(map)
}

/// An object with a value more, at a key: the value is written as JSON here. `Err` where memory is wanting, or was wanting before.
pub(crate) fn with_key<T: Write>(
    alloc: Global,
    map: Result<Map<String, Value>, AllocError>,
    key: &str,
    value: &T,
) -> Result<Map<String, Value>, AllocError>
    ensures { (ms : Members) → IfOk map (λ m. members_view m.entries ≡ ms) → IfOk result (λ m. members_view m.entries ≡ put key.now (T.shown value.now) ms) }
{
    with_value(alloc, map, key, value.write(alloc))
}

/// The object that was written, as a value. `Err` where memory was wanting.
pub(crate) fn object_of(map: Result<Map<String, Value>, AllocError>) -> Result<Value, AllocError>
    ensures { (ms : Members) → IfOk map (λ m. members_view m.entries ≡ ms) → IfOk result (λ v. view v ≡ object ms) }
{
    Ok(Value::Object(map?))
}

/// Its text. `Err` where memory is wanting, or was wanting before.
pub(crate) fn text_of(
    alloc: Global,
    map: Result<Map<String, Value>, AllocError>,
) -> Result<Vec<u8>, AllocError>
    ensures { (ms : Members) → has_float (object ms) ≡ false → IfOk map (λ m. members_view m.entries ≡ ms) → IfOk result (λ text. text.items ≡ compact_text (object ms)) }
{
    object_of(map)?.to_vec(alloc)
}
