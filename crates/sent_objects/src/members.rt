//! The members of an object whose keys are known, and the least of the other keys.
ghost use Rattle.std.specs.Prelude.{◌≡◌, ◌<◌, IfOk, OnOk, Some, None, length, option_map, string_bytes};
ghost use Rattle.json.specs.Json.{members, parse_map, value};
ghost use Rattle.serde_json.specs.Data.{no_members, put};
ghost use Rattle.serde_json.specs.Read.{converted, of_members};
ghost use Rattle.serde_json.specs.View.{members_view, view};
ghost use Rattle.sent_objects.specs.Brief.{flat_at, kept, lower, whole, with_least};
ghost use Rattle.sent_objects.specs.Keys.{is_column, is_key};
ghost use Rattle.sent_objects.specs.Reads.{IsRefusal, text_in};

use crate::inside::{Fault, Flat, Listed, Named, read_value};
use crate::keys::{has_pairs, is_column, is_key};
use crate::skip::skip;
use json::Reader;
use serde_json::{Map, Value};
use std::alloc::{AllocError, Global};

/// What is kept of the members of an object.
pub(crate) trait Member {
    ghost use Rattle.std.specs.Prelude.{◌≡◌, ◌<◌, Bool, IfOk, List, None, OnOk, Some, length, ℕ};
    ghost use Rattle.json.specs.Json.{parse_map, value};
    ghost use Rattle.serde_json.specs.Data.{Data};
    ghost use Rattle.serde_json.specs.Read.{converted, of_json};
    ghost use Rattle.serde_json.specs.View.{view};
    ghost use Rattle.sent_objects.specs.Reads.{IsRefusal};

    /// Which keys are known.
    ghost known: { List ℕ → Bool };

    /// What is kept of the value of a known key.
    ghost brief: { List ℕ → Data → Data };

    /// Whether a key is known.
    fn is_known(name: &str) -> bool
        ensures { result ≡ known name.now };

    /// Reads the value of a known key.
    fn read(
        alloc: Global,
        name: &str,
        reader: &mut Reader<'_>,
        depth: usize,
    ) -> Result<Value, Fault>
        ensures ok { IfOk result (λ v. parse_map (brief name.now) (converted of_json (value depth reader.old)) ≡ Some (view v, reader.new)) }
        ensures shorter { OnOk result (length reader.new < length reader.old) }
        ensures err { IsRefusal result → converted of_json (value depth reader.old) ≡ None };
}

/// A key of a body.
pub(crate) struct Key;

impl Member for Key {
    ghost known = { is_key };

    ghost brief = { whole };

    fn is_known(name: &str) -> bool {
        is_key(name)
    }

    fn read(
        alloc: Global,
        name: &str,
        reader: &mut Reader<'_>,
        depth: usize,
    ) -> Result<Value, Fault> {
        if has_pairs(name) {
            read_value::<Named>(alloc, reader, depth)
        } else {
            read_value::<Listed>(alloc, reader, depth)
        }
    }
}

/// A key of an object that stands in a list.
pub(crate) struct Column;

impl Member for Column {
    ghost known = { is_column };

    ghost brief = { flat_at };

    fn is_known(name: &str) -> bool {
        is_column(name)
    }

    fn read(alloc: Global, _: &str, reader: &mut Reader<'_>, depth: usize) -> Result<Value, Fault> {
        read_value::<Flat>(alloc, reader, depth)
    }
}

/// The lower of a name and what may be another.
fn lower(alloc: Global, least: Option<String>, name: &str) -> Result<Option<String>, AllocError>
    ensures { IfOk result (λ o. text_in o ≡ Some (lower (text_in least) name.now)) }
{
    if let Some(least) = least {
        if least.as_str() < name {
            return Ok(Some(least));
        }
    }
    Ok(Some(String::from_str(alloc, name)?))
}

/// Puts a value at a key, in place of one that stands there.
fn put(found: &mut Map<String, Value>, key: String, value: Value) -> Result<(), AllocError>
    ensures { OnOk result (members_view found.new.entries ≡ put (string_bytes key) (view value) (members_view found.old.entries)) }
{
    drop(found.insert(key, value)?);
    Ok(())
}

/// Members with a name that is not known, and no value.
fn with_least(
    least: Option<String>,
    mut found: Map<String, Value>,
) -> Result<Map<String, Value>, AllocError>
    ensures { IfOk result (λ m. members_view m.entries ≡ with_least (text_in least) (members_view found.entries)) }
{
    if let Some(name) = least {
        put(&mut found, name, Value::Null)?;
    }
    Ok(found)
}

/// Reads the members of an object, and its end: those of known keys, and the least of the others.
pub(crate) fn read_members<T: Member>(
    alloc: Global,
    reader: &mut Reader<'_>,
    depth: usize,
) -> Result<Map<String, Value>, Fault>
    ensures ok { IfOk result (λ m. parse_map (kept T.known T.brief) (converted (λ ms. of_members ms no_members) (members (value depth) (length reader.old) reader.old)) ≡ Some (members_view m.entries, reader.new)) }
    ensures shorter { OnOk result (length reader.new < length reader.old) }
    ensures err { IsRefusal result → converted (λ ms. of_members ms no_members) (members (value depth) (length reader.old) reader.old) ≡ None }
{
    let mut found = Map::new(alloc);
    let mut least = None;
    'members: while let Some(name) = reader.next_key()? {
        if T::is_known(name) {
            let key = String::from_str(alloc, name)?;
            let member = T::read(alloc, name, reader, depth)?;
            put(&mut found, key, member)?;
        } else {
            least = lower(alloc, least, name)?;
            skip(reader, depth)?;
        }
    }
    Ok(with_least(least, found)?)
}
