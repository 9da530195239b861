//! Names with their values: each is kept.
ghost use Rattle.std.specs.BTreeMap.{IsFromIterResult};
ghost use Rattle.std.specs.Prelude.{◌≡◌, ◌++◌, ◌<◌, ◌∷◌, [], IfOk, None, OnOk, Some, length, string_cmp};
ghost use Rattle.json.specs.Json.{members, parse_map, value};
ghost use Rattle.serde_json.specs.Data.{no_members};
ghost use Rattle.serde_json.specs.Read.{converted, of_members};
ghost use Rattle.serde_json.specs.View.{members_view};
ghost use Rattle.sent_objects.specs.Brief.{pairs};
ghost use Rattle.sent_objects.specs.Reads.{IsRefusal};

use crate::fronts::sort_by_fronts;
use crate::inside::{Fault, Flat, read_value};
use json::Reader;
use serde_json::{Map, Value};
use std::alloc::{AllocError, Global};

/// Adds a name with its value.
fn push(found: &mut Vec<(String, Value)>, name: String, value: Value) -> Result<(), AllocError>
    ensures { OnOk result (found.new.items ≡ found.old.items ++ (name, value) ∷ []) }
{
    found.push((name, value))?;
    Ok(())
}

/// The map of these names and values; of a name that comes twice it has the last value.
fn gathered(alloc: Global, found: Vec<(String, Value)>) -> Result<Map<String, Value>, AllocError>
    ensures { IfOk result (IsFromIterResult string_cmp found.items) }
{
    found.into_iter().collect(alloc)
}

/// Names in the order of their bytes; of a name that comes twice the last value. What is mostly in order is gathered in little time, so
/// names that come in any order are sorted before, as numbers.
fn in_order(
    alloc: Global,
    mut found: Vec<(String, Value)>,
) -> Result<Map<String, Value>, AllocError>
    ensures { IfOk result (IsFromIterResult string_cmp found.items) }
{
    sort_by_fronts(&mut found)?;
    gathered(alloc, found)
}

/// Reads the members of an object, and its end. They are put in order at once: a map that is filled
/// name by name is searched for each of them.
pub(crate) fn read_pairs(
    alloc: Global,
    reader: &mut Reader<'_>,
    depth: usize,
) -> Result<Map<String, Value>, Fault>
    ensures ok { IfOk result (λ m. parse_map pairs (converted (λ ms. of_members ms no_members) (members (value depth) (length reader.old) reader.old)) ≡ Some (members_view m.entries, reader.new)) }
    ensures shorter { OnOk result (length reader.new < length reader.old) }
    ensures err { IsRefusal result → converted (λ ms. of_members ms no_members) (members (value depth) (length reader.old) reader.old) ≡ None }
{
    let mut found = Vec::new(alloc);
    'members: while let Some(name) = reader.next_key()? {
        let key = String::from_str(alloc, name)?;
        let member = read_value::<Flat>(alloc, reader, depth)?;
        push(&mut found, key, member)?;
    }
    Ok(in_order(alloc, found)?)
}
