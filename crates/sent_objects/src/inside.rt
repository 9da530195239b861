//! Values, by what is kept of those inside them.
ghost use Rattle.std.specs.Prelude.{◌≡◌, ◌++◌, ◌<◌, ◌∷◌, [], IfOk, None, OnOk, Some, length};
ghost use Rattle.json.specs.Json.{items, parse_map, value};
ghost use Rattle.serde_json.specs.Read.{converted, of_items, of_json};
ghost use Rattle.serde_json.specs.View.{items_view, view};
ghost use Rattle.sent_objects.specs.Brief.{column_members, first_items, flat_items, flat_members, inside, pairs};
ghost use Rattle.sent_objects.specs.Reads.{IsRefusal};

use crate::members::{Column, read_members};
use crate::number::number_of;
use crate::pairs::read_pairs;
use crate::skip::{skip, skip_items, skip_members};
use json::{Invalid, Reader, Token};
use serde_json::{Map, Value};
use std::alloc::{AllocError, Global};

/// How many items of a list are kept: one more than any list may have.
const MOST: usize = 257;

/// Why nothing was read.
#[derive(Clone, Copy, Debug, Drop, PartialEq, Eq)]
pub(crate) enum Fault {
    /// The text is no JSON.
    Invalid,
    /// Memory was wanting.
    OutOfMemory,
}

impl From<Invalid> for Fault {
    ghost use Rattle.std.specs.Prelude.{◌≡◌};
    ghost use Rattle.sent_objects.specs.declared.inside.Fault.TheVariants.{Invalid as invalid};

    ghost from_gives = { λ _ e. e ≡ invalid };

    fn from(_: Invalid) -> Fault {
        Fault::Invalid
    }
}

impl From<AllocError> for Fault {
    ghost use Rattle.std.specs.Prelude.{◌≡◌};
    ghost use Rattle.sent_objects.specs.declared.inside.Fault.TheVariants.{OutOfMemory};

    ghost from_gives = { λ _ e. e ≡ OutOfMemory };

    fn from(_: AllocError) -> Fault {
        Fault::OutOfMemory
    }
}

/// What is kept inside a value.
pub(crate) trait Inside {
    ghost use Rattle.std.specs.Prelude.{◌≡◌, ◌<◌, IfOk, None, OnOk, Some, length};
    ghost use Rattle.json.specs.Json.{items, members, parse_map, value};
    ghost use Rattle.serde_json.specs.Data.{Items, Members, no_members};
    ghost use Rattle.serde_json.specs.Read.{converted, of_items, of_members};
    ghost use Rattle.serde_json.specs.View.{items_view, members_view};
    ghost use Rattle.sent_objects.specs.Reads.{IsRefusal};

    /// Of the items of an array.
    ghost of_array: { Items → Items };

    /// Of the members of an object.
    ghost of_object: { Members → Members };

    /// Reads the items of an array, and its end.
    fn items(alloc: Global, reader: &mut Reader<'_>, depth: usize) -> Result<Vec<Value>, Fault>
        ensures ok { IfOk result (λ v. parse_map of_array (converted of_items (items (value depth) (length reader.old) reader.old)) ≡ Some (items_view v.items, reader.new)) }
        ensures shorter { OnOk result (length reader.new < length reader.old) }
        ensures err { IsRefusal result → converted of_items (items (value depth) (length reader.old) reader.old) ≡ None };

    /// Reads the members of an object, and its end.
    fn members(
        alloc: Global,
        reader: &mut Reader<'_>,
        depth: usize,
    ) -> Result<Map<String, Value>, Fault>
        ensures ok { IfOk result (λ m. parse_map of_object (converted (λ ms. of_members ms no_members) (members (value depth) (length reader.old) reader.old)) ≡ Some (members_view m.entries, reader.new)) }
        ensures shorter { OnOk result (length reader.new < length reader.old) }
        ensures err { IsRefusal result → converted (λ ms. of_members ms no_members) (members (value depth) (length reader.old) reader.old) ≡ None };
}

/// Reads a value, of which that is kept which is wanted inside it.
pub(crate) fn read_value<T: Inside>(
    alloc: Global,
    reader: &mut Reader<'_>,
    depth: usize,
) -> Result<Value, Fault>
    ensures ok { IfOk result (λ v. parse_map (inside T.of_array T.of_object) (converted of_json (value depth reader.old)) ≡ Some (view v, reader.new)) }
    ensures shorter { OnOk result (length reader.new < length reader.old) }
    ensures err { IsRefusal result → converted of_json (value depth reader.old) ≡ None }
{
    let token = reader.next().ok_or(Fault::Invalid)?;
    match token {
        Token::String(text) => Ok(Value::String(String::from_str(alloc, text)?)),
        Token::Number(text) => match number_of(text) {
            Some(number) => Ok(Value::Number(number)),
            None => Err(Fault::Invalid),
        },
        Token::Bool(flag) => Ok(Value::Bool(flag)),
        Token::Null => Ok(Value::Null),
        Token::EndObject | Token::EndArray | Token::Key(_) | Token::Bad => Err(Fault::Invalid),
        Token::BeginArray => {
            if depth == 0 {
                return Err(Fault::Invalid);
            }
            Ok(Value::Array(T::items(alloc, reader, depth - 1)?))
        }
        Token::BeginObject => {
            if depth == 0 {
                return Err(Fault::Invalid);
            }
            Ok(Value::Object(T::members(alloc, reader, depth - 1)?))
        }
    }
}

/// Nothing is kept inside.
pub(crate) struct Flat;

impl Inside for Flat {
    ghost of_array = { flat_items };

    ghost of_object = { flat_members };

    fn items(alloc: Global, reader: &mut Reader<'_>, depth: usize) -> Result<Vec<Value>, Fault> {
        skip_items(reader, depth)?;
        Ok(Vec::new(alloc))
    }

    fn members(
        alloc: Global,
        reader: &mut Reader<'_>,
        depth: usize,
    ) -> Result<Map<String, Value>, Fault> {
        skip_members(reader, depth)?;
        Ok(Map::new(alloc))
    }
}

/// Of an item of a list: the members of an object whose keys are known.
pub(crate) struct Item;

impl Inside for Item {
    ghost of_array = { flat_items };

    ghost of_object = { column_members };

    fn items(alloc: Global, reader: &mut Reader<'_>, depth: usize) -> Result<Vec<Value>, Fault> {
        skip_items(reader, depth)?;
        Ok(Vec::new(alloc))
    }

    fn members(
        alloc: Global,
        reader: &mut Reader<'_>,
        depth: usize,
    ) -> Result<Map<String, Value>, Fault> {
        read_members::<Column>(alloc, reader, depth)
    }
}

/// Of the value of a key: the first items of a list, and nothing of the members of an object.
pub(crate) struct Listed;

impl Inside for Listed {
    ghost of_array = { first_items };

    ghost of_object = { flat_members };

    fn items(alloc: Global, reader: &mut Reader<'_>, depth: usize) -> Result<Vec<Value>, Fault> {
        read_items(alloc, reader, depth)
    }

    fn members(
        alloc: Global,
        reader: &mut Reader<'_>,
        depth: usize,
    ) -> Result<Map<String, Value>, Fault> {
        skip_members(reader, depth)?;
        Ok(Map::new(alloc))
    }
}

/// Of the value of a key: the first items of a list, and all members of an object.
pub(crate) struct Named;

impl Inside for Named {
    ghost of_array = { first_items };

    ghost of_object = { pairs };

    fn items(alloc: Global, reader: &mut Reader<'_>, depth: usize) -> Result<Vec<Value>, Fault> {
        read_items(alloc, reader, depth)
    }

    fn members(
        alloc: Global,
        reader: &mut Reader<'_>,
        depth: usize,
    ) -> Result<Map<String, Value>, Fault> {
        read_pairs(alloc, reader, depth)
    }
}

/// Adds an item.
fn push(found: &mut Vec<Value>, item: Value) -> Result<(), AllocError>
    ensures { OnOk result (found.new.items ≡ found.old.items ++ item ∷ []) }
{
    found.push(item)?;
    Ok(())
}

/// Reads the first items of an array, passes over the others, and its end.
fn read_items(alloc: Global, reader: &mut Reader<'_>, depth: usize) -> Result<Vec<Value>, Fault>
    ensures ok { IfOk result (λ v. parse_map first_items (converted of_items (items (value depth) (length reader.old) reader.old)) ≡ Some (items_view v.items, reader.new)) }
    ensures shorter { OnOk result (length reader.new < length reader.old) }
    ensures err { IsRefusal result → converted of_items (items (value depth) (length reader.old) reader.old) ≡ None }
{
    let mut found = Vec::new(alloc);
    'items: while !reader.take_end_array() {
        if found.len() < MOST {
            let item = read_value::<Item>(alloc, reader, depth)?;
            push(&mut found, item)?;
        } else {
            skip(reader, depth)?;
        }
    }
    Ok(found)
}
