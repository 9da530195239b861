//! The members of every value stand in the order of their keys.
ghost use Rattle.std.specs.List.Sorted.{IsStrictlySortedBy};
ghost use Rattle.std.specs.Map.{keys_of};
ghost use Rattle.std.specs.Prelude.{string_cmp};
ghost use Rattle.serde_json.specs.View.{view, items_view, members_view};
ghost use Rattle.json_keys.specs.Order.{AllInOrder, ItemsInOrder, MembersInOrder};

use serde_json::{Map, Value};

/// Goes over a value and all that is inside it: the members of each object stand in the order of
/// their keys, each key once.
#[cycle(walk)]
pub fn walk(value: &Value)
    ensures { AllInOrder (view value.now) }
{
    match value {
        Value::Array(values) => walk_items(values),
        Value::Object(members) => walk_members(members),
        _ => {}
    }
}

#[cycle(walk)]
fn walk_items(values: &[Value])
    ensures { ItemsInOrder (items_view values.now) }
{
    'values: for value in values {
        walk(value);
    }
}

#[cycle(walk)]
fn walk_members(members: &Map<String, Value>)
    ensures order { IsStrictlySortedBy string_cmp (keys_of members.now.entries) }
    ensures inside { MembersInOrder (members_view members.now.entries) }
{
    'members: for (_, value) in members.iter() {
        walk(value);
    }
}
