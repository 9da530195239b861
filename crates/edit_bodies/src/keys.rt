//! Which keys stand in a body, whatever their values.
ghost use Rattle.std.specs.Prelude.{◌≡◌, IfOk, filter};
ghost use Rattle.serde_json.specs.Find.{get};
ghost use Rattle.serde_json.specs.View.{view, members_view};
ghost use Rattle.content_rows.specs.LiteralName.{is_name};
ghost use Rattle.json_keys.specs.Order.{names_of};
ghost use Rattle.row_json.specs.Cells.{name_if};
ghost use Rattle.edit_bodies.specs.Keys.{has, field_keys, node_keys, user_keys, node_type_in};

use cacheability::Name;
use content_rows::Items;
use json_keys::is_name;
use row_kinds::name_of;
use serde_json::{Map, Value};
use site_commands::{NodeKeys, UserKeys};
use std::alloc::{AllocError, Global};

/// Whether a key stands in an object, whatever its value.
pub(crate) fn has(value: &Value, key: &str) -> bool
    ensures { result ≡ has key.now (view value.now) }
{
    value.get(key).is_some()
}

/// The keys of a node that stand in an object.
pub(crate) fn node_keys(alloc: Global, value: &Value) -> Result<NodeKeys, AllocError>
    ensures { IfOk result (λ keys. keys ≡ node_keys (view value.now)) }
{
    Ok(NodeKeys {
        created: has(value, "created"),
        grants: has(value, "grants"),
        path: has(value, "path"),
        promote: has(value, "promote"),
        status: has(value, "status"),
        sticky: has(value, "sticky"),
        uid: has(value, "uid"),
        fields: field_keys(alloc, value)?,
    })
}

/// The keys of a user that stand in an object.
pub(crate) fn user_keys(value: &Value) -> UserKeys
    ensures { result ≡ user_keys (view value.now) }
{
    UserKeys {
        grants: has(value, "grants"),
        roles: has(value, "roles"),
    }
}

/// The keys inside `fields` that are machine names, in the order of their bytes.
fn field_keys(alloc: Global, value: &Value) -> Result<Items<Name>, AllocError>
    ensures { IfOk result (λ names. names ≡ field_keys (view value.now)) }
{
    match value.get("fields") {
        Some(Value::Object(members)) => Ok(machine_names(alloc, members)?),
        _ => Ok(Items::none(alloc)),
    }
}

/// The keys of an object that are machine names.
fn machine_names(alloc: Global, members: &Map<String, Value>) -> Result<Items<Name>, AllocError>
    ensures { IfOk result (λ names. names ≡ filter is_name (names_of (members_view members.now.entries))) }
{
    let mut names = Vec::new(alloc);
    'members: for (name, _) in members.iter() {
        if is_name(name.as_bytes()) {
            names.push(name_of(name.as_bytes()))?;
        }
    }
    Ok(Items::from_vec(names))
}

/// The machine name at `type`, where it is one.
pub(crate) fn node_type_in(value: &Value) -> Option<Name>
    ensures { result ≡ node_type_in (view value.now) }
{
    match value.get("type") {
        Some(Value::String(text)) => name_if(text.as_bytes()),
        _ => None,
    }
}

/// The machine name that a text is.
fn name_if(text: &[u8]) -> Option<Name>
    ensures { result ≡ name_if text.now }
{
    if is_name(text) {
        Some(name_of(text))
    } else {
        None
    }
}
