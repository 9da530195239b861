//! Nodes to be made and to be changed.
ghost use Rattle.std.specs.Prelude.{◌≡◌, IfOk};
ghost use Rattle.serde_json.specs.View.{view, members_view};
ghost use Rattle.json_keys.specs.Fault.{members_in};
ghost use Rattle.row_kinds.specs.Look.{value_at};
ghost use Rattle.body_kinds.specs.Bodies.{new_node_in, node_patch_in, changes_in};

use crate::read::{ReadBody, sent};
use content_rows::Items;
use row_kinds::{Read, both, name_in, read_at, texts_at};
use serde_json::{Map, Value};
use site_commands::{FieldChange, NewNode, NodePatch};
use std::alloc::{AllocError, Global};

impl ReadBody for NewNode {
    ghost of = { new_node_in };

    fn read_body(alloc: Global, value: &Value) -> Result<Self, AllocError> {
        let (created, uid) = both(sent(alloc, value, "created"), sent(alloc, value, "uid"))?;
        let (promote, status) = both(sent(alloc, value, "promote"), sent(alloc, value, "status"))?;
        let (sticky, fields) = both(
            read_at(alloc, value, "sticky"),
            texts_at(alloc, value, "fields"),
        )?;
        let (grants, refs) = both(
            read_at(alloc, value, "grants"),
            read_at(alloc, value, "refs"),
        )?;
        let (terms, title) = both(
            read_at(alloc, value, "terms"),
            read_at(alloc, value, "title"),
        )?;
        let (uuid, path) = both(read_at(alloc, value, "uuid"), read_at(alloc, value, "path"))?;
        Ok(NewNode {
            created,
            fields,
            grants,
            path,
            promote,
            refs,
            status,
            sticky,
            terms,
            title,
            uid,
            uuid,
        })
    }
}

impl ReadBody for NodePatch {
    ghost of = { node_patch_in };

    fn read_body(alloc: Global, value: &Value) -> Result<Self, AllocError> {
        let (created, uid) = both(sent(alloc, value, "created"), sent(alloc, value, "uid"))?;
        let (promote, status) = both(sent(alloc, value, "promote"), sent(alloc, value, "status"))?;
        let (sticky, vid) = both(sent(alloc, value, "sticky"), read_at(alloc, value, "vid"))?;
        let (fields, grants) = both(
            changes_at(alloc, value, "fields"),
            sent(alloc, value, "grants"),
        )?;
        let (refs, terms) = both(sent(alloc, value, "refs"), sent(alloc, value, "terms"))?;
        let (title, path) = both(sent(alloc, value, "title"), sent(alloc, value, "path"))?;
        Ok(NodePatch {
            created,
            fields,
            grants,
            path,
            promote,
            refs,
            status,
            sticky,
            terms,
            title,
            uid,
            vid,
        })
    }
}

/// The changes of fields at a key, by their names; none where it has no object.
fn changes_at(alloc: Global, value: &Value, key: &str) -> Result<Items<FieldChange>, AllocError>
    ensures { IfOk result (λ xs. xs ≡ changes_in (members_in (value_at key.now (view value.now)))) }
{
    match value.get(key) {
        Some(Value::Object(members)) => Ok(read_changes(alloc, members)?),
        _ => Ok(Items::none(alloc)),
    }
}

/// Changes of fields by their names.
fn read_changes(
    alloc: Global,
    members: &Map<String, Value>,
) -> Result<Items<FieldChange>, AllocError>
    ensures { IfOk result (λ xs. xs ≡ changes_in (members_view members.now.entries)) }
{
    let mut read = Vec::new(alloc);
    'members: for (name, value) in members.iter() {
        read.push(FieldChange {
            name: name_in(name.as_bytes()),
            value: Read::read(alloc, value)?,
        })?;
    }
    Ok(Items::from_vec(read))
}
