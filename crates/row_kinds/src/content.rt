//! Content types, terms and nodes, read and written.
ghost use Rattle.row_kinds.specs.Look.{nothing_said};
ghost use Rattle.row_kinds.specs.Rows.{grant_row_in, grant_row_data, field_in, field_data, type_in, type_data, term_in, term_data, node_in, node_data, IsTypedGrantRow, IsTypedField, IsTypedType, IsTypedNode};

use crate::field::{Read, Write, both, no_keys, object_of, read_at, with_key};
use crate::texts::{texts_at, with_texts};
use content_rows::{FieldRow, GrantRow, Node, NodeType, Term};
use serde_json::Value;
use std::alloc::{AllocError, Global};

impl Read for GrantRow {
    ghost of = { grant_row_in };

    fn read(alloc: Global, value: &Value) -> Result<Self, AllocError> {
        let (delete, gid) = both(
            read_at(alloc, value, "delete"),
            read_at(alloc, value, "gid"),
        )?;
        let (realm, update) = both(
            read_at(alloc, value, "realm"),
            read_at(alloc, value, "update"),
        )?;
        Ok(GrantRow {
            delete,
            gid,
            realm,
            update,
            view: read_at(alloc, value, "view")?,
        })
    }
}

impl Write for GrantRow {
    ghost shown = { grant_row_data };

    ghost typed = { IsTypedGrantRow };

    fn write(&self, alloc: Global) -> Result<Value, AllocError> {
        let map = no_keys(alloc);
        let map = with_key(alloc, map, "delete", &self.delete);
        let map = with_key(alloc, map, "gid", &self.gid);
        let map = with_key(alloc, map, "realm", &self.realm);
        let map = with_key(alloc, map, "update", &self.update);
        let map = with_key(alloc, map, "view", &self.view);
        object_of(map)
    }
}

impl Read for FieldRow {
    ghost of = { field_in };

    fn read(alloc: Global, value: &Value) -> Result<Self, AllocError> {
        let (owner, teaser) = both(
            read_at(alloc, value, "owner"),
            read_at(alloc, value, "teaser"),
        )?;
        let (label, name) = both(
            read_at(alloc, value, "label"),
            read_at(alloc, value, "name"),
        )?;
        let (edit, view) = both(read_at(alloc, value, "edit"), read_at(alloc, value, "view"))?;
        Ok(FieldRow {
            edit,
            label,
            name,
            owner,
            teaser,
            view,
        })
    }
}

impl Write for FieldRow {
    ghost shown = { field_data };

    ghost typed = { IsTypedField };

    fn write(&self, alloc: Global) -> Result<Value, AllocError> {
        let map = no_keys(alloc);
        let map = with_key(alloc, map, "edit", &self.edit);
        let map = with_key(alloc, map, "label", &self.label);
        let map = with_key(alloc, map, "name", &self.name);
        let map = with_key(alloc, map, "owner", &self.owner);
        let map = with_key(alloc, map, "teaser", &self.teaser);
        let map = with_key(alloc, map, "view", &self.view);
        object_of(map)
    }
}

impl Read for NodeType {
    ghost of = { type_in };

    fn read(alloc: Global, value: &Value) -> Result<Self, AllocError> {
        let (label, submitted) = both(
            read_at(alloc, value, "label"),
            read_at(alloc, value, "submitted"),
        )?;
        Ok(NodeType {
            fields: read_at(alloc, value, "fields")?,
            label,
            submitted,
        })
    }
}

impl Write for NodeType {
    ghost shown = { type_data };

    ghost typed = { IsTypedType };

    fn write(&self, alloc: Global) -> Result<Value, AllocError> {
        let map = no_keys(alloc);
        let map = with_key(alloc, map, "fields", &self.fields);
        let map = with_key(alloc, map, "label", &self.label);
        let map = with_key(alloc, map, "submitted", &self.submitted);
        object_of(map)
    }
}

impl Read for Term {
    ghost of = { term_in };

    fn read(alloc: Global, value: &Value) -> Result<Self, AllocError> {
        let (status, uuid) = both(
            read_at(alloc, value, "status"),
            read_at(alloc, value, "uuid"),
        )?;
        let (description, name) = both(
            read_at(alloc, value, "description"),
            read_at(alloc, value, "name"),
        )?;
        Ok(Term {
            description,
            name,
            parent: read_at(alloc, value, "parent")?,
            status,
            uuid,
        })
    }
}

impl Write for Term {
    ghost shown = { term_data };

    ghost typed = { nothing_said };

    fn write(&self, alloc: Global) -> Result<Value, AllocError> {
        let map = no_keys(alloc);
        let map = with_key(alloc, map, "description", &self.description);
        let map = with_key(alloc, map, "name", &self.name);
        let map = with_key(alloc, map, "parent", &self.parent);
        let map = with_key(alloc, map, "status", &self.status);
        let map = with_key(alloc, map, "uuid", &self.uuid);
        object_of(map)
    }
}

impl Read for Node {
    ghost of = { node_in };

    fn read(alloc: Global, value: &Value) -> Result<Self, AllocError> {
        let (changed, created) = both(
            read_at(alloc, value, "changed"),
            read_at(alloc, value, "created"),
        )?;
        let (promote, status) = both(
            read_at(alloc, value, "promote"),
            read_at(alloc, value, "status"),
        )?;
        let (sticky, node_type) = both(
            read_at(alloc, value, "sticky"),
            read_at(alloc, value, "type"),
        )?;
        let (uid, vid) = both(read_at(alloc, value, "uid"), read_at(alloc, value, "vid"))?;
        let (fields, grants) = both(
            texts_at(alloc, value, "fields"),
            read_at(alloc, value, "grants"),
        )?;
        let (refs, terms) = both(
            read_at(alloc, value, "refs"),
            read_at(alloc, value, "terms"),
        )?;
        let (title, uuid) = both(
            read_at(alloc, value, "title"),
            read_at(alloc, value, "uuid"),
        )?;
        Ok(Node {
            changed,
            created,
            fields,
            grants,
            path: read_at(alloc, value, "path")?,
            promote,
            refs,
            status,
            sticky,
            terms,
            title,
            node_type,
            uid,
            uuid,
            vid,
        })
    }
}

impl Write for Node {
    ghost shown = { node_data };

    ghost typed = { IsTypedNode };

    fn write(&self, alloc: Global) -> Result<Value, AllocError> {
        let map = no_keys(alloc);
        let map = with_key(alloc, map, "changed", &self.changed);
        let map = with_key(alloc, map, "created", &self.created);
        let map = with_texts(alloc, map, "fields", &self.fields);
        let map = with_key(alloc, map, "grants", &self.grants);
        let map = with_key(alloc, map, "path", &self.path);
        let map = with_key(alloc, map, "promote", &self.promote);
        let map = with_key(alloc, map, "refs", &self.refs);
        let map = with_key(alloc, map, "status", &self.status);
        let map = with_key(alloc, map, "sticky", &self.sticky);
        let map = with_key(alloc, map, "terms", &self.terms);
        let map = with_key(alloc, map, "title", &self.title);
        let map = with_key(alloc, map, "type", &self.node_type);
        let map = with_key(alloc, map, "uid", &self.uid);
        let map = with_key(alloc, map, "uuid", &self.uuid);
        let map = with_key(alloc, map, "vid", &self.vid);
        object_of(map)
    }
}
