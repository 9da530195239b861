//! Comments and their next id, read and written.
ghost use Rattle.row_kinds.specs.Look.{nothing_said};
ghost use Rattle.row_kinds.specs.Rows.{comment_in, comment_data, talk_in, talk_data, IsTypedTalk};

use crate::field::{Read, Write, both, no_keys, object_of, read_at, with_key};
use content_rows::{Comment, Talk};
use serde_json::Value;
use std::alloc::{AllocError, Global};

impl Read for Comment {
    ghost of = { comment_in };

    fn read(alloc: Global, value: &Value) -> Result<Self, AllocError> {
        let (created, status) = both(
            read_at(alloc, value, "created"),
            read_at(alloc, value, "status"),
        )?;
        let (node, uid) = both(read_at(alloc, value, "node"), read_at(alloc, value, "uid"))?;
        let (body, uuid) = both(read_at(alloc, value, "body"), read_at(alloc, value, "uuid"))?;
        Ok(Comment {
            body,
            created,
            node,
            parent: read_at(alloc, value, "parent")?,
            status,
            uid,
            uuid,
        })
    }
}

impl Write for Comment {
    ghost shown = { comment_data };

    ghost typed = { nothing_said };

    fn write(&self, alloc: Global) -> Result<Value, AllocError> {
        let map = no_keys(alloc);
        let map = with_key(alloc, map, "body", &self.body);
        let map = with_key(alloc, map, "created", &self.created);
        let map = with_key(alloc, map, "node", &self.node);
        let map = with_key(alloc, map, "parent", &self.parent);
        let map = with_key(alloc, map, "status", &self.status);
        let map = with_key(alloc, map, "uid", &self.uid);
        let map = with_key(alloc, map, "uuid", &self.uuid);
        object_of(map)
    }
}

impl Read for Talk {
    ghost of = { talk_in };

    fn read(alloc: Global, value: &Value) -> Result<Self, AllocError> {
        Ok(Talk {
            comment: read_at(alloc, value, "comment")?,
        })
    }
}

impl Write for Talk {
    ghost shown = { talk_data };

    ghost typed = { IsTypedTalk };

    fn write(&self, alloc: Global) -> Result<Value, AllocError> {
        let map = no_keys(alloc);
        let map = with_key(alloc, map, "comment", &self.comment);
        object_of(map)
    }
}
