//! Terms to be made and to be changed.
ghost use Rattle.body_kinds.specs.Bodies.{new_term_in, term_patch_in};

use crate::read::{ReadBody, sent};
use row_kinds::read_at;
use serde_json::Value;
use site_commands::{NewTerm, TermPatch};
use std::alloc::{AllocError, Global};

impl ReadBody for NewTerm {
    ghost of = { new_term_in };

    fn read_body(alloc: Global, value: &Value) -> Result<Self, AllocError> {
        Ok(NewTerm {
            description: read_at(alloc, value, "description")?,
            name: read_at(alloc, value, "name")?,
            parent: read_at(alloc, value, "parent")?,
            status: sent(alloc, value, "status")?,
            uuid: read_at(alloc, value, "uuid")?,
        })
    }
}

impl ReadBody for TermPatch {
    ghost of = { term_patch_in };

    fn read_body(alloc: Global, value: &Value) -> Result<Self, AllocError> {
        Ok(TermPatch {
            description: sent(alloc, value, "description")?,
            name: sent(alloc, value, "name")?,
            parent: sent(alloc, value, "parent")?,
            status: sent(alloc, value, "status")?,
        })
    }
}
