//! Users to be made and to be changed.
ghost use Rattle.body_kinds.specs.Bodies.{new_user_in, user_patch_in};

use crate::read::{ReadBody, sent};
use row_kinds::{both, read_at};
use serde_json::Value;
use site_commands::{NewUser, UserPatch};
use std::alloc::{AllocError, Global};

impl ReadBody for NewUser {
    ghost of = { new_user_in };

    fn read_body(alloc: Global, value: &Value) -> Result<Self, AllocError> {
        let (grants, roles) = both(
            read_at(alloc, value, "grants"),
            read_at(alloc, value, "roles"),
        )?;
        let (name, uuid) = both(read_at(alloc, value, "name"), read_at(alloc, value, "uuid"))?;
        let (status, pass) = both(sent(alloc, value, "status"), sent(alloc, value, "pass"))?;
        Ok(NewUser {
            grants,
            name,
            pass,
            roles,
            status,
            uuid,
        })
    }
}

impl ReadBody for UserPatch {
    ghost of = { user_patch_in };

    fn read_body(alloc: Global, value: &Value) -> Result<Self, AllocError> {
        let (grants, roles) = both(sent(alloc, value, "grants"), sent(alloc, value, "roles"))?;
        let (name, pass) = both(sent(alloc, value, "name"), sent(alloc, value, "pass"))?;
        Ok(UserPatch {
            grants,
            name,
            pass,
            roles,
            status: sent(alloc, value, "status")?,
        })
    }
}
