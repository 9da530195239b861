//! Roles, users, sessions and grants, read and written.
ghost use Rattle.row_kinds.specs.Look.{nothing_said};
ghost use Rattle.row_kinds.specs.Rows.{grant_in, grant_data, role_in, role_data, user_in, user_data, session_in, session_data, IsTypedGrant, IsTypedRole, IsTypedUser};

use crate::field::{Read, Write, both, no_keys, object_of, read_at, with_key};
use content_rows::{Grant, Role, Session, User};
use serde_json::Value;
use std::alloc::{AllocError, Global};

impl Read for Grant {
    ghost of = { grant_in };

    fn read(alloc: Global, value: &Value) -> Result<Self, AllocError> {
        let (gid, realm) = both(read_at(alloc, value, "gid"), read_at(alloc, value, "realm"))?;
        Ok(Grant { gid, realm })
    }
}

impl Write for Grant {
    ghost shown = { grant_data };

    ghost typed = { IsTypedGrant };

    fn write(&self, alloc: Global) -> Result<Value, AllocError> {
        let map = no_keys(alloc);
        let map = with_key(alloc, map, "gid", &self.gid);
        let map = with_key(alloc, map, "realm", &self.realm);
        object_of(map)
    }
}

impl Read for Role {
    ghost of = { role_in };

    fn read(alloc: Global, value: &Value) -> Result<Self, AllocError> {
        let (admin, label) = both(
            read_at(alloc, value, "admin"),
            read_at(alloc, value, "label"),
        )?;
        let (grants, permissions) = both(
            read_at(alloc, value, "grants"),
            read_at(alloc, value, "permissions"),
        )?;
        Ok(Role {
            admin,
            grants,
            label,
            permissions,
        })
    }
}

impl Write for Role {
    ghost shown = { role_data };

    ghost typed = { IsTypedRole };

    fn write(&self, alloc: Global) -> Result<Value, AllocError> {
        let map = no_keys(alloc);
        let map = with_key(alloc, map, "admin", &self.admin);
        let map = with_key(alloc, map, "grants", &self.grants);
        let map = with_key(alloc, map, "label", &self.label);
        let map = with_key(alloc, map, "permissions", &self.permissions);
        object_of(map)
    }
}

impl Read for User {
    ghost of = { user_in };

    fn read(alloc: Global, value: &Value) -> Result<Self, AllocError> {
        let (created, status) = both(
            read_at(alloc, value, "created"),
            read_at(alloc, value, "status"),
        )?;
        let (grants, roles) = both(
            read_at(alloc, value, "grants"),
            read_at(alloc, value, "roles"),
        )?;
        let (name, salt) = both(read_at(alloc, value, "name"), read_at(alloc, value, "salt"))?;
        let (uuid, digest) = both(
            read_at(alloc, value, "uuid"),
            read_at(alloc, value, "digest"),
        )?;
        Ok(User {
            created,
            digest,
            grants,
            name,
            roles,
            salt,
            status,
            uuid,
        })
    }
}

impl Write for User {
    ghost shown = { user_data };

    ghost typed = { IsTypedUser };

    fn write(&self, alloc: Global) -> Result<Value, AllocError> {
        let map = no_keys(alloc);
        let map = with_key(alloc, map, "created", &self.created);
        let map = with_key(alloc, map, "digest", &self.digest);
        let map = with_key(alloc, map, "grants", &self.grants);
        let map = with_key(alloc, map, "name", &self.name);
        let map = with_key(alloc, map, "roles", &self.roles);
        let map = with_key(alloc, map, "salt", &self.salt);
        let map = with_key(alloc, map, "status", &self.status);
        let map = with_key(alloc, map, "uuid", &self.uuid);
        object_of(map)
    }
}

impl Read for Session {
    ghost of = { session_in };

    fn read(alloc: Global, value: &Value) -> Result<Self, AllocError> {
        let (expires, uid) = both(
            read_at(alloc, value, "expires"),
            read_at(alloc, value, "uid"),
        )?;
        Ok(Session { expires, uid })
    }
}

impl Write for Session {
    ghost shown = { session_data };

    ghost typed = { nothing_said };

    fn write(&self, alloc: Global) -> Result<Value, AllocError> {
        let map = no_keys(alloc);
        let map = with_key(alloc, map, "expires", &self.expires);
        let map = with_key(alloc, map, "uid", &self.uid);
        object_of(map)
    }
}
