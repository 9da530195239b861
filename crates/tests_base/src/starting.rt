//! What tests begin with. Where memory is wanting they end at once, so that nothing is let go on the way.

use cacheability::Name;
use content_rows::{Items, Text, User, starter};
use content_state::Rows;
use std::alloc::{AllocError, Global};
use std::process::Abort;
use std::sync::Arc;

pub fn name(rt: &impl Abort, bytes: &[u8]) -> Name {
    Name::new(bytes).expect(rt, "a name")
}

pub fn text(rt: &impl Abort, alloc: Global, bytes: &[u8]) -> Text {
    Text::copied(alloc, bytes).expect(rt, "memory")
}

pub fn no_text(alloc: Global) -> Text {
    Text::from_vec(Vec::new(alloc))
}

/// An active user without a name, a password, roles or grants.
pub fn user(alloc: Global) -> User {
    User {
        created: 0,
        digest: None,
        grants: Items::none(alloc),
        name: no_text(alloc),
        roles: Items::none(alloc),
        salt: no_text(alloc),
        status: true,
        uuid: no_text(alloc),
    }
}

/// The rows of a new site.
pub fn rows(alloc: Global) -> Result<Rows, AllocError> {
    let mut rows = Rows::new(alloc);
    for (cell, row) in starter(alloc)? {
        rows.set(cell, Arc::new(alloc, row)?)?;
    }
    Ok(rows)
}
