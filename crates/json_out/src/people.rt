//! What is told of terms and users.
ghost use Rattle.std.specs.Prelude.{◌≡◌, IfOk};
ghost use Rattle.json_out.specs.Told.{term_json, user_json};

use crate::object::{no_keys, text_of, with_key};
use content_rows::{Term, User};
use std::alloc::{AllocError, Global};

/// What is told of a term (RFC 8259): its number, its name and what it means. `Err` only where memory is wanting.
pub fn term_json(alloc: Global, t: u32, term: &Term) -> Result<Vec<u8>, AllocError>
    ensures { IfOk result (λ text. text.items ≡ term_json t term.now) }
{
    let map = no_keys(alloc);
    let map = with_key(alloc, map, "description", &term.description);
    let map = with_key(alloc, map, "name", &term.name);
    let map = with_key(alloc, map, "tid", &t);
    text_of(alloc, map)
}

/// What is told of a user (RFC 8259): the number, the name and since when there is one. `Err` only where memory is wanting.
pub fn user_json(alloc: Global, u: u32, user: &User) -> Result<Vec<u8>, AllocError>
    ensures { IfOk result (λ text. text.items ≡ user_json u user.now) }
{
    let map = no_keys(alloc);
    let map = with_key(alloc, map, "created", &user.created);
    let map = with_key(alloc, map, "name", &user.name);
    let map = with_key(alloc, map, "uid", &u);
    text_of(alloc, map)
}
