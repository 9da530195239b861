//! The names of a user's roles.
ghost use Rattle.std.specs.Prelude.{◌≡◌, ◌∷◌, IfOk, option_copied};
ghost use Rattle.content_rows.specs.Permission.{role_names as names_of_roles, roles_of_user, text_set, anonymous as anonymous_bytes, authenticated as authenticated_bytes};

use crate::sorted::{add_all, listed};
use cacheability::Name;
use content_rows::{Items, User};
use std::alloc::{AllocError, Global};
use std::collections::BTreeSet;

/// The names of a user's roles, in the order of their bytes, each once: `anonymous` alone for
/// user 0, else `authenticated` and those of the user's row, if there is one. `Err` only where
/// memory is wanting.
/// <https://www.drupal.org/docs/user_guide/en/user-concept.html>
pub fn role_names(alloc: Global, uid: u32, user: Option<&User>) -> Result<Items<Name>, AllocError>
    ensures { IfOk result (λ names. names ≡ names_of_roles uid (option_copied user.entry)) }
{
    if uid == 0 {
        return Ok(Items::from_vec(vec![in alloc; anonymous()]?));
    }
    names_with(alloc, roles_in(user))
}

/// `authenticated` and these names, in order, each once.
fn names_with(alloc: Global, roles: &[Name]) -> Result<Items<Name>, AllocError>
    ensures { IfOk result (λ names. names ≡ text_set (authenticated_bytes ∷ roles.now)) }
{
    let mut names = BTreeSet::new(alloc);
    names.insert(authenticated())?;
    add_all(alloc, &mut names, roles)?;
    listed(alloc, names)
}

/// The roles of a user's row, if there is one.
fn roles_in(user: Option<&User>) -> &[Name]
    ensures { result.now ≡ roles_of_user (option_copied user.entry) }
{
    match user {
        Some(user) => user.roles.as_slice(),
        None => &[],
    }
}

/// The name of the role of user 0.
#[tactic(auto, unfolding(content_rows::specs::Permission::anonymous))]
fn anonymous() -> Name
    ensures { result ≡ anonymous_bytes }
{
    match Name::new(b"anonymous") {
        Ok(name) => name,
        Err(_) => unreachable!(),
    }
}

/// The name of the role of every other user.
#[tactic(auto, unfolding(content_rows::specs::Permission::authenticated))]
fn authenticated() -> Name
    ensures { result ≡ authenticated_bytes }
{
    match Name::new(b"authenticated") {
        Ok(name) => name,
        Err(_) => unreachable!(),
    }
}
