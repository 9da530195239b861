//! What the roles of a user permit.
ghost use Rattle.std.specs.Prelude.{◌≡◌, ◌↔◌, ℕ, List, IfOk, IsTrue, map};
ghost use Rattle.std.specs.List.{flat_map, list_any};
ghost use Rattle.std.specs.List.Sorted.{IsStrictlySortedBy};
ghost use Rattle.std.specs.Ordering.{nat_cmp};
ghost use Rattle.std.specs.Cmp.Lexicographic.{slice_cmp};
ghost use Rattle.std.specs.Str.{bytes_eq};
ghost use Rattle.content_rows.specs.Permission.{permissions_of as permissions_by, has as is_held, text_set};
ghost use Rattle.user_roles.specs.Permitted.{is_permitted, permits};

use crate::sorted::{add_all, listed};
use content_rows::{Duplicate, Items, Permissions, Role, Text};
use std::alloc::{AllocError, Global};
use std::collections::BTreeSet;

/// What a user is permitted, by the present ones of its roles: everything for user 1 and where a
/// role is marked admin, else what any of the roles permits. `Err` only where memory is wanting.
/// <https://www.drupal.org/docs/user_guide/en/user-concept.html>
pub fn permissions_of(alloc: Global, uid: u32, roles: &[&Role]) -> Result<Permissions, AllocError>
    ensures same { IfOk result (λ permissions. permissions ≡ permissions_by uid (map (λ role. role.now) roles.now)) }
    ensures held { IfOk result (λ permissions. (permission : List ℕ) → is_held permissions permission ≡ is_permitted uid (map (λ role. role.now) roles.now) permission) }
{
    if uid == 1 || is_any_admin(roles) {
        return Ok(Permissions::All);
    }
    Ok(Permissions::These(texts_of(alloc, roles)?))
}

/// Whether one of the roles is marked admin.
fn is_any_admin(roles: &[&Role]) -> bool
    ensures { result ≡ list_any (λ role. role.admin) (map (λ role. role.now) roles.now) }
{
    'roles: for role in roles {
        if role.admin {
            return true;
        }
    }
    false
}

/// What any of the roles permits, in order, each once. One role's permissions mostly stand in order in its row, and are then
/// copied as they stand: so it is for each visitor without a session.
fn texts_of(alloc: Global, roles: &[&Role]) -> Result<Items<Text>, AllocError>
    ensures { IfOk result (λ texts. texts ≡ text_set (flat_map (λ role. role.permissions) (map (λ role. role.now) roles.now))) }
{
    match roles {
        [role] if are_in_order(role.permissions.as_slice()) => role.permissions.duplicate(alloc),
        _ => texts_put_in_order(alloc, roles),
    }
}

/// Whether texts stand in order, each once.
fn are_in_order(texts: &[Text]) -> bool
    ensures { IsTrue result ↔ IsStrictlySortedBy (slice_cmp nat_cmp) texts.now }
{
    texts.is_sorted_by(|before, after| before < after)
}

/// What any of the roles permits, put in order by a set.
fn texts_put_in_order(alloc: Global, roles: &[&Role]) -> Result<Items<Text>, AllocError>
    ensures { IfOk result (λ texts. texts ≡ text_set (flat_map (λ role. role.permissions) (map (λ role. role.now) roles.now))) }
{
    let mut texts: BTreeSet<Text> = BTreeSet::new(alloc);
    'roles: for role in roles {
        add_all(alloc, &mut texts, role.permissions.as_slice())?;
    }
    listed(alloc, texts)
}

/// Whether a user of these roles, the present ones, holds a permission: what `permissions_of` would say, which gathers all of them.
/// <https://www.drupal.org/docs/user_guide/en/user-concept.html>
#[tactic(auto, using(crate::proofs::Permitting::held_where_permitted))]
pub fn is_permitted(uid: u32, roles: &[&Role], permission: &[u8]) -> bool
    ensures by_roles { result ≡ is_permitted uid (map (λ role. role.now) roles.now) permission.now }
    ensures held { result ≡ is_held (permissions_by uid (map (λ role. role.now) roles.now)) permission.now }
{
    uid == 1 || is_any_permitting(roles, permission)
}

/// Whether one of the roles permits it.
fn is_any_permitting(roles: &[&Role], permission: &[u8]) -> bool
    ensures { result ≡ list_any (permits permission.now) (map (λ role. role.now) roles.now) }
{
    'roles: for role in roles {
        if permits(role, permission) {
            return true;
        }
    }
    false
}

/// Whether a role permits it: it is marked admin, or it lists the permission.
fn permits(role: &Role, permission: &[u8]) -> bool
    ensures { result ≡ permits permission.now role.now }
{
    role.admin || is_among(permission, role.permissions.as_slice())
}

/// Whether a permission is held.
pub fn has(permissions: &Permissions, permission: &[u8]) -> bool
    ensures { result ≡ is_held permissions.now permission.now }
{
    match permissions {
        Permissions::All => true,
        Permissions::These(held) => is_among(permission, held.as_slice()),
    }
}

/// Whether the bytes are those of one of the texts.
fn is_among(bytes: &[u8], texts: &[Text]) -> bool
    ensures { result ≡ list_any (λ text. bytes_eq text bytes.now) texts.now }
{
    texts.iter().any(|text| text.as_slice() == bytes)
}
