//! The grants of a viewer.
ghost use Rattle.std.specs.Prelude.{◌≡◌, ◌∷◌, ◌++◌, OnOk, IfOk, option_copied, map, fold};
ghost use Rattle.std.specs.List.{flat_map};
ghost use Rattle.std.specs.BTreeSet.{insert_key};
ghost use Rattle.std.specs.List.Sorted.{IsStrictlySortedBy};
ghost use Rattle.content_rows.specs.GrantOrder.{grant_cmp};
ghost use Rattle.content_rows.specs.Permission.{grants_of as grants_by, grants_of_user, grant_set, everybody as everybody_grant};

use crate::records::all;
use cacheability::OrderedSet;
use content_rows::{Grant, Items, Role, User};
use std::alloc::{AllocError, Global};

/// The grants of a viewer, by the bytes of the realm and then by number, each once: number 0 in the realm `all`,
/// which everybody has, those of the viewer's row, if there is one, and those of the present ones
/// of its roles. `Err` only where memory is wanting.
/// <https://api.drupal.org/api/drupal/core!modules!node!node.api.php/function/hook_node_grants/10>
pub fn grants_of(
    alloc: Global,
    user: Option<&User>,
    roles: &[&Role],
) -> Result<Items<Grant>, AllocError>
    ensures same { IfOk result (λ grants. grants ≡ grants_by (option_copied user.entry) (map (λ role. role.now) roles.now)) }
    ensures in_order { IfOk result (λ grants. IsStrictlySortedBy grant_cmp grants) }
{
    let mut grants = OrderedSet::new(alloc);
    grants.insert(everybody())?;
    add_all(&mut grants, grants_in(user))?;
    add_of_roles(&mut grants, roles)?;
    Ok(Items::from_vec(grants.into_vec()))
}

/// The grant that everybody has.
fn everybody() -> Grant
    ensures { result ≡ everybody_grant }
{
    Grant {
        gid: 0,
        realm: all(),
    }
}

/// The grants of a user's row, if there is one.
fn grants_in(user: Option<&User>) -> &[Grant]
    ensures { result.now ≡ grants_of_user (option_copied user.entry) }
{
    match user {
        Some(user) => user.grants.as_slice(),
        None => &[],
    }
}

/// Puts these grants into a set. `Err` only where memory is wanting.
fn add_all(set: &mut OrderedSet<Grant>, grants: &[Grant]) -> Result<(), AllocError>
    ensures { OnOk result (set.new ≡ fold (insert_key grant_cmp) set.old grants.now) }
{
    'grants: for grant in grants {
        set.insert(*grant)?;
    }
    Ok(())
}

/// Puts the grants of these roles into a set. `Err` only where memory is wanting.
fn add_of_roles(set: &mut OrderedSet<Grant>, roles: &[&Role]) -> Result<(), AllocError>
    ensures { OnOk result (set.new ≡ fold (insert_key grant_cmp) set.old (flat_map (λ role. role.grants) (map (λ role. role.now) roles.now))) }
{
    'roles: for role in roles {
        add_all(set, role.grants.as_slice())?;
    }
    Ok(())
}
