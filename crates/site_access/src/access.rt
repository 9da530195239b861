//! Access of a viewer, for those who ask once.
ghost use Rattle.std.specs.Prelude.{◌≡◌, IfOk, IsSome};
ghost use Rattle.indexed_rows.specs.Rows.{node_of};
ghost use Rattle.site_access.specs.Access.{access_to_node, access_to_create, access_to_field_of, field_of, node_type_of};
ghost use Rattle.site_access.specs.Plans.{node_access as node_plan, create_access as create_plan, field_access as field_plan};
ghost use Rattle.site_access.specs.Decided.{IsDecided};
ghost use Rattle.site_access.specs.Depends.{access_of, told, by_permissions, node_depends, field_of_depends};

use crate::account::Account;
use access_result::AccessResult;
use cacheability::{Name, Op};
use content_state::{State, Viewer};
use std::alloc::{AllocError, Global};

/// Whether a viewer may do this to a node that is there, as `Account::node_access` says. `Err` only
/// where memory is wanting.
pub fn node_access(
    alloc: Global,
    state: &State,
    viewer: &Viewer,
    op: Op,
    n: u32,
) -> Result<AccessResult, AllocError>
    requires { IsSome (node_of state.now.rows n) }
    ensures answer { IfOk result (λ r. r ≡ told (access_to_node state.now.rows viewer.now op n) r.cacheability) }
    ensures covered { IfOk result (λ r. IsDecided (node_plan op n) state.now.rows viewer.now (access_of r) r.cacheability.tags r.cacheability.contexts) }
    ensures depends { IfOk result (λ r. r.cacheability ≡ node_depends state.now.rows viewer.now op n) }
{
    let account = Account::new(alloc, state, viewer)?;
    account.node_access(alloc, state, op, n)
}

/// Whether a viewer may create a node of a type, as `Account::create_access` says. `Err` only where
/// memory is wanting.
pub fn create_access(
    alloc: Global,
    state: &State,
    viewer: &Viewer,
    node_type: &Name,
) -> Result<AccessResult, AllocError>
    ensures answer { IfOk result (λ r. r ≡ told (access_to_create state.now.rows viewer.now node_type.now) r.cacheability) }
    ensures covered { IfOk result (λ r. IsDecided (create_plan node_type.now) state.now.rows viewer.now (access_of r) r.cacheability.tags r.cacheability.contexts) }
    ensures depends { IfOk result (λ r. r.cacheability ≡ by_permissions) }
{
    let account = Account::new(alloc, state, viewer)?;
    account.create_access(alloc, node_type)
}

/// Whether a viewer may view or edit the field of that name of a node that is there and whose type
/// has the field, as `Account::field_access` says. `Err` only where memory is wanting.
pub fn field_access(
    alloc: Global,
    state: &State,
    viewer: &Viewer,
    op: Op,
    n: u32,
    name: &Name,
) -> Result<AccessResult, AllocError>
    requires there { IsSome (node_of state.now.rows n) }
    requires has_field { IsSome (field_of state.now.rows (node_type_of state.now.rows n) name.now) }
    ensures answer { IfOk result (λ r. r ≡ told (access_to_field_of state.now.rows viewer.now op n name.now) r.cacheability) }
    ensures covered { IfOk result (λ r. IsDecided (field_plan op n (node_type_of state.now.rows n) name.now) state.now.rows viewer.now (access_of r) r.cacheability.tags r.cacheability.contexts) }
    ensures depends { IfOk result (λ r. r.cacheability ≡ field_of_depends state.now.rows op n name.now) }
{
    let account = Account::new(alloc, state, viewer)?;
    account.field_access(alloc, state, op, n, name)
}
