//! Results of deciding, and what they depend on.
ghost use Rattle.std.specs.Prelude.{◌≡◌, IfOk};
ghost use Rattle.access_result.specs.declared.reason.Reason.TheVariants as reason_is;
ghost use Rattle.site_access.specs.Access.{Allowed as access_given, Denied as access_denied};
ghost use Rattle.site_access.specs.Depends.{told, vote as vote_of, by_permissions as permissions_depend, rules_depend as depend_of_rules, grants_depend as depend_of_grants, field_depends as depend_of_field};

use access_result::{AccessResult, PermissionText, Reason, Verdict};
use cacheability::{Cacheability, Context, Name, Tag};
use std::alloc::{AllocError, Global};

/// What depends on the viewer's permissions alone. `Err` only where memory is wanting.
pub fn by_permissions(alloc: Global) -> Result<Cacheability, AllocError>
    ensures { IfOk result (λ c. c ≡ permissions_depend) }
{
    let mut depends = Cacheability::new(alloc);
    depends.add_context(Context::UserPermissions)?;
    Ok(depends)
}

/// What the rules of a node depend on: its row and the viewer, where they ask who it is. `Err` only
/// where memory is wanting.
pub fn rules_depend(alloc: Global, n: u32, asks: bool) -> Result<Cacheability, AllocError>
    ensures { IfOk result (λ c. c ≡ depend_of_rules n asks) }
{
    let mut depends = by_permissions(alloc)?;
    if asks {
        depends.add_tag(Tag::Node(n))?;
        depends.add_context(Context::User)?;
    }
    Ok(depends)
}

/// What the grants of a node depend on. `Err` only where memory is wanting.
pub fn grants_depend(alloc: Global, n: u32) -> Result<Cacheability, AllocError>
    ensures { IfOk result (λ c. c ≡ depend_of_grants n) }
{
    let mut depends = Cacheability::new(alloc);
    depends.add_tag(Tag::Node(n))?;
    depends.add_context(Context::NodeGrantsView)?;
    Ok(depends)
}

/// What a field of a node depends on: its type; permissions, where one is named or the field is for
/// owners; the viewer and the node's row, where it is for owners. `Err` only where memory is
/// wanting.
pub fn field_depends(
    alloc: Global,
    node_type: Name,
    n: u32,
    named: bool,
    owner: bool,
) -> Result<Cacheability, AllocError>
    ensures { IfOk result (λ c. c ≡ depend_of_field node_type n named owner) }
{
    let mut depends = Cacheability::new(alloc);
    depends.add_tag(Tag::NodeType(node_type))?;
    if owner {
        depends.add_tag(Tag::Node(n))?;
        depends.add_context(Context::User)?;
        depends.add_context(Context::UserPermissions)?;
    } else if named {
        depends.add_context(Context::UserPermissions)?;
    }
    Ok(depends)
}

/// Allowed, or else neutral for a reason.
pub fn vote(is_for: bool, reason: Option<Reason>, depends: Cacheability) -> AccessResult
    ensures { result ≡ vote_of is_for reason depends }
{
    if is_for {
        allowed_by(depends)
    } else {
        AccessResult {
            verdict: Verdict::Neutral,
            reason,
            cacheability: depends,
        }
    }
}

/// Allowed.
pub fn allowed_by(depends: Cacheability) -> AccessResult
    ensures { result ≡ told access_given depends }
{
    AccessResult {
        verdict: Verdict::Allowed,
        reason: None,
        cacheability: depends,
    }
}

/// Forbidden, since a permission is missing. `Err` only where memory is wanting.
pub fn lacking(
    alloc: Global,
    permission: &[u8],
    depends: Cacheability,
) -> Result<AccessResult, AllocError>
    ensures { IfOk result (λ r. r ≡ told (access_denied (reason_is.Permission permission.now)) depends) }
{
    Ok(AccessResult {
        verdict: Verdict::Forbidden,
        reason: Some(Reason::Permission(PermissionText::copied(alloc, permission)?)),
        cacheability: depends,
    })
}
