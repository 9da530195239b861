//! Access to the fields of nodes.
ghost use Rattle.std.specs.Prelude.{◌≡◌, IfOk, IsSome, option_copied, is_some};
ghost use Rattle.indexed_rows.specs.Rows.{node_of};
ghost use Rattle.site_access.specs.Access.{access_to_field, access_to_field_of, field_permission as permission_of, field_in as field_named, field_of, node_type_of};
ghost use Rattle.site_access.specs.Plans.{field_access};
ghost use Rattle.site_access.specs.Decided.{IsDecided};
ghost use Rattle.site_access.specs.Depends.{access_of, told, field_of_depends, field_depends as depends_of_field};
ghost use Rattle.site_access.specs.Account.{IsAccountOf, OnRows};

use crate::account::Account;
use crate::depends::{allowed_by, field_depends, lacking};
use crate::permission;
use access_result::{AccessResult, Reason, Verdict};
use cacheability::{Name, Op};
use content_rows::{FieldRow, Node, NodeType, Text};
use content_state::State;
use std::alloc::{AllocError, Global};

impl Account {
    /// Whether the viewer may view or edit the field of that name of a node that is there and whose
    /// type has the field: its permission is held, where it names one, and a field of owners is the
    /// logged-in owner's, and theirs who may administer nodes. `Err` only where memory is wanting.
    /// <https://www.drupal.org/docs/8/api/entity-api/access-on-entities>
    pub fn field_access(
        &self,
        alloc: Global,
        state: &State,
        op: Op,
        n: u32,
        name: &Name,
    ) -> Result<AccessResult, AllocError>
        requires account { IsAccountOf state.now.rows self.now.viewer self.now }
        requires there { IsSome (node_of state.now.rows n) }
        requires has_field { IsSome (field_of state.now.rows (node_type_of state.now.rows n) name.now) }
        ensures answer { IfOk result (λ r. r ≡ told (access_to_field_of state.now.rows self.now.viewer op n name.now) r.cacheability) }
        ensures covered { IfOk result (λ r. IsDecided (field_access op n (node_type_of state.now.rows n) name.now) state.now.rows self.now.viewer (access_of r) r.cacheability.tags r.cacheability.contexts) }
        ensures depends { IfOk result (λ r. r.cacheability ≡ field_of_depends state.now.rows op n name.now) }
    {
        self.decide_field(alloc, state, op, n, name)
    }

    /// Access to a field that is there of a node that is there. `Err` only where memory is wanting.
    fn decide_field(
        &self,
        alloc: Global,
        state: &State,
        op: Op,
        n: u32,
        name: &Name,
    ) -> Result<AccessResult, AllocError>
        requires account { IsAccountOf state.now.rows self.now.viewer self.now }
        requires there { IsSome (node_of state.now.rows n) }
        requires has_field { IsSome (field_of state.now.rows (node_type_of state.now.rows n) name.now) }
        ensures { IfOk result (λ r. r ≡ told (access_to_field_of state.now.rows self.now.viewer op n name.now) (field_of_depends state.now.rows op n name.now)) }
    {
        let (node, _) = state.node(n);
        let Some(node) = node else { unreachable!() };
        let (node_type, _) = state.node_type(node.node_type);
        let Some(node_type) = node_type else {
            unreachable!()
        };
        let Some(field) = field_in(node_type, name) else {
            unreachable!()
        };
        self.access_to_field(alloc, op, n, node, field)
    }

    /// Access to a field of this node. Where its owner's rule and its permission both deny, the
    /// permission is the reason. `Err` only where memory is wanting.
    fn access_to_field(
        &self,
        alloc: Global,
        op: Op,
        n: u32,
        node: &Node,
        field: &FieldRow,
    ) -> Result<AccessResult, AllocError>
        ensures { IfOk result (λ r. OnRows self.now (λ rows. r ≡ told (access_to_field rows self.now.viewer op node.now.uid field.now) (depends_of_field node.now.node_type n (is_some (permission_of op field.now)) field.now.owner))) }
    {
        let permission = field_permission(op, field);
        let depends = field_depends(alloc, node.node_type, n, permission.is_some(), field.owner)?;
        let owned = !field.owner || self.owns(node.uid) || self.may(permission::administer_nodes());
        if let Some(permission) = permission {
            if !self.may(permission.as_slice()) {
                return lacking(alloc, permission.as_slice(), depends);
            }
        }
        if owned {
            return Ok(allowed_by(depends));
        }
        Ok(AccessResult {
            verdict: Verdict::Forbidden,
            reason: Some(Reason::OwnerOnly(field.name)),
            cacheability: depends,
        })
    }
}

/// The permission that viewing a field takes, or editing it, if any.
pub(crate) fn field_permission(op: Op, field: &FieldRow) -> Option<&Text>
    ensures { option_copied result ≡ permission_of op field.now }
{
    match op {
        Op::View => field.view.as_ref(),
        Op::Update | Op::Delete => field.edit.as_ref(),
    }
}

/// The field of a type that has this name, if there is one.
pub fn field_in<'a>(node_type: &'a NodeType, name: &Name) -> Option<&'a FieldRow>
    ensures { option_copied result ≡ field_named node_type.now name.now }
{
    'fields: for field in node_type.fields.as_slice() {
        if field.name.as_bytes() == name.as_bytes() {
            return Some(field);
        }
    }
    None
}
