//! Whether a record names a grant.
ghost use Rattle.std.specs.Prelude.{◌≡◌};
ghost use Rattle.std.specs.List.{list_any};
ghost use Rattle.content_rows.specs.Permission.{granted as is_granted, records_of, default_record, is_about, names};

use cacheability::Op;
use content_rows::{Grant, GrantRow, Node};

/// Whether one of the records lets the holder of one of the grants do this: it is about the
/// operation, and has the grant's number and the grant's realm. It takes no memory.
/// <https://api.drupal.org/api/drupal/core!modules!node!node.module/group/node_access/10>
pub fn granted(op: Op, records: &[GrantRow], grants: &[Grant]) -> bool
    ensures { result ≡ is_granted op records.now grants.now }
{
    'records: for record in records {
        if allows(record, op) && names_any(record, grants) {
            return true;
        }
    }
    false
}

/// Whether the access records of a node let the holder of one of the grants do this, as `granted`
/// says of the records that `records_of` makes. No list is made of them: it takes no memory.
/// <https://api.drupal.org/api/drupal/core!modules!node!node.module/group/node_access/10>
pub fn granted_to(op: Op, node: &Node, grants: &[Grant]) -> bool
    ensures { result ≡ is_granted op (records_of node.now) grants.now }
{
    let records = node.grants.as_slice();
    if !records.is_empty() {
        return granted(op, records, grants);
    }
    // without records everybody may view a published node
    match op {
        Op::View => node.status && has_everybody(grants),
        Op::Update | Op::Delete => false,
    }
}

/// Whether the grant that everybody has is among these.
fn has_everybody(grants: &[Grant]) -> bool
    ensures { result ≡ list_any (names default_record) grants.now }
{
    'grants: for grant in grants {
        if is_everybody(grant) {
            return true;
        }
    }
    false
}

/// Whether a grant is the one that everybody has.
#[tactic(auto, unfolding(content_rows::specs::Permission::realm_all))]
fn is_everybody(grant: &Grant) -> bool
    ensures { result ≡ names default_record grant.now }
{
    grant.gid == 0 && grant.realm.as_bytes() == b"all".as_slice()
}

/// Whether a record is about an operation.
fn allows(row: &GrantRow, op: Op) -> bool
    ensures { result ≡ is_about op row.now }
{
    match op {
        Op::View => row.view,
        Op::Update => row.update,
        Op::Delete => row.delete,
    }
}

/// Whether a record names one of the grants.
fn names_any(row: &GrantRow, grants: &[Grant]) -> bool
    ensures { result ≡ list_any (names row.now) grants.now }
{
    'grants: for grant in grants {
        if names_one(row, grant) {
            return true;
        }
    }
    false
}

/// Whether a record names a grant: the number and the realm are the same.
fn names_one(row: &GrantRow, grant: &Grant) -> bool
    ensures { result ≡ names row.now grant.now }
{
    row.gid == grant.gid && row.realm.as_bytes() == grant.realm.as_bytes()
}
