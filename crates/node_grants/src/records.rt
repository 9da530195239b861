//! The access records of a node.
ghost use Rattle.std.specs.Prelude.{◌≡◌, IfOk};
ghost use Rattle.content_rows.specs.Permission.{records_of as records_of_node, realm_all, default_record};

use cacheability::Name;
use content_rows::{Duplicate, GrantRow, Items, Node};
use std::alloc::{AllocError, Global};

/// The access records of a node: those of its row. Where the row has none, a published node has
/// the one that lets everybody view it, and an unpublished one has none at all. `Err` only where
/// memory is wanting.
/// <https://api.drupal.org/api/drupal/core!modules!node!node.api.php/function/hook_node_access_records/10>
pub fn records_of(alloc: Global, node: &Node) -> Result<Items<GrantRow>, AllocError>
    ensures { IfOk result (λ records. records ≡ records_of_node node.now) }
{
    if !node.grants.as_slice().is_empty() || !node.status {
        return node.grants.duplicate(alloc);
    }
    Ok(Items::from_vec(vec![in alloc; everybody_views()]?))
}

/// The record of a published node without records of its own.
fn everybody_views() -> GrantRow
    ensures { result ≡ default_record }
{
    GrantRow {
        delete: false,
        gid: 0,
        realm: all(),
        update: false,
        view: true,
    }
}

/// The realm that everybody is in.
#[tactic(auto, unfolding(content_rows::specs::Permission::realm_all))]
pub fn all() -> Name
    ensures { result ≡ realm_all }
{
    match Name::new(b"all") {
        Ok(name) => name,
        Err(_) => unreachable!(),
    }
}
