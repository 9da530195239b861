//! Who else has what no two rows may have, whether nodes have a type, and whether a term is another's parent.
ghost use Rattle.std.specs.Prelude.{◌≡◌, not};
ghost use Rattle.std.specs.Option.{option_copied};
ghost use Rattle.std.specs.Ordering.{is_eq};
ghost use Rattle.content_rows.specs.CellOrder.{cell_cmp};
ghost use Rattle.valid_edits.specs.Holders.{holder, path_holder, is_node_of, is_used, is_parent};

use cacheability::Name;
use content_rows::{Cell, Row, Text};
use content_state::{State, Unique};

/// The first cell in cell order, other than this one, whose row has the text as what no two rows may have. It takes no
/// memory.
pub fn holder<'a>(state: &'a State, cell: &Cell, what: Unique, text: &Text) -> Option<&'a Cell>
    ensures { option_copied result ≡ holder state.now.rows cell.now what text.now }
{
    'rows: for (other, _) in state.rows_with(what, text.as_slice()) {
        if is_other(cell, other) {
            return Some(other);
        }
    }
    None
}

/// The first cell in cell order, other than this one, whose row has the path; none where there is no path. It takes no
/// memory.
/// <https://api.drupal.org/api/drupal/core%21modules%21path_alias%21src%21Plugin%21Validation%21Constraint%21UniquePathAliasConstraint.php/class/UniquePathAliasConstraint/10>
pub fn path_holder<'a>(state: &'a State, cell: &Cell, path: &Option<Text>) -> Option<&'a Cell>
    ensures { option_copied result ≡ path_holder state.now.rows cell.now path.now }
{
    match path {
        Some(path) => holder(state, cell, Unique::Path, path),
        None => None,
    }
}

/// Whether two cells differ.
fn is_other(cell: &Cell, other: &Cell) -> bool
    ensures { result ≡ not (is_eq (cell_cmp other.now cell.now)) }
{
    other.order(cell).is_ne()
}

/// Whether a node has the type. It looks at every row, and takes no memory.
/// <https://api.drupal.org/api/drupal/core%21modules%21node%21src%21Form%21NodeTypeDeleteConfirm.php/class/NodeTypeDeleteConfirm/10>
pub fn is_used(state: &State, node_type: Name) -> bool
    ensures { result ≡ is_used state.now.rows node_type }
{
    'rows: for (_, row) in state.rows().each() {
        if is_node_of(node_type, row) {
            return true;
        }
    }
    false
}

/// Whether a row is a node of the type.
fn is_node_of(node_type: Name, row: &Row) -> bool
    ensures { result ≡ is_node_of node_type row.now }
{
    match row {
        Row::Node(node) => node.node_type.as_bytes() == node_type.as_bytes(),
        _ => false,
    }
}

/// Whether a term is another's parent. It takes no memory.
/// <https://api.drupal.org/api/drupal/core%21modules%21taxonomy%21src%21TermStorage.php/class/TermStorage/10>
pub fn is_parent(state: &State, term: u32) -> bool
    ensures { result ≡ is_parent state.now.rows term }
{
    state.children(term).next().is_some()
}
