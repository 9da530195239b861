//! Under which targets the pages of a site stand.
ghost use Rattle.std.specs.Prelude.{◌≡◌, ◌++◌, IfOk, decimal};
ghost use Rattle.std.specs.Option.{option_copied};
ghost use Rattle.site_targets.specs.Canonical.{
  canonical,
  path_or_number,
  row_target,
};

use content_rows::{Cell, Row, Text};
use content_state::State;
use std::alloc::{AllocError, Global};

/// The canonical targets of a state: `/`, the profile of each user, the page of each term and of each node, that of each listing
/// that has a path, and the login form; each kind in the order of its cells. A node's target is its path, or
/// `/node/<n>` where it has none. `Err` only where memory is wanting.
#[tactic(auto, unfolding(content_state::specs::Route::root_path, content_state::specs::Route::login_path))]
pub fn canonical(alloc: Global, state: &State) -> Result<Vec<Text>, AllocError>
    ensures { IfOk result (λ targets. targets.items ≡ canonical state.now.rows) }
{
    let mut targets = Vec::new(alloc);
    targets.push(Text::copied(alloc, b"/")?)?;
    'rows: for (cell, row) in state.rows().in_order(alloc)? {
        if let Some(target) = row_target(alloc, &cell, row)? {
            targets.push(target)?;
        }
    }
    targets.push(Text::copied(alloc, b"/user/login")?)?;
    Ok(targets)
}

/// The target of the page of a cell's row, where it has one.
#[tactic(auto, unfolding(content_state::specs::Route::user_front, content_state::specs::Route::term_front))]
fn row_target(alloc: Global, cell: &Cell, row: &Row) -> Result<Option<Text>, AllocError>
    ensures { IfOk result (λ target. target ≡ row_target (cell.now, row.now)) }
{
    match (cell, row) {
        (Cell::User(uid), Row::User(_)) => Ok(Some(numbered(alloc, b"/user/", *uid)?)),
        (Cell::Term(tid), Row::Term(_)) => Ok(Some(numbered(alloc, b"/taxonomy/term/", *tid)?)),
        (Cell::Node(nid), Row::Node(node)) => {
            Ok(Some(node_target(alloc, *nid, node.path.as_ref())?))
        }
        (Cell::Listing(_), Row::Listing(listing)) => copied(alloc, listing.path.as_ref()),
        _ => Ok(None),
    }
}

/// The target of the page of a node that has this number, and this path, if it has one.
#[tactic(auto, unfolding(content_state::specs::Route::node_front))]
fn node_target(alloc: Global, nid: u32, path: Option<&Text>) -> Result<Text, AllocError>
    ensures { IfOk result (λ target. target ≡ path_or_number nid (option_copied path.entry)) }
{
    match path {
        Some(path) => Text::copied(alloc, path.as_slice()),
        None => numbered(alloc, b"/node/", nid),
    }
}

/// A copy of a path, if there is one.
fn copied(alloc: Global, path: Option<&Text>) -> Result<Option<Text>, AllocError>
    ensures { IfOk result (λ copy. copy ≡ option_copied path.entry) }
{
    match path {
        Some(path) => Ok(Some(Text::copied(alloc, path.as_slice())?)),
        None => Ok(None),
    }
}

/// A target's beginning, and a number after it.
fn numbered(alloc: Global, front: &[u8], number: u32) -> Result<Text, AllocError>
    ensures { IfOk result (λ target. target ≡ front.now ++ decimal number) }
{
    let digits = number.to_string(alloc)?;
    let mut bytes = Vec::from_slice(alloc, front)?;
    bytes.extend_from_slice(digits.as_bytes())?;
    Ok(Text::from_vec(bytes))
}
