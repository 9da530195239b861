//! A term and its descendants.
ghost use Rattle.std.specs.Prelude.{◌≡◌, ◌∷◌, [], IfOk, IsTrue, OnOk, fold};
ghost use Rattle.std.specs.BTreeSet.{insert_key};
ghost use Rattle.std.specs.Ordering.{nat_cmp};
ghost use Rattle.site_lists.specs.Below.{below, ids_under, terms_within};

use content_state::State;
use std::alloc::{AllocError, Global};
use std::collections::BTreeSet;

/// The most terms in a chain of parents.
const LEVELS: u8 = 9;

/// A term, whether it is there or not, and its descendants, published or not. It takes the time of these alone. `Err` only where
/// memory is wanting.
/// <https://www.drupal.org/docs/user_guide/en/structure-taxonomy.html>
pub fn terms_within(alloc: Global, state: &State, top: u32) -> Result<BTreeSet<u32>, AllocError>
    ensures { IfOk result (λ terms. terms.keys ≡ terms_within state.now.rows top) }
{
    state.stands_in_order();
    let mut terms = BTreeSet::new(alloc);
    add_below(&mut terms, state, top, LEVELS)?;
    Ok(terms)
}

/// Whether no term stands below a term.
pub fn is_alone(state: &State, top: u32) -> bool
    ensures { IsTrue result → (terms_within state.now.rows top ≡ top ∷ []) }
{
    state.stands_in_order();
    match state.children(top).next() {
        None => true,
        Some(_) => false,
    }
}

/// Adds a term and what stands below it, so many levels down.
fn add_below(
    terms: &mut BTreeSet<u32>,
    state: &State,
    term: u32,
    levels: u8,
) -> Result<(), AllocError>
    ensures { OnOk result (terms.new.keys ≡ fold (insert_key nat_cmp) terms.old.keys (below (ids_under state.now.rows) levels term)) }
{
    if levels == 0 {
        return Ok(());
    }
    terms.insert(term)?;
    'children: for child in state.children(term) {
        add_below(terms, state, child.id, levels - 1)?;
    }
    Ok(())
}
