//! The states of rows that stand in a list.
ghost use Rattle.std.specs.Prelude.{◌≡◌, IfOk};
ghost use Rattle.content_state.specs.SiteRules.{IsValidState};
ghost use Rattle.site_alone.specs.Sites.{rows_of, starter_site, state_over};

use content_rows::{Cell, Row, starter};
use content_state::{Rows, State};
use std::alloc::{AllocError, Global};
use std::sync::Arc;
use tag_counts::Counts;

/// The map of these rows: of a cell that stands twice the later row counts.
pub fn rows_of(alloc: Global, entries: Vec<(Cell, Row)>) -> Result<Rows, AllocError>
    ensures { IfOk result (λ rows. rows ≡ rows_of entries.items) }
{
    let mut rows = Rows::new(alloc);
    'entries: for (cell, row) in entries {
        rows.set(cell, Arc::new(alloc, row)?)?;
    }
    Ok(rows)
}

/// The state of these rows, whether they are a site or not: its number is 0, and its tags were never invalidated. `Err` only
/// where memory is wanting.
pub fn state_over(alloc: Global, entries: Vec<(Cell, Row)>) -> Result<State, AllocError>
    ensures { IfOk result (λ state. state ≡ state_over entries.items) }
{
    let rows = rows_of(alloc, entries)?;
    State::new(alloc, rows, Counts::new(alloc), 0)
}

/// The law that the new site is valid: each of its rows is right, and no cell breaks a rule of sites.
#[tactic(auto, using(crate::proofs::Starter::valid))]
pub fn starter_is_valid()
    ensures { IsValidState starter_site }
{}

/// The starter site, which is valid. `Err` only where memory is wanting.
pub fn starter_state(alloc: Global) -> Result<State, AllocError>
    ensures same { IfOk result (λ s. s ≡ starter_site) }
    ensures valid { IfOk result IsValidState }
{
    state_over(alloc, starter(alloc)?)
}
