//! The counts that an edit cannot raise.
ghost use Rattle.std.specs.Prelude.{◌≡◌, IfOk};
ghost use Rattle.site_import.specs.Full.{finds_full, first_full_cell};

use content_rows::Cell;
use content_state::{State, Write};
use state_commits::tags_of_write;
use std::alloc::{AllocError, Global};

/// Whether a write invalidates a tag whose count is the greatest there is. `Err` only where memory is wanting.
fn finds_full(alloc: Global, state: &State, write: &Write) -> Result<bool, AllocError>
    ensures { IfOk result (λ full. full ≡ finds_full state.now write.now) }
{
    let tags = tags_of_write(alloc, state.rows(), write)?;
    let counts = state.counts();
    Ok(tags.iter().any(|tag| counts.count(tag) == u64::MAX))
}

/// The cell of the first write that invalidates a tag whose count is the greatest there is. `Err` only where memory is
/// wanting.
pub(crate) fn first_full_cell(
    alloc: Global,
    state: &State,
    writes: &[Write],
) -> Result<Option<Cell>, AllocError>
    ensures { IfOk result (λ cell. cell ≡ first_full_cell state.now writes.now) }
{
    'writes: for write in writes {
        if finds_full(alloc, state, write)? {
            return Ok(Some(write.cell));
        }
    }
    Ok(None)
}
