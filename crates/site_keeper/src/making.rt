//! The batch of an accepted edit.
ghost use Rattle.std.specs.Prelude.{◌≡◌, ◌<◌, ◌^◌, None, IfOk};
ghost use Rattle.std.specs.Arc.{arc_value};
ghost use Rattle.content_state.specs.Replay.{tags_of_commit};
ghost use Rattle.state_commits.specs.Apply.{first_full};
ghost use Rattle.site_keeper.specs.Steps.{raised, batch_of};

use crate::batch::Batch;
use cacheability::Tag;
use content_rows::Items;
use content_state::{Commit, Rows};
use state_commits::tags_of_commit;
use std::alloc::{AllocError, Global};
use std::sync::Arc;
use tag_counts::Counts;

/// The batch of an edit of the state with these rows, counts and number, where none of the tags that it invalidates has a
/// count that cannot be raised. `Err` only where memory is wanting.
pub fn batch_over(
    alloc: Global,
    rows: &Rows,
    counts: &Counts,
    head: u64,
    commit: Arc<Commit>,
) -> Result<Batch, AllocError>
    requires small { head < 2 ^ 63 }
    requires none_full { first_full counts.now (tags_of_commit rows.now (arc_value commit)) ≡ None }
    ensures { IfOk result (λ batch. batch ≡ batch_of (record { rows = rows.now; counts = counts.now; number = head }) (arc_value commit)) }
{
    let tags = tags_of_commit(alloc, rows, &commit)?;
    let counts = raised(alloc, counts, tags.as_slice())?;
    Ok(Batch {
        commit,
        counts,
        head: head + 1,
    })
}

/// Each of these tags, none of which has the greatest count, with one more than its count. `Err` only where memory is
/// wanting.
fn raised(alloc: Global, counts: &Counts, tags: &[Tag]) -> Result<Items<(Tag, u64)>, AllocError>
    requires { first_full counts.now tags.now ≡ None }
    ensures { IfOk result (λ entries. entries ≡ raised counts.now tags.now) }
{
    let mut entries = Vec::new(alloc);
    'tags: for tag in tags {
        entries.push((*tag, counts.count(tag) + 1))?;
    }
    Ok(Items::from_vec(entries))
}
