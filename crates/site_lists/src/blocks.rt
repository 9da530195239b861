//! The blocks of a region.
ghost use Rattle.std.specs.Prelude.{◌≡◌, IfOk};
ghost use Rattle.site_lists.specs.Blocks.{region_blocks};

use cacheability::Name;
use content_rows::Region;
use content_state::State;
use std::alloc::{AllocError, Global};

/// The names of the blocks that are placed in a region, by weight, then by name. `Err` only where
/// memory is wanting.
/// <https://www.drupal.org/docs/user_guide/en/block-regions.html>
pub fn blocks_of(alloc: Global, state: &State, region: Region) -> Result<Vec<Name>, AllocError>
    ensures { IfOk result (λ names. names.items ≡ region_blocks state.now.rows region) }
{
    let mut names = Vec::new(alloc);
    'keys: for key in state.blocks_within(region) {
        names.push(key.rank.name)?;
    }
    Ok(names)
}
