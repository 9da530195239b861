//! Blocks that are lazy: they are left out of the page that is kept for whoever views it.
ghost use Rattle.std.specs.Prelude.{◌≡◌, IfOk};
ghost use Rattle.std.specs.Option.{option_copied};
ghost use Rattle.page_meaning.specs.Lazy.{TellsOn, listing_is_momentary, is_lazy as lazy_plan, is_lazy_kind, is_lazy_listing};

use cacheability::{Cacheability, Name};
use content_rows::{Block, BlockKind, Listing};
use content_state::State;
use std::alloc::AllocError;

/// Whether the block of a name is lazy, and the tags of the rows that tell it. A block is lazy where what its kind declares meets
/// the conditions of auto-placeholdering: a greeting varies by the user, a value that guards forms by the session, and a clock, or
/// a listing that is there, may have an age of no second. `Err` only where memory is wanting.
/// <https://www.drupal.org/docs/drupal-apis/render-api/auto-placeholdering>
pub fn is_lazy(
    state: &State,
    name: Name,
    cacheability: &mut Cacheability,
) -> Result<bool, AllocError>
    ensures { IfOk result (λ lazy. TellsOn state.now (lazy_plan name) cacheability.old lazy cacheability.new) }
{
    let (block, tag) = state.block(name);
    cacheability.add_tag(tag)?;
    match block {
        None => Ok(false),
        Some(block) => of_kind(state, block, cacheability),
    }
}

/// Whether a block of a kind is lazy.
fn of_kind(
    state: &State,
    block: &Block,
    cacheability: &mut Cacheability,
) -> Result<bool, AllocError>
    ensures { IfOk result (λ lazy. TellsOn state.now (is_lazy_kind block.now.kind block.now) cacheability.old lazy cacheability.new) }
{
    match block.kind {
        BlockKind::Text | BlockKind::Menu => Ok(false),
        BlockKind::Greeting | BlockKind::Csrf => Ok(true),
        BlockKind::Clock => Ok(block.age.unwrap_or(0) == 0),
        BlockKind::Listing => of_listing(state, block.name, cacheability),
    }
}

/// Whether a block of the listing of a name is lazy.
fn of_listing(
    state: &State,
    name: Option<Name>,
    cacheability: &mut Cacheability,
) -> Result<bool, AllocError>
    ensures { IfOk result (λ lazy. TellsOn state.now (is_lazy_listing name) cacheability.old lazy cacheability.new) }
{
    let Some(name) = name else {
        return Ok(false);
    };
    let (listing, tag) = state.listing(name);
    cacheability.add_tag(tag)?;
    Ok(is_momentary(listing))
}

/// Whether there is a listing that may be shown at its own moment alone.
fn is_momentary(listing: Option<&Listing>) -> bool
    ensures { result ≡ listing_is_momentary (option_copied listing.entry) }
{
    match listing {
        None => false,
        Some(listing) => listing.age == Some(0),
    }
}
