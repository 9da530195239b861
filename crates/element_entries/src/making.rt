//! Entries that are made of what was put together.
ghost use Rattle.std.specs.Prelude.{◌≡◌, IfOk, OnOk};
ghost use Rattle.cacheability.specs.InOrder.{HasBoth, AddsItem};
ghost use Rattle.cacheability.specs.declared.tag.Tag.TheVariants as tag;
ghost use Rattle.element_entries.specs.Keys.{visit, required};
ghost use Rattle.element_entries.specs.Making.{Bubbles, IsEntryOf};

use crate::keys::own_values;
use crate::leaving::leave_out;
use crate::reader::Reader;
use cache_entries::Entry;
use cacheability::{Cacheability, Context, Tag};
use content_rows::Items;
use content_state::{Hole, Library};
use html_out::Segments;
use std::alloc::{AllocError, Global};

/// What was put together: what it shows, depends on and attaches, the last moment at which it may be shown, and its status
/// where it is a page.
#[derive(Drop)]
pub struct Joined {
    pub segments: Segments<Hole>,
    pub cacheability: Cacheability,
    pub libraries: Vec<Library>,
    pub last: u64,
    pub status: Option<u16>,
}

/// Adds what every entry depends on: the tag of all that is rendered, and the required contexts.
fn add_required(cacheability: &mut Cacheability) -> Result<(), AllocError>
    ensures tags { OnOk result (AddsItem cacheability.old.tags tag.Rendered cacheability.new.tags) }
    ensures contexts { OnOk result (HasBoth cacheability.old.contexts required cacheability.new.contexts) }
    ensures age { cacheability.new.max_age ≡ cacheability.old.max_age }
{
    cacheability.add_tag(Tag::Rendered)?;
    cacheability.add_context(Context::Language)?;
    cacheability.add_context(Context::Theme)?;
    cacheability.add_context(Context::UserPermissions)?;
    Ok(())
}

/// What an entry says of what was put together: contexts that others make redundant are left out, and tags stand in for
/// them.
fn bubbled(
    alloc: Global,
    reader: &Reader<'_>,
    mut cacheability: Cacheability,
) -> Result<Cacheability, AllocError>
    ensures { IfOk result (λ said. Bubbles (visit reader.now) cacheability said) }
{
    add_required(&mut cacheability)?;
    leave_out(alloc, reader, &mut cacheability)?;
    Ok(cacheability)
}

/// An entry of what was put together for a reader. `Err` only where memory is wanting.
/// <https://www.drupal.org/docs/drupal-apis/render-api/cacheability-of-render-arrays>
pub fn entry_of(alloc: Global, reader: &Reader<'_>, joined: Joined) -> Result<Entry, AllocError>
    ensures { IfOk result (λ e. IsEntryOf reader.now joined e) }
{
    let Joined {
        segments,
        cacheability,
        libraries,
        last,
        status,
    } = joined;
    let cacheability = bubbled(alloc, reader, cacheability)?;
    let values = own_values(alloc, reader, cacheability.contexts())?;
    let sum = reader.state.counts().sum(cacheability.tags());
    Ok(Entry {
        segments,
        libraries: Items::from_vec(libraries),
        cacheability,
        values,
        sum,
        made_at: reader.state.number(),
        made_moment: reader.moment,
        last,
        status,
    })
}
