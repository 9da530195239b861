//! Contexts that are left out beside others that say more.
ghost use Rattle.std.specs.Prelude.{◌≡◌, OnOk};
ghost use Rattle.std.specs.List.{list_any};
ghost use Rattle.cacheability.specs.InOrder.{union};
ghost use Rattle.cacheability.specs.Tag.{tag_cmp};
ghost use Rattle.cache_contexts.specs.Optimised.{has, is_redundant};
ghost use Rattle.element_entries.specs.Keys.{visit};
ghost use Rattle.element_entries.specs.Leaving.{SaysAsMuch};

use crate::reader::Reader;
use cache_contexts::optimise;
use cacheability::{Cacheability, Context, OrderedSet, Tag};
use std::alloc::{AllocError, Global};

/// Leaves out the contexts that others make redundant, and adds the tags that stand in for them. Mostly there are none, and then
/// all stays where it is and no memory is asked for. `Err` only where memory is wanting.
/// <https://www.drupal.org/docs/drupal-apis/cache-api/cache-contexts>
pub fn leave_out(
    alloc: Global,
    reader: &Reader<'_>,
    said: &mut Cacheability,
) -> Result<(), AllocError>
    ensures { OnOk result (SaysAsMuch (visit reader.now) said.old said.new) }
{
    if !some_redundant(said.contexts()) {
        return Ok(());
    }
    let kept = optimise(alloc, reader.state(), reader.viewer(), said.contexts())?;
    add_all(&mut said.tags, kept.tags.as_slice())?;
    said.contexts = kept.contexts;
    Ok(())
}

/// Whether one of these contexts is redundant beside the others.
fn some_redundant(contexts: &[Context]) -> bool
    ensures { result ≡ list_any (is_redundant contexts.now) contexts.now }
{
    contexts
        .iter()
        .any(|context| is_redundant(contexts, context))
}

/// Whether one of those contexts that a context stands below is among all. Those that are never left out stand below none.
fn is_redundant(all: &[Context], context: &Context) -> bool
    ensures { result ≡ is_redundant all.now context.now }
{
    match context {
        Context::UserRoles | Context::UserPermissions => has(all, Context::User),
        Context::UrlPath | Context::QueryArgs => has(all, Context::Url),
        Context::IsFront => has(all, Context::UrlPath) || has(all, Context::Url),
        Context::QueryArg(_) => has(all, Context::QueryArgs) || has(all, Context::Url),
        Context::SessionExists => has(all, Context::Session),
        _ => false,
    }
}

/// Whether a context is among all.
fn has(all: &[Context], context: Context) -> bool
    ensures { result ≡ has all.now context }
{
    all.contains(&context)
}

/// Adds each of these tags that is not there yet.
fn add_all(tags: &mut OrderedSet<Tag>, more: &[Tag]) -> Result<(), AllocError>
    ensures { OnOk result (tags.new ≡ union tag_cmp tags.old more.now) }
{
    'more: for tag in more {
        tags.insert(*tag)?;
    }
    Ok(())
}
