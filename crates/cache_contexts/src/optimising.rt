//! Contexts that are left out beside others that say more.
ghost use Rattle.std.specs.Prelude.{◌≡◌, ◌++◌, ℕ, IfOk, OnOk, map};
ghost use Rattle.cacheability.specs.InOrder.{union};
ghost use Rattle.cacheability.specs.Tag.{tag_cmp};
ghost use Rattle.cacheability.specs.declared.context.Context.TheVariants as context_is;
ghost use Rattle.cacheability.specs.declared.tag.Tag.TheVariants as tag_is;
ghost use Rattle.content_state.specs.declared.ask.Ask.{Ask};
ghost use Rattle.content_state.specs.Context.{dropped_tags};
ghost use Rattle.cache_contexts.specs.Values.{visit_on};
ghost use Rattle.cache_contexts.specs.LeftOut.{LeavesOut, AreCovered};
ghost use Rattle.cache_contexts.specs.Optimised.{has, is_redundant, visit_by, taken_in, optimised};

use cacheability::{Cacheability, Context, Name, OrderedSet, Tag};
use content_state::{State, Viewer};
use std::alloc::{AllocError, Global};
use user_roles::role_names;

/// Optimises cache contexts: keeps those that none of the others makes redundant, and gives the tags that stand in for the
/// rest. Neither what is asked for nor the moment matters. `Err` only where memory is wanting.
/// <https://www.drupal.org/docs/drupal-apis/cache-api/cache-contexts>
pub fn optimise(
    alloc: Global,
    state: &State,
    viewer: &Viewer,
    contexts: &[Context],
) -> Result<Cacheability, AllocError>
    ensures leaves_out { IfOk result (λ said. (ask : Ask) (moment : ℕ) → LeavesOut (visit_on state.now viewer.now ask moment) contexts.now said.contexts said.tags) }
    ensures covers { IfOk result (λ said. (ask : Ask) (moment last : ℕ) → AreCovered (visit_on state.now viewer.now ask moment) contexts.now said last) }
{
    optimised(alloc, state, viewer, contexts)
}

/// The contexts taken in, one after the other.
fn optimised(
    alloc: Global,
    state: &State,
    viewer: &Viewer,
    contexts: &[Context],
) -> Result<Cacheability, AllocError>
    ensures { IfOk result (λ said. said ≡ optimised (visit_by state.now viewer.now) contexts.now) }
{
    let mut said = Cacheability::new(alloc);
    'contexts: for context in contexts {
        take_in(alloc, &mut said, state, viewer, contexts, context)?;
    }
    Ok(said)
}

/// Keeps a context, or adds the tags that stand in for it where one of all makes it redundant.
fn take_in(
    alloc: Global,
    said: &mut Cacheability,
    state: &State,
    viewer: &Viewer,
    all: &[Context],
    context: &Context,
) -> Result<(), AllocError>
    ensures { OnOk result (said.new ≡ taken_in (visit_by state.now viewer.now) all.now said.old context.now) }
{
    if is_redundant(all, context) {
        add_stand_ins(alloc, &mut said.tags, state, viewer, context)
    } else {
        said.add_context(*context)
    }
}

/// Whether one of those contexts that a context stands below is among all. Those that are never left out stand below none.
fn is_redundant(all: &[Context], context: &Context) -> bool
    ensures { result ≡ is_redundant all.now context.now }
{
    match context {
        Context::UserRoles | Context::UserPermissions => has(all, Context::User),
        Context::UrlPath | Context::QueryArgs => has(all, Context::Url),
        Context::IsFront => has(all, Context::UrlPath) || has(all, Context::Url),
        Context::QueryArg(_) => has(all, Context::QueryArgs) || has(all, Context::Url),
        Context::SessionExists => has(all, Context::Session),
        _ => false,
    }
}

/// Whether a context is among all.
fn has(all: &[Context], context: Context) -> bool
    ensures { result ≡ has all.now context }
{
    all.contains(&context)
}

/// Adds the tags that stand in for a context that is left out.
fn add_stand_ins(
    alloc: Global,
    tags: &mut OrderedSet<Tag>,
    state: &State,
    viewer: &Viewer,
    context: &Context,
) -> Result<(), AllocError>
    ensures { OnOk result (tags.new ≡ union tag_cmp tags.old (dropped_tags (visit_by state.now viewer.now) context.now)) }
{
    let more = stand_ins(alloc, state, viewer, context)?;
    add_all(tags, more.as_slice())
}

/// The tags that stand in for a context that is left out.
fn stand_ins(
    alloc: Global,
    state: &State,
    viewer: &Viewer,
    context: &Context,
) -> Result<Vec<Tag>, AllocError>
    ensures { IfOk result (λ tags. tags.items ≡ dropped_tags (visit_by state.now viewer.now) context.now) }
{
    match context {
        Context::UserRoles => Vec::from_slice(alloc, &[Tag::User(viewer.uid)]),
        Context::UserPermissions => viewer_tags(alloc, state, viewer),
        Context::IsFront => Vec::from_slice(alloc, &[Tag::Site]),
        _ => Ok(Vec::new(alloc)),
    }
}

/// The tags of a viewer's row and of the viewer's roles.
fn viewer_tags(alloc: Global, state: &State, viewer: &Viewer) -> Result<Vec<Tag>, AllocError>
    ensures { IfOk result (λ tags. tags.items ≡ dropped_tags (visit_by state.now viewer.now) context_is.UserPermissions) }
{
    let (user, _) = state.user(viewer.uid);
    let roles = role_names(alloc, viewer.uid, user)?;
    let mut tags = Vec::from_slice(alloc, &[Tag::User(viewer.uid)])?;
    add_roles(&mut tags, roles.as_slice())?;
    Ok(tags)
}

/// Adds the tags of these roles.
fn add_roles(tags: &mut Vec<Tag>, roles: &[Name]) -> Result<(), AllocError>
    ensures { OnOk result (tags.new.items ≡ tags.old.items ++ map tag_is.Role roles.now) }
{
    'roles: for &role in roles {
        tags.push(Tag::Role(role))?;
    }
    Ok(())
}

/// Adds each of these tags that is not there yet.
fn add_all(tags: &mut OrderedSet<Tag>, more: &[Tag]) -> Result<(), AllocError>
    ensures { OnOk result (tags.new ≡ union tag_cmp tags.old more.now) }
{
    'more: for tag in more {
        tags.insert(*tag)?;
    }
    Ok(())
}
