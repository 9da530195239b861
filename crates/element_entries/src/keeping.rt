//! What may be kept, and where it stands then.
ghost use Rattle.std.specs.Prelude.{◌≡◌, ◌↔◌, IfOk, IsTrue, Option};
ghost use Rattle.std.specs.Arc.{arc_value};
ghost use Rattle.std.specs.Option.{option_map, option_copied};
ghost use Rattle.cache_contexts.specs.Optimised.{has};
ghost use Rattle.element_entries.specs.declared.first.Declared.TheVariants as declares;
ghost use Rattle.element_entries.specs.Keys.{required, first_by};
ghost use Rattle.element_entries.specs.Keeping.{MayKeep, all_first, second_contexts};

use crate::first::Declared;
use cache_entries::Bin;
use cacheability::{Cacheability, Context, MaxAge, OrderedSet};
use std::alloc::{AllocError, Global};
use std::sync::Arc;

/// Whether what says this of itself may be kept in a bin: where its age isn't 0; in the bin of pages by their paths, where
/// besides it is for no one viewer or session.
/// <https://www.drupal.org/docs/drupal-apis/render-api/auto-placeholdering>
pub fn may_keep(bin: Bin, cacheability: &Cacheability) -> bool
    ensures { IsTrue result ↔ MayKeep bin cacheability.now }
{
    match bin {
        Bin::Fragments | Bin::Anonymous => lasts(cacheability.max_age()),
        Bin::Dynamic => !cacheability.must_placehold(),
    }
}

/// Whether something of this age lasts at all.
fn lasts(age: MaxAge) -> bool
    ensures { IsTrue result ↔ (age ≡ MaxAge.Seconds 0 → ⊥) }
{
    match age {
        MaxAge::Permanent => true,
        MaxAge::Seconds(seconds) => seconds != 0,
    }
}

/// Whether a context is one of the first key, where nothing is declared.
fn is_required(context: &Context) -> bool
    ensures { result ≡ has required context.now }
{
    matches!(
        context,
        Context::Language | Context::Theme | Context::UserPermissions
    )
}

/// Whether a context is one of the first key, where the viewer is declared.
fn is_required_or_user(context: &Context) -> bool
    ensures { result ≡ has (first_by declares.User) context.now }
{
    matches!(
        context,
        Context::Language | Context::Theme | Context::User | Context::UserPermissions
    )
}

/// Whether a context is one of the first key, where the session is declared.
fn is_required_or_session(context: &Context) -> bool
    ensures { result ≡ has (first_by declares.Session) context.now }
{
    matches!(
        context,
        Context::Language | Context::Session | Context::Theme | Context::UserPermissions
    )
}

/// Whether every context is one of the first key.
fn all_first(declared: Declared, contexts: &[Context]) -> bool
    ensures { result ≡ all_first (first_by declared) contexts.now }
{
    match declared {
        Declared::Nothing => contexts.iter().all(is_required),
        Declared::User => contexts.iter().all(is_required_or_user),
        Declared::Session => contexts.iter().all(is_required_or_session),
    }
}

/// The contexts of the second key, where there is one: those that a redirect told and these, or these where more than those of the
/// first key are among them. `Err` only where memory is wanting.
/// <https://www.drupal.org/docs/drupal-apis/render-api/cacheability-of-render-arrays>
pub fn redirect_to(
    alloc: Global,
    declared: Declared,
    told: Option<&OrderedSet<Context>>,
    contexts: &OrderedSet<Context>,
) -> Result<Option<Arc<OrderedSet<Context>>>, AllocError>
    ensures { IfOk result (λ second. option_map arc_value second ≡ second_contexts (first_by declared) (option_copied told.entry) contexts.now) }
{
    match told {
        None => {
            if all_first(declared, contexts.as_slice()) {
                Ok(None)
            } else {
                Ok(Some(Arc::new(alloc, contexts.duplicate(alloc)?)?))
            }
        }
        Some(told) => Ok(Some(Arc::new(alloc, told.union(alloc, contexts)?)?)),
    }
}
