//! Keeping what was built.
ghost use Rattle.std.specs.Prelude.{◌≡◌, OnOk, IfOk};
ghost use Rattle.std.specs.Arc.{arc_value};
ghost use Rattle.std.specs.Option.{option_map};
ghost use Rattle.fragment_cache.specs.Bins.{Whole, Towards, thing_of, thing_found};
ghost use Rattle.element_entries.specs.Keeping.{second_contexts};
ghost use Rattle.site_hall.specs.Stock.{bins_in};
ghost use Rattle.site_hall.specs.Hall.{IsHall};
ghost use Rattle.site_hall.specs.Looked.{StaysBeside};
ghost use Rattle.site_rehearsal.specs.Seats.{first_of, IsDraft};
ghost use Rattle.site_rehearsal.specs.Acts.{told_by, KeepsDraft};
ghost use Rattle.site_rehearsal.specs.Keeping.{IsToldAt, IsOfDraft, KeepsThing};

use crate::seats::Draft;
use cache_entries::{Found, Kept};
use cacheability::{Context, OrderedSet};
use element_entries::redirect_to;
use site_hall::Engine;
use site_keeper::Keeper;
use std::alloc::{AllocError, Global};
use std::sync::Arc;

/// The contexts of a redirect.
fn told_in(found: Found) -> Option<Arc<OrderedSet<Context>>>
    ensures { option_map arc_value result ≡ told_by (thing_found found) }
{
    match found {
        Found::Redirect(contexts) => Some(contexts),
        Found::Entry(_) | Found::Absent => None,
    }
}

/// What a redirect at the first key tells, where one stands there.
fn told_at<K: Keeper>(
    alloc: Global,
    hall: &mut Engine<K>,
    draft: &Draft,
) -> Result<Option<Arc<OrderedSet<Context>>>, AllocError>
    ensures told { IfOk result (λ told. IsToldAt draft.now (option_map arc_value told) hall.old hall.new) }
    ensures is_hall { OnOk result (IsHall hall.new) }
{
    let first = draft.first();
    let key = draft.key(alloc, first.as_slice())?;
    let found = hall.look(alloc, draft.bin, &key)?;
    Ok(told_in(found))
}

/// Keeps something at the key with the values of these contexts.
fn keep_at<K: Keeper>(
    alloc: Global,
    hall: &mut Engine<K>,
    draft: &Draft,
    contexts: &[Context],
    kept: Kept,
) -> Result<(), AllocError>
    requires draft { IsDraft hall.old.base hall.old.log draft.now }
    requires kept { IsOfDraft draft.now kept }
    ensures keeps { OnOk result (KeepsThing draft.now contexts.now (thing_of kept) hall.old hall.new) }
    ensures is_hall { OnOk result (IsHall hall.new) }
{
    let key = draft.key(alloc, contexts)?;
    match hall.keep(alloc, draft.bin, key, kept) {
        Ok(()) => Ok(()),
        Err(_) => Err(AllocError),
    }
}

/// The contexts of the second key, where there is one.
fn second_for(
    alloc: Global,
    draft: &Draft,
    told: &Option<Arc<OrderedSet<Context>>>,
) -> Result<Option<Arc<OrderedSet<Context>>>, AllocError>
    ensures { IfOk result (λ second. option_map arc_value second ≡ second_contexts (first_of draft.now) (option_map arc_value told.now) draft.now.entry.cacheability.contexts) }
{
    let contexts = &draft.entry.cacheability.contexts;
    match told {
        None => redirect_to(alloc, draft.declared(), None, contexts),
        Some(told) => redirect_to(alloc, draft.declared(), Some(&**told), contexts),
    }
}

/// Keeps what was built at the key with the values of these contexts.
fn keep_entry<K: Keeper>(
    alloc: Global,
    hall: &mut Engine<K>,
    draft: &Draft,
    contexts: &[Context],
) -> Result<(), AllocError>
    requires draft { IsDraft hall.old.base hall.old.log draft.now }
    ensures keeps { OnOk result (KeepsThing draft.now contexts.now (Whole draft.now.entry) hall.old hall.new) }
    ensures is_hall { OnOk result (IsHall hall.new) }
{
    let entry = Kept::Entry(Arc::try_clone(&draft.entry)?);
    keep_at(alloc, hall, draft, contexts, entry)
}

/// Keeps a redirect at the first key.
fn keep_redirect<K: Keeper>(
    alloc: Global,
    hall: &mut Engine<K>,
    draft: &Draft,
    contexts: &Arc<OrderedSet<Context>>,
) -> Result<(), AllocError>
    requires draft { IsDraft hall.old.base hall.old.log draft.now }
    ensures keeps { OnOk result (KeepsThing draft.now (first_of draft.now) (Towards (arc_value contexts.now)) hall.old hall.new) }
    ensures is_hall { OnOk result (IsHall hall.new) }
{
    let redirect = Kept::Redirect(Arc::try_clone(contexts)?);
    let first = draft.first();
    keep_at(alloc, hall, draft, first.as_slice(), redirect)
}

/// Keeps what was built under its first key, or, where there is a second one, a redirect and then what was built.
pub(crate) fn keep_draft<K: Keeper>(
    alloc: Global,
    hall: &mut Engine<K>,
    draft: &Draft,
) -> Result<(), AllocError>
    requires { IsDraft hall.old.base hall.old.log draft.now }
    ensures keeps { OnOk result (KeepsDraft draft.now (bins_in hall.old.stock) (bins_in hall.new.stock)) }
    ensures beside { OnOk result (StaysBeside hall.old hall.new) }
    ensures is_hall { OnOk result (IsHall hall.new) }
{
    let told = told_at(alloc, hall, draft)?;
    let first = draft.first();
    match second_for(alloc, draft, &told)? {
        None => keep_entry(alloc, hall, draft, first.as_slice()),
        Some(contexts) => {
            keep_redirect(alloc, hall, draft, &contexts)?;
            keep_entry(alloc, hall, draft, contexts.as_slice())
        }
    }
}
