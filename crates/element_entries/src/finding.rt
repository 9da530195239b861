//! Whether what was found may be shown.
ghost use Rattle.std.specs.Prelude.{◌≡◌, ◌↔◌, IfOk, IfSome, IsTrue, None, map};
ghost use Rattle.std.specs.Arc.{arc_value};
ghost use Rattle.cache_contexts.specs.Values.{valued};
ghost use Rattle.cache_entries.specs.Entries.{IsFresh, HasSumOfNumber};
ghost use Rattle.element_entries.specs.Keys.{visit};

use crate::keys::values_for;
use crate::reader::Reader;
use cache_contexts::ContextValue;
use cache_entries::{Entry, fresh, fresh_on_log};
use cacheability::Context;
use std::alloc::{AllocError, Global};
use std::sync::Arc;

/// Whether an entry is fresh for a reader: its contexts have the same values, its tags were invalidated as often, and it is
/// not too early or too late to show it. `Err` only where memory is wanting.
pub fn is_fresh(alloc: Global, reader: &Reader<'_>, entry: &Entry) -> Result<bool, AllocError>
    ensures { IfOk result (λ b. IsTrue b ↔ IsFresh reader.now.state reader.now.viewer reader.now.ask reader.now.moment entry.now) }
{
    let contexts = entry.cacheability.contexts();
    let now = values_for(alloc, reader, contexts)?;
    Ok(fresh(reader.state, entry, now.as_slice(), reader.moment))
}

/// Whether an entry is fresh for a reader, of whose log it is, where these contexts are known to have these values for it: mostly
/// they are the entry's, and permissions, which are dear to compute, aren't computed again. The counts of its tags are summed only
/// where the entry was made on another state. `Err` only where memory is wanting.
fn is_fresh_by(
    alloc: Global,
    reader: &Reader<'_>,
    entry: &Entry,
    contexts: &[Context],
    known: &[ContextValue],
) -> Result<bool, AllocError>
    requires valued { known.now ≡ map (valued (visit reader.now)) contexts.now }
    requires of_log { HasSumOfNumber reader.now.state entry.now }
    ensures { IfOk result (λ b. IsTrue b ↔ IsFresh reader.now.state reader.now.viewer reader.now.ask reader.now.moment entry.now) }
{
    let own = entry.cacheability.contexts();
    if same_contexts(own, contexts) {
        Ok(fresh_on_log(reader.state, entry, known, reader.moment))
    } else {
        let now = values_for(alloc, reader, own)?;
        Ok(fresh_on_log(reader.state, entry, now.as_slice(), reader.moment))
    }
}

/// Whether contexts are the same, in the same order.
pub(crate) fn same_contexts(one: &[Context], two: &[Context]) -> bool
    ensures { IsTrue result ↔ (one.now ≡ two.now) }
{
    one == two
}

/// An entry of a reader's log where it is fresh for the reader, for whom these contexts, by which it was looked for, have these
/// values. `Err` only where memory is wanting.
pub fn if_fresh(
    alloc: Global,
    reader: &Reader<'_>,
    entry: Arc<Entry>,
    contexts: &[Context],
    known: &[ContextValue],
) -> Result<Option<Arc<Entry>>, AllocError>
    requires valued { known.now ≡ map (valued (visit reader.now)) contexts.now }
    requires of_log { HasSumOfNumber reader.now.state (arc_value entry) }
    ensures fresh { IfOk result (λ found. IfSome found (λ e. (arc_value e ≡ arc_value entry) × IsFresh reader.now.state reader.now.viewer reader.now.ask reader.now.moment (arc_value e))) }
    ensures stale { IfOk result (λ found. found ≡ None → IsFresh reader.now.state reader.now.viewer reader.now.ask reader.now.moment (arc_value entry) → ⊥) }
{
    if is_fresh_by(alloc, reader, &entry, contexts, known)? {
        Ok(Some(entry))
    } else {
        Ok(None)
    }
}
