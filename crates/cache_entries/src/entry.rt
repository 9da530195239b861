//! What is kept of pages.
ghost use Rattle.std.specs.Prelude.{◌≡◌, ◌≤◌, ◌↔◌, IsTrue, map};
ghost use Rattle.tag_counts.specs.Counts.{sum_of};
ghost use Rattle.content_state.specs.declared.ask.Ask.{Ask};
ghost use Rattle.content_state.specs.declared.ask.Viewer.{Viewer};
ghost use Rattle.cache_contexts.specs.Values.{visit_on, valued};
ghost use Rattle.cache_entries.specs.Entries.{IsFreshBy, IsFresh, HasSumOfNumber};

use cache_contexts::ContextValue;
use cacheability::Cacheability;
use content_rows::Items;
use content_state::{Hole, Library, State};
use html_out::Segments;
use site_access::Shared;

/// A cache entry: a part of a page, or a page, as it is kept.
/// <https://www.drupal.org/docs/drupal-apis/cache-api/cache-api>
pub struct Entry {
    /// The bytes, and the places that are still open.
    pub segments: Segments<Hole>,
    /// What it attaches, and what the parts within it attach.
    pub libraries: Items<Library>,
    /// The tags, the contexts and the age of all that is in it.
    pub cacheability: Cacheability,
    /// The values of its contexts, in their order, shared with the keys that it is kept by where those have the same.
    pub values: Shared<Items<ContextValue>>,
    /// How often its tags had been invalidated on the state that it was made on, all in all.
    pub sum: u128,
    /// The number of that state.
    pub made_at: u64,
    /// The moment at which it was made, in seconds since 1970.
    pub made_moment: u64,
    /// The last moment at which it may be shown.
    pub last: u64,
    /// The status of a page; other things have none.
    pub status: Option<u16>,
}

impl Drop for Entry {
    fn drop(self) {
        let Entry {
            segments: _,
            libraries: _,
            cacheability: _,
            values: _,
            sum: _,
            made_at: _,
            made_moment: _,
            last: _,
            status: _,
        } = self;
    }
}

/// Whether an entry is fresh on a state at a moment, by the values that its contexts have there: these are the entry's,
/// the counts of its tags come to the entry's sum, and the moment is none before that at which it was made and none after
/// its last. It takes no memory.
/// <https://www.drupal.org/docs/drupal-apis/cache-api/cache-api>
pub fn fresh(state: &State, entry: &Entry, values: &[ContextValue], moment: u64) -> bool
    ensures compared { IsTrue result ↔ IsFreshBy state.now values.now moment entry.now }
    ensures exact { (viewer : Viewer) (ask : Ask) → values.now ≡ map (valued (visit_on state.now viewer ask moment)) entry.now.cacheability.contexts → IsTrue result ↔ IsFresh state.now viewer ask moment entry.now }
{
    is_fresh_by(state, entry, values, moment)
}

/// Whether an entry that was made on a state of the same log is fresh, as `fresh` tells it. Where the two states have one
/// number they are one, and the counts, which cost the most of it, aren't summed. It takes no memory.
/// <https://www.drupal.org/docs/drupal-apis/cache-api/cache-tags>
pub fn fresh_on_log(state: &State, entry: &Entry, values: &[ContextValue], moment: u64) -> bool
    requires of_log { HasSumOfNumber state.now entry.now }
    ensures compared { IsTrue result ↔ IsFreshBy state.now values.now moment entry.now }
    ensures exact { (viewer : Viewer) (ask : Ask) → values.now ≡ map (valued (visit_on state.now viewer ask moment)) entry.now.cacheability.contexts → IsTrue result ↔ IsFresh state.now viewer ask moment entry.now }
{
    is_shown_by(entry, values, moment) && (entry.made_at == state.number() || has_sum(state, entry))
}

/// Whether an entry is fresh by these values.
fn is_fresh_by(state: &State, entry: &Entry, values: &[ContextValue], moment: u64) -> bool
    ensures { IsTrue result ↔ IsFreshBy state.now values.now moment entry.now }
{
    is_shown_by(entry, values, moment) && has_sum(state, entry)
}

/// Whether an entry has these values, and the moment is none before that at which it was made and none after its last.
fn is_shown_by(entry: &Entry, values: &[ContextValue], moment: u64) -> bool
    ensures { IsTrue result ↔ ((entry.now.values ≡ values.now) × (entry.now.made_moment ≤ moment) × (moment ≤ entry.now.last)) }
{
    entry.made_moment <= moment
        && moment <= entry.last
        && same_values(entry.values.get().as_slice(), values)
}

/// Whether the counts of an entry's tags come to its sum.
fn has_sum(state: &State, entry: &Entry) -> bool
    ensures { IsTrue result ↔ (entry.now.sum ≡ sum_of state.now.counts entry.now.cacheability.tags) }
{
    entry.sum == state.counts().sum(entry.cacheability.tags())
}

/// Whether contexts with their values are the same.
fn same_values(one: &[ContextValue], two: &[ContextValue]) -> bool
    ensures { IsTrue result ↔ (one.now ≡ two.now) }
{
    one == two
}
