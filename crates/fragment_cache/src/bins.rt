//! Bins of bounded size, in the order of use.
ghost use Rattle.std.specs.Prelude.{◌≡◌, Some, is_some, slice_get, IfOk, IfErr, IfSome, OnOk, OnErr};
ghost use Rattle.std.specs.NonZero.{non_zero_usize_get};
ghost use Rattle.std.specs.Map.{lookup};
ghost use Rattle.cache_entries.specs.Keys.{same_key};
ghost use Rattle.fragment_cache.specs.Bins.{
  thing_of,
  thing_found,
  things_of,
  seen,
  empty,
  IsShelf,
  Looks,
  LooksIn,
  Keeps,
  KeepsIn,
  must_drop,
};

use cache_entries::{Bin, Found, Kept, Key};
use lru::LruCache;
use std::alloc::{AllocError, AllocFailed, Global};
use std::marker::Model;
use std::num::NonZeroUsize;
use std::sync::Arc;

/// The three bins, each of bounded size and in the order of use, and how many keys full ones dropped. Contracts see them as
/// lists, the most recently used first, of what is kept, wherever it lies.
/// <https://www.drupal.org/docs/drupal-apis/cache-api/cache-api>
pub struct Bins {
    fragments: LruCache<Key, Kept>,
    dynamic: LruCache<Key, Kept>,
    anonymous: LruCache<Key, Kept>,
    dropped: u64,
}

impl Drop for Bins {
    fn drop(self) {
        let Bins {
            fragments: _,
            dynamic: _,
            anonymous: _,
            dropped: _,
        } = self;
    }
}

impl Model for Bins {
    ghost use Rattle.fragment_cache.specs.Bins.{Bins as BinsValue, seen};

    ghost Value = { BinsValue };

    ghost view = { λ b. record { fragments = seen b.fragments; dynamic = seen b.dynamic; anonymous = seen b.anonymous; dropped = b.dropped } };
}

impl Bins {
    /// Bins with nothing in them, that have room for so many things each. `Err` only where memory is wanting.
    pub fn new(
        alloc: Global,
        fragments: NonZeroUsize,
        dynamic: NonZeroUsize,
        anonymous: NonZeroUsize,
    ) -> Result<Bins, AllocError>
        ensures { IfOk result (λ bins. bins ≡ record { fragments = empty (non_zero_usize_get fragments); dynamic = empty (non_zero_usize_get dynamic); anonymous = empty (non_zero_usize_get anonymous); dropped = 0 }) }
    {
        Ok(Bins {
            fragments: LruCache::new(alloc, fragments)?,
            dynamic: LruCache::new(alloc, dynamic)?,
            anonymous: LruCache::new(alloc, anonymous)?,
            dropped: 0,
        })
    }

    /// What stands under a key in a bin, which then goes first there; `Absent` exactly where the key isn't in the bin.
    /// `Err` only where memory is wanting, and then all is as it was.
    pub fn look(&mut self, bin: Bin, key: &Key) -> Result<Found, AllocError>
        ensures looks { IfOk result (λ found. LooksIn self.old bin key.now (thing_found found) self.new) }
        ensures refused { OnErr result (self.new ≡ self.old) }
    {
        match bin {
            Bin::Fragments => look_at(&mut self.fragments, key),
            Bin::Dynamic => look_at(&mut self.dynamic, key),
            Bin::Anonymous => look_at(&mut self.anonymous, key),
        }
    }

    /// Keeps something under a key in a bin, where it goes first: in place of what stood under the same key, or, where
    /// the bin is full, of the one that wasn't used for longest. Where memory is wanting all is as it was, and the key and
    /// what was to be kept come back.
    pub fn keep(&mut self, bin: Bin, key: Key, kept: Kept) -> Result<(), AllocFailed<(Key, Kept)>>
        ensures keeps { OnOk result (KeepsIn self.old bin key (thing_of kept) self.new) }
        ensures refused { OnErr result (self.new ≡ self.old) }
        ensures back { IfErr result (λ f. f.value ≡ (key, kept)) }
    {
        match bin {
            Bin::Fragments => keep_at(&mut self.fragments, &mut self.dropped, key, kept),
            Bin::Dynamic => keep_at(&mut self.dynamic, &mut self.dropped, key, kept),
            Bin::Anonymous => keep_at(&mut self.anonymous, &mut self.dropped, key, kept),
        }
    }

    /// How many keys full bins have dropped, up to 18,446,744,073,709,551,615.
    pub fn dropped(&self) -> u64
        ensures { result ≡ self.now.dropped }
    {
        self.dropped
    }

    /// The law that in each bin each key stands once, and no more things than it has room for, which is at least one.
    pub fn are_bounded(&self)
        ensures fragments { IsShelf self.now.fragments }
        ensures dynamic { IsShelf self.now.dynamic }
        ensures anonymous { IsShelf self.now.anonymous }
    {
        is_bounded(&self.fragments);
        is_bounded(&self.dynamic);
        is_bounded(&self.anonymous);
    }
}

/// Each key stands once in a bin, within its room.
fn is_bounded(cache: &LruCache<Key, Kept>)
    ensures { IsShelf (seen cache.now) }
{
    let _length = cache.len();
}

/// What stands under a key, which then goes first. Where it stands first already, as what is asked for again and again, its key is
/// compared and not hashed. Where nothing does, the key isn't looked for again.
fn look_at(cache: &mut LruCache<Key, Kept>, key: &Key) -> Result<Found, AllocError>
    ensures looks { IfOk result (λ found. Looks (seen cache.old) key.now (thing_found found) (seen cache.new)) }
    ensures refused { OnErr result (cache.new ≡ cache.old) }
{
    is_bounded(cache);
    if let Some(kept) = first_at(cache, key) {
        return found_of(kept);
    }
    let found = found_at(cache, key)?;
    if is_something(&found) {
        cache.promote(key);
    }
    Ok(found)
}

/// What was used last, where it stands under a key.
fn first_at<'a>(cache: &'a LruCache<Key, Kept>, key: &Key) -> Option<&'a Kept>
    ensures { IfSome result (λ kept. slice_get cache.now.entries 0 ≡ Some (key.now, kept.now)) }
{
    match cache.peek_mru() {
        Some((first, kept)) if first.equals(key) => Some(kept),
        _ => None,
    }
}

/// Whether something was found.
fn is_something(found: &Found) -> bool
    ensures { result ≡ is_some (thing_found found.now) }
{
    !matches!(found, Found::Absent)
}

/// What stands under a key.
fn found_at(cache: &LruCache<Key, Kept>, key: &Key) -> Result<Found, AllocError>
    ensures { IfOk result (λ found. thing_found found ≡ lookup (same_key key.now) (things_of cache.now.entries)) }
{
    match cache.peek(key) {
        Some(kept) => found_of(kept),
        None => Ok(Found::Absent),
    }
}

/// What a look finds where this is kept, which it shares.
fn found_of(kept: &Kept) -> Result<Found, AllocError>
    ensures { IfOk result (λ found. thing_found found ≡ Some (thing_of kept.now)) }
{
    match kept {
        Kept::Entry(entry) => Ok(Found::Entry(Arc::try_clone(entry)?)),
        Kept::Redirect(contexts) => Ok(Found::Redirect(Arc::try_clone(contexts)?)),
    }
}

/// Keeps something under a key, where it goes first, and counts a key that is dropped for it.
fn keep_at(
    cache: &mut LruCache<Key, Kept>,
    dropped: &mut u64,
    key: Key,
    kept: Kept,
) -> Result<(), AllocFailed<(Key, Kept)>>
    ensures keeps { OnOk result (Keeps (seen cache.old) key (thing_of kept) (seen cache.new) dropped.old dropped.new) }
    ensures refused { OnErr result ((cache.new ≡ cache.old) × (dropped.new ≡ dropped.old)) }
    ensures back { IfErr result (λ f. f.value ≡ (key, kept)) }
{
    is_bounded(cache);
    let drops = must_drop(cache, &key);
    let _before = cache.put(key, kept)?;
    if drops {
        *dropped = dropped.saturating_add(1);
    }
    Ok(())
}

/// Whether keeping under a key drops another one: the key is new, and there is no more room.
fn must_drop(cache: &LruCache<Key, Kept>, key: &Key) -> bool
    ensures { result ≡ must_drop cache.now key.now }
{
    cache.len() == cache.cap().get() && !cache.contains(key)
}
