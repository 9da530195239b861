//! A bucket: some entries of a map, which never change while several maps have it.
ghost use Rattle.std.specs.Prelude.{◌≡◌, ◌≤◌, ◌<◌, ◌+◌, ◌++◌, ◌∷◌, [], IfOk, IfErr, OnOk, OnErr, cond, length};
ghost use Rattle.std.specs.Option.{option_copied};
ghost use Rattle.std.specs.Map.{lookup, remove_entry, keys_of};
ghost use Rattle.std.specs.List.Sorted.{IsStrictlySortedBy};
ghost use Rattle.std.specs.BTreeMap.{is_at, insert_entry};
ghost use Rattle.bucket_map.specs.Buckets.{StandsAt, GoesTo};

use crate::steps::Steps;
use std::alloc::{AllocError, Global};
use std::cmp::Ordering;
use std::marker::Model;
use std::sync::Arc;
use std::sync::ledger::Ledger;

/// A key that tells the number of its bucket.
pub trait Placed: Ord + Copy {
    ghost use Rattle.std.specs.Prelude.{◌≡◌, ◌<◌, ℕ};
    ghost use Rattle.std.specs.declared.cmp.Ordering.TheVariants.{Equal};

    ghost place: { Self → ℕ };

    /// The number of its bucket, from 0 to 1,023.
    fn place(&self) -> usize
        ensures { result ≡ place self.now };

    /// There are 1,024 buckets.
    ghost within: { (k : Self) → place k < 1024 };

    /// Keys that are level are the same key.
    ghost exact: { (a b : Self) → Self.cmp a b ≡ Equal → a ≡ b };
}

/// A value that can be had twice: a small number, or what is shared.
pub trait Again: Drop {
    /// A copy of the value. `Err` only where memory is wanting.
    fn again(&self) -> Result<Self, AllocError>
        ensures { IfOk result (λ twin. twin ≡ self.now) };
}

impl Again for u64 {
    fn again(&self) -> Result<u64, AllocError> {
        Ok(*self)
    }
}

/// Entries in the order of their keys. Contracts see the list of them.
pub struct Bucket<K: Placed, V: Again> {
    entries: Arc<Vec<(K, V)>>,
}

impl<K: Placed, V: Again> Drop for Bucket<K, V> {
    fn drop(self) {
        let Bucket { entries: _ } = self;
    }
}

impl<K: Placed, V: Again> Model for Bucket<K, V> {
    ghost use Rattle.std.specs.Prelude.{List};
    ghost use Rattle.std.specs.Arc.{arc_value};

    ghost Value = { List (K × V) };

    ghost view = { λ b. (arc_value b.entries).items };
}

impl<K: Placed, V: Again> Bucket<K, V> {
    /// A bucket with no entry.
    pub(crate) fn empty(alloc: Global) -> Result<Self, AllocError>
        ensures { IfOk result (λ b. b ≡ []) }
    {
        Ok(Bucket {
            entries: Arc::new(alloc, Vec::new(alloc))?,
        })
    }

    /// A second owner of the bucket: the entries are shared, and none is copied.
    pub(crate) fn share(&self) -> Result<Self, AllocError>
        ensures { IfOk result (λ b. b ≡ self.now) }
    {
        Ok(Bucket {
            entries: Arc::try_clone(&self.entries)?,
        })
    }

    /// Its entries.
    pub fn as_slice(&self) -> &[(K, V)]
        ensures { result.now ≡ self.now }
    {
        self.entries.as_slice()
    }

    /// The value of a key.
    pub(crate) fn get(&self, key: &K) -> Option<&V>
        requires { IsStrictlySortedBy K.cmp (keys_of self.now) }
        ensures { option_copied result ≡ lookup (is_at (K.cmp key.now)) self.now }
    {
        let entries = self.entries.as_slice();
        match place_in(entries, key) {
            Ok(at) => Some(&entries[at].1),
            Err(_) => None,
        }
    }

    /// Sets the value of a key, and tells whether the key is a new one. Where no other map has this bucket, it is changed;
    /// otherwise a new one takes its place.
    pub(crate) fn put<L: Ledger>(
        &mut self,
        alloc: Global,
        key: &K,
        value: &V,
        steps: &mut Steps<L>,
    ) -> Result<bool, AllocError>
        requires { IsStrictlySortedBy K.cmp (keys_of self.old) }
        ensures ok { OnOk result (self.new ≡ insert_entry K.cmp self.old key.now value.now) }
        ensures size { IfOk result (λ is_new. length self.new ≡ length self.old + cond is_new 1 0) }
        ensures err { OnErr result (self.new ≡ self.old) }
        ensures cost { steps.new ≤ steps.old + (length self.old + 1) }
    {
        let is_new = lacks(self.entries.as_slice(), key);
        if let Some(entries) = Arc::get_mut(&mut self.entries) {
            put_here(entries, key, value, steps)?;
            return Ok(is_new);
        }
        let new = with(alloc, self.entries.as_slice(), key, value, steps)?;
        self.entries = Arc::new(alloc, new)?;
        Ok(is_new)
    }

    /// A new bucket without a key.
    pub(crate) fn without<L: Ledger>(
        &self,
        alloc: Global,
        key: &K,
        steps: &mut Steps<L>,
    ) -> Result<Self, AllocError>
        requires { IsStrictlySortedBy K.cmp (keys_of self.now) }
        ensures same { IfOk result (λ b. b ≡ remove_entry (is_at (K.cmp key.now)) self.now) }
        ensures cost { steps.new ≤ steps.old + length self.now }
    {
        let old = self.entries.as_slice();
        let (before, after) = around(old, key);
        let mut new = Vec::with_capacity(alloc, old.len())?;
        put_all(&mut new, before, steps)?;
        put_all(&mut new, after, steps)?;
        Ok(Bucket {
            entries: Arc::new(alloc, new)?,
        })
    }
}

/// Where a key stands among entries in order, or where it would go.
fn place_in<K: Placed, V>(entries: &[(K, V)], key: &K) -> Result<usize, usize>
    requires { IsStrictlySortedBy K.cmp (keys_of entries.now) }
    ensures found { IfOk result (StandsAt K.cmp entries.now key.now) }
    ensures absent { IfErr result (GoesTo K.cmp entries.now key.now) }
{
    let mut low = 0;
    let mut high = entries.len();
    'halves: while low < high {
        let middle = low + (high - low) / 2;
        match key.cmp(&entries[middle].0) {
            Ordering::Less => high = middle,
            Ordering::Equal => return Ok(middle),
            Ordering::Greater => low = middle + 1,
        }
    }
    Err(low)
}

/// Whether entries in order lack a key, so that there is one more once it has a value.
fn lacks<K: Placed, V>(entries: &[(K, V)], key: &K) -> bool
    requires { IsStrictlySortedBy K.cmp (keys_of entries.now) }
    ensures { (v : V) → length (insert_entry K.cmp entries.now key.now v) ≡ length entries.now + cond result 1 0 }
{
    match place_in(entries, key) {
        Ok(_) => false,
        Err(_) => true,
    }
}

/// The entries below a key and those above it, of entries in order.
fn around<'a, K: Placed, V>(entries: &'a [(K, V)], key: &K) -> (&'a [(K, V)], &'a [(K, V)])
    requires { IsStrictlySortedBy K.cmp (keys_of entries.now) }
    ensures put { (v : V) → insert_entry K.cmp entries.now key.now v ≡ result.0.now ++ (key.now, v) ∷ result.1.now }
    ensures cut { remove_entry (is_at (K.cmp key.now)) entries.now ≡ result.0.now ++ result.1.now }
    ensures count { length result.0.now + length result.1.now ≤ length entries.now }
{
    match place_in(entries, key) {
        Ok(at) => (&entries[..at], &entries[at + 1..]),
        Err(at) => (&entries[..at], &entries[at..]),
    }
}

/// These entries, in which a key has a value, for a new bucket.
fn with<K: Placed, V: Again, L: Ledger>(
    alloc: Global,
    old: &[(K, V)],
    key: &K,
    value: &V,
    steps: &mut Steps<L>,
) -> Result<Vec<(K, V)>, AllocError>
    requires { IsStrictlySortedBy K.cmp (keys_of old.now) }
    ensures same { IfOk result (λ entries. entries.items ≡ insert_entry K.cmp old.now key.now value.now) }
    ensures cost { steps.new ≤ steps.old + (length old.now + 1) }
{
    let (before, after) = around(old, key);
    let mut entries = Vec::with_capacity(alloc, old.len().saturating_add(1))?;
    put_all(&mut entries, before, steps)?;
    put(&mut entries, key, value, steps)?;
    put_all(&mut entries, after, steps)?;
    Ok(entries)
}

/// Sets the value of a key among the entries of a bucket that no other map has.
fn put_here<K: Placed, V: Again, L: Ledger>(
    entries: &mut Vec<(K, V)>,
    key: &K,
    value: &V,
    steps: &mut Steps<L>,
) -> Result<(), AllocError>
    requires { IsStrictlySortedBy K.cmp (keys_of entries.old.items) }
    ensures ok { OnOk result (entries.new.items ≡ insert_entry K.cmp entries.old.items key.now value.now) }
    ensures err { OnErr result (entries.new.items ≡ entries.old.items) }
    ensures cost { steps.new ≡ steps.old + 1 }
{
    let new = entry(key, value, steps)?;
    match place_in(entries.as_slice(), key) {
        Ok(at) => entries[at] = new,
        Err(at) => {
            // Room for this one and no more, as a bucket has that is made anew: a thousand buckets that grow by halves would
            // leave as much behind.
            entries.reserve_exact(1)?;
            entries.insert(at, new)?;
        }
    }
    Ok(())
}

/// Puts these entries into a new bucket.
fn put_all<K: Placed, V: Again, L: Ledger>(
    new: &mut Vec<(K, V)>,
    entries: &[(K, V)],
    steps: &mut Steps<L>,
) -> Result<(), AllocError>
    ensures same { OnOk result (new.new.items ≡ new.old.items ++ entries.now) }
    ensures cost { steps.new ≤ steps.old + length entries.now }
{
    'entries: for (key, value) in entries {
        put(new, key, value, steps)?;
    }
    Ok(())
}

/// Puts one entry into a new bucket.
fn put<K: Placed, V: Again, L: Ledger>(
    new: &mut Vec<(K, V)>,
    key: &K,
    value: &V,
    steps: &mut Steps<L>,
) -> Result<(), AllocError>
    ensures same { OnOk result (new.new.items ≡ new.old.items ++ (key.now, value.now) ∷ []) }
    ensures cost { steps.new ≡ steps.old + 1 }
{
    new.push(entry(key, value, steps)?)?;
    Ok(())
}

/// An entry, to be put into a bucket. This is the step that is counted.
fn entry<K: Placed, V: Again, L: Ledger>(
    key: &K,
    value: &V,
    steps: &mut Steps<L>,
) -> Result<(K, V), AllocError>
    ensures same { IfOk result (λ entry. entry ≡ (key.now, value.now)) }
    ensures cost { steps.new ≡ steps.old + 1 }
{
    steps.tick();
    Ok((*key, value.again()?))
}
