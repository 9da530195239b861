//! The map.
ghost use Rattle.std.specs.Prelude.{◌≡◌, ◌≤◌, ◌<◌, ◌+◌, ◌↔◌, ◌++◌, ◌∷◌, [], IfOk, OnOk, OnErr, IsTrue, length};
ghost use Rattle.std.specs.Option.{option_copied};
ghost use Rattle.std.specs.List.Sorted.{IsStrictlySortedBy, IsPermutation};
ghost use Rattle.std.specs.Map.{lookup, remove_entry, keys_of};
ghost use Rattle.std.specs.BTreeMap.{is_at, insert_entry};
ghost use Rattle.bucket_map.specs.Buckets.{flat, in_order, bucket_size, ArePlaced};

use crate::bucket::{Again, Bucket, Placed};
use crate::steps::Steps;
use crate::walk::Walk;
use std::alloc::{AllocError, Global};
use std::marker::Model;
use std::sync::ledger::Ledger;

/// How many buckets a map has.
const BUCKETS: usize = 1_024;

/// A finite map, which contracts see as the list of its entries in the order of their keys. Each entry stands in the
/// bucket whose number its key tells. Maps share buckets: a change of one map makes a new bucket in the place of one that
/// another has too.
pub struct BucketMap<K: Placed, V: Again> {
    alloc: Global,
    /// How many entries it has.
    size: usize,
    /// All 1,024, or none where the map was never changed.
    buckets: Vec<Bucket<K, V>>,
}

impl<K: Placed, V: Again> Drop for BucketMap<K, V> {
    fn drop(self) {
        let BucketMap {
            alloc: _,
            size: _,
            buckets: _,
        } = self;
    }
}

impl<K: Placed, V: Again> Model for BucketMap<K, V> {
    ghost use Rattle.std.specs.Prelude.{◌≡◌, List, length};
    ghost use Rattle.bucket_map.specs.Buckets.{flat, in_order, ArePlaced};

    ghost Value = { List (K × V) };

    ghost view = { λ m. in_order K.cmp (flat m.buckets.items) };

    ghost invariant = { λ m. (ArePlaced K.cmp K.place 0 m.buckets.items) × (m.size ≡ length (flat m.buckets.items)) };
}

impl<K: Placed, V: Again> BucketMap<K, V> {
    /// The map with no entry.
    pub fn new(alloc: Global) -> Self
        ensures { result ≡ [] }
    {
        BucketMap {
            alloc,
            size: 0,
            buckets: Vec::new(alloc),
        }
    }

    /// A copy of the map, which shares every bucket with this one. `Err` only where memory is wanting.
    pub fn share(&self) -> Result<Self, AllocError>
        ensures { IfOk result (λ m. m ≡ self.now) }
    {
        let mut buckets = Vec::with_capacity(self.alloc, self.buckets.len())?;
        'buckets: for bucket in &self.buckets {
            buckets.push(bucket.share()?)?;
        }
        Ok(BucketMap {
            alloc: self.alloc,
            size: self.size,
            buckets,
        })
    }

    /// How many entries it has.
    pub fn len(&self) -> usize
        ensures { result ≡ length self.now }
    {
        self.size
    }

    /// Whether it has no entry.
    pub fn is_empty(&self) -> bool
        ensures { IsTrue result ↔ (self.now ≡ []) }
    {
        self.len() == 0
    }

    /// The law that each key stands once, in order.
    pub fn stands_in_order(&self)
        ensures { IsStrictlySortedBy K.cmp (keys_of self.now) }
    {
        let _many = self.buckets.len();
    }

    /// The value of a key.
    pub fn get(&self, key: &K) -> Option<&V>
        ensures { option_copied result ≡ lookup (is_at (K.cmp key.now)) self.now }
    {
        match self.buckets.get(key.place()) {
            Some(bucket) => bucket.get(key),
            None => None,
        }
    }

    /// How many entries the bucket of a key has.
    pub fn bucket_len(&self, key: &K) -> usize
        ensures { result ≡ bucket_size K.place self.now (K.place key.now) }
    {
        match self.buckets.get(key.place()) {
            Some(bucket) => bucket.as_slice().len(),
            None => 0,
        }
    }

    /// Its buckets, for who goes over all entries in any order.
    pub fn buckets(&self) -> &[Bucket<K, V>]
        ensures { IsPermutation self.now (flat result.now) }
    {
        self.buckets.as_slice()
    }

    /// The entries, each once, in an order that is not told. It takes no memory.
    pub fn each(&self) -> Walk<'_, K, V>
        ensures { IsPermutation self.now result }
    {
        Walk {
            bucket: &[],
            buckets: self.buckets(),
        }
    }

    /// The keys, in order. `Err` only where memory is wanting.
    pub fn keys_in_order(&self, alloc: Global) -> Result<Vec<K>, AllocError>
        ensures { IfOk result (λ keys. keys.items ≡ keys_of self.now) }
    {
        let mut keys = Vec::with_capacity(alloc, self.size)?;
        'buckets: for bucket in &self.buckets {
            add_keys(&mut keys, bucket.as_slice())?;
        }
        keys.sort()?;
        Ok(keys)
    }

    /// Sets the value of a key. `Err` only where memory is wanting, and then the map is as it was. It takes at most as many
    /// steps as the key's bucket has entries, and one.
    pub fn put<L: Ledger>(
        &mut self,
        key: &K,
        value: &V,
        steps: &mut Steps<L>,
    ) -> Result<(), AllocError>
        ensures ok { OnOk result (self.new ≡ insert_entry K.cmp self.old key.now value.now) }
        ensures err { OnErr result (self.new ≡ self.old) }
        ensures cost { steps.new ≤ steps.old + (bucket_size K.place self.old (K.place key.now) + 1) }
    {
        fill(self.alloc, &mut self.buckets)?;
        // 2 ^ 64 entries would want more memory than there can be
        let Some(one_more) = self.size.checked_add(1) else {
            return Err(AllocError);
        };
        let bucket = &mut self.buckets[key.place()];
        if bucket.put(self.alloc, key, value, steps)? {
            self.size = one_more;
        }
        Ok(())
    }

    /// Removes a key. `Err` only where memory is wanting, and then the map is as it was. It takes at most as many steps as
    /// the key's bucket has entries.
    pub fn remove<L: Ledger>(&mut self, key: &K, steps: &mut Steps<L>) -> Result<(), AllocError>
        ensures ok { OnOk result (self.new ≡ remove_entry (is_at (K.cmp key.now)) self.old) }
        ensures err { OnErr result (self.new ≡ self.old) }
        ensures cost { steps.new ≤ steps.old + bucket_size K.place self.old (K.place key.now) }
    {
        let at = key.place();
        if at < self.buckets.len() {
            let bucket = self.buckets[at].without(self.alloc, key, steps)?;
            let size = size_with(self.size, self.buckets[at].as_slice(), bucket.as_slice())?;
            self.buckets[at] = bucket;
            self.size = size;
        }
        Ok(())
    }
}

/// Makes all buckets, where there are none. `Err` only where memory is wanting.
#[tactic(auto, using(crate::proofs::InBuckets::placed_more, crate::proofs::InBuckets::flat_more))]
fn fill<K: Placed, V: Again>(
    alloc: Global,
    buckets: &mut Vec<Bucket<K, V>>,
) -> Result<(), AllocError>
    ensures placed { ArePlaced K.cmp K.place 0 buckets.old.items → ArePlaced K.cmp K.place 0 buckets.new.items }
    ensures same { flat buckets.new.items ≡ flat buckets.old.items }
    ensures count { OnOk result (1024 ≤ length buckets.new.items) }
{
    if buckets.len() < BUCKETS {
        let none = Bucket::empty(alloc)?;
        'more: for _made in buckets.len()..BUCKETS {
            buckets.push(none.share()?)?;
        }
    }
    Ok(())
}

/// How many entries there are once a bucket is replaced. More than 2 ^ 64 - 1 would want more memory than there can be.
fn size_with<K: Placed, V: Again>(
    size: usize,
    old: &[(K, V)],
    new: &[(K, V)],
) -> Result<usize, AllocError>
    requires { length old.now ≤ size }
    ensures { IfOk result (λ n. n + length old.now ≡ size + length new.now) }
{
    match (size - old.len()).checked_add(new.len()) {
        Some(size) => Ok(size),
        None => Err(AllocError),
    }
}

/// Puts the keys of these entries behind others.
fn add_keys<K: Placed, V: Again>(keys: &mut Vec<K>, entries: &[(K, V)]) -> Result<(), AllocError>
    ensures { OnOk result (keys.new.items ≡ keys.old.items ++ keys_of entries.now) }
{
    'entries: for (key, _) in entries {
        keys.push(*key)?;
    }
    Ok(())
}
