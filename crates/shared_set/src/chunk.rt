//! A short list of keys in order, which several sets share and which never changes.
ghost use Rattle.std.specs.Prelude.{◌≡◌, ◌<◌, IfOk, length};
ghost use Rattle.std.specs.List.{filter};
ghost use Rattle.std.specs.List.Sorted.{IsStrictlySortedBy};
ghost use Rattle.std.specs.BTreeSet.{insert_key};
ghost use Rattle.shared_set.specs.Keys.{is_other, reaches};

use crate::span::Span;
use std::alloc::{AllocError, Global};
use std::marker::Model;
use std::sync::Arc;

/// At least one key, and more in order. Contracts see the list of them.
pub struct Chunk<K: Ord + Copy> {
    keys: Arc<Vec<K>>,
}

impl<K: Ord + Copy> Drop for Chunk<K> {
    fn drop(self) {
        let Chunk { keys: _ } = self;
    }
}

impl<K: Ord + Copy> Model for Chunk<K> {
    ghost use Rattle.std.specs.Prelude.{◌<◌, List, length};
    ghost use Rattle.std.specs.Arc.{arc_value};
    ghost use Rattle.std.specs.List.Sorted.{IsStrictlySortedBy};

    ghost Value = { List K };

    ghost view = { λ c. (arc_value c.keys).items };

    ghost invariant = { λ c. IsStrictlySortedBy K.cmp (arc_value c.keys).items × (0 < length (arc_value c.keys).items) };
}

impl<K: Ord + Copy> Chunk<K> {
    /// A chunk of these keys, which stand in order, and of which there is one at least.
    pub fn of(alloc: Global, keys: &[K]) -> Result<Self, AllocError>
        requires ordered { IsStrictlySortedBy K.cmp keys.now }
        requires some { 0 < length keys.now }
        ensures { IfOk result (λ c. c ≡ keys.now) }
    {
        let keys = Vec::from_slice(alloc, keys)?;
        Ok(Chunk {
            keys: Arc::new(alloc, keys)?,
        })
    }

    /// A second owner of the chunk: the keys are shared, and none is copied.
    pub fn share(&self) -> Result<Self, AllocError>
        ensures { IfOk result (λ c. c ≡ self.now) }
    {
        Ok(Chunk {
            keys: Arc::try_clone(&self.keys)?,
        })
    }

    /// The keys, in order.
    pub fn as_slice(&self) -> &[K]
        ensures same { result.now ≡ self.now }
        ensures ordered { IsStrictlySortedBy K.cmp self.now }
    {
        self.keys.as_slice()
    }

    /// Whether some key is not below this one.
    pub fn reaches(&self, key: &K) -> bool
        ensures same { result ≡ reaches K.cmp key.now self.now }
        ensures some { 0 < length self.now }
    {
        match self.keys.last() {
            Some(last) => !key.cmp(last).is_gt(),
            None => false,
        }
    }

    /// Whether some key is not before a stretch.
    pub fn enters<S: Span<K>>(&self, span: &S) -> bool
        ensures same { result ≡ reaches S.beside span.now self.now }
        ensures some { 0 < length self.now }
    {
        match self.keys.last() {
            Some(last) => !span.beside(last).is_gt(),
            None => false,
        }
    }

    /// The keys with one more.
    pub fn with(&self, alloc: Global, key: &K) -> Result<Vec<K>, AllocError>
        ensures same { IfOk result (λ keys. keys.items ≡ insert_key K.cmp self.now key.now) }
        ensures ordered { IfOk result (λ keys. IsStrictlySortedBy K.cmp keys.items) }
    {
        let mut keys = Vec::from_slice(alloc, self.as_slice())?;
        match self.as_slice().binary_search(key) {
            Ok(_) => Ok(keys),
            Err(place) => {
                keys.insert(place, *key)?;
                Ok(keys)
            }
        }
    }

    /// The keys but one.
    #[tactic(auto, using(crate::proofs::Ends::sorted_others))]
    pub fn without(&self, alloc: Global, key: &K) -> Result<Vec<K>, AllocError>
        ensures same { IfOk result (λ keys. keys.items ≡ filter (is_other K.cmp key.now) self.now) }
        ensures ordered { IfOk result (λ keys. IsStrictlySortedBy K.cmp keys.items) }
    {
        others(alloc, self.as_slice(), key)
    }
}

/// The keys but one.
fn others<K: Ord + Copy>(alloc: Global, all: &[K], key: &K) -> Result<Vec<K>, AllocError>
    ensures { IfOk result (λ keys. keys.items ≡ filter (is_other K.cmp key.now) all.now) }
{
    let mut keys = Vec::with_capacity(alloc, all.len())?;
    'all: for own in all {
        if key.cmp(own).is_ne() {
            keys.push(*own)?;
        }
    }
    Ok(keys)
}
