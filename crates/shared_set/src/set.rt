//! The set.
ghost use Rattle.std.specs.Prelude.{◌≡◌, [], IfOk, OnOk, OnErr, fold};
ghost use Rattle.std.specs.List.{filter};
ghost use Rattle.std.specs.List.Sorted.{IsStrictlySortedBy};
ghost use Rattle.std.specs.BTreeSet.{insert_key};
ghost use Rattle.shared_set.specs.Keys.{is_other, is_in, exchanged};

use crate::chunk::Chunk;
use crate::span::Span;
use crate::splice::{chunks_of, put_all_in, put_in, shared, take_all_out, take_out};
use crate::within::{Within, stretch};
use std::alloc::{AllocError, Global};
use std::collections::BTreeSet;
use std::marker::Model;
use std::sync::Arc;

/// A sorted set, which contracts see as the list of its keys in order. They stand in chunks of at most 128. Sets share their
/// chunks: an edit copies the one chunk that it changes.
pub struct SharedSet<K: Ord + Copy> {
    alloc: Global,
    chunks: Arc<Vec<Chunk<K>>>,
}

impl<K: Ord + Copy> Drop for SharedSet<K> {
    fn drop(self) {
        let SharedSet {
            alloc: _,
            chunks: _,
        } = self;
    }
}

impl<K: Ord + Copy> Model for SharedSet<K> {
    ghost use Rattle.std.specs.Prelude.{List};
    ghost use Rattle.std.specs.Arc.{arc_value};
    ghost use Rattle.std.specs.List.Sorted.{IsStrictlySortedBy};
    ghost use Rattle.shared_set.specs.Keys.{flat};

    ghost Value = { List K };

    ghost view = { λ s. flat (arc_value s.chunks).items };

    ghost invariant = { λ s. IsStrictlySortedBy K.cmp (flat (arc_value s.chunks).items) };
}

impl<K: Ord + Copy> SharedSet<K> {
    /// The set without keys. `Err` only where memory is wanting.
    #[tactic(auto, using(crate::proofs::Ends::sorted_none))]
    pub fn new(alloc: Global) -> Result<Self, AllocError>
        ensures { IfOk result (λ s. s ≡ []) }
    {
        Self::of(alloc, &[])
    }

    /// The set of these keys, which stand in order. `Err` only where memory is wanting.
    pub fn of(alloc: Global, keys: &[K]) -> Result<Self, AllocError>
        requires { IsStrictlySortedBy K.cmp keys.now }
        ensures { IfOk result (λ s. s ≡ keys.now) }
    {
        let chunks = chunks_of(alloc, keys)?;
        Ok(SharedSet {
            alloc,
            chunks: Arc::new(alloc, chunks)?,
        })
    }

    /// The set of these keys, in whatever order they stand. `Err` only where memory is wanting.
    pub fn gathered(alloc: Global, keys: &[K]) -> Result<Self, AllocError>
        ensures { IfOk result (λ s. s ≡ fold (insert_key K.cmp) [] keys.now) }
    {
        let ordered = in_order(alloc, keys)?;
        Self::of(alloc, ordered.as_slice())
    }

    /// A copy of the set, which shares all chunks with this one. `Err` only where memory is wanting.
    pub fn share(&self) -> Result<Self, AllocError>
        ensures { IfOk result (λ s. s ≡ self.now) }
    {
        Ok(SharedSet {
            alloc: self.alloc,
            chunks: Arc::try_clone(&self.chunks)?,
        })
    }

    /// The law that its keys are in order: each stands once.
    pub fn stands_in_order(&self)
        ensures { IsStrictlySortedBy K.cmp self.now }
    {
        let _chunks = self.chunks.as_slice();
    }

    /// The keys in a stretch, in order.
    pub fn within<S: Span<K>>(&self, span: S) -> Within<'_, K, S>
        ensures { result ≡ filter (is_in S.beside span) self.now }
    {
        stretch(self.chunks.as_slice(), span)
    }

    /// Puts a key in. `Err` only where memory is wanting, and then the set is as it was.
    pub fn insert(&mut self, key: &K) -> Result<(), AllocError>
        ensures ok { OnOk result (self.new ≡ insert_key K.cmp self.old key.now) }
        ensures err { OnErr result (self.new ≡ self.old) }
    {
        let mut chunks = shared(self.alloc, self.chunks.as_slice())?;
        put_in(self.alloc, &mut chunks, key)?;
        self.chunks = Arc::new(self.alloc, chunks)?;
        Ok(())
    }

    /// Takes a key out. `Err` only where memory is wanting, and then the set is as it was.
    pub fn remove(&mut self, key: &K) -> Result<(), AllocError>
        ensures ok { OnOk result (self.new ≡ filter (is_other K.cmp key.now) self.old) }
        ensures err { OnErr result (self.new ≡ self.old) }
    {
        let mut chunks = shared(self.alloc, self.chunks.as_slice())?;
        take_out(self.alloc, &mut chunks, key)?;
        self.chunks = Arc::new(self.alloc, chunks)?;
        Ok(())
    }

    /// Takes the old keys out and puts the new ones in. Where both are the same, the set stays as it is and nothing is copied.
    /// `Err` only where memory is wanting, and then the set is as it was.
    pub fn exchange(&mut self, old: &[K], new: &[K]) -> Result<(), AllocError>
        ensures ok { OnOk result (self.new ≡ exchanged K.cmp self.old old.now new.now) }
        ensures err { OnErr result (self.new ≡ self.old) }
    {
        if old == new {
            return Ok(());
        }
        let mut chunks = shared(self.alloc, self.chunks.as_slice())?;
        take_all_out(self.alloc, &mut chunks, old)?;
        put_all_in(self.alloc, &mut chunks, new)?;
        self.chunks = Arc::new(self.alloc, chunks)?;
        Ok(())
    }
}

/// These keys in order, each once.
fn in_order<K: Ord + Copy>(alloc: Global, keys: &[K]) -> Result<Vec<K>, AllocError>
    ensures same { IfOk result (λ v. v.items ≡ fold (insert_key K.cmp) [] keys.now) }
    ensures ordered { IfOk result (λ v. IsStrictlySortedBy K.cmp v.items) }
{
    let mut set = BTreeSet::new(alloc);
    'keys: for key in keys {
        set.insert(*key)?;
    }
    listed(alloc, &set)
}

/// The keys of a set, in order.
fn listed<K: Ord + Copy>(alloc: Global, set: &BTreeSet<K>) -> Result<Vec<K>, AllocError>
    ensures { IfOk result (λ v. v.items ≡ set.now.keys) }
{
    let mut keys = Vec::with_capacity(alloc, set.len())?;
    'keys: for key in set {
        keys.push(*key)?;
    }
    Ok(keys)
}
