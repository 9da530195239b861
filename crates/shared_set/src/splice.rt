//! Chunks in a row, of which an edit replaces one.
ghost use Rattle.std.specs.Prelude.{◌≡◌, ◌++◌, [], ◌<◌, ◌≤◌, ◌+◌, IfOk, OnOk, length, true, false, take, drop, get_or};
ghost use Rattle.std.specs.List.{filter};
ghost use Rattle.std.specs.List.Sorted.{IsStrictlySortedBy};
ghost use Rattle.std.specs.BTreeSet.{insert_key};
ghost use Rattle.shared_set.specs.Keys.{flat, is_other, reaches, without_all, with_all};

use crate::chunk::Chunk;
use std::alloc::{AllocError, Global};

/// How many keys a chunk has at most.
const LONGEST: usize = 128;

/// How many keys a chunk has at first, which leaves room for more.
const FIRST: usize = 96;

/// The place of the first chunk with a key that is not below this one, or how many chunks there are where none has one.
/// By halves.
pub fn first_reaching<K: Ord + Copy>(chunks: &[Chunk<K>], key: &K) -> usize
    requires { IsStrictlySortedBy K.cmp (flat chunks.now) }
    ensures bound { result ≤ length chunks.now }
    ensures before { reaches K.cmp key.now (flat (take result chunks.now)) ≡ false }
    ensures there { result < length chunks.now → reaches K.cmp key.now (get_or chunks.now result []) ≡ true }
{
    let (mut low, mut high) = (0, chunks.len());
    'halves: while low < high {
        let middle = low + (high - low) / 2;
        if chunks[middle].reaches(key) {
            high = middle;
        } else {
            low = middle + 1;
        }
    }
    low
}

/// A new list of these chunks, in their order. The keys in them are shared, and none is copied.
pub fn shared<K: Ord + Copy>(alloc: Global, all: &[Chunk<K>]) -> Result<Vec<Chunk<K>>, AllocError>
    ensures { IfOk result (λ chunks. chunks.items ≡ all.now) }
{
    let mut chunks = Vec::with_capacity(alloc, all.len())?;
    'chunks: for chunk in all {
        chunks.push(chunk.share()?)?;
    }
    Ok(chunks)
}

/// Chunks of these keys, which stand in order.
#[tactic(auto, using(crate::proofs::Ends::sorted_take, crate::proofs::Ends::sorted_drop, crate::proofs::Splits::more_parts))]
pub fn chunks_of<K: Ord + Copy>(alloc: Global, keys: &[K]) -> Result<Vec<Chunk<K>>, AllocError>
    requires { IsStrictlySortedBy K.cmp keys.now }
    ensures { IfOk result (λ chunks. flat chunks.items ≡ keys.now) }
{
    let mut chunks = Vec::new(alloc);
    let mut rest = keys;
    'parts: while !rest.is_empty() {
        let (part, others) = rest.split_at(rest.len().min(FIRST));
        chunks.push(Chunk::of(alloc, part)?)?;
        rest = others;
    }
    Ok(chunks)
}

/// Puts these keys, which stand in order, in the place of a chunk's: as one chunk, as two where they are too many for one,
/// or as none.
#[tactic(auto, using(crate::proofs::Ends::sorted_take, crate::proofs::Ends::sorted_drop, crate::proofs::Splits::replaced_one, crate::proofs::Splits::replaced_two, crate::proofs::Splits::replaced_none))]
pub fn replace<K: Ord + Copy>(
    alloc: Global,
    chunks: &mut Vec<Chunk<K>>,
    place: usize,
    keys: &[K],
) -> Result<(), AllocError>
    requires placed { place < length chunks.old.items }
    requires ordered { IsStrictlySortedBy K.cmp keys.now }
    ensures { OnOk result (flat chunks.new.items ≡ flat (take place chunks.old.items) ++ (keys.now ++ flat (drop (place + 1) chunks.old.items))) }
{
    if keys.is_empty() {
        chunks.remove(place);
        return Ok(());
    }
    if keys.len() <= LONGEST {
        chunks[place] = Chunk::of(alloc, keys)?;
        return Ok(());
    }
    let (low, high) = keys.split_at(keys.len() / 2);
    chunks[place] = Chunk::of(alloc, low)?;
    chunks.insert(place + 1, Chunk::of(alloc, high)?)?;
    Ok(())
}

/// Puts a key in.
#[tactic(auto, using(crate::proofs::Splits::put_here))]
pub fn put_in<K: Ord + Copy>(
    alloc: Global,
    chunks: &mut Vec<Chunk<K>>,
    key: &K,
) -> Result<(), AllocError>
    requires { IsStrictlySortedBy K.cmp (flat chunks.old.items) }
    ensures { OnOk result (flat chunks.new.items ≡ insert_key K.cmp (flat chunks.old.items) key.now) }
{
    let place = first_reaching(chunks.as_slice(), key);
    if place < chunks.len() {
        let keys = chunks[place].with(alloc, key)?;
        return replace(alloc, chunks, place, keys.as_slice());
    }
    put_last(alloc, chunks, key)
}

/// Puts in a key that is above all others.
#[tactic(auto, using(crate::proofs::Splits::put_at_end, crate::proofs::Ends::sorted_one))]
fn put_last<K: Ord + Copy>(
    alloc: Global,
    chunks: &mut Vec<Chunk<K>>,
    key: &K,
) -> Result<(), AllocError>
    requires { reaches K.cmp key.now (flat chunks.old.items) ≡ false }
    ensures { OnOk result (flat chunks.new.items ≡ insert_key K.cmp (flat chunks.old.items) key.now) }
{
    if chunks.is_empty() {
        let mut keys = Vec::with_capacity(alloc, 1)?;
        keys.push(*key)?;
        chunks.push(Chunk::of(alloc, keys.as_slice())?)?;
        return Ok(());
    }
    let place = chunks.len() - 1;
    let keys = chunks[place].with(alloc, key)?;
    replace(alloc, chunks, place, keys.as_slice())
}

/// Takes a key out.
#[tactic(auto, using(crate::proofs::Splits::out_here, crate::proofs::Splits::out_none))]
pub fn take_out<K: Ord + Copy>(
    alloc: Global,
    chunks: &mut Vec<Chunk<K>>,
    key: &K,
) -> Result<(), AllocError>
    requires { IsStrictlySortedBy K.cmp (flat chunks.old.items) }
    ensures { OnOk result (flat chunks.new.items ≡ filter (is_other K.cmp key.now) (flat chunks.old.items)) }
{
    let place = first_reaching(chunks.as_slice(), key);
    if place < chunks.len() {
        let keys = chunks[place].without(alloc, key)?;
        return replace(alloc, chunks, place, keys.as_slice());
    }
    Ok(())
}

/// Takes some keys out.
pub fn take_all_out<K: Ord + Copy>(
    alloc: Global,
    chunks: &mut Vec<Chunk<K>>,
    keys: &[K],
) -> Result<(), AllocError>
    requires { IsStrictlySortedBy K.cmp (flat chunks.old.items) }
    ensures same { OnOk result (flat chunks.new.items ≡ without_all K.cmp (flat chunks.old.items) keys.now) }
    ensures ordered { OnOk result (IsStrictlySortedBy K.cmp (flat chunks.new.items)) }
{
    'keys: for key in keys {
        take_out(alloc, chunks, key)?;
    }
    Ok(())
}

/// Puts some keys in.
pub fn put_all_in<K: Ord + Copy>(
    alloc: Global,
    chunks: &mut Vec<Chunk<K>>,
    keys: &[K],
) -> Result<(), AllocError>
    requires { IsStrictlySortedBy K.cmp (flat chunks.old.items) }
    ensures same { OnOk result (flat chunks.new.items ≡ with_all K.cmp (flat chunks.old.items) keys.now) }
    ensures ordered { OnOk result (IsStrictlySortedBy K.cmp (flat chunks.new.items)) }
{
    'keys: for key in keys {
        put_in(alloc, chunks, key)?;
    }
    Ok(())
}
