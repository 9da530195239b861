//! The keys of a set in a stretch.
ghost use Rattle.std.specs.Prelude.{◌≡◌, ◌++◌, ◌<◌, ◌≤◌, [], true, false, length, take, drop, get_or};
ghost use Rattle.std.specs.List.{filter};
ghost use Rattle.std.specs.List.Sorted.{IsStrictlySortedBy};
ghost use Rattle.shared_set.specs.Keys.{flat, is_in, is_from, reaches};

use crate::chunk::Chunk;
use crate::span::Span;
use std::marker::Model;

/// The keys of a set in a stretch of them, in order. Contracts see it as the list of the keys that are left. It takes no
/// memory.
pub struct Within<'a, K: Ord + Copy, S: Span<K>> {
    keys: &'a [K],
    rest: &'a [Chunk<K>],
    span: S,
}

impl<'a, K: Ord + Copy, S: Span<K>> Drop for Within<'a, K, S> {
    fn drop(self) {
        let Within {
            keys: _,
            rest: _,
            span: _,
        } = self;
    }
}

impl<'a, K: Ord + Copy, S: Span<K>> Model for Within<'a, K, S> {
    ghost use Rattle.std.specs.Prelude.{List, ◌++◌};
    ghost use Rattle.std.specs.List.{filter};
    ghost use Rattle.std.specs.List.Sorted.{IsStrictlySortedBy};
    ghost use Rattle.shared_set.specs.Keys.{flat, is_up_to};

    ghost Value = { List K };

    ghost view = { λ w. filter (is_up_to S.beside w.span) (w.keys.now ++ flat w.rest.now) };

    ghost invariant = { λ w. IsStrictlySortedBy K.cmp (w.keys.now ++ flat w.rest.now) };
}

impl<'a, K: Ord + Copy, S: Span<K>> Iterator for Within<'a, K, S> {
    type Item = &'a K;

    ghost use Rattle.std.specs.Iterator.{YieldsFirstRef, item_count};

    ghost next_gives = { YieldsFirstRef (λ w. w) };

    ghost remaining = { item_count (λ w. w) };

    fn next(&mut self) -> Option<&'a K> {
        let (keys, rest) = begun(self.keys, self.rest);
        match keys.split_first() {
            Some((key, others)) => {
                if self.span.beside(key).is_lt() {
                    return None;
                }
                self.keys = others;
                self.rest = rest;
                Some(key)
            }
            None => None,
        }
    }
}

/// Keys and the chunks behind them, split anew: the first part has the first key, unless there is no key at all.
fn begun<'a, K: Ord + Copy>(
    mut keys: &'a [K],
    mut rest: &'a [Chunk<K>],
) -> (&'a [K], &'a [Chunk<K>])
    ensures same { result.0.now ++ flat result.1.now ≡ keys.entry.now ++ flat rest.entry.now }
    ensures first { result.0.now ≡ [] → flat result.1.now ≡ [] }
{
    'chunks: while keys.is_empty() {
        match rest.split_first() {
            Some((chunk, others)) => {
                keys = chunk.as_slice();
                rest = others;
            }
            None => return (keys, rest),
        }
    }
    (keys, rest)
}

/// The keys of some chunks in a stretch.
#[tactic(auto, using(crate::proofs::Ends::from_up_to, crate::proofs::Ends::sorted_from))]
pub fn stretch<'a, K: Ord + Copy, S: Span<K>>(chunks: &'a [Chunk<K>], span: S) -> Within<'a, K, S>
    requires { IsStrictlySortedBy K.cmp (flat chunks.now) }
    ensures { result ≡ filter (is_in S.beside span) (flat chunks.now) }
{
    let (keys, rest) = begin(chunks, &span);
    Within { keys, rest, span }
}

/// The keys of some chunks but those before a stretch.
fn begin<'a, K: Ord + Copy, S: Span<K>>(
    chunks: &'a [Chunk<K>],
    span: &S,
) -> (&'a [K], &'a [Chunk<K>])
    requires { IsStrictlySortedBy K.cmp (flat chunks.now) }
    ensures { result.0.now ++ flat result.1.now ≡ filter (is_from S.beside span.now) (flat chunks.now) }
{
    let rest = &chunks[first_entering(chunks, span)..];
    match rest.split_first() {
        Some((chunk, others)) => (keys_from(chunk.as_slice(), span), others),
        None => (&[], rest),
    }
}

/// The place of the first chunk with a key that is not before a stretch, or how many chunks there are where none has one.
/// By halves.
fn first_entering<K: Ord + Copy, S: Span<K>>(chunks: &[Chunk<K>], span: &S) -> usize
    requires { IsStrictlySortedBy K.cmp (flat chunks.now) }
    ensures bound { result ≤ length chunks.now }
    ensures before { reaches S.beside span.now (flat (take result chunks.now)) ≡ false }
    ensures there { result < length chunks.now → reaches S.beside span.now (get_or chunks.now result []) ≡ true }
{
    let (mut low, mut high) = (0, chunks.len());
    'halves: while low < high {
        let middle = low + (high - low) / 2;
        if chunks[middle].enters(span) {
            high = middle;
        } else {
            low = middle + 1;
        }
    }
    low
}

/// The keys of a list in order but those before a stretch.
fn keys_from<'a, K: Ord + Copy, S: Span<K>>(keys: &'a [K], span: &S) -> &'a [K]
    requires { IsStrictlySortedBy K.cmp keys.now }
    ensures { result.now ≡ filter (is_from S.beside span.now) keys.now }
{
    &keys[first_from(keys, span)..]
}

/// How many keys of a list in order stand before a stretch, by halves.
fn first_from<K: Ord + Copy, S: Span<K>>(keys: &[K], span: &S) -> usize
    requires { IsStrictlySortedBy K.cmp keys.now }
    ensures bound { result ≤ length keys.now }
    ensures rest { drop result keys.now ≡ filter (is_from S.beside span.now) keys.now }
{
    let (mut low, mut high) = (0, keys.len());
    'halves: while low < high {
        let middle = low + (high - low) / 2;
        if span.beside(&keys[middle]).is_gt() {
            low = middle + 1;
        } else {
            high = middle;
        }
    }
    low
}
