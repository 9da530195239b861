//! The entries of a map, in no order.
ghost use Rattle.std.specs.Iterator.{YieldsFirstBy, item_count};
ghost use Rattle.bucket_map.specs.Buckets.{shown, entries_left};

use crate::bucket::{Again, Bucket, Placed};
use std::marker::Model;

/// The entries of a map, each once, in an order that is not told. Contracts see it as the list of those that are left.
#[derive(Drop)]
pub struct Walk<'a, K: Placed, V: Again> {
    /// What is left of a bucket.
    pub(crate) bucket: &'a [(K, V)],
    /// The buckets behind it.
    pub(crate) buckets: &'a [Bucket<K, V>],
}

impl<'a, K: Placed, V: Again> Model for Walk<'a, K, V> {
    ghost use Rattle.std.specs.Prelude.{◌++◌, List};
    ghost use Rattle.bucket_map.specs.Buckets.{flat};

    ghost Value = { List (K × V) };

    ghost view = { λ e. e.bucket.now ++ flat e.buckets.now };
}

impl<'a, K: Placed, V: Again> Iterator for Walk<'a, K, V> {
    type Item = (&'a K, &'a V);

    ghost next_gives = { YieldsFirstBy shown entries_left };

    ghost remaining = { item_count entries_left };

    fn next(&mut self) -> Option<(&'a K, &'a V)> {
        'empty: while self.bucket.is_empty() {
            match self.buckets.split_first() {
                Some((bucket, rest)) => {
                    self.bucket = bucket.as_slice();
                    self.buckets = rest;
                }
                None => return None,
            }
        }
        match self.bucket.split_first() {
            Some((entry, rest)) => {
                self.bucket = rest;
                Some((&entry.0, &entry.1))
            }
            None => None,
        }
    }
}
