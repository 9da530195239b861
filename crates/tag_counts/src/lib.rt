//! How often each cache tag was invalidated.
#![tactic(auto)]

ghost use Rattle.std.specs.Prelude.{◌≡◌, ◌≢◌, ◌↔◌, ◌≤◌, ◌<◌, ◌+◌, [], length, IfOk, OnOk, OnErr, IsErrOf, IfErr, IfSome, IfNone, IsTrue};
ghost use Rattle.bucket_map.specs.Buckets.{bucket_size};
ghost use Rattle.tag_counts.specs.Counts.{with_count};
ghost use Rattle.tag_counts.specs.Key.{tag_place};
ghost use Rattle.tag_counts.specs.declared.BumpFault.TheVariants as bump_fault;

mod key;

use bucket_map::{BucketMap, Steps};
use cacheability::Tag;
use key::Key;
use std::alloc::{AllocError, AllocFailed, Global};
use std::marker::{Brand, Model};
use std::sync::ledger::{Blank, Ledger};

/// The count of this tag is 18,446,744,073,709,551,615 and cannot be raised.
#[derive(Clone, Copy, Debug)]
pub struct CountFull(pub Tag);

/// Why a tag was not counted.
#[derive(Clone, Copy, Debug)]
pub enum BumpFault {
    /// Its count is the greatest there is.
    Full(CountFull),
    /// Memory is wanting.
    OutOfMemory,
}

impl From<AllocError> for BumpFault {
    ghost from_gives = { λ _ e. e ≡ bump_fault.OutOfMemory };

    fn from(_fault: AllocError) -> BumpFault {
        BumpFault::OutOfMemory
    }
}

impl<T: Drop> From<AllocFailed<T>> for BumpFault {
    ghost from_gives = { λ _ e. e ≡ bump_fault.OutOfMemory };

    fn from(_failed: AllocFailed<T>) -> BumpFault {
        BumpFault::OutOfMemory
    }
}

/// How often each tag was invalidated: a finite map from tags to counts, which contracts see as the
/// list of its pairs in the order of the tags' texts. The count of an absent tag is 0. Several owners may share what they
/// have in common.
/// <https://www.drupal.org/docs/drupal-apis/cache-api/cache-tags>
pub struct Counts {
    table: BucketMap<Key, u64>,
}

impl Drop for Counts {
    fn drop(self) {
        let Counts { table: _ } = self;
    }
}

impl Model for Counts {
    ghost use Rattle.std.specs.Prelude.{List, ℕ};
    ghost use Rattle.cacheability.specs.declared.tag.Tag.{Tag as TagValue};

    ghost Value = { List (TagValue × ℕ) };

    ghost view = { λ c. c.table };
}

impl Counts {
    ghost use Rattle.tag_counts.specs.Counts.{count_of, sum_of, bumped, IsInOrder};
    ghost use Rattle.cacheability.specs.declared.tag.Tag.{Tag as TagValue};

    /// No tag was invalidated.
    pub fn new(alloc: Global) -> Counts
        ensures { result ≡ [] }
    {
        Counts {
            table: BucketMap::new(alloc),
        }
    }

    /// How many tags were invalidated. Each stands once, in the order of the tags' texts: so it is
    /// in every value of this type.
    pub fn len(&self) -> usize
        ensures same { result ≡ length self.now }
        ensures ordered { IsInOrder self.now }
    {
        self.table.stands_in_order();
        self.table.len()
    }

    /// Whether no tag was invalidated.
    pub fn is_empty(&self) -> bool
        ensures { IsTrue result ↔ (self.now ≡ []) }
    {
        self.len() == 0
    }

    /// The count of a tag.
    pub fn count(&self, tag: &Tag) -> u64
        ensures { result ≡ count_of self.now tag.now }
    {
        match self.table.get(&Key(*tag)) {
            Some(count) => *count,
            None => 0,
        }
    }

    /// The sum of the counts of some tags; a tag that is named twice counts twice.
    pub fn sum(&self, tags: &[Tag]) -> u128
        ensures { result ≡ sum_of self.now tags.now }
    {
        let mut total = 0;
        'tags: for tag in tags {
            total += u128::from(self.count(tag));
        }
        total
    }

    /// Adds one to the count of a tag. `Full` exactly where that is 18,446,744,073,709,551,615; at an
    /// `Err` all counts are as they were.
    pub fn bump(&mut self, tag: &Tag) -> Result<(), BumpFault>
        ensures ok { OnOk result (self.new ≡ bumped self.old tag.now) }
        ensures one_more { OnOk result (count_of self.new tag.now ≡ count_of self.old tag.now + 1) }
        ensures others { OnOk result ((t : TagValue) → t ≢ tag.now → count_of self.new t ≡ count_of self.old t) }
        ensures ordered { OnOk result (IsInOrder self.new) }
        ensures err { OnErr result (self.new ≡ self.old) }
        ensures full { IsErrOf result (BumpFault.Full (record { 0 = tag.now })) ↔ (count_of self.old tag.now ≡ 18_446_744_073_709_551_615) }
        ensures only { IfErr result (λ e. e ≢ BumpFault.Full (record { 0 = tag.now }) → e ≡ BumpFault.OutOfMemory) }
    {
        match self.raised(tag) {
            Some(count) => Ok(self.set(tag, count)?),
            None => Err(BumpFault::Full(CountFull(*tag))),
        }
    }

    /// As `bump`, and it takes at most as many steps as the tag's bucket has counts, and one.
    pub fn bump_counted<L: Ledger>(
        &mut self,
        tag: &Tag,
        steps: &mut Steps<L>,
    ) -> Result<(), BumpFault>
        ensures ok { OnOk result (self.new ≡ bumped self.old tag.now) }
        ensures err { OnErr result (self.new ≡ self.old) }
        ensures full { IsErrOf result (BumpFault.Full (record { 0 = tag.now })) ↔ (count_of self.old tag.now ≡ 18_446_744_073_709_551_615) }
        ensures only { IfErr result (λ e. e ≢ BumpFault.Full (record { 0 = tag.now }) → e ≡ BumpFault.OutOfMemory) }
        ensures cost { steps.new ≤ steps.old + (bucket_size tag_place self.old (tag_place tag.now) + 1) }
    {
        match self.raised(tag) {
            Some(count) => Ok(self.table.put(&Key(*tag), &count, steps)?),
            None => Err(BumpFault::Full(CountFull(*tag))),
        }
    }

    /// One more than the count of a tag, where that is not the greatest.
    fn raised(&self, tag: &Tag) -> Option<u64>
        ensures some { IfSome result (λ count. count ≡ count_of self.now tag.now + 1) }
        ensures none { IfNone result (count_of self.now tag.now ≡ 18_446_744_073_709_551_615) }
    {
        self.count(tag).checked_add(1)
    }

    /// Sets the count of a tag. `Err` only where memory is wanting, and then all counts are as they were.
    pub fn set(&mut self, tag: &Tag, count: u64) -> Result<(), AllocError>
        ensures ok { OnOk result (self.new ≡ with_count self.old tag.now count) }
        ensures this { OnOk result (count_of self.new tag.now ≡ count) }
        ensures others { OnOk result ((t : TagValue) → t ≢ tag.now → count_of self.new t ≡ count_of self.old t) }
        ensures ordered { OnOk result (IsInOrder self.new) }
        ensures err { OnErr result (self.new ≡ self.old) }
    {
        self.table.stands_in_order();
        put_from::<Brand>(&mut self.table, &Key(*tag), &count, Blank::new(1))
    }

    /// A copy of the counts, which shares all of them with these. `Err` only where memory is wanting.
    pub fn duplicate(&self, _alloc: Global) -> Result<Counts, AllocError>
        ensures same { IfOk result (λ copy. copy ≡ self.now) }
        ensures ordered { IfOk result (λ copy. IsInOrder copy) }
    {
        self.table.stands_in_order();
        Ok(Counts {
            table: self.table.share()?,
        })
    }
}

/// Sets the count of a tag, with a count of steps of its own.
fn put_from<L: Ledger>(
    table: &mut BucketMap<Key, u64>,
    key: &Key,
    count: &u64,
    blank: Blank,
) -> Result<(), AllocError>
    requires name { blank.name ≡ L.name }
    requires parts { blank.parts ≡ L.parts }
    requires some { 0 < L.parts }
    ensures ok { OnOk result (table.new ≡ with_count table.old key.now count.now) }
    ensures err { OnErr result (table.new ≡ table.old) }
{
    let mut steps = Steps::<L>::new(blank);
    table.put(key, count, &mut steps)
}
