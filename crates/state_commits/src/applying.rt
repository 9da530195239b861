//! What an edit makes of a state.
ghost use Rattle.std.specs.Prelude.{◌≡◌, ◌≢◌, ◌≤◌, ◌<◌, ◌+◌, ◌*◌, ◌^◌, ℕ, Some, None, IfOk, IfErr, OnOk, fold, length};
ghost use Rattle.std.specs.Arc.{arc_value};
ghost use Rattle.std.specs.List.Sorted.{IsStrictlySortedBy};
ghost use Rattle.bucket_map.specs.Buckets.{bucket_size, AtMost};
ghost use Rattle.cacheability.specs.Tag.{tag_cmp};
ghost use Rattle.tag_counts.specs.Counts.{bumped, count_of};
ghost use Rattle.tag_counts.specs.Key.{tag_place};
ghost use Rattle.content_state.specs.Replay.{step};
ghost use Rattle.state_commits.specs.Apply.{first_full, full_tag, IsFault, steps_of};
ghost use Rattle.state_commits.specs.declared.applying.ApplyFault.TheVariants as apply_fault;

use crate::tags::tags_of_commit;
use bucket_map::Steps;
use cacheability::Tag;
use content_state::{Commit, State};
use std::alloc::{AllocError, AllocFailed, Global};
use std::marker::Brand;
use std::sync::Arc;
use std::sync::ledger::{Blank, Ledger};
use tag_counts::Counts;

/// Why an edit made no state.
#[derive(Clone, Copy, Debug)]
pub enum ApplyFault {
    /// The count of this tag, which the edit invalidates, is 18,446,744,073,709,551,615 and cannot be raised. It is
    /// the first one by its text.
    CountFull(Tag),
    /// Memory is wanting.
    OutOfMemory,
}

impl From<AllocError> for ApplyFault {
    ghost from_gives = { λ _ e. e ≡ apply_fault.OutOfMemory };

    fn from(_fault: AllocError) -> ApplyFault {
        ApplyFault::OutOfMemory
    }
}

impl<T: Drop> From<AllocFailed<T>> for ApplyFault {
    ghost from_gives = { λ _ e. e ≡ apply_fault.OutOfMemory };

    fn from(_failed: AllocFailed<T>) -> ApplyFault {
        ApplyFault::OutOfMemory
    }
}

/// The state after an edit: its writes are made, each tag that it invalidates has a count that is one greater, and the
/// number is one greater. Each row is shared, and none is copied. `CountFull` where a tag that it invalidates has the
/// greatest count already, with the first such tag by its text; `OutOfMemory` where memory is wanting, which may come in
/// its place. The state before stays as it is in any case.
/// <https://www.drupal.org/docs/drupal-apis/cache-api/cache-tags>
pub fn apply(alloc: Global, state: &State, commit: &Commit) -> Result<Arc<State>, ApplyFault>
    requires { state.now.number < 2 ^ 63 }
    ensures step { IfOk result (λ after. arc_value after ≡ step state.now commit.now) }
    ensures none_full { IfOk result (λ _. full_tag state.now commit.now ≡ None) }
    ensures fault { IfErr result (IsFault state.now commit.now) }
{
    apply_from::<Brand>(alloc, state, commit, Blank::new(1))
}

/// As `apply`, with a count of its own.
fn apply_from<L: Ledger>(
    alloc: Global,
    state: &State,
    commit: &Commit,
    blank: Blank,
) -> Result<Arc<State>, ApplyFault>
    requires number { state.now.number < 2 ^ 63 }
    requires name { blank.name ≡ L.name }
    requires parts { blank.parts ≡ L.parts }
    requires some { 0 < L.parts }
    ensures step { IfOk result (λ after. arc_value after ≡ step state.now commit.now) }
    ensures none_full { IfOk result (λ _. full_tag state.now commit.now ≡ None) }
    ensures fault { IfErr result (IsFault state.now commit.now) }
{
    let mut steps = Steps::<L>::new(blank);
    apply_counted(alloc, state, commit, &mut steps)
}

/// As `apply`, and it counts the entries that are put into buckets. A state shares every bucket that an edit doesn't touch
/// with the state before. An edit of `w` writes that invalidates `b` tags puts at most `(m + w + b) * (w + b)` entries into
/// buckets, where `m` is how many the fullest bucket has before of those that it touches.
#[tactic(auto, unfolding(content_state::specs::Replay::step))]
pub fn apply_counted<L: Ledger>(
    alloc: Global,
    state: &State,
    commit: &Commit,
    steps: &mut Steps<L>,
) -> Result<Arc<State>, ApplyFault>
    requires { state.now.number < 2 ^ 63 }
    ensures step { IfOk result (λ after. arc_value after ≡ step state.now commit.now) }
    ensures none_full { IfOk result (λ _. full_tag state.now commit.now ≡ None) }
    ensures fault { IfErr result (IsFault state.now commit.now) }
    ensures cost { steps.new ≤ steps.old + steps_of state.now commit.now }
{
    let tags = tags_of_commit(alloc, state.rows(), commit)?;
    if let Some(tag) = first_full(state.counts(), tags.as_slice()) {
        return Err(ApplyFault::CountFull(tag));
    }
    let mut counts = state.counts().duplicate(alloc)?;
    bump_all(&mut counts, tags.as_slice(), steps)?;
    let after = state.after(alloc, commit.writes.as_slice(), counts, steps)?;
    Ok(Arc::new(alloc, after)?)
}

/// The first tag by its text, of those that an edit of a state invalidates, whose count is the greatest there is:
/// 18,446,744,073,709,551,615, which cannot be raised. `Err` only where memory is wanting.
pub fn full_tag(alloc: Global, state: &State, commit: &Commit) -> Result<Option<Tag>, AllocError>
    ensures { IfOk result (λ tag. tag ≡ full_tag state.now commit.now) }
{
    let tags = tags_of_commit(alloc, state.rows(), commit)?;
    Ok(first_full(state.counts(), tags.as_slice()))
}

/// The first of some tags whose count is the greatest there is.
fn first_full(counts: &Counts, tags: &[Tag]) -> Option<Tag>
    ensures { result ≡ first_full counts.now tags.now }
{
    tags.iter()
        .copied()
        .find(|tag| counts.count(tag) == u64::MAX)
}

/// Adds one to the count of each of these tags, which stand in order, each once, and none of which is full. `Err` only
/// where memory is wanting.
fn bump_all<L: Ledger>(
    counts: &mut Counts,
    tags: &[Tag],
    steps: &mut Steps<L>,
) -> Result<(), AllocError>
    requires ordered { IsStrictlySortedBy tag_cmp tags.now }
    requires none_full { first_full counts.old tags.now ≡ None }
    ensures same { OnOk result (counts.new ≡ fold bumped counts.old tags.now) }
    ensures cost { (most : ℕ) → AtMost tag_place counts.old most tags.now → steps.new ≤ steps.old + (most + length tags.now) * length tags.now }
{
    'tags: for tag in tags {
        bump(counts, tag, steps)?;
    }
    Ok(())
}

/// Adds one to the count of a tag that is not full. `Err` only where memory is wanting.
fn bump<L: Ledger>(counts: &mut Counts, tag: &Tag, steps: &mut Steps<L>) -> Result<(), AllocError>
    requires { count_of counts.old tag.now ≢ 18_446_744_073_709_551_615 }
    ensures same { OnOk result (counts.new ≡ bumped counts.old tag.now) }
    ensures cost { steps.new ≤ steps.old + (bucket_size tag_place counts.old (tag_place tag.now) + 1) }
{
    match counts.bump_counted(tag, steps) {
        Ok(()) => Ok(()),
        Err(_) => Err(AllocError),
    }
}
