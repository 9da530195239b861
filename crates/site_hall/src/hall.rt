//! The hall of a site.
ghost use Rattle.std.specs.Prelude.{◌≡◌, ◌<◌, ◌^◌, length, None, true, IfOk, OnOk, IfErr, OnErr};
ghost use Rattle.std.specs.Arc.{arc_value};
ghost use Rattle.content_state.specs.SiteRules.{IsValidState};
ghost use Rattle.cache_entries.specs.Sound.{IsSoundKept, IsSoundFound};
ghost use Rattle.page_meaning.specs.Meaning.{meaning};
ghost use Rattle.site_keeper.specs.Steps.{batch_of};
ghost use Rattle.site_hall.specs.Stock.{tally_in};
ghost use Rattle.site_hall.specs.Looked.{LooksUp, KeepsUnder};
ghost use Rattle.site_hall.specs.Accepted.{IsAskedFor};
ghost use Rattle.site_hall.specs.Within.{side_of, IsWholeSide};
ghost use Rattle.site_hall.specs.Sides.{newest_at, IsHallSide, with_shelves, announced, settled_side, with_batch_pending, none_pending, OnePending, TellsKept};

use crate::desk::Desk;
use crate::edit::Made;
use crate::log::Log;
use crate::making::Ready;
use crate::stock::Stock;
use crate::tally::Tally;
use cache_entries::{Bin, Found, Kept, Key};
use content_state::State;
use site_keeper::Keeper;
use std::alloc::{AllocError, AllocFailed, Global};
use std::marker::Model;
use std::sync::Arc;

/// The hall of a site, which every caller reads: the published edits, the newest state, and what is kept of pages. An edit is first
/// announced, which takes all memory that publishing it needs; then it is kept at the desk; then it is published. So no call of the
/// hall waits for the keeper.
pub struct Hall {
    log: Log,
    pending: Option<Made>,
    stock: Stock,
}

impl Drop for Hall {
    fn drop(self) {
        let Hall {
            log: _,
            pending: _,
            stock: _,
        } = self;
    }
}

impl Model for Hall {
    ghost use Rattle.site_hall.specs.Sides.{HallSide};
    ghost use Rattle.site_hall.specs.Within.{side_of, IsWholeSide};

    ghost Value = { HallSide };

    ghost view = { λ h. side_of h.log h.pending h.stock };

    ghost invariant = { λ h. IsWholeSide h.log h.pending h.stock };
}

impl Hall {
    /// The hall of these parts.
    pub(crate) fn of_parts(log: Log, pending: Option<Made>, stock: Stock) -> Hall
        requires { IsWholeSide log pending stock }
        ensures hall { result ≡ side_of log pending stock }
        ensures is_hall { IsHallSide result }
    {
        Hall {
            log,
            pending,
            stock,
        }
    }

    /// What it is made of.
    pub(crate) fn into_parts(self) -> (Log, Option<Made>, Stock)
        ensures parts { side_of result.0 result.1 result.2 ≡ self }
        ensures whole { IsWholeSide result.0 result.1 result.2 }
    {
        let Hall {
            log,
            pending,
            stock,
        } = self;
        (log, pending, stock)
    }

    /// The newest state: that of all edits that were published. It is valid, and one more than its number is a u64 too. `Err` only
    /// where memory is wanting.
    pub fn snapshot(&self, _alloc: Global) -> Result<Arc<State>, AllocError>
        ensures state { IfOk result (λ state. arc_value state ≡ newest_at self.now) }
        ensures valid { IfOk result (λ state. IsValidState (arc_value state)) }
        ensures small { IfOk result (λ state. (arc_value state).number < 2 ^ 63) }
    {
        Arc::try_clone(self.log.newest())
    }

    /// How many edits were published. What always holds of a hall holds.
    pub fn len(&self) -> usize
        ensures len { result ≡ length self.now.log }
        ensures is_hall { IsHallSide self.now }
    {
        self.log.len()
    }

    /// How often something was looked for among what is kept of pages, found there, and kept.
    pub fn tally(&self) -> Tally
        ensures { result ≡ tally_in self.now.stock }
    {
        self.stock.tally()
    }

    /// What stands under a key in a bin, which then goes first there; an entry is sound over the published edits. The look is
    /// counted. `Err` only where memory is wanting, and then nothing changes.
    pub fn look(&mut self, _alloc: Global, bin: Bin, key: &Key) -> Result<Found, AllocError>
        ensures looks { LooksUp result self.old.stock self.new.stock bin key.now }
        ensures beside { self.new ≡ with_shelves self.old self.new.stock }
        ensures sound { IfOk result (λ found. IsSoundFound meaning self.new.base self.new.log key.now found) }
        ensures is_hall { IsHallSide self.new }
    {
        self.stock.look(bin, key)
    }

    /// Keeps something under a key in a bin, where it goes first: in place of what stood under the same key, or, where the
    /// bin is full, of the one that wasn't used for longest. An entry has to be sound over the published edits. It is
    /// counted. Where memory is wanting nothing changes, and the key and what was to be kept come back.
    pub fn keep(
        &mut self,
        _alloc: Global,
        bin: Bin,
        key: Key,
        kept: Kept,
    ) -> Result<(), AllocFailed<(Key, Kept)>>
        requires { IsSoundKept meaning self.old.base self.old.log key kept }
        ensures keeps { KeepsUnder result self.old.stock self.new.stock bin key kept }
        ensures beside { self.new ≡ with_shelves self.old self.new.stock }
        ensures back { IfErr result (λ f. f.value ≡ (key, kept)) }
        ensures is_hall { IsHallSide self.new }
    {
        self.stock.keep(bin, key, kept)
    }

    /// Announces an edit, which was accepted on the newest state: it is pending then, here and at the desk. All memory that it takes
    /// to publish it is taken now. `Err` only where memory is wanting, and then nothing changes.
    pub fn announce<K: Keeper>(
        &mut self,
        desk: &mut Desk<K>,
        ready: Ready,
    ) -> Result<(), AllocError>
        requires none { (self.old.pending ≡ None) × (desk.old.pending ≡ None) }
        requires asked { IsAskedFor (newest_at self.old) (length self.old.log) ready }
        ensures announced { OnOk result (self.new ≡ announced ready.batch.commit self.old) }
        ensures desk { OnOk result (desk.new ≡ with_batch_pending (batch_of (newest_at self.old) ready.batch.commit) desk.old) }
        ensures same { OnErr result ((self.new ≡ self.old) × (desk.new ≡ desk.old)) }
        ensures is_hall { IsHallSide self.new }
    {
        self.log.reserve()?;
        let Ready {
            batch,
            done: _,
            state,
        } = ready;
        let commit = Arc::try_clone(&batch.commit)?;
        self.pending = Some(Made { commit, state });
        desk.pending = Some(batch);
        Ok(())
    }

    /// Settles the edit that is pending: publishes it where the keeper has kept it, and else forgets it. It takes no memory.
    pub fn settle<K: Keeper>(&mut self, desk: &mut Desk<K>, kept: bool)
        requires one { OnePending self.old desk.old }
        requires exactly { TellsKept desk.old.kept desk.old.pending kept }
        ensures settled { self.new ≡ settled_side kept self.old.pending self.old }
        ensures desk { desk.new ≡ none_pending desk.old }
        ensures is_hall { IsHallSide self.new }
    {
        desk.pending = None;
        let Some(made) = self.pending.take() else {
            unreachable!()
        };
        if kept {
            self.log.publish(made);
        }
    }

    /// Publishes the edit that is pending, which the keeper has kept. It takes no memory.
    pub fn publish<K: Keeper>(&mut self, desk: &mut Desk<K>)
        requires one { OnePending self.old desk.old }
        requires kept { TellsKept desk.old.kept desk.old.pending true }
        ensures published { self.new ≡ settled_side true self.old.pending self.old }
        ensures desk { desk.new ≡ none_pending desk.old }
        ensures is_hall { IsHallSide self.new }
    {
        self.settle(desk, true);
    }
}
