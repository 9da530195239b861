//! What lies in the slots of a table: a hall and a desk, each behind a pointer, so that a turn moves one word in and out.
ghost use Rattle.std.specs.Prelude.{◌≡◌, ◌≤◌, ◌<◌, ◌^◌, length, None, true, is_some, IfOk, OnOk, OnErr, IfErr};
ghost use Rattle.std.specs.Arc.{arc_value};
ghost use Rattle.content_state.specs.SiteRules.{IsValidState};
ghost use Rattle.cache_entries.specs.Sound.{IsSoundKept, IsSoundFound};
ghost use Rattle.page_meaning.specs.Meaning.{meaning};
ghost use Rattle.site_keeper.specs.Keeper.{CountsFault, StaysSteadfast};
ghost use Rattle.site_keeper.specs.Steps.{batch_of};
ghost use Rattle.site_hall.specs.Accepted.{IsAskedFor};
ghost use Rattle.site_hall.specs.Looked.{LooksUp, KeepsUnder};
ghost use Rattle.site_hall.specs.Sides.{newest_at, IsHallSide, with_shelves, announced, settled_side, with_batch_pending, none_pending, with_faults, kept_of, OnePending, TellsKept, MayKeep, LeavesDesk};
ghost use Rattle.site_hall.specs.Stock.{tally_in};

use cache_entries::{Bin, Found, Kept, Key};
use content_state::State;
use site_hall::{Desk, Hall, Ready, Tally};
use site_keeper::{Keeper, KeeperFault};
use std::alloc::{AllocError, Global};
use std::marker::Model;
use std::sync::Arc;

/// A hall behind a pointer. Contracts see it as the hall.
#[derive(Drop)]
pub struct HallHome {
    hall: Box<Hall>,
}

impl Model for HallHome {
    ghost use Rattle.site_hall.specs.Sides.{HallSide};

    ghost Value = { HallSide };

    ghost view = { λ h. h.hall.value };
}

impl HallHome {
    /// A home for a hall. `Err` gives the hall back, only where memory is wanting.
    pub fn new(alloc: Global, hall: Hall) -> Result<HallHome, Hall>
        ensures same { IfOk result (λ home. home ≡ hall) }
        ensures back { IfErr result (λ back. back ≡ hall) }
    {
        match Box::new(alloc, hall) {
            Ok(hall) => Ok(HallHome { hall }),
            Err(refused) => Err(refused.value),
        }
    }

    /// How many edits were published. What always holds of a hall holds.
    pub fn len(&self) -> usize
        ensures len { result ≡ length self.now.log }
        ensures is_hall { IsHallSide self.now }
    {
        self.hall.len()
    }

    /// What was counted of what is kept of pages.
    pub fn tally(&self) -> Tally
        ensures { result ≡ tally_in self.now.stock }
    {
        self.hall.tally()
    }

    /// The newest state, as the hall gives it. `Err` only where memory is wanting.
    pub fn snapshot(&self, alloc: Global) -> Result<Arc<State>, AllocError>
        ensures state { IfOk result (λ state. arc_value state ≡ newest_at self.now) }
        ensures valid { IfOk result (λ state. IsValidState (arc_value state)) }
        ensures small { IfOk result (λ state. (arc_value state).number < 2 ^ 63) }
    {
        self.hall.snapshot(alloc)
    }

    /// What stands under a key in a bin, as the hall finds it. `Err` only where memory is wanting.
    pub fn look(&mut self, alloc: Global, bin: Bin, key: &Key) -> Result<Found, AllocError>
        ensures looks { LooksUp result self.old.stock self.new.stock bin key.now }
        ensures beside { self.new ≡ with_shelves self.old self.new.stock }
        ensures sound { IfOk result (λ found. IsSoundFound meaning self.new.base self.new.log key.now found) }
        ensures is_hall { IsHallSide self.new }
    {
        self.hall.look(alloc, bin, key)
    }

    /// Keeps something under a key in a bin, as the hall does, or lets it go, only where memory is wanting.
    pub fn keep(&mut self, alloc: Global, bin: Bin, key: Key, kept: Kept) -> Result<(), AllocError>
        requires { IsSoundKept meaning self.old.base self.old.log key kept }
        ensures keeps { KeepsUnder result self.old.stock self.new.stock bin key kept }
        ensures beside { self.new ≡ with_shelves self.old self.new.stock }
        ensures is_hall { IsHallSide self.new }
    {
        match self.hall.keep(alloc, bin, key, kept) {
            Ok(()) => Ok(()),
            Err(_) => Err(AllocError),
        }
    }

    /// Announces an edit, as the hall does. `Err` only where memory is wanting.
    pub fn announce<K: Keeper>(
        &mut self,
        desk: &mut DeskHome<K>,
        ready: Ready,
    ) -> Result<(), AllocError>
        requires none { (self.old.pending ≡ None) × (desk.old.pending ≡ None) }
        requires asked { IsAskedFor (newest_at self.old) (length self.old.log) ready }
        ensures announced { OnOk result (self.new ≡ announced ready.batch.commit self.old) }
        ensures desk { OnOk result (desk.new ≡ with_batch_pending (batch_of (newest_at self.old) ready.batch.commit) desk.old) }
        ensures same { OnErr result ((self.new ≡ self.old) × (desk.new ≡ desk.old)) }
        ensures is_hall { IsHallSide self.new }
    {
        self.hall.announce(&mut desk.desk, ready)
    }

    /// Settles the edit that is pending, as the hall does. It takes no memory.
    pub fn settle<K: Keeper>(&mut self, desk: &mut DeskHome<K>, kept: bool)
        requires one { OnePending self.old desk.old }
        requires exactly { TellsKept desk.old.kept desk.old.pending kept }
        ensures settled { self.new ≡ settled_side kept self.old.pending self.old }
        ensures desk { desk.new ≡ none_pending desk.old }
        ensures is_hall { IsHallSide self.new }
    {
        self.hall.settle(&mut desk.desk, kept);
    }

    /// Publishes the edit that is pending, as the hall does. It takes no memory.
    pub fn publish<K: Keeper>(&mut self, desk: &mut DeskHome<K>)
        requires one { OnePending self.old desk.old }
        requires kept { TellsKept desk.old.kept desk.old.pending true }
        ensures published { self.new ≡ settled_side true self.old.pending self.old }
        ensures desk { desk.new ≡ none_pending desk.old }
        ensures is_hall { IsHallSide self.new }
    {
        self.hall.publish(&mut desk.desk);
    }

    /// The hall, by value.
    pub fn into_hall(self) -> Hall
        ensures { result ≡ self }
    {
        let HallHome { hall } = self;
        Box::into_inner(hall)
    }
}

/// A desk behind a pointer. Contracts see it as the desk.
pub struct DeskHome<K: Keeper> {
    desk: Box<Desk<K>>,
}

impl<K: Keeper + Drop> Drop for DeskHome<K> {
    fn drop(self) {
        let DeskHome { desk: _ } = self;
    }
}

impl<K: Keeper> Model for DeskHome<K> {
    ghost use Rattle.site_hall.specs.Sides.{DeskSide};

    ghost Value = { DeskSide };

    ghost view = { λ d. d.desk.value };
}

impl<K: Keeper> DeskHome<K> {
    /// A home for a desk. `Err` gives the desk back, only where memory is wanting.
    pub fn new(alloc: Global, desk: Desk<K>) -> Result<DeskHome<K>, Desk<K>>
        ensures same { IfOk result (λ home. home ≡ desk) }
        ensures back { IfErr result (λ back. back ≡ desk) }
    {
        match Box::new(alloc, desk) {
            Ok(desk) => Ok(DeskHome { desk }),
            Err(refused) => Err(refused.value),
        }
    }

    /// Whether an edit is pending.
    pub fn pending(&self) -> bool
        ensures { result ≡ is_some self.now.pending }
    {
        self.desk.pending()
    }

    /// How often the keeper has failed.
    pub fn faults(&self) -> u64
        ensures { result ≡ self.now.faults }
    {
        self.desk.faults()
    }

    /// Asks the keeper whether it has kept the pending edit, as the desk does.
    pub fn ask(&mut self, alloc: Global) -> Result<bool, KeeperFault>
        requires { is_some self.old.pending ≡ true }
        ensures told { IfOk result (λ kept. TellsKept self.old.kept self.old.pending kept) }
        ensures stays { self.new ≡ with_faults self.new.faults self.old }
        ensures steady { OnOk result (self.new ≡ self.old) }
        ensures cause { IfErr result (λ fault. CountsFault fault self.old.faults self.new.faults) }
        ensures never_falls { self.old.faults ≤ self.new.faults }
        ensures steadfast { StaysSteadfast self.old.steadfast self.new.steadfast self.old.faults self.new.faults }
    {
        self.desk.ask(alloc)
    }

    /// Keeps the pending edit, as the desk does.
    pub fn keep(&mut self, alloc: Global) -> Result<(), KeeperFault>
        requires pending { is_some self.old.pending ≡ true }
        requires right { MayKeep self.old }
        ensures kept { OnOk result (self.new ≡ kept_of self.old.pending self.old) }
        ensures tells { OnOk result (TellsKept self.new.kept self.new.pending true) }
        ensures leaves { IfErr result (λ fault. LeavesDesk fault self.old self.new) }
        ensures never_falls { self.old.faults ≤ self.new.faults }
        ensures steadfast { StaysSteadfast self.old.steadfast self.new.steadfast self.old.faults self.new.faults }
    {
        self.desk.keep(alloc)
    }

    /// The desk, by value.
    pub fn into_desk(self) -> Desk<K>
        ensures { result ≡ self }
    {
        let DeskHome { desk } = self;
        Box::into_inner(desk)
    }
}
