//! A keeper in memory.
ghost use Rattle.std.specs.Prelude.{◌≡◌, ◌≤◌, ◌↔◌, [], Some, None, IsSome, OnOk, OnErr, IfOk, IfErr, IsErrOf};
ghost use Rattle.indexed_rows.specs.Rows.{AreValidRows};
ghost use Rattle.site_keeper.specs.Keeper.{held_of, with_batch, and_batch, CountsFault, LeavesBatch, StaysSteadfast};
ghost use Rattle.site_keeper.specs.Memory.{
  Calls as CallsValue,
  fresh,
  is_steadfast,
  up,
  next_fail,
  passed,
  failed,
  made_of,
  with_one,
  refused,
  applied,
  IsRefusedAs,
};

use crate::batch::Batch;
use crate::fault::KeeperFault;
use crate::keeper::Keeper;
use crate::stored::Stored;
use std::alloc::{AllocError, Global};
use std::marker::Model;

/// A call that is to fail.
#[derive(Clone, Copy, Debug, PartialEq, Eq)]
pub struct Fail {
    /// Its number among all calls of the keeper, from 1.
    pub call: u64,
    /// Where it is an `apply`, whether the batch is kept all the same.
    pub kept: bool,
}

/// The calls of a keeper in memory, some of which are to fail.
#[derive(Drop)]
struct Calls {
    fails: Vec<Fail>,
    made: u64,
    faults: u64,
}

impl Model for Calls {
    ghost Value = { CallsValue };

    ghost view = { λ c. record { fails = c.fails.items; made = c.made; faults = c.faults } };
}

impl Calls {
    /// The calls of a keeper that was called no time yet, of which those that are listed are to fail.
    fn new(fails: Vec<Fail>) -> Calls
        ensures { result ≡ fresh fails.items }
    {
        Calls {
            fails,
            made: 0,
            faults: 0,
        }
    }

    /// Counts a call, and answers how it is listed, if it is to fail.
    fn begin(&mut self) -> Option<Fail>
        ensures listed { result ≡ next_fail self.old }
        ensures calls { self.new ≡ passed self.old }
    {
        self.made = self.made.saturating_add(1);
        let call = self.made;
        self.fails.iter().copied().find(|fail| fail.call == call)
    }

    /// Counts a fault.
    fn fault(&mut self) -> KeeperFault
        ensures value { result ≡ KeeperFault.Failed }
        ensures counted { self.new ≡ record self.old { faults = up self.old.faults } }
        ensures never_falls { self.old.faults ≤ self.new.faults }
    {
        self.faults = self.faults.saturating_add(1);
        KeeperFault::Failed
    }

    fn faults(&self) -> u64
        ensures { result ≡ self.now.faults }
    {
        self.faults
    }
}

/// A keeper in memory, some of whose calls are to fail. It tells what it was made of and the batches that it kept since,
/// in order. The rows that it holds are right, each by itself.
#[derive(Drop)]
pub struct MemoryKeeper {
    made_of: Stored,
    batches: Vec<Batch>,
    calls: Calls,
}

impl Model for MemoryKeeper {
    ghost use Rattle.indexed_rows.specs.Rows.{AreValidRows};
    ghost use Rattle.site_keeper.specs.Keeper.{held_of};
    ghost use Rattle.site_keeper.specs.Memory.{MemoryKeeper as MemoryKeeperValue};

    ghost Value = { MemoryKeeperValue };

    ghost view = { λ k. record { kept = record { made_of = k.made_of; batches = k.batches.items }; calls = k.calls } };

    ghost invariant = { λ k. AreValidRows (held_of (record { made_of = k.made_of; batches = k.batches.items })).rows };
}

impl MemoryKeeper {
    /// A keeper in memory that holds what is given, whose rows are right, each by itself. The listed calls are to fail, counting
    /// all of its calls from 1; the count stays at the greatest u64. Of a number that is listed twice the first counts.
    ///
    /// An `apply` that is to fail and to keep its batch takes memory, as one that isn't, and answers `OutOfMemory`
    /// where that is wanting. The other calls that are to fail take none.
    pub fn new(alloc: Global, stored: Stored, fails: Vec<Fail>) -> MemoryKeeper
        requires { AreValidRows stored.rows }
        ensures { result ≡ record { kept = made_of stored; calls = fresh fails.items } }
    {
        MemoryKeeper {
            made_of: stored,
            batches: Vec::new(alloc),
            calls: Calls::new(fails),
        }
    }

    /// All that it holds. `Err` only where memory is wanting.
    fn held(&self, alloc: Global) -> Result<Stored, AllocError>
        ensures held { IfOk result (λ stored. stored ≡ held_of self.now.kept) }
        ensures right { IfOk result (λ stored. AreValidRows stored.rows) }
    {
        let mut stored = self.made_of.duplicate(alloc)?;
        'batches: for batch in &self.batches {
            stored.keep(batch)?;
        }
        Ok(stored)
    }

    /// The number of the last batch that was kept, or what it was made with.
    fn newest(&self) -> u64
        ensures { result ≡ (held_of self.now.kept).head }
    {
        match self.batches.last() {
            Some(batch) => batch.head,
            None => self.made_of.head,
        }
    }

    /// Keeps a batch. `Err` only where memory is wanting, and then nothing of it is kept.
    fn keep(&mut self, alloc: Global, batch: &Batch) -> Result<(), AllocError>
        requires { AreValidRows (with_batch (held_of self.old.kept) batch.now).rows }
        ensures ok { OnOk result (self.new ≡ record self.old { kept = with_one self.old.kept batch.now }) }
        ensures err { OnErr result (self.new ≡ self.old) }
    {
        let batch = batch.duplicate(alloc)?;
        self.batches.push(batch)?;
        Ok(())
    }
}

impl Keeper for MemoryKeeper {
    ghost kept = { λ k. Some k.kept };

    ghost faults = { λ k. k.calls.faults };

    ghost steadfast = { λ k. is_steadfast k.calls };

    fn load(&mut self, alloc: Global) -> Result<Stored, KeeperFault>
        ensures held { IfOk result (λ stored. stored ≡ held_of self.old.kept) }
        ensures right { IfOk result (λ stored. AreValidRows stored.rows) }
        ensures stays { Some self.new.kept ≡ Some self.old.kept }
        ensures steady { OnOk result (self.new.calls.faults ≡ self.old.calls.faults) }
        ensures cause { IfErr result (λ fault. CountsFault fault self.old.calls.faults self.new.calls.faults) }
        ensures never_falls { self.old.calls.faults ≤ self.new.calls.faults }
        ensures steadfast { StaysSteadfast (is_steadfast self.old.calls) (is_steadfast self.new.calls) self.old.calls.faults self.new.calls.faults }
        ensures exactly_listed { IsErrOf result KeeperFault.Failed ↔ IsSome (next_fail self.old.calls) }
        ensures passed { OnOk result (self.new ≡ record self.old { calls = passed self.old.calls }) }
        ensures refused { IfErr result (λ fault. self.new ≡ record self.old { calls = refused self.old.calls fault }) }
    {
        if self.calls.begin().is_some() {
            return Err(self.calls.fault());
        }
        Ok(self.held(alloc)?)
    }

    fn apply(&mut self, alloc: Global, batch: &Batch) -> Result<(), KeeperFault>
        requires right { AreValidRows (with_batch (held_of self.old.kept) batch.now).rows }
        ensures ok { OnOk result (Some self.new.kept ≡ and_batch (Some self.old.kept) batch.now) }
        ensures err { IfErr result (λ fault. LeavesBatch fault (Some self.old.kept) batch.now (Some self.new.kept)) }
        ensures steady { OnOk result (self.new.calls.faults ≡ self.old.calls.faults) }
        ensures cause { IfErr result (λ fault. CountsFault fault self.old.calls.faults self.new.calls.faults) }
        ensures never_falls { self.old.calls.faults ≤ self.new.calls.faults }
        ensures steadfast { StaysSteadfast (is_steadfast self.old.calls) (is_steadfast self.new.calls) self.old.calls.faults self.new.calls.faults }
        ensures passed { OnOk result ((next_fail self.old.calls ≡ None) × (self.new ≡ applied self.old batch.now None)) }
        ensures refused { IfErr result (λ fault. IsRefusedAs fault self.old batch.now self.new) }
    {
        let listed = self.calls.begin();
        if let Some(fail) = listed
            && !fail.kept
        {
            return Err(self.calls.fault());
        }
        self.keep(alloc, batch)?;
        if listed.is_some() {
            return Err(self.calls.fault());
        }
        Ok(())
    }

    fn head(&mut self, _alloc: Global) -> Result<u64, KeeperFault>
        ensures head { IfOk result (λ number. number ≡ (held_of self.old.kept).head) }
        ensures stays { Some self.new.kept ≡ Some self.old.kept }
        ensures steady { OnOk result (self.new.calls.faults ≡ self.old.calls.faults) }
        ensures cause { IfErr result (λ fault. CountsFault fault self.old.calls.faults self.new.calls.faults) }
        ensures never_falls { self.old.calls.faults ≤ self.new.calls.faults }
        ensures steadfast { StaysSteadfast (is_steadfast self.old.calls) (is_steadfast self.new.calls) self.old.calls.faults self.new.calls.faults }
        ensures exactly_listed { IsErrOf result KeeperFault.Failed ↔ IsSome (next_fail self.old.calls) }
        ensures only { IfErr result (λ fault. fault ≡ KeeperFault.Failed) }
        ensures passed { OnOk result (self.new ≡ record self.old { calls = passed self.old.calls }) }
        ensures refused { IfErr result (λ fault. self.new ≡ record self.old { calls = refused self.old.calls fault }) }
    {
        if self.calls.begin().is_some() {
            return Err(self.calls.fault());
        }
        Ok(self.newest())
    }

    fn faults(&self) -> u64 {
        self.calls.faults()
    }
}
