//! A keeper in a database that tells what it holds.
ghost use Rattle.std.specs.Prelude.{◌≡◌, ◌≤◌, Some, false, IfOk, IfErr, IfSome, OnOk};
ghost use Rattle.indexed_rows.specs.Rows.{AreValidRows};
ghost use Rattle.site_keeper.specs.Keeper.{held_of, with_batch, CountsFault, LeavesBatch, StaysSteadfast};
ghost use Rattle.site_keeper.specs.Memory.{made_of, with_one};
ghost use Rattle.sqlite.specs.Held.{state};
ghost use Rattle.table_places.specs.Telling.{BeganOver, HoldsIfClean};

use keeper_sqlite::{NoKeeper, SqliteKeeper, over};
use site_keeper::{Batch, Keeper, KeeperFault, MemoryKeeper, Stored};
use sqlite::{Alter, Connection};
use std::alloc::{AllocError, Global};
use std::marker::Model;

/// A keeper in a database that tells what it holds. It reads the site once, as it is made, and from then on it knows what it
/// has kept. Contracts see the database, what it tells, and how often it has failed.
#[derive(Drop)]
pub struct TellingKeeper<S: Alter + Drop> {
    keeper: SqliteKeeper<S>,
    made_of: Stored,
    batches: Vec<Batch>,
    held: Stored,
    faults: u64,
}

impl<S: Alter + Drop> Model for TellingKeeper<S> {
    ghost use Rattle.sqlite.specs.Held.{Held, held_code, state};
    ghost use Rattle.table_places.specs.Telling.{Telling, telling_code, IsTelling};

    ghost Value = { Telling (Held S) };

    ghost coded = { telling_code (held_code S.code) };

    ghost view = { λ k. record { conn = k.keeper.0.0; kept = record { made_of = k.made_of; batches = k.batches.items }; faults = k.faults } };

    ghost invariant = { λ k. IsTelling (state S.Store k.keeper.0.0) (record { made_of = k.made_of; batches = k.batches.items }) k.held };
}

/// What is held once a batch is kept; none where memory is wanting.
fn held_with(alloc: Global, held: &Stored, batch: &Batch) -> Option<Stored>
    requires rows { AreValidRows held.now.rows }
    requires right { AreValidRows (with_batch held.now batch.now).rows }
    ensures { IfSome result (λ after. after ≡ with_batch held.now batch.now) }
{
    let Ok(copy) = held.duplicate(alloc) else {
        return None;
    };
    let mut keeper = MemoryKeeper::new(alloc, copy, Vec::new(alloc));
    match keeper.apply(alloc, batch) {
        Ok(()) => keeper.load(alloc).ok(),
        Err(_) => None,
    }
}

/// A keeper over a database that holds the two tables of a store, or nothing, where they are made. It tells the site that the
/// tables stand for, and that it has kept nothing since. It has not failed.
///
/// It is refused as `keeper_sqlite` refuses a database; and it is `Refused` where the tables can't be read, or stand for no site.
pub fn telling<S: Alter + Drop>(
    rt: &HostRuntime,
    conn: Connection<S>,
) -> Result<TellingKeeper<S>, NoKeeper>
    ensures new { IfOk result (λ keeper. keeper.kept ≡ made_of keeper.kept.made_of) }
    ensures unused { IfOk result (λ keeper. keeper.faults ≡ 0) }
    ensures began { IfOk result (λ keeper. BeganOver (state S.Store conn) (state S.Store keeper.conn) keeper.kept.made_of) }
{
    let mut keeper = over(rt, conn)?;
    let held = match keeper.load(rt.alloc()) {
        Ok(held) => held,
        Err(KeeperFault::Failed) => return Err(NoKeeper::Refused),
        Err(KeeperFault::OutOfMemory) => return Err(NoKeeper::OutOfMemory),
    };
    let Ok(made_of) = held.duplicate(rt.alloc()) else {
        return Err(NoKeeper::OutOfMemory);
    };
    Ok(TellingKeeper {
        keeper,
        made_of,
        batches: Vec::new(rt.alloc()),
        held,
        faults: 0,
    })
}

impl<S: Alter + Drop> TellingKeeper<S> {
    /// All that it holds. `Err` only where memory is wanting.
    pub fn held(&self, alloc: Global) -> Result<Stored, AllocError>
        ensures held { IfOk result (λ stored. stored ≡ held_of self.now.kept) }
        ensures right { IfOk result (λ stored. AreValidRows stored.rows) }
    {
        self.held.duplicate(alloc)
    }

    /// The database stands for what the keeper holds.
    pub fn stands(&self)
        ensures { HoldsIfClean (state S.Store self.now.conn) (held_of self.now.kept) }
    {
        let _stands = &self.keeper;
    }

    /// Hands out the database, which stands for what the keeper holds.
    pub fn into_connection(self) -> Connection<S>
        ensures same { result ≡ self.conn }
        ensures holds { HoldsIfClean (state S.Store result) (held_of self.kept) }
    {
        self.keeper.into_connection()
    }

    /// Counts a fault; want of memory is none.
    fn counted(&mut self, fault: KeeperFault) -> KeeperFault
        ensures same { result ≡ fault }
        ensures counted { CountsFault fault self.old.faults self.new.faults }
        ensures never_falls { self.old.faults ≤ self.new.faults }
        ensures only { self.new ≡ record self.old { faults = self.new.faults } }
    {
        if fault == KeeperFault::Failed {
            self.faults = self.faults.saturating_add(1);
        }
        fault
    }
}

impl<S: Alter + Drop> Keeper for TellingKeeper<S> {
    ghost kept = { λ k. Some k.kept };

    ghost faults = { λ k. k.faults };

    ghost steadfast = { λ k. false };

    fn load(&mut self, alloc: Global) -> Result<Stored, KeeperFault> {
        Ok(self.held(alloc)?)
    }

    fn apply(&mut self, alloc: Global, batch: &Batch) -> Result<(), KeeperFault> {
        let copy = batch.duplicate(alloc)?;
        let Some(held) = held_with(alloc, &self.held, batch) else {
            return Err(KeeperFault::OutOfMemory);
        };
        self.batches.reserve(1)?;
        match self.keeper.apply(alloc, batch) {
            Ok(()) => {
                self.batches.push_reserved(copy);
                self.held = held;
                Ok(())
            }
            Err(fault) => Err(self.counted(fault)),
        }
    }

    fn head(&mut self, alloc: Global) -> Result<u64, KeeperFault> {
        let fault = match self.keeper.head(alloc) {
            Ok(head) if head == self.held.head => return Ok(head),
            Ok(_) => KeeperFault::Failed,
            Err(fault) => fault,
        };
        Err(self.counted(fault))
    }

    fn faults(&self) -> u64 {
        self.faults
    }
}
