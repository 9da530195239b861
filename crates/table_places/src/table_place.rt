//! A place whose store lies in a database.
ghost use Rattle.std.specs.Prelude.{◌≡◌, None, Some, IfErr, IfOk, IfSome, IsSome, OnErr, OnOk};
ghost use Rattle.std.specs.String.{string_bytes};
ghost use Rattle.sqlite.specs.Held.{state};
ghost use Rattle.table_places.specs.Tabled.{table_view, CountsDevice, IsListed, ReturnedHolds};
ghost use Rattle.table_places.specs.Telling.{BeganOver};

use crate::keeper::{TellingKeeper, telling};
use keeper_sqlite::NoKeeper;
use site_keeper::{Keeper, Stored};
use site_places::{NoDevice, Place};
use sqlite::{Alter, Connection};
use std::marker::Model;

/// A place whose store lies in a database, over another place for all else. It tells what the database stood for when it was
/// handed in, and has no other store. The store is opened once.
#[derive(Drop)]
pub struct TablePlace<P: Place + Drop, S: Alter + Drop> {
    place: P,
    path: String,
    listed: Stored,
    store: Option<TellingKeeper<S>>,
    returned: Option<TellingKeeper<S>>,
    faults: u64,
    keeper_faults: u64,
}

impl<P: Place + Drop, S: Alter + Drop> Model for TablePlace<P, S> {
    ghost use Rattle.std.specs.Prelude.{IfSome};
    ghost use Rattle.std.specs.String.{string_bytes};
    ghost use Rattle.sqlite.specs.Held.{Held, held_code};
    ghost use Rattle.table_places.specs.Tabled.{Tabled, tabled_code, IsListed};

    ghost Value = { Tabled P (Held S) };

    ghost coded = { tabled_code P.code (held_code S.code) };

    ghost view = { λ t. record { place = t.place; path = string_bytes t.path; listed = t.listed; store = t.store; returned = t.returned; faults = t.faults; keeper_faults = t.keeper_faults } };

    ghost invariant = { λ t. IfSome t.store (IsListed t.listed) };
}

impl<P: Place + Drop, S: Alter + Drop> TablePlace<P, S> {
    /// The place over another one, whose store of that path lies in this database. The two tables are made where the database
    /// holds nothing. Nothing has failed yet.
    ///
    /// The database is refused as `telling` refuses one.
    pub fn new(
        rt: &HostRuntime,
        place: P,
        path: String,
        conn: Connection<S>,
    ) -> Result<TablePlace<P, S>, NoKeeper>
        ensures place { IfOk result (λ t. (t.place ≡ place) × (t.path ≡ string_bytes path)) }
        ensures unused { IfOk result (λ t. (t.returned ≡ None) × (t.faults ≡ 0) × (t.keeper_faults ≡ 0)) }
        ensures began { IfOk result (λ t. IfSome t.store (λ k. IsListed t.listed k × BeganOver (state S.Store conn) (state S.Store k.conn) t.listed)) }
        ensures opened { IfOk result (λ t. IsSome t.store) }
    {
        let keeper = telling(rt, conn)?;
        let Ok(listed) = keeper.held(rt.alloc()) else {
            return Err(NoKeeper::OutOfMemory);
        };
        Ok(TablePlace {
            place,
            path,
            listed,
            store: Some(keeper),
            returned: None,
            faults: 0,
            keeper_faults: 0,
        })
    }

    /// The database of the keeper that was given back stands for what that tells.
    pub fn stands(&self)
        ensures { ReturnedHolds S.Store self.now }
    {
        if let Some(keeper) = &self.returned {
            keeper.stands();
        }
    }

    /// The keeper that was given back last, if one was.
    pub fn into_returned(self) -> Option<TellingKeeper<S>>
        ensures { result ≡ self.returned }
    {
        self.returned
    }
}

/// Counts a fault of the place; want of memory is none.
fn counted(faults: &mut u64, why: NoDevice) -> NoDevice
    ensures same { result ≡ why }
    ensures counted { CountsDevice why faults.old faults.new }
{
    if why == NoDevice::Failed {
        *faults = faults.saturating_add(1);
    }
    why
}

/// Opens the store of a path, where it is that which is asked for and wasn't opened before.
fn opened<S: Alter + Drop>(
    here: &str,
    store: &mut Option<TellingKeeper<S>>,
    faults: &mut u64,
    path: &str,
) -> Result<TellingKeeper<S>, NoDevice>
    ensures there { IfOk result (λ keeper. (path.now ≡ here.now) × (store.old ≡ Some keeper)) }
    ensures taken { OnOk result (store.new ≡ None) }
    ensures quiet { OnOk result (faults.new ≡ faults.old) }
    ensures cause { IfErr result (λ why. CountsDevice why faults.old faults.new) }
    ensures stays { OnErr result (store.new ≡ store.old) }
{
    if path != here {
        return Err(counted(faults, NoDevice::Failed));
    }
    match store.take() {
        Some(keeper) => Ok(keeper),
        None => Err(counted(faults, NoDevice::Failed)),
    }
}

impl<P: Place + Drop, S: Alter + Drop + Send> Place for TablePlace<P, S> {
    type In = P::In;

    type Out = P::Out;

    type Rows = P::Rows;

    type Keeper = TellingKeeper<S>;

    type Door = P::Door;

    type Clock = P::Clock;

    type Entropy = P::Entropy;

    type Gate = P::Gate;

    ghost sees = { λ t. table_view (P.sees t.place) t };

    fn rows(&mut self, path: &str) -> Result<P::Rows, NoDevice> {
        match self.place.rows(path) {
            Ok(rows) => Ok(rows),
            Err(why) => Err(counted(&mut self.faults, why)),
        }
    }

    fn rows_back(&mut self, rows: P::Rows) {
        self.place.rows_back(rows);
    }

    fn keeper(&mut self, path: &str) -> Result<TellingKeeper<S>, NoDevice> {
        opened(self.path.as_str(), &mut self.store, &mut self.faults, path)
    }

    fn keeper_or_new(&mut self, path: &str) -> Result<TellingKeeper<S>, NoDevice> {
        opened(self.path.as_str(), &mut self.store, &mut self.faults, path)
    }

    fn keeper_back(&mut self, keeper: TellingKeeper<S>) {
        if keeper.faults() > 0 {
            self.keeper_faults = self.keeper_faults.saturating_add(1);
        }
        self.returned = Some(keeper);
    }

    fn door(&mut self, address: &str) -> Result<P::Door, NoDevice> {
        match self.place.door(address) {
            Ok(door) => Ok(door),
            Err(why) => Err(counted(&mut self.faults, why)),
        }
    }

    fn door_back(&mut self, door: P::Door) {
        self.place.door_back(door);
    }

    fn faults(&self) -> u64 {
        self.faults
    }

    fn rows_faults(&self) -> u64 {
        self.place.rows_faults()
    }

    fn keeper_faults(&self) -> u64 {
        self.keeper_faults
    }

    fn door_faults(&self) -> u64 {
        self.place.door_faults()
    }

    fn clock(&mut self) -> P::Clock {
        self.place.clock()
    }

    fn entropy(&mut self) -> P::Entropy {
        self.place.entropy()
    }

    fn gate(&mut self) -> P::Gate {
        self.place.gate()
    }
}
