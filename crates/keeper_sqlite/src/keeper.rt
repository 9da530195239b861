//! A keeper over a database.
ghost use Rattle.std.specs.Prelude.{◌≡◌, ◌≤◌, None, IfOk, IfErr, IsErrOf, OnOk, OnErr, false};
ghost use Rattle.indexed_rows.specs.Rows.{AreValidRows};
ghost use Rattle.keeper_sqlite.specs.Telling.{Loads, TellsHead, Applies, BeginsOver, untold};
ghost use Rattle.site_keeper.specs.Keeper.{IfTold, CountsFault, LeavesBatch, StaysSteadfast, and_batch};
ghost use Rattle.sqlite.specs.Held.{state};
ghost use Rattle.table_laws.specs.Moments.{IsOver, told};
ghost use Rattle.tables_sqlite.specs.Faults.{IfShape};
ghost use Rattle.tables_sqlite.specs.Refusals.{IsNotToBe};

use crate::site::{apply_batch, load_site, number_of_site};
use site_keeper::{Batch, Keeper, KeeperFault, Stored};
use sqlite::{Alter, Connection, File, FileStore};
use std::alloc::Global;
use std::fs;
use std::io::ErrorKind;
use std::marker::Model;
use tables_sqlite::{NoKeeper, SqliteSix};

/// A keeper over a database, in the table `cell_row` of cells with their bodies and the table `cachetags` of tags with
/// their counts. Contracts see the store of these tables, and how often the keeper has failed.
#[derive(Drop)]
pub struct SqliteKeeper<S: Alter + Drop> {
    six: SqliteSix<S>,
    faults: u64,
}

/// A keeper over a file.
pub type FileKeeper = SqliteKeeper<FileStore<File>>;

impl<S: Alter + Drop> Model for SqliteKeeper<S> {
    ghost use Rattle.std.specs.Coded.{coded×, coded_ℕ};
    ghost use Rattle.std.specs.Prelude.{ℕ};
    ghost use Rattle.sqlite.specs.Held.{Held, held_code};

    ghost Value = { (Held S × ℕ) × ℕ };

    ghost coded = { coded× (coded× (held_code S.code) coded_ℕ) coded_ℕ };

    ghost view = { λ k. (k.six, k.faults) };
}

impl<S: Alter + Drop> SqliteKeeper<S> {
    /// Hands out the database, which holds what was kept.
    pub fn into_connection(self) -> Connection<S>
        ensures { result ≡ self.0.0 }
    {
        self.six.into_connection()
    }

    /// Counts a fault; want of memory is none.
    fn counted(&mut self, fault: KeeperFault) -> KeeperFault
        ensures same { result ≡ fault }
        ensures counted { CountsFault fault self.old.1 self.new.1 }
        ensures never_falls { self.old.1 ≤ self.new.1 }
        ensures only { self.new.0 ≡ self.old.0 }
    {
        if fault == KeeperFault::Failed {
            self.faults = self.faults.saturating_add(1);
        }
        fault
    }
}

/// A keeper over a database that holds the two tables of a store, or nothing, where they are made. What they hold stays, and
/// new ones stand for a site of which nothing is held (`begins`). It has not failed. It is refused as `tables_sqlite::over`
/// refuses a store, for the same causes (`shape`, `refused`).
pub fn over<S: Alter + Drop>(
    _rt: &HostRuntime,
    conn: Connection<S>,
) -> Result<SqliteKeeper<S>, NoKeeper>
    ensures over { IfOk result (λ keeper. (keeper.1 ≡ 0) × (keeper.0.1 ≡ 0) × IsOver (state S.Store conn) (state S.Store keeper.0.0)) }
    ensures begins { IfOk result (λ keeper. BeginsOver (state S.Store conn) (told keeper.0.1 (state S.Store keeper.0.0))) }
    ensures shape { IfErr result (λ e. IfShape e (state S.Store conn).now.schema) }
    ensures refused { IsErrOf result NoKeeper.Refused → IsNotToBe S.Store conn }
{
    let six = tables_sqlite::over(conn)?;
    Ok(SqliteKeeper { six, faults: 0 })
}

/// A keeper over the store in the file at a path. It has not failed. No clause says what is found in a file, or why one is refused:
/// the contracts of opening it don't.
///
/// The code answers `Refused` where no file is there or the file was refused, and `tables_sqlite::over_tables` tests what else it
/// holds. No file is made; SQLite writes its header into an empty one before that is refused.
pub fn open_keeper(rt: &HostRuntime, path: &str) -> Result<FileKeeper, NoKeeper>
    ensures { IfOk result (λ keeper. keeper.1 ≡ 0) }
{
    if !stands(rt, path)? {
        return Err(NoKeeper::Refused);
    }
    let six = tables_sqlite::over_tables(opened(rt, path)?)?;
    Ok(SqliteKeeper { six, faults: 0 })
}

/// A keeper over the store in the file at a path, or over a new one where neither the file nor its log is there. It has not
/// failed. As for `open_keeper`, no clause says more.
///
/// A file whose log was taken away holds no store, and is refused: only a path at which nothing stands is that of a new one.
pub fn open_or_make_keeper(rt: &HostRuntime, path: &str) -> Result<FileKeeper, NoKeeper>
    ensures { IfOk result (λ keeper. keeper.1 ≡ 0) }
{
    let Ok(log) = format!(in rt.alloc(); "{path}-wal") else {
        return Err(NoKeeper::OutOfMemory);
    };
    if stands(rt, path)? || stands(rt, log.as_str())? {
        return open_keeper(rt, path);
    }
    over(rt, opened(rt, path)?)
}

/// The database in the file at a path, which is made where it is not there.
fn opened(rt: &HostRuntime, path: &str) -> Result<Connection<FileStore<File>>, NoKeeper> {
    match Connection::open(rt, path) {
        Ok(conn) => Ok(conn),
        Err(error) => Err(NoKeeper::from(error)),
    }
}

/// Whether something stands at a path. What can't be looked at is refused.
fn stands(rt: &HostRuntime, path: &str) -> Result<bool, NoKeeper> {
    match fs::exists(rt, path) {
        Ok(there) => Ok(there),
        Err(error) if error.kind() == ErrorKind::OutOfMemory => Err(NoKeeper::OutOfMemory),
        Err(_) => Err(NoKeeper::Refused),
    }
}

impl<S: Alter + Drop> Keeper for SqliteKeeper<S> {
    ghost kept = { λ k. None };

    ghost faults = { λ k. k.1 };

    ghost steadfast = { λ k. false };

    fn load(&mut self, alloc: Global) -> Result<Stored, KeeperFault>
        ensures held { IfOk result (λ stored. IfTold untold (λ held. stored ≡ held)) }
        ensures right { IfOk result (λ stored. AreValidRows stored.rows) }
        ensures stays { untold ≡ untold }
        ensures steady { OnOk result (self.new.1 ≡ self.old.1) }
        ensures cause { IfErr result (λ fault. CountsFault fault self.old.1 self.new.1) }
        ensures never_falls { self.old.1 ≤ self.new.1 }
        ensures steadfast { StaysSteadfast false false self.old.1 self.new.1 }
        ensures loads { Loads (told self.old.0.1 (state S.Store self.old.0.0)) (told self.new.0.1 (state S.Store self.new.0.0)) result }
    {
        match load_site(alloc, &mut self.six) {
            Ok(stored) => Ok(stored),
            Err(fault) => Err(self.counted(fault)),
        }
    }

    fn apply(&mut self, alloc: Global, batch: &Batch) -> Result<(), KeeperFault>
        ensures ok { OnOk result (untold ≡ and_batch untold batch.now) }
        ensures err { IfErr result (λ fault. LeavesBatch fault untold batch.now untold) }
        ensures steady { OnOk result (self.new.1 ≡ self.old.1) }
        ensures cause { IfErr result (λ fault. CountsFault fault self.old.1 self.new.1) }
        ensures never_falls { self.old.1 ≤ self.new.1 }
        ensures steadfast { StaysSteadfast false false self.old.1 self.new.1 }
        ensures applies { Applies batch.now (told self.old.0.1 (state S.Store self.old.0.0)) (told self.new.0.1 (state S.Store self.new.0.0)) result }
    {
        match apply_batch(alloc, &mut self.six, batch) {
            Ok(()) => Ok(()),
            Err(fault) => Err(self.counted(fault)),
        }
    }

    fn head(&mut self, alloc: Global) -> Result<u64, KeeperFault>
        ensures head { IfOk result (λ number. IfTold untold (λ held. number ≡ held.head)) }
        ensures stays { untold ≡ untold }
        ensures steady { OnOk result (self.new.1 ≡ self.old.1) }
        ensures cause { IfErr result (λ fault. CountsFault fault self.old.1 self.new.1) }
        ensures never_falls { self.old.1 ≤ self.new.1 }
        ensures steadfast { StaysSteadfast false false self.old.1 self.new.1 }
        ensures tells_head { TellsHead (told self.old.0.1 (state S.Store self.old.0.0)) (told self.new.0.1 (state S.Store self.new.0.0)) result }
    {
        match number_of_site(alloc, &mut self.six) {
            Ok(head) => Ok(head),
            Err(fault) => Err(self.counted(fault)),
        }
    }

    fn faults(&self) -> u64 {
        self.faults
    }
}
