//! Which rows of a database's tables a keeper over it refuses, and which databases are no store.

use crate::batches::held_by;
use keeper_sqlite::{NoKeeper, SqliteKeeper, StoreTable, over};
use site_keeper::{Keeper, KeeperFault};
use sqlite::{Alter, Connection, Error, MemStore};
use std::alloc::Global;

/// The two tables.
const TABLES: &str =
    "CREATE TABLE cell_row(cell TEXT PRIMARY KEY, body TEXT NOT NULL); CREATE TABLE cachetags(tag TEXT PRIMARY KEY, invalidations BLOB NOT NULL)";

/// A store that has these rows too is loaded as that.
const BROKEN: [(&str, Result<u64, KeeperFault>); 18] = [
    ("INSERT INTO cell_row VALUES ('head', '12')", Ok(12)),
    (
        "INSERT INTO cell_row VALUES ('head', '012')",
        Err(KeeperFault::Failed),
    ),
    (
        "INSERT INTO cell_row VALUES ('head', '18446744073709551616')",
        Err(KeeperFault::Failed),
    ),
    (
        "INSERT INTO cell_row VALUES ('head', x'37')",
        Err(KeeperFault::Failed),
    ),
    (
        "INSERT INTO cell_row VALUES ('seq', '{\"cell\":\"seq\",\"node\":2,\"term\":1,\"user\":2}')",
        Ok(0),
    ),
    (
        "INSERT INTO cell_row VALUES ('site', '{\"cell\":\"seq\",\"node\":2,\"term\":1,\"user\":2}')",
        Err(KeeperFault::Failed),
    ),
    (
        "INSERT INTO cell_row VALUES ('seq', '{\"cell\":\"seq\",\"node\":2,\"term\":1}')",
        Err(KeeperFault::Failed),
    ),
    (
        "INSERT INTO cell_row VALUES ('seq', '{')",
        Err(KeeperFault::Failed),
    ),
    (
        "INSERT INTO cell_row VALUES ('term:1', '{\"cell\":\"term:1\",\"description\":\"\",\"name\":\"T\",\"status\":true,\"uuid\":\"t-1\"}')",
        Ok(0),
    ),
    (
        "INSERT INTO cell_row VALUES ('term:1', '{\"cell\":\"term:1\",\"description\":\"\",\"name\":\"T\",\"parent\":null,\"status\":true,\"uuid\":\"t-1\"}')",
        Ok(0),
    ),
    (
        "INSERT INTO cell_row VALUES ('term:1', '{\"cell\":\"term:1\",\"description\":\"\",\"name\":\"T\",\"parent\":0,\"status\":true,\"uuid\":\"t-1\"}')",
        Err(KeeperFault::Failed),
    ),
    (
        "INSERT INTO cell_row VALUES ('comment:1', '{\"body\":\"Yes\",\"cell\":\"comment:1\",\"created\":1,\"node\":1,\"parent\":null,\"status\":true,\"uid\":0,\"uuid\":\"c-1\"}')",
        Ok(0),
    ),
    (
        "INSERT INTO cell_row VALUES ('comment:1', '{\"body\":\"\",\"cell\":\"comment:1\",\"created\":1,\"node\":1,\"parent\":null,\"status\":true,\"uid\":0,\"uuid\":\"c-1\"}')",
        Err(KeeperFault::Failed),
    ),
    (
        "INSERT INTO cell_row VALUES ('talk', '{\"cell\":\"talk\",\"comment\":0}')",
        Err(KeeperFault::Failed),
    ),
    (
        "INSERT INTO cachetags VALUES ('comment_list:7', x'0102030405060708')",
        Ok(0),
    ),
    (
        "INSERT INTO cachetags VALUES ('node:4294967295', x'0102030405060708')",
        Ok(0),
    ),
    (
        "INSERT INTO cachetags VALUES ('node:1', x'01020304050607')",
        Err(KeeperFault::Failed),
    ),
    (
        "INSERT INTO cachetags VALUES ('node:01', x'0102030405060708')",
        Err(KeeperFault::Failed),
    ),
];

/// What holds something else than the two tables of a store, and why no keeper is opened over it.
const OTHERS: [(&str, NoKeeper); 10] = [
    (
        "CREATE TABLE note(id INTEGER PRIMARY KEY)",
        NoKeeper::Refused,
    ),
    (
        "CREATE TABLE cell_row(cell TEXT PRIMARY KEY, body TEXT NOT NULL)",
        NoKeeper::Refused,
    ),
    (
        "CREATE TABLE cachetags(tag TEXT PRIMARY KEY, invalidations BLOB NOT NULL); CREATE TABLE cell_row(cell TEXT PRIMARY KEY, body TEXT NOT NULL)",
        NoKeeper::Refused,
    ),
    (
        "CREATE TABLE cell_row(cell TEXT PRIMARY KEY, body TEXT NOT NULL); CREATE TABLE cachetags(tag TEXT PRIMARY KEY, invalidations BLOB NOT NULL); CREATE TABLE note(id INTEGER PRIMARY KEY)",
        NoKeeper::Refused,
    ),
    (
        "CREATE TABLE cell_row(cell TEXT PRIMARY KEY, body TEXT NOT NULL); CREATE TABLE cachetags(tag TEXT PRIMARY KEY, invalidations BLOB NOT NULL); CREATE INDEX by_body ON cell_row(body)",
        NoKeeper::Refused,
    ),
    (
        "CREATE TABLE cell_row(cell TEXT PRIMARY KEY, body TEXT NOT NULL); CREATE TABLE cachetags(tag TEXT PRIMARY KEY, invalidations BLOB NOT NULL); CREATE VIEW bodies AS SELECT body FROM cell_row",
        NoKeeper::Refused,
    ),
    (
        "CREATE TABLE cell_row(cell TEXT PRIMARY KEY, body TEXT NOT NULL CHECK (body <> '')); CREATE TABLE cachetags(tag TEXT PRIMARY KEY, invalidations BLOB NOT NULL)",
        NoKeeper::Refused,
    ),
    (
        "CREATE TABLE cell_row(cell TEXT PRIMARY KEY, body TEXT); CREATE TABLE cachetags(tag TEXT PRIMARY KEY, invalidations BLOB NOT NULL)",
        NoKeeper::Shape(StoreTable::Cells),
    ),
    (
        "CREATE TABLE cell_row(cell TEXT PRIMARY KEY, body TEXT NOT NULL); CREATE TABLE cachetags(tag TEXT PRIMARY KEY, invalidations INTEGER NOT NULL)",
        NoKeeper::Shape(StoreTable::Tags),
    ),
    (
        "CREATE TABLE CELL_ROW(cell TEXT, body TEXT NOT NULL, more TEXT)",
        NoKeeper::Shape(StoreTable::Cells),
    ),
];

/// A database in memory after these statements.
fn database(alloc: Global, statements: &[&str]) -> Result<Connection<MemStore>, Error> {
    let mut conn = Connection::open_in_memory(alloc)?;
    for statement in statements {
        conn.execute_batch(statement)?;
    }
    Ok(conn)
}

/// The head that a store is loaded with, and how often its keeper has failed then.
fn loaded<S: Alter + Drop>(
    alloc: Global,
    mut keeper: SqliteKeeper<S>,
) -> (Result<u64, KeeperFault>, u64) {
    let head = match held_by(alloc, &mut keeper) {
        Ok(seen) => Ok(seen.head),
        Err(fault) => Err(fault),
    };
    (head, keeper.faults())
}

/// The same of a database in memory with the two tables and a row. None where it isn't opened, or memory is wanting.
fn loaded_with(rt: &HostRuntime, row: &str) -> Option<(Result<u64, KeeperFault>, u64)> {
    let conn = database(rt.alloc(), &[TABLES, row]).ok()?;
    let keeper = over(rt, conn).ok()?;
    Some(loaded(rt.alloc(), keeper))
}

/// Whether a store with this row is loaded as that, and its keeper has failed once where it isn't loaded.
fn is_loaded_as(rt: &HostRuntime, row: &str, want: Result<u64, KeeperFault>) -> bool {
    match loaded_with(rt, row) {
        Some((head, faults)) => head == want && faults == u64::from(want.is_err()),
        None => false,
    }
}

#[test]
fn broken_rows_are_faults(rt: HostRuntime) {
    for (row, want) in &BROKEN {
        assert!(rt; is_loaded_as(&rt, row, *want), "{row}");
    }
}

/// Why no keeper is opened over a database in memory after these statements, if it isn't. None where memory is wanting.
fn refusal(rt: &HostRuntime, statements: &str) -> Option<Option<NoKeeper>> {
    let conn = database(rt.alloc(), &[statements]).ok()?;
    match over(rt, conn) {
        Ok(keeper) => {
            drop(keeper);
            Some(None)
        }
        Err(why) => Some(Some(why)),
    }
}

/// A database that is no store is refused.
#[test]
fn what_is_no_store_is_refused(rt: HostRuntime) {
    assert!(rt; refusal(&rt, TABLES) == Some(None));
    for (statements, why) in &OTHERS {
        assert!(rt;
            refusal(&rt, statements) == Some(Some(*why)),
            "{statements}"
        );
    }
}
