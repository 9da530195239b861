//! The calls of a store on a connection: what a statement is refused for, and the count of faults.
ghost use Rattle.std.specs.Prelude.{◌≡◌, ◌≤◌, map, option_map};
ghost use Rattle.sqlite.specs.Held.{state};
ghost use Rattle.store_six.specs.Calls.{Runs, Reads, Nothing, Begins, Changes, Commits, CountsFault};
ghost use Rattle.store_six.specs.Tables.{IsSet, IsRemoved, AreAll, AreBeside, OnCells, OnTags};
ghost use Rattle.table_laws.specs.Moments.{told, ServesClean, Drops};
ghost use Rattle.table_laws.specs.Stored.{tables_of};

use crate::lines::{bodies, row_lines, tag_lines};
use crate::statements;
use sqlite::{Alter, Connection, Error, ErrorCode};
use std::alloc::Global;
use store_six::{Line, StoreFault};

/// What an error comes to: want of memory, or a fault, which is counted.
fn counted(faults: &mut u64, error: Error) -> StoreFault
    ensures cause { CountsFault result faults.old faults.new }
    ensures counts { faults.old ≤ faults.new }
{
    match error {
        Error::SqliteFailure(ErrorCode::OutOfMemory) => StoreFault::OutOfMemory,
        _ => {
            *faults = faults.saturating_add(1);
            StoreFault::Failed
        }
    }
}

/// Begins a transaction.
#[tactic(none)]
pub(crate) fn begin<S: Alter>(conn: &mut Connection<S>, faults: &mut u64) -> Result<(), StoreFault>
    requires { ServesClean (state S.Store conn.old) }
    ensures serves { ServesClean (state S.Store conn.new) }
    ensures runs { Runs Nothing Begins (told faults.old (state S.Store conn.old)) (told faults.new (state S.Store conn.new)) result }
{
    match statements::begin(conn) {
        Ok(_) => Ok(()),
        Err(error) => Err(counted(faults, error)),
    }
}

/// Sets the body of a cell.
#[tactic(none)]
pub(crate) fn set_row<S: Alter>(
    conn: &mut Connection<S>,
    faults: &mut u64,
    cell: &[u8],
    body: &[u8],
) -> Result<(), StoreFault>
    requires { ServesClean (state S.Store conn.old) }
    ensures serves { ServesClean (state S.Store conn.new) }
    ensures runs { Runs Nothing (Changes (OnCells (IsSet cell.now body.now))) (told faults.old (state S.Store conn.old)) (told faults.new (state S.Store conn.new)) result }
{
    if conn.is_autocommit() {
        return Err(counted(faults, Error::InvalidQuery));
    }
    match statements::set_row(conn, cell, body) {
        Ok(_) => Ok(()),
        Err(error) => Err(counted(faults, error)),
    }
}

/// Removes the row of a cell.
#[tactic(none)]
pub(crate) fn remove_row<S: Alter>(
    conn: &mut Connection<S>,
    faults: &mut u64,
    cell: &[u8],
) -> Result<(), StoreFault>
    requires { ServesClean (state S.Store conn.old) }
    ensures serves { ServesClean (state S.Store conn.new) }
    ensures runs { Runs Nothing (Changes (OnCells (IsRemoved cell.now))) (told faults.old (state S.Store conn.old)) (told faults.new (state S.Store conn.new)) result }
{
    if conn.is_autocommit() {
        return Err(counted(faults, Error::InvalidQuery));
    }
    match statements::remove_row(conn, cell) {
        Ok(_) => Ok(()),
        Err(error) => Err(counted(faults, error)),
    }
}

/// Sets the count of a tag.
#[tactic(none)]
pub(crate) fn set_tag<S: Alter>(
    conn: &mut Connection<S>,
    faults: &mut u64,
    tag: &[u8],
    count: &[u8],
) -> Result<(), StoreFault>
    requires { ServesClean (state S.Store conn.old) }
    ensures serves { ServesClean (state S.Store conn.new) }
    ensures runs { Runs Nothing (Changes (OnTags (IsSet tag.now count.now))) (told faults.old (state S.Store conn.old)) (told faults.new (state S.Store conn.new)) result }
{
    if conn.is_autocommit() {
        return Err(counted(faults, Error::InvalidQuery));
    }
    match statements::set_tag(conn, tag, count) {
        Ok(_) => Ok(()),
        Err(error) => Err(counted(faults, error)),
    }
}

/// Commits the transaction.
#[tactic(none)]
pub(crate) fn commit<S: Alter>(conn: &mut Connection<S>, faults: &mut u64) -> Result<(), StoreFault>
    requires { ServesClean (state S.Store conn.old) }
    ensures serves { ServesClean (state S.Store conn.new) }
    ensures runs { Runs (λ t. t ≡ tables_of (state S.Store conn.old).now.trees) Commits (told faults.old (state S.Store conn.old)) (told faults.new (state S.Store conn.new)) result }
{
    if conn.is_autocommit() {
        return Err(counted(faults, Error::InvalidQuery));
    }
    match statements::commit(conn) {
        Ok(_) => Ok(()),
        Err(error) => Err(counted(faults, error)),
    }
}

/// Rolls the transaction back, if one is open.
#[tactic(none)]
pub(crate) fn rollback<S: Alter>(conn: &mut Connection<S>)
    requires { ServesClean (state S.Store conn.old) }
    ensures { Drops (state S.Store conn.old) (state S.Store conn.new) }
{
    if !conn.is_autocommit() {
        statements::rollback(conn);
    }
}

/// All rows, by cell.
#[tactic(none)]
pub(crate) fn all_rows<S: Alter>(
    conn: &mut Connection<S>,
    faults: &mut u64,
    alloc: Global,
) -> Result<Vec<Option<Line>>, StoreFault>
    requires { ServesClean (state S.Store conn.old) }
    ensures serves { ServesClean (state S.Store conn.new) }
    ensures reads { Reads (λ lines. AreAll (tables_of (state S.Store conn.old).committed.trees).cells lines.items) (told faults.old (state S.Store conn.old)) (told faults.new (state S.Store conn.new)) result }
{
    if !conn.is_autocommit() {
        return Err(counted(faults, Error::InvalidQuery));
    }
    match statements::all_rows(conn) {
        Ok(rows) => match row_lines(alloc, rows.as_slice()) {
            Ok(lines) => Ok(lines),
            Err(_) => Err(StoreFault::OutOfMemory),
        },
        Err(error) => Err(counted(faults, error)),
    }
}

/// All tags, by tag.
#[tactic(none)]
pub(crate) fn all_tags<S: Alter>(
    conn: &mut Connection<S>,
    faults: &mut u64,
    alloc: Global,
) -> Result<Vec<Option<Line>>, StoreFault>
    requires { ServesClean (state S.Store conn.old) }
    ensures serves { ServesClean (state S.Store conn.new) }
    ensures reads { Reads (λ lines. AreAll (tables_of (state S.Store conn.old).committed.trees).tags lines.items) (told faults.old (state S.Store conn.old)) (told faults.new (state S.Store conn.new)) result }
{
    if !conn.is_autocommit() {
        return Err(counted(faults, Error::InvalidQuery));
    }
    match statements::all_tags(conn) {
        Ok(rows) => match tag_lines(alloc, rows.as_slice()) {
            Ok(lines) => Ok(lines),
            Err(_) => Err(StoreFault::OutOfMemory),
        },
        Err(error) => Err(counted(faults, error)),
    }
}

/// The body of a cell.
#[tactic(none)]
pub(crate) fn one_row<S: Alter>(
    conn: &mut Connection<S>,
    faults: &mut u64,
    alloc: Global,
    cell: &[u8],
) -> Result<Vec<Option<Vec<u8>>>, StoreFault>
    requires { ServesClean (state S.Store conn.old) }
    ensures serves { ServesClean (state S.Store conn.new) }
    ensures reads { Reads (λ found. AreBeside cell.now (tables_of (state S.Store conn.old).committed.trees).cells (map (option_map (λ body. body.items)) found.items)) (told faults.old (state S.Store conn.old)) (told faults.new (state S.Store conn.new)) result }
{
    if !conn.is_autocommit() {
        return Err(counted(faults, Error::InvalidQuery));
    }
    match statements::one_row(conn, cell) {
        Ok(rows) => match bodies(alloc, rows.as_slice()) {
            Ok(lines) => Ok(lines),
            Err(_) => Err(StoreFault::OutOfMemory),
        },
        Err(error) => Err(counted(faults, error)),
    }
}
