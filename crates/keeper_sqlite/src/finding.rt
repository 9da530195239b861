//! What is read of a store of two tables.
ghost use Rattle.std.specs.Prelude.{◌≡◌, ◌≢◌, Some, None, map, option_map, IfOk, OnOk, IsErrOf};
ghost use Rattle.content_rows.specs.ValidRow.{IsValidRow};
ghost use Rattle.indexed_rows.specs.Rows.{with_row, AreValidRows};
ghost use Rattle.site_keeper.specs.declared.fault.KeeperFault.TheVariants as keeper_fault;
ghost use Rattle.store_six.specs.At.{at};
ghost use Rattle.keeper_sqlite.specs.Bodies.{with_entry_of, with_tag_of};
ghost use Rattle.keeper_sqlite.specs.Faults.{fault_of};
ghost use Rattle.keeper_sqlite.specs.Found.{with_line, with_rows, with_tag_line, with_tags, AreRows, AreCounts, IsFilled, CannotFill, AreReadAs, AreUnreadable, head_of, HaveHead, Reads};
ghost use Rattle.keeper_sqlite.specs.Numbers.{head_in};

use crate::body::row_of;
use crate::number::{count_in, head_in};
use crate::tag::tag_of;
use content_rows::{Cell, Row};
use content_state::Rows;
use site_keeper::{KeeperFault, Stored};
use std::alloc::{AllocError, Global};
use std::sync::Arc;
use store_six::{Line, Six, StoreFault};
use tag_counts::Counts;

/// What a fault of a store comes to for a keeper.
pub(crate) fn fault_of(fault: StoreFault) -> KeeperFault
    ensures { result ≡ fault_of fault }
{
    match fault {
        StoreFault::Failed => KeeperFault::Failed,
        StoreFault::OutOfMemory => KeeperFault::OutOfMemory,
    }
}

/// All that the tables hold, each row right by itself. `Failed` where a statement was refused, or an entry isn't readable.
pub fn found<X: Six>(alloc: Global, six: &mut X) -> Result<Stored, KeeperFault>
    ensures right { IfOk result (λ stored. AreValidRows stored.rows) }
    ensures reads { Reads (AreReadAs (X.Six.kept six.old)) (AreUnreadable (X.Six.kept six.old)) (at X.Six six.old) (at X.Six six.new) result }
{
    let mut stored = Stored {
        rows: Rows::new(alloc),
        counts: Counts::new(alloc),
        head: 0,
    };
    match find_all(alloc, &mut stored, six) {
        Ok(()) => Ok(stored),
        Err(fault) => {
            drop(stored);
            Err(fault)
        }
    }
}

/// Takes the entries of both tables.
fn find_all<X: Six>(alloc: Global, stored: &mut Stored, six: &mut X) -> Result<(), KeeperFault>
    ensures right { OnOk result (AreValidRows stored.old.rows → AreValidRows stored.new.rows) }
    ensures reads { Reads (λ _. IsFilled (X.Six.kept six.old) stored.old stored.new) (CannotFill (X.Six.kept six.old) stored.old) (at X.Six six.old) (at X.Six six.new) result }
{
    match find_rows(alloc, stored, six) {
        Ok(()) => find_counts(alloc, stored, six),
        Err(fault) => Err(fault),
    }
}

/// Takes the entries of the table of tags into what is held.
fn find_counts<X: Six>(alloc: Global, stored: &mut Stored, six: &mut X) -> Result<(), KeeperFault>
    ensures same { OnOk result ((stored.new.rows ≡ stored.old.rows) × (stored.new.head ≡ stored.old.head)) }
    ensures reads { Reads (λ _. AreCounts (X.Six.kept six.old).tags stored.old.counts (Some stored.new.counts)) (AreCounts (X.Six.kept six.old).tags stored.old.counts None) (at X.Six six.old) (at X.Six six.new) result }
{
    find_tags(alloc, &mut stored.counts, six)
}

/// Takes the entries of the table of cells.
fn find_rows<X: Six>(alloc: Global, stored: &mut Stored, six: &mut X) -> Result<(), KeeperFault>
    ensures right { OnOk result (AreValidRows stored.old.rows → AreValidRows stored.new.rows) }
    ensures reads { Reads (λ _. AreRows (X.Six.kept six.old).cells stored.old (Some stored.new)) (AreRows (X.Six.kept six.old).cells stored.old None) (at X.Six six.old) (at X.Six six.new) result }
{
    match six.all_rows(alloc) {
        Ok(lines) => take_rows(alloc, stored, &lines),
        Err(fault) => Err(fault_of(fault)),
    }
}

/// Takes the entries of the table of tags.
fn find_tags<X: Six>(alloc: Global, counts: &mut Counts, six: &mut X) -> Result<(), KeeperFault>
    ensures { Reads (λ _. AreCounts (X.Six.kept six.old).tags counts.old (Some counts.new)) (AreCounts (X.Six.kept six.old).tags counts.old None) (at X.Six six.old) (at X.Six six.new) result }
{
    match six.all_tags(alloc) {
        Ok(lines) => take_tags(counts, &lines),
        Err(fault) => Err(fault_of(fault)),
    }
}

/// The head that the table of cells holds; 0 where it holds none.
pub fn head<X: Six>(alloc: Global, six: &mut X) -> Result<u64, KeeperFault>
    ensures { Reads (λ head. HaveHead (X.Six.kept six.old) (Some head)) (HaveHead (X.Six.kept six.old) None) (at X.Six six.old) (at X.Six six.new) result }
{
    match six.one_row(alloc, b"head") {
        Ok(bodies) => first_head(alloc, &bodies),
        Err(fault) => Err(fault_of(fault)),
    }
}

/// The head that the first of some bodies is; 0 where there is none.
fn first_head(alloc: Global, bodies: &[Option<Vec<u8>>]) -> Result<u64, KeeperFault>
    ensures told { IfOk result (λ head. head_of (map (option_map (λ body. body.items)) bodies.now) ≡ Some head) }
    ensures fault { IsErrOf result KeeperFault.Failed → head_of (map (option_map (λ body. body.items)) bodies.now) ≡ None }
{
    match bodies {
        [] => Ok(0),
        [Some(body), ..] => head_told(alloc, body),
        [None, ..] => Err(KeeperFault::Failed),
    }
}

/// Takes lines of the table of cells in turn.
fn take_rows(alloc: Global, stored: &mut Stored, lines: &[Option<Line>]) -> Result<(), KeeperFault>
    ensures told { OnOk result (with_rows stored.old lines.now ≡ Some stored.new) }
    ensures right { OnOk result (AreValidRows stored.old.rows → AreValidRows stored.new.rows) }
    ensures fault { IsErrOf result KeeperFault.Failed → with_rows stored.old lines.now ≡ None }
{
    'lines: for line in lines {
        match take_line(alloc, stored, line) {
            Ok(()) => {}
            Err(fault) => return Err(fault),
        }
    }
    Ok(())
}

/// Takes a line of the table of cells.
fn take_line(alloc: Global, stored: &mut Stored, line: &Option<Line>) -> Result<(), KeeperFault>
    ensures told { OnOk result (with_line (Some stored.old) line.now ≡ Some stored.new) }
    ensures right { OnOk result (AreValidRows stored.old.rows → AreValidRows stored.new.rows) }
    ensures fault { IsErrOf result KeeperFault.Failed → with_line (Some stored.old) line.now ≡ None }
{
    match line {
        Some(line) => take_row(alloc, stored, line.key(), line.beside()),
        None => Err(KeeperFault::Failed),
    }
}

/// Takes a row of the table of cells: a row of that cell, or the head.
fn take_row(alloc: Global, stored: &mut Stored, cell: &[u8], body: &[u8]) -> Result<(), KeeperFault>
    ensures told { OnOk result (with_entry_of stored.old cell.now body.now ≡ Some stored.new) }
    ensures right { OnOk result (AreValidRows stored.old.rows → AreValidRows stored.new.rows) }
    ensures fault { IsErrOf result KeeperFault.Failed → with_entry_of stored.old cell.now body.now ≡ None }
{
    if cell == b"head".as_slice() {
        stored.head = head_told(alloc, body)?;
        return Ok(());
    }
    match row_of(alloc, cell, body)? {
        Some((cell, row)) => {
            add_row(alloc, &mut stored.rows, cell, row)?;
            Ok(())
        }
        None => Err(KeeperFault::Failed),
    }
}

/// Sets the row of a cell, which is right for it. `Err` only where memory is wanting.
fn add_row(alloc: Global, rows: &mut Rows, cell: Cell, row: Row) -> Result<(), AllocError>
    requires { IsValidRow cell row }
    ensures set { OnOk result (rows.new ≡ with_row rows.old cell row) }
    ensures right { OnOk result (AreValidRows rows.old → AreValidRows rows.new) }
{
    rows.set(cell, Arc::new(alloc, row)?)?;
    Ok(())
}

/// The head that a body is.
fn head_told(alloc: Global, body: &[u8]) -> Result<u64, KeeperFault>
    ensures told { IfOk result (λ head. head_in body.now ≡ Some head) }
    ensures fault { IsErrOf result KeeperFault.Failed → head_in body.now ≡ None }
{
    match head_in(alloc, body)? {
        Some(head) => Ok(head),
        None => Err(KeeperFault::Failed),
    }
}

/// Takes lines of the table of tags in turn.
fn take_tags(counts: &mut Counts, lines: &[Option<Line>]) -> Result<(), KeeperFault>
    ensures told { OnOk result (with_tags counts.old lines.now ≡ Some counts.new) }
    ensures fault { IsErrOf result KeeperFault.Failed → with_tags counts.old lines.now ≡ None }
{
    'lines: for line in lines {
        match take_tag_line(counts, line) {
            Ok(()) => {}
            Err(fault) => return Err(fault),
        }
    }
    Ok(())
}

/// Takes a line of the table of tags.
fn take_tag_line(counts: &mut Counts, line: &Option<Line>) -> Result<(), KeeperFault>
    ensures told { OnOk result (with_tag_line (Some counts.old) line.now ≡ Some counts.new) }
    ensures fault { IsErrOf result KeeperFault.Failed → with_tag_line (Some counts.old) line.now ≡ None }
{
    match line {
        Some(line) => take_tag(counts, line.key(), line.beside()),
        None => Err(KeeperFault::Failed),
    }
}

/// Takes a row of the table of tags: the count of that tag.
fn take_tag(counts: &mut Counts, tag: &[u8], count: &[u8]) -> Result<(), KeeperFault>
    ensures told { OnOk result (with_tag_of counts.old tag.now count.now ≡ Some counts.new) }
    ensures fault { IsErrOf result KeeperFault.Failed → with_tag_of counts.old tag.now count.now ≡ None }
{
    let Some(tag) = tag_of(tag) else {
        return Err(KeeperFault::Failed);
    };
    let Some(count) = count_in(count) else {
        return Err(KeeperFault::Failed);
    };
    counts.set(&tag, count)?;
    Ok(())
}
