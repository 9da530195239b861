//! The store of two tables over a connection.
ghost use Rattle.std.specs.Prelude.{◌≡◌, ◌≤◌, IfOk, true};
ghost use Rattle.std.proofs.Common.{ap, ◌∙◌};
ghost use Rattle.sqlite.specs.State.{HasCleanDisk};
ghost use Rattle.sqlite.specs.Held.{state};
ghost use Rattle.table_laws.specs.Moments.{may_leave, ServesClean};
ghost use Rattle.table_laws.specs.Stored.{tables_of};

use crate::calls;
use sqlite::{Alter, Connection};
use std::alloc::Global;
use std::marker::Model;
use store_six::{Line, Six, StoreFault};

/// A connection to a database of the two tables and nothing else, and how often a statement was refused.
#[derive(Drop)]
pub struct SqliteSix<S: Alter + Drop> {
    conn: Connection<S>,
    faults: u64,
}

impl<S: Alter + Drop> Model for SqliteSix<S> {
    ghost use Rattle.std.specs.Coded.{coded×, coded_ℕ};
    ghost use Rattle.std.specs.Prelude.{ℕ};
    ghost use Rattle.sqlite.specs.Held.{Held, held_code, state};
    ghost use Rattle.table_laws.specs.Moments.{ServesClean};

    ghost Value = { Held S × ℕ };

    ghost coded = { coded× (held_code S.code) coded_ℕ };

    ghost view = { λ s. (s.conn, s.faults) };

    ghost invariant = { λ s. ServesClean (state S.Store s.conn) };
}

impl<S: Alter + Drop> SqliteSix<S> {
    /// Over a connection that serves as a store. No fault is counted yet.
    pub(crate) fn new(conn: Connection<S>) -> SqliteSix<S>
        requires { ServesClean (state S.Store conn) }
        ensures { result ≡ (conn, 0) }
    {
        SqliteSix { conn, faults: 0 }
    }

    /// Hands out the connection, to a database that holds what was kept.
    pub fn into_connection(self) -> Connection<S>
        ensures { result ≡ self.0 }
    {
        self.conn
    }
}

#[tactic(none)]
impl<S: Alter + Drop> Six for SqliteSix<S> {
    ghost clean = { λ s. HasCleanDisk (state S.Store s.0) };

    ghost is_open = { λ s. (state S.Store s.0).is_open ≡ true };

    ghost inside = { λ s. s.0.in_transaction };

    ghost kept = { λ s. tables_of (state S.Store s.0).committed.trees };

    ghost seen = { λ s. tables_of (state S.Store s.0).now.trees };

    ghost leaves = { λ s t. may_leave (state S.Store s.0) t };

    ghost faults = { λ s. s.1 };

    ghost settled = { λ s t clean is_open left. left.2 ∙ ap tables_of (S.Store.settled s.0.store left.0 is_open left.1) };

    fn begin(&mut self) -> Result<(), StoreFault> {
        calls::begin(&mut self.conn, &mut self.faults)
    }

    fn set_row(&mut self, cell: &[u8], body: &[u8]) -> Result<(), StoreFault> {
        calls::set_row(&mut self.conn, &mut self.faults, cell, body)
    }

    fn remove_row(&mut self, cell: &[u8]) -> Result<(), StoreFault> {
        calls::remove_row(&mut self.conn, &mut self.faults, cell)
    }

    fn set_tag(&mut self, tag: &[u8], count: &[u8]) -> Result<(), StoreFault> {
        calls::set_tag(&mut self.conn, &mut self.faults, tag, count)
    }

    fn commit(&mut self) -> Result<(), StoreFault> {
        calls::commit(&mut self.conn, &mut self.faults)
    }

    fn rollback(&mut self) {
        calls::rollback(&mut self.conn);
    }

    fn all_rows(&mut self, alloc: Global) -> Result<Vec<Option<Line>>, StoreFault> {
        calls::all_rows(&mut self.conn, &mut self.faults, alloc)
    }

    fn all_tags(&mut self, alloc: Global) -> Result<Vec<Option<Line>>, StoreFault> {
        calls::all_tags(&mut self.conn, &mut self.faults, alloc)
    }

    fn one_row(&mut self, alloc: Global, cell: &[u8]) -> Result<Vec<Option<Vec<u8>>>, StoreFault> {
        calls::one_row(&mut self.conn, &mut self.faults, alloc, cell)
    }

    fn faults(&self) -> u64 {
        self.faults
    }
}
