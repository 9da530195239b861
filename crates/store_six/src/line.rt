//! A line of a table.
ghost use Rattle.std.specs.Prelude.{◌≡◌, IfOk};

use std::alloc::{AllocError, Global};
use std::marker::Model;

/// A line of a table: a key, and what stands beside it. Contracts see the two.
#[derive(Drop)]
pub struct Line {
    key: Vec<u8>,
    beside: Vec<u8>,
}

impl Model for Line {
    ghost use Rattle.store_six.specs.Tables.{Entry};

    ghost Value = { Entry };

    ghost view = { λ l. (l.key.items, l.beside.items) };
}

impl Line {
    /// The line of a key and what stands beside it. `Err` only where memory is wanting.
    pub fn new(alloc: Global, key: &[u8], beside: &[u8]) -> Result<Line, AllocError>
        ensures { IfOk result (λ line. line ≡ (key.now, beside.now)) }
    {
        let key = Vec::from_slice(alloc, key)?;
        let beside = Vec::from_slice(alloc, beside)?;
        Ok(Line { key, beside })
    }

    /// The key.
    pub fn key(&self) -> &[u8]
        ensures { result.now ≡ self.now.0 }
    {
        self.key.as_slice()
    }

    /// What stands beside the key.
    pub fn beside(&self) -> &[u8]
        ensures { result.now ≡ self.now.1 }
    {
        self.beside.as_slice()
    }
}
