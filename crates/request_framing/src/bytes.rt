//! Bytes in order, of which the first are taken.
ghost use Rattle.std.specs.Prelude.{◌≡◌, ◌≤◌, ◌++◌, [], length, drop, OnOk, OnErr};

use crate::parcel::Parcel;
use std::alloc::{AllocError, Global};
use std::marker::Model;
use std::mem;

/// Bytes in order. Contracts see those that were not taken yet.
#[derive(Drop)]
pub struct Bytes {
    bytes: Vec<u8>,
    /// Those before this place were taken.
    start: usize,
}

impl Model for Bytes {
    ghost use Rattle.std.specs.Prelude.{List, ℕ, length, drop, ◌≤◌};

    ghost Value = { List ℕ };

    ghost view = { λ b. drop b.start b.bytes.items };

    ghost invariant = { λ b. b.start ≤ length b.bytes.items };
}

impl Bytes {
    /// None, for which no memory is taken.
    pub fn new(alloc: Global) -> Bytes
        ensures { result ≡ [] }
    {
        Bytes {
            bytes: Vec::new(alloc),
            start: 0,
        }
    }

    /// How many there are.
    pub fn len(&self) -> usize
        ensures { result ≡ length self.now }
    {
        self.bytes.len() - self.start
    }

    /// The bytes.
    pub fn as_slice(&self) -> &[u8]
        ensures { result.now ≡ self.now }
    {
        self.bytes.split_at(self.start).1
    }

    /// How many bytes of memory they take.
    pub fn capacity(&self) -> usize {
        self.bytes.capacity()
    }

    /// Adds a piece at their end. `Err` only where memory is wanting, and then nothing changed.
    pub fn add(&mut self, piece: &[u8]) -> Result<(), AllocError>
        ensures added { OnOk result (self.new ≡ self.old ++ piece.now) }
        ensures same { OnErr result (self.new ≡ self.old) }
    {
        if self.start > 0 {
            drop(self.bytes.drain(..self.start));
            self.start = 0;
        }
        self.bytes.extend_from_slice(piece)?;
        Ok(())
    }

    /// Takes so many of the first.
    pub fn pass(&mut self, n: usize)
        requires { n ≤ length self.old }
        ensures { self.new ≡ drop n self.old }
    {
        self.start += n;
    }

    /// Takes all, and keeps their room for later ones.
    pub fn clear(&mut self)
        ensures { self.new ≡ [] }
    {
        self.bytes.clear();
        self.start = 0;
    }

    /// Takes all as they lie in memory, and leaves no room.
    pub fn take_all(&mut self, alloc: Global) -> Parcel
        ensures given { result ≡ self.old }
        ensures none { self.new ≡ [] }
    {
        let bytes = mem::replace(&mut self.bytes, Vec::new(alloc));
        let start = self.start;
        self.start = 0;
        let end = bytes.len();
        Parcel::new(bytes, start, end)
    }
}
