//! The bytes that a door gives with a connection.
ghost use Rattle.std.specs.Prelude.{◌≡◌, ◌≤◌, ◌<◌, [], true, false, Some, IfOk, OnErr, OnOk, length, take, drop};
ghost use Rattle.site_io.specs.Told.{before, Rose};
ghost use Rattle.site_io.specs.Memory.{up};
ghost use Rattle.request_framing.specs.Gives.{no_faults};
ghost use Rattle.request_framing.specs.Edits.{begins_get};

use site_io::{Failed, Source};
use std::marker::Model;

/// Bytes that came on a socket: one request, or what is refused. It tells those that are left, and can't fail.
#[derive(Drop)]
pub struct Parcel {
    bytes: Vec<u8>,
    /// Those before this place were read.
    start: usize,
    /// Those from this place on are no part of it.
    end: usize,
}

impl Model for Parcel {
    ghost use Rattle.std.specs.Prelude.{List, ℕ, length, take, drop, ◌≤◌};

    ghost Value = { List ℕ };

    ghost view = { λ p. drop p.start (take p.end p.bytes.items) };

    ghost invariant = { λ p. (p.start ≤ p.end) × (p.end ≤ length p.bytes.items) };
}

impl Parcel {
    /// The bytes between two places.
    pub fn new(bytes: Vec<u8>, start: usize, end: usize) -> Parcel
        requires { (start ≤ end) × (end ≤ length bytes.items) }
        ensures { result ≡ drop start (take end bytes.items) }
    {
        Parcel { bytes, start, end }
    }

    /// Whether all of it was read.
    pub fn is_read(&self) -> bool
        ensures read { result ≡ true → self.now ≡ [] }
        ensures left { result ≡ false → 0 < length self.now }
    {
        self.start == self.end
    }

    /// Whether those that are left begin as a request does whose method is GET: with `GET `. No such request is an edit.
    pub fn begins_get(&self) -> bool
        ensures { result ≡ begins_get self.now }
    {
        matches!(self.left(), [b'G', b'E', b'T', b' ', ..])
    }

    /// How many bytes of memory it takes.
    pub fn capacity(&self) -> usize {
        self.bytes.capacity()
    }

    /// Those that are left.
    fn left(&self) -> &[u8]
        ensures { result.now ≡ self.now }
    {
        let (front, _) = self.bytes.as_slice().split_at(self.end);
        front.split_at(self.start).1
    }

    /// The memory that it lies in.
    pub fn into_room(self) -> Vec<u8> {
        let Parcel {
            bytes,
            start: _,
            end: _,
        } = self;
        bytes
    }
}

impl Source for Parcel {
    ghost left = { λ p. Some p };

    ghost faults = { λ _. no_faults };

    fn read(&mut self, buffer: &mut [u8]) -> Result<usize, Failed>
        ensures fits { IfOk result (λ n. n ≤ length buffer.old) }
        ensures told { IfOk result (λ n. Some self.old ≡ before (take n buffer.new) (Some self.new)) }
        ensures end { IfOk result (λ n. n ≡ 0 → 0 < length buffer.old → self.old ≡ []) }
        ensures failed { OnErr result (Some self.new ≡ Some self.old) }
        ensures cause { OnErr result (Rose no_faults no_faults) }
        ensures once { OnErr result (no_faults ≡ up no_faults) }
        ensures steady { OnOk result (no_faults ≡ no_faults) }
        ensures never_falls { no_faults ≤ no_faults }
    {
        let left = self.left();
        let n = left.len().min(buffer.len());
        let (from, _) = left.split_at(n);
        let (into, _) = buffer.split_at_mut(n);
        into.copy_from_slice(from);
        self.start += n;
        Ok(n)
    }

    fn faults(&self) -> u64 {
        0
    }
}
