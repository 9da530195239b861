//! Devices in memory, which tell what they hold.
ghost use Rattle.std.specs.Prelude.{◌≡◌, ◌≤◌, ◌<◌, ◌++◌, ◌∷◌, ◌↔◌, ◌-◌, [], Some, true, false, length, take, drop, min, OnErr, OnOk, IfOk, IsOk, vec_capacity};
ghost use Rattle.site_io.specs.Told.{before, after, IsNothingLeft, Rose};
ghost use Rattle.site_io.specs.Memory.{Calls as CallsValue, Input, Output, fresh, up, next_fails, passed, failed, read_size, write_size, is_full};

use crate::device::{Failed, Sink, Source};
use std::alloc::{AllocError, Global};
use std::marker::Model;

// The calls of a device in memory, some of which are to fail.
#[derive(Drop)]
pub(crate) struct Calls {
    failing: Vec<u64>,
    made: u64,
    faults: u64,
}

impl Model for Calls {
    ghost Value = { CallsValue };

    ghost view = { λ c. record { failing = c.failing.items; made = c.made; faults = c.faults } };
}

impl Calls {
    // No call is made yet.
    pub(crate) fn new(failing: Vec<u64>) -> Calls
        ensures { result ≡ fresh failing.items }
    {
        Calls {
            failing,
            made: 0,
            faults: 0,
        }
    }

    // Counts a call. It fails exactly where its number is listed.
    pub(crate) fn begin(&mut self) -> Result<(), Failed>
        ensures variant { IsOk result ↔ (next_fails self.old ≡ false) }
        ensures ok { OnOk result (self.new ≡ passed self.old) }
        ensures err { OnErr result (self.new ≡ failed self.old) }
        ensures never_falls { self.old.faults ≤ self.new.faults }
    {
        self.made = self.made.saturating_add(1);
        if self.failing.contains(&self.made) {
            return Err(self.fault());
        }
        Ok(())
    }

    // Counts a fault.
    pub(crate) fn fault(&mut self) -> Failed
        ensures counted { self.new ≡ record self.old { faults = up self.old.faults } }
        ensures never_falls { self.old.faults ≤ self.new.faults }
    {
        self.faults = self.faults.saturating_add(1);
        Failed
    }

    pub(crate) fn faults(&self) -> u64
        ensures { result ≡ self.now.faults }
    {
        self.faults
    }
}

/// Bytes in memory, which come in pieces of at most so many, and calls that are to fail.
#[derive(Drop)]
pub struct MemorySource {
    bytes: Vec<u8>,
    taken: usize,
    piece: usize,
    calls: Calls,
}

impl Model for MemorySource {
    ghost Value = { Input };

    ghost view = { λ s. record { left = drop s.taken s.bytes.items; piece = s.piece; calls = s.calls } };

    ghost invariant = { λ s. s.taken ≤ length s.bytes.items };
}

impl MemorySource {
    /// All of these bytes are left. They come in pieces of at most `piece` bytes, where 0 counts as 1, and no call fails.
    pub fn new(bytes: Vec<u8>, piece: usize) -> MemorySource
        ensures { result ≡ record { left = bytes.items; piece = piece; calls = fresh [] } }
    {
        let failing = Vec::new(*bytes.allocator());
        MemorySource {
            bytes,
            taken: 0,
            piece,
            calls: Calls::new(failing),
        }
    }

    /// The calls of `read` with these numbers are to fail, counted from here on and from 1. The count stays at the
    /// greatest u64. The count of faults is 0 again.
    pub fn failing_at(self, failing: Vec<u64>) -> MemorySource
        ensures { result ≡ record self { calls = fresh failing.items } }
    {
        MemorySource {
            calls: Calls::new(failing),
            ..self
        }
    }

    /// The bytes that are left.
    pub fn left(&self) -> &[u8]
        ensures { result.now ≡ self.now.left }
    {
        let (_, left) = self.bytes.as_slice().split_at(self.taken);
        left
    }
}

impl Source for MemorySource {
    ghost left = { λ s. Some s.left };

    ghost faults = { λ s. s.calls.faults };

    fn read(&mut self, buffer: &mut [u8]) -> Result<usize, Failed>
        ensures fits { IfOk result (λ n. n ≤ length buffer.old) }
        ensures told { IfOk result (λ n. Some self.old.left ≡ before (take n buffer.new) (Some self.new.left)) }
        ensures end { IfOk result (λ n. n ≡ 0 → 0 < length buffer.old → self.old.left ≡ []) }
        ensures failed { OnErr result (self.new.left ≡ self.old.left) }
        ensures cause { OnErr result (Rose self.old.calls.faults self.new.calls.faults) }
        ensures once { OnErr result (self.new.calls.faults ≡ up self.old.calls.faults) }
        ensures steady { OnOk result (self.new.calls.faults ≡ self.old.calls.faults) }
        ensures never_falls { self.old.calls.faults ≤ self.new.calls.faults }
        ensures exact { IfOk result (λ n. n ≡ read_size self.old (length buffer.old)) }
        ensures source { OnOk result (self.new ≡ record self.old { left = drop (read_size self.old (length buffer.old)) self.old.left; calls = passed self.old.calls }) }
        ensures rest { IfOk result (λ n. drop n buffer.new ≡ drop n buffer.old) }
        ensures exactly_listed { IsOk result ↔ (next_fails self.old.calls ≡ false) }
        ensures refused { OnErr result ((self.new ≡ record self.old { calls = failed self.old.calls }) × (buffer.new ≡ buffer.old)) }
    {
        self.calls.begin()?;
        let (_, left) = self.bytes.as_slice().split_at(self.taken);
        let n = left.len().min(buffer.len()).min(self.piece.max(1));
        let (front, _) = left.split_at(n);
        let (into, _) = buffer.split_at_mut(n);
        into.copy_from_slice(front);
        self.taken += n;
        Ok(n)
    }

    fn faults(&self) -> u64 {
        self.calls.faults()
    }
}

/// A place in memory for so many bytes, which takes at most so many in one call, and calls that are to fail.
#[derive(Drop)]
pub struct MemorySink {
    bytes: Vec<u8>,
    capacity: usize,
    piece: usize,
    calls: Calls,
}

impl Model for MemorySink {
    ghost Value = { Output };

    ghost view = { λ s. record { written = s.bytes.items; capacity = s.capacity; piece = s.piece; calls = s.calls } };

    ghost invariant = { λ s. (length s.bytes.items ≤ s.capacity) × (s.capacity ≤ vec_capacity s.bytes) };
}

impl MemorySink {
    /// Nothing is written yet. So many bytes can be, in pieces of any length, and no call fails but where the sink is full.
    ///
    /// The memory is taken here, so that `write` takes none.
    pub fn new(alloc: Global, capacity: usize) -> Result<MemorySink, AllocError>
        ensures { IfOk result (λ s. s ≡ record { written = []; capacity = capacity; piece = usize.MAX; calls = fresh [] }) }
    {
        Ok(MemorySink {
            bytes: Vec::with_capacity(alloc, capacity)?,
            capacity,
            piece: usize::MAX,
            calls: Calls::new(Vec::new(alloc)),
        })
    }

    /// At most `piece` bytes are taken in one call, where 0 counts as 1.
    pub fn taking(self, piece: usize) -> MemorySink
        ensures { result ≡ record self { piece = piece } }
    {
        MemorySink { piece, ..self }
    }

    /// The calls of `write` with these numbers are to fail, counted from here on and from 1. The count stays at the
    /// greatest u64. The count of faults is 0 again.
    pub fn failing_at(self, failing: Vec<u64>) -> MemorySink
        ensures { result ≡ record self { calls = fresh failing.items } }
    {
        MemorySink {
            calls: Calls::new(failing),
            ..self
        }
    }

    /// The bytes that were written.
    pub fn bytes(&self) -> &[u8]
        ensures { result.now ≡ self.now.written }
    {
        self.bytes.as_slice()
    }
}

impl Sink for MemorySink {
    ghost written = { λ s. Some s.written };

    ghost faults = { λ s. s.calls.faults };

    fn write(&mut self, piece: &[u8]) -> Result<usize, Failed>
        ensures fits { IfOk result (λ n. n ≤ length piece.now) }
        ensures some { IfOk result (λ n. 0 < length piece.now → 0 < n) }
        ensures told { IfOk result (λ n. Some self.new.written ≡ after (Some self.old.written) (take n piece.now)) }
        ensures failed { OnErr result (self.new.written ≡ self.old.written) }
        ensures cause { OnErr result (Rose self.old.calls.faults self.new.calls.faults) }
        ensures once { OnErr result (self.new.calls.faults ≡ up self.old.calls.faults) }
        ensures steady { OnOk result (self.new.calls.faults ≡ self.old.calls.faults) }
        ensures never_falls { self.old.calls.faults ≤ self.new.calls.faults }
        ensures exact { IfOk result (λ n. n ≡ write_size self.old (length piece.now)) }
        ensures sink { OnOk result (self.new ≡ record self.old { written = self.old.written ++ take (write_size self.old (length piece.now)) piece.now; calls = passed self.old.calls }) }
        ensures exactly_listed { IsOk result ↔ ((next_fails self.old.calls ≡ false) × (is_full self.old (length piece.now) ≡ false)) }
        ensures refused { OnErr result (self.new ≡ record self.old { calls = failed self.old.calls }) }
    {
        self.calls.begin()?;
        let room = self.capacity - self.bytes.len();
        if room == 0 && !piece.is_empty() {
            return Err(self.calls.fault());
        }
        let n = piece.len().min(room).min(self.piece.max(1));
        let (front, _) = piece.split_at(n);
        match self.bytes.extend_from_slice(front) {
            Ok(()) => Ok(n),
            Err(_) => unreachable!(),
        }
    }

    fn faults(&self) -> u64 {
        self.calls.faults()
    }
}
