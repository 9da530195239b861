//! A door in memory, which tells what it gives and what it is given back.
ghost use Rattle.std.specs.Prelude.{◌≡◌, ◌≤◌, ◌++◌, ◌∷◌, [], Some, true, false, map, IfOk, OnOk, OnErr, IsOk, ◌↔◌};
ghost use Rattle.site_io.specs.Told.{Rose};
ghost use Rattle.site_io.specs.Memory.{fresh, next_fails, passed, failed, up};
ghost use Rattle.site_io.specs.Doors.{IsNext, later_lines, and_back};
ghost use Rattle.site_io.specs.MemoryDoors.{line_of, back_of, MemoryDoor as MemoryDoorValue, is_none_left};

use crate::device::Failed;
use crate::door::Door;
use crate::ended::Ended;
use crate::memory::{Calls, MemorySink, MemorySource};
use std::alloc::{AllocError, Global};
use std::marker::Model;
use std::vec::IntoIter;

/// A connection that was given back, with its end.
#[derive(Drop)]
pub struct Returned {
    /// What is left of its input.
    pub source: MemorySource,
    /// What was written to it.
    pub sink: MemorySink,
    /// How it ended.
    pub end: Ended,
}

/// A door in memory: it gives the connections of a list, one after the other, and holds those that were given back. Some of
/// its calls of `accept` are to fail, and each does once no connection is left.
#[derive(Drop)]
pub struct MemoryDoor {
    coming: IntoIter<(MemorySource, MemorySink)>,
    returned: Vec<Returned>,
    is_out: bool,
    calls: Calls,
}

impl Model for MemoryDoor {
    ghost use Rattle.std.specs.Prelude.{◌+◌, ◌≤◌, length, map, vec_capacity, if◌then◌else◌};
    ghost use Rattle.std.specs.Vec.Iter.{into_iter_items};
    ghost use Rattle.site_io.specs.MemoryDoors.{MemoryDoor as MemoryDoorValue, line_of, back_of};

    ghost Value = { MemoryDoorValue };

    ghost view = { λ d. record { coming = map line_of (into_iter_items d.coming); returned = map back_of d.returned.items; is_out = d.is_out; calls = d.calls } };

    ghost invariant = { λ d. length d.returned.items + (length (into_iter_items d.coming) + (if d.is_out then 1 else 0)) ≤ vec_capacity d.returned };
}

impl MemoryDoor {
    /// Gives these connections, in order. No connection is out or was given back, and no call fails as long as one is left.
    ///
    /// The memory for those that will be given back is taken here, so that `done` takes none.
    pub fn new(
        alloc: Global,
        connections: Vec<(MemorySource, MemorySink)>,
    ) -> Result<MemoryDoor, AllocError>
        ensures { IfOk result (λ d. d ≡ record { coming = map line_of connections.items; returned = []; is_out = false; calls = fresh [] }) }
    {
        Ok(MemoryDoor {
            returned: Vec::with_capacity(alloc, connections.len())?,
            coming: connections.into_iter(),
            is_out: false,
            calls: Calls::new(Vec::new(alloc)),
        })
    }

    /// The calls of `accept` with these numbers are to fail, counted from here on and from 1. The count stays at the
    /// greatest u64. The count of faults is 0 again.
    pub fn failing_at(self, failing: Vec<u64>) -> MemoryDoor
        ensures { result ≡ record self { calls = fresh failing.items } }
    {
        MemoryDoor {
            calls: Calls::new(failing),
            ..self
        }
    }

    /// The connections that were given back, in order.
    pub fn returned(&self) -> &[Returned]
        ensures { map back_of result.now ≡ self.now.returned }
    {
        self.returned.as_slice()
    }
}

impl Door for MemoryDoor {
    type In = MemorySource;

    type Out = MemorySink;

    ghost coming = { λ d. Some d.coming };

    ghost returned = { λ d. Some d.returned };

    ghost is_out = { λ d. d.is_out };

    ghost faults = { λ d. d.calls.faults };

    fn accept(&mut self) -> Result<(MemorySource, MemorySink), Failed>
        ensures next { IfOk result (λ line. IsNext (Some self.old.coming) (line_of line)) }
        ensures later { OnOk result (Some self.new.coming ≡ later_lines (Some self.old.coming)) }
        ensures out { OnOk result (self.new.is_out ≡ true) }
        ensures refused { OnErr result (Some self.new.coming ≡ Some self.old.coming) }
        ensures none_out { OnErr result (self.new.is_out ≡ self.old.is_out) }
        ensures returned { Some self.new.returned ≡ Some self.old.returned }
        ensures cause { OnErr result (Rose self.old.calls.faults self.new.calls.faults) }
        ensures once { OnErr result (self.new.calls.faults ≡ up self.old.calls.faults) }
        ensures steady { OnOk result (self.new.calls.faults ≡ self.old.calls.faults) }
        ensures never_falls { self.old.calls.faults ≤ self.new.calls.faults }
        ensures exactly_listed { IsOk result ↔ ((next_fails self.old.calls ≡ false) × (is_none_left self.old ≡ false)) }
        ensures passed { OnOk result (self.new.calls ≡ passed self.old.calls) }
        ensures failed { OnErr result (self.new.calls ≡ failed self.old.calls) }
    {
        self.calls.begin()?;
        match self.coming.next() {
            Some(connection) => {
                self.is_out = true;
                Ok(connection)
            }
            None => Err(self.calls.fault()),
        }
    }

    fn done(&mut self, input: MemorySource, output: MemorySink, end: Ended) {
        self.is_out = false;
        let back = Returned {
            source: input,
            sink: output,
            end,
        };
        match self.returned.push(back) {
            Ok(()) => {}
            Err(_) => unreachable!(),
        }
    }

    fn faults(&self) -> u64 {
        self.calls.faults()
    }
}
