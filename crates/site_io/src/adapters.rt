//! Sources and sinks over readers and writers of the standard library, which tell what those tell.
ghost use Rattle.std.specs.Prelude.{◌≡◌, ◌≤◌, ◌<◌, [], IfOk, OnErr, OnOk, length, take};
ghost use Rattle.site_io.specs.Memory.{up};
ghost use Rattle.site_io.specs.Told.{after, Rose};
ghost use Rattle.site_io.specs.Adapters.{FlushedAtLast};

use crate::device::{Failed, Sink, Source};
use crate::retry::{flush_retrying, read_retrying, write_retrying};
use http_server::Log;
use std::io;
use std::io::{ErrorKind, Read, Write};
use std::marker::Model;

/// A source over a reader of the standard library, as standard input, a file or a TCP stream.
///
/// A read that a signal interrupts is made again, and is no fault.
#[derive(Drop)]
pub struct Reading<R: Read + Drop> {
    reader: R,
    // The reader as it was given, for proofs alone.
    first: Log<R, ()>,
    faults: u64,
}

impl<R: Read + Drop> Model for Reading<R> {
    ghost use Rattle.site_io.specs.Adapters.{Intake, StillTells, still_told, told_first};

    ghost Value = { Intake };

    ghost view = { λ r. record { left = still_told (told_first R.remaining r.first.items) (R.remaining r.reader); faults = r.faults } };

    ghost invariant = { λ r. StillTells (told_first R.remaining r.first.items) (R.remaining r.reader) };
}

impl<R: Read + Drop> Reading<R> {
    /// Reads from this reader, and tells what it tells. No fault is counted yet.
    pub fn new(reader: R) -> Reading<R>
        ensures { result ≡ record { left = R.remaining reader; faults = 0 } }
    {
        let first = Log::new().and(&reader, &());
        Reading {
            reader,
            first,
            faults: 0,
        }
    }
}

impl<R: Read + Drop> Source for Reading<R> {
    ghost left = { λ r. r.left };

    ghost faults = { λ r. r.faults };

    fn read(&mut self, buffer: &mut [u8]) -> Result<usize, Failed> {
        match read_retrying(&mut self.reader, buffer) {
            Ok(n) => Ok(n),
            Err(_) => {
                self.faults = self.faults.saturating_add(1);
                Err(Failed)
            }
        }
    }

    fn faults(&self) -> u64 {
        self.faults
    }
}

/// A sink over a writer of the standard library, as standard output, a file or a TCP stream. A buffered writer holds back what it
/// takes until it is full or is flushed.
///
/// A call that a signal interrupts is made again, and is no fault.
#[derive(Drop)]
pub struct Writing<W: Write + Drop> {
    writer: W,
    // The writer as it was given, for proofs alone.
    first: Log<W, ()>,
    // Whether each flush succeeded, for proofs alone.
    flushes: Log<bool, ()>,
    faults: u64,
}

impl<W: Write + Drop> Model for Writing<W> {
    ghost use Rattle.site_io.specs.Adapters.{Outlet, StillTells, flushes_of, still_told, told_first};

    ghost Value = { Outlet };

    ghost view = { λ w. record { written = still_told (told_first W.contents w.first.items) (W.contents w.writer); flushes = flushes_of w.flushes.items; faults = w.faults } };

    ghost invariant = { λ w. StillTells (told_first W.contents w.first.items) (W.contents w.writer) };
}

impl<W: Write + Drop> Writing<W> {
    /// Writes to this writer, and tells what it tells. No fault is counted yet.
    pub fn new(writer: W) -> Writing<W>
        ensures { result ≡ record { written = W.contents writer; flushes = []; faults = 0 } }
    {
        let first = Log::new().and(&writer, &());
        Writing {
            writer,
            first,
            flushes: Log::new(),
            faults: 0,
        }
    }

    // A write whose first call failed: it is made again where a signal interrupted it.
    #[cold]
    #[inline(never)]
    fn write_again(&mut self, piece: &[u8], error: io::Error) -> Result<usize, Failed>
        ensures fits { IfOk result (λ n. n ≤ length piece.now) }
        ensures some { IfOk result (λ n. 0 < length piece.now → 0 < n) }
        ensures told { IfOk result (λ n. self.new.written ≡ after self.old.written (take n piece.now)) }
        ensures failed { OnErr result (self.new.written ≡ self.old.written) }
        ensures cause { OnErr result (Rose self.old.faults self.new.faults) }
        ensures once { OnErr result (self.new.faults ≡ up self.old.faults) }
        ensures steady { OnOk result (self.new.faults ≡ self.old.faults) }
        ensures never_falls { self.old.faults ≤ self.new.faults }
    {
        if error.kind() != ErrorKind::Interrupted {
            return Err(self.fault());
        }
        match write_retrying(&mut self.writer, piece) {
            Ok(n) if n > 0 || piece.is_empty() => Ok(n),
            _ => Err(self.fault()),
        }
    }

    // Counts a fault.
    fn fault(&mut self) -> Failed
        ensures written { self.new.written ≡ self.old.written }
        ensures flushes { self.new.flushes ≡ self.old.flushes }
        ensures cause { Rose self.old.faults self.new.faults }
        ensures once { self.new.faults ≡ up self.old.faults }
        ensures never_falls { self.old.faults ≤ self.new.faults }
    {
        self.faults = self.faults.saturating_add(1);
        Failed
    }
}

impl<W: Write + Drop> Sink for Writing<W> {
    ghost written = { λ w. w.written };

    ghost faults = { λ w. w.faults };

    fn write(&mut self, piece: &[u8]) -> Result<usize, Failed> {
        match self.writer.write(piece) {
            Ok(n) if n > 0 || piece.is_empty() => Ok(n),
            Ok(_) => Err(self.fault()),
            Err(error) => self.write_again(piece, error),
        }
    }

    fn faults(&self) -> u64 {
        self.faults
    }

    // `Ok` comes only after a flush of the writer that succeeded.
    fn flush(&mut self) -> Result<(), Failed>
        ensures written { self.new.written ≡ self.old.written }
        ensures cause { OnErr result (Rose self.old.faults self.new.faults) }
        ensures once { OnErr result (self.new.faults ≡ up self.old.faults) }
        ensures steady { OnOk result (self.new.faults ≡ self.old.faults) }
        ensures never_falls { self.old.faults ≤ self.new.faults }
        ensures flushed { OnOk result (FlushedAtLast self.old.flushes self.new.flushes) }
    {
        match flush_retrying(&mut self.writer, &mut self.flushes) {
            Ok(()) => Ok(()),
            Err(_) => Err(self.fault()),
        }
    }
}
