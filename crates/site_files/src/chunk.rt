//! Lines from a source, piece by piece.
ghost use Rattle.std.specs.Prelude.{◌≡◌, ◌≤◌, ◌<◌, ◌+◌, ◌++◌, ◌∷◌, [], take, drop, true, false, length, IfOk, IfErr, OnOk, OnErr, IsTrue, ◌↔◌};
ghost use Rattle.std.specs.Prelude.{◌==◌};
ghost use Rattle.std.specs.List.{position};
ghost use Rattle.site_io.specs.Told.{before, IsNothingLeft, Rose};
ghost use Rattle.site_files.specs.Faults.{IsCause, IsOfDevice};
ghost use Rattle.site_files.specs.Lines.{is_one_line, longest, TakesLine, end_of_line, is_at_end};
ghost use Rattle.site_files.specs.Pieces.{IsPiece};

use crate::fault::ReadFault;
use crate::line::LONGEST;
use site_io::{Failed, Source};
use std::alloc::{AllocError, Global};
use std::marker::Model;

/// How many bytes are read at once.
const PIECE: usize = 16_384;

/// Bytes that were read and not taken yet. Contracts see them as a list.
#[derive(Drop)]
pub(crate) struct Chunk {
    bytes: Vec<u8>,
    at: usize,
    end: usize,
}

impl Model for Chunk {
    ghost use Rattle.std.specs.Prelude.{ℕ, List, take, drop, length, ◌-◌, ◌≤◌};

    ghost Value = { List ℕ };

    ghost view = { λ c. take (c.end - c.at) (drop c.at c.bytes.items) };

    ghost invariant = { λ c. (c.at ≤ c.end) × (c.end ≤ length c.bytes.items) × (1 ≤ length c.bytes.items) };
}

impl Chunk {
    /// No bytes, with room for a piece.
    pub(crate) fn new(alloc: Global) -> Result<Chunk, AllocError>
        ensures { IfOk result (λ c. c ≡ []) }
    {
        Ok(Chunk {
            bytes: vec![in alloc; 0; PIECE]?,
            at: 0,
            end: 0,
        })
    }

    /// Whether there is a byte more: where none is at hand, a piece is read.
    pub(crate) fn fill<S: Source>(&mut self, source: &mut S) -> Result<bool, Failed>
        ensures told { OnOk result (before self.new (S.left source.new) ≡ before self.old (S.left source.old)) }
        ensures more { IfOk result (λ more. more ≡ true → 0 < length self.new) }
        ensures end { IfOk result (λ more. more ≡ false → (self.new ≡ []) × IsNothingLeft (S.left source.new)) }
        ensures cause { OnErr result (Rose (S.faults source.old) (S.faults source.new)) }
        ensures steady { OnOk result (S.faults source.new ≡ S.faults source.old) }
    {
        if self.at < self.end {
            return Ok(true);
        }
        let read = source.read(&mut self.bytes)?;
        self.at = 0;
        self.end = read;
        Ok(read > 0)
    }

    /// Takes bytes up to the end of the line, or so many of them, onto the line, and answers whether the line ended.
    /// The line's end is taken, too, and isn't part of the line.
    fn take_piece(&mut self, most: usize, line: &mut Vec<u8>) -> Result<bool, AllocError>
        ensures { IfOk result (λ ended. IsPiece ended most self.old line.old.items line.new.items self.new) }
    {
        let pending = &self.bytes[self.at..self.end];
        let taken = end_of_line(pending).min(most);
        let (piece, rest) = pending.split_at(taken);
        line.extend_from_slice(piece)?;
        if is_at_end(rest) {
            self.at += taken + 1;
            Ok(true)
        } else {
            self.at += taken;
            Ok(false)
        }
    }

    /// Takes the next line, of which there is a byte: all of it and its end, or one byte more than
    /// a line may have.
    pub(crate) fn take_line<S: Source>(
        &mut self,
        source: &mut S,
        line: &mut Vec<u8>,
    ) -> Result<(), ReadFault>
        ensures told { OnOk result (TakesLine (before self.old (S.left source.old)) line.new.items (before self.new (S.left source.new))) }
        ensures steady { OnOk result (S.faults source.new ≡ S.faults source.old) }
        ensures cause { IfErr result (IsCause (S.faults source.old) (S.faults source.new)) }
        ensures kind { IfErr result IsOfDevice }
    {
        line.clear();
        'pieces: while line.len() <= LONGEST {
            if !self.fill(source)? {
                return Ok(());
            }
            if self.take_piece(LONGEST + 1 - line.len(), line)? {
                return Ok(());
            }
        }
        Ok(())
    }
}

/// How many bytes stand before the first end of a line.
fn end_of_line(bytes: &[u8]) -> usize
    ensures { result ≡ end_of_line bytes.now }
{
    match first_end(bytes) {
        Some(end) => end,
        None => bytes.len(),
    }
}

/// Where the first end of a line stands.
fn first_end(bytes: &[u8]) -> Option<usize>
    ensures { result ≡ position (λ b. b == 10) bytes.now }
{
    bytes.iter().position(|&byte| byte == b'\n')
}

/// Whether bytes begin with the end of a line.
fn is_at_end(bytes: &[u8]) -> bool
    ensures { result ≡ is_at_end bytes.now }
{
    match bytes {
        [first, ..] => *first == b'\n',
        [] => false,
    }
}
