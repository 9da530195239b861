//! The devices, as traits.
ghost use Rattle.std.specs.Prelude.{◌≡◌, ◌≤◌, ◌<◌, ℕ, List, [], ◌∷◌, ◌++◌, Option, length, take, OnOk, OnErr, IfOk};
ghost use Rattle.site_io.specs.Memory.{up};
ghost use Rattle.site_io.specs.Told.{before, after, IsNothingLeft, Rose};
ghost use Rattle.site_io.specs.Series.{GivesInTurn, last_moment, last_word};

/// A device failed in this call, and its count of faults rose.
#[derive(Clone, Copy, Debug, PartialEq, Eq)]
pub struct Failed;

/// What bytes are read from. An implementor owns what it reads from: it holds no `&mut`.
pub trait Source {
    /// The bytes that are left, where it tells them.
    ghost left: { Self → Option (List ℕ) };

    /// How often it has failed, up to the greatest u64.
    ghost faults: { Self → ℕ };

    /// Reads up to as many bytes as the buffer has places, to its front, and answers how many.
    ///
    /// 0 into a buffer that isn't empty is the end of the input, for good. `Failed` comes exactly where the count of
    /// faults rose in this call, by one, and then no byte was taken.
    fn read(&mut self, buffer: &mut [u8]) -> Result<usize, Failed>
        ensures fits { IfOk result (λ n. n ≤ length buffer.old) }
        ensures told { IfOk result (λ n. left self.old ≡ before (take n buffer.new) (left self.new)) }
        ensures end { IfOk result (λ n. n ≡ 0 → 0 < length buffer.old → IsNothingLeft (left self.old)) }
        ensures failed { OnErr result (left self.new ≡ left self.old) }
        ensures cause { OnErr result (Rose (faults self.old) (faults self.new)) }
        ensures once { OnErr result (faults self.new ≡ up (faults self.old)) }
        ensures steady { OnOk result (faults self.new ≡ faults self.old) }
        ensures never_falls { faults self.old ≤ faults self.new };

    /// How often it has failed, up to the greatest u64. It never falls.
    fn faults(&self) -> u64
        ensures { result ≡ faults self.now };
}

/// What bytes are written to. An implementor owns what it writes to: it holds no `&mut`. It may hold back what it took, until it
/// is told to hand it on.
pub trait Sink {
    /// The bytes that were written, where it tells them.
    ghost written: { Self → Option (List ℕ) };

    /// How often it has failed, up to the greatest u64.
    ghost faults: { Self → ℕ };

    /// Writes a front of the piece, and answers how many bytes that is: at least one, where the piece isn't empty.
    ///
    /// `Failed` comes exactly where the count of faults rose in this call, by one, and then no byte was written.
    fn write(&mut self, piece: &[u8]) -> Result<usize, Failed>
        ensures fits { IfOk result (λ n. n ≤ length piece.now) }
        ensures some { IfOk result (λ n. 0 < length piece.now → 0 < n) }
        ensures told { IfOk result (λ n. written self.new ≡ after (written self.old) (take n piece.now)) }
        ensures failed { OnErr result (written self.new ≡ written self.old) }
        ensures cause { OnErr result (Rose (faults self.old) (faults self.new)) }
        ensures once { OnErr result (faults self.new ≡ up (faults self.old)) }
        ensures steady { OnOk result (faults self.new ≡ faults self.old) }
        ensures never_falls { faults self.old ≤ faults self.new };

    /// How often it has failed, up to the greatest u64. It never falls.
    fn faults(&self) -> u64
        ensures { result ≡ faults self.now };

    /// Hands on what was taken and is still held back. A sink that holds nothing back needs no call of its own.
    ///
    /// `Failed` comes exactly where the count of faults rose in this call, by one. What was written stays: it was taken.
    fn flush(&mut self) -> Result<(), Failed>
        ensures written { written self.new ≡ written self.old }
        ensures cause { OnErr result (Rose (faults self.old) (faults self.new)) }
        ensures once { OnErr result (faults self.new ≡ up (faults self.old)) }
        ensures steady { OnOk result (faults self.new ≡ faults self.old) }
        ensures never_falls { faults self.old ≤ faults self.new }
    {
        Ok(())
    }
}

/// The greatest moment, 2100-01-01 00:00:00 UTC, in whole seconds since 1970-01-01.
pub const LAST_MOMENT: u64 = 4_102_444_800;

/// What gives the moments. An implementor owns what it reads: it holds no `&mut`.
pub trait Clock {
    /// The moments that it is to give, in turn, and then the last one, or of no list 0; where it tells them.
    ghost moments: { Self → Option (List ℕ) };

    /// The moments that it gave, where it tells them.
    ghost given: { Self → Option (List ℕ) };

    /// The moment, in whole seconds since 1970-01-01 UTC, from 0 to 4,102,444,800.
    fn now(&mut self) -> u64
        ensures told { given self.new ≡ after (given self.old) (result ∷ []) }
        ensures in_turn { GivesInTurn last_moment (moments self.old) (moments self.new) (given self.old) (given self.new) }
        ensures within { result ≤ last_moment };
}

/// What gives words of chance. An implementor owns what it draws from: it holds no `&mut`.
pub trait Entropy {
    /// The words that it is to give, in turn, and then the last one, or of no list 0; where it tells them.
    ghost words: { Self → Option (List ℕ) };

    /// The words that it gave, where it tells them.
    ghost given: { Self → Option (List ℕ) };

    /// The next word, any u64.
    fn word(&mut self) -> u64
        ensures told { given self.new ≡ after (given self.old) (result ∷ []) }
        ensures in_turn { GivesInTurn last_word (words self.old) (words self.new) (given self.old) (given self.new) };
}

/// A point that the work on a request reaches.
#[derive(Clone, Copy, Debug, PartialEq, Eq)]
pub enum Point {
    /// A snapshot of the state was taken.
    AfterSnapshot,

    /// The reply is made and not yet written. The number is how many cached pieces of a page were built for it and not
    /// found, 0 where it is no page.
    BeforeReply(u64),

    /// A part of a page that is sent late is about to be made. No work reaches this point as long as no part is sent late.
    BeforePart,
}

/// What is told of the points that the work reaches, as a test that holds a request back there. An implementor owns
/// what it changes: it holds no `&mut`.
pub trait Gate {
    ghost use Rattle.site_io.specs.Reached.{and_point};
    ghost use Rattle.site_io.specs.declared.device.Point.{Point};

    /// The points that were reached, where it tells them.
    ghost reached: { Self → Option (List Point) };

    /// Called as the work reaches the point.
    fn reach(&mut self, point: Point)
        ensures { reached self.new ≡ and_point (reached self.old) point };
}
