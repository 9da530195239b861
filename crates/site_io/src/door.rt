//! What gives connections, and what gives leave to take one more.
ghost use Rattle.std.specs.Prelude.{◌≡◌, ◌≤◌, ◌+◌, ℕ, List, Bool, true, false, Option, IfOk, OnOk, OnErr, if◌then◌else◌};
ghost use Rattle.site_io.specs.Memory.{up};
ghost use Rattle.site_io.specs.Told.{Rose};

use crate::device::{Failed, Sink, Source};
use crate::ended::Ended;

/// What gives connections to whoever serves them, one at a time, and takes each back once it has ended. An implementor owns
/// what it listens on: it holds no `&mut`.
pub trait Door {
    ghost use Rattle.site_io.specs.Doors.{Line, Back, IsNext, later_lines, and_back};
    ghost use Rattle.site_io.specs.declared.ended.Ended.{Ended};

    /// What a connection's bytes are read from. A door may be sent to another thread, and so may these.
    type In: Source + Drop;

    /// What they are written to.
    type Out: Sink + Drop;

    /// What the connections tell that are to come, in order, where the door tells it.
    ghost coming: { Self → Option (List Line) };

    /// What those told that were given back, and their ends, in order, where the door tells it.
    ghost returned: { Self → Option (List Back) };

    /// Whether a connection is out: it was accepted and is not given back.
    ghost is_out: { Self → Bool };

    /// How often it has failed, up to the greatest u64.
    ghost faults: { Self → ℕ };

    /// Waits for a connection and takes it. The one before it must have been given back.
    ///
    /// `Failed` comes exactly where the count of faults rose in this call, by one, and then no connection was taken.
    fn accept(&mut self) -> Result<(Self::In, Self::Out), Failed>
        requires { is_out self.old ≡ false }
        ensures next { IfOk result (λ line. IsNext (coming self.old) (record { left = Self.In.left line.0; written = Self.Out.written line.1; reading = Self.In.faults line.0; writing = Self.Out.faults line.1 })) }
        ensures later { OnOk result (coming self.new ≡ later_lines (coming self.old)) }
        ensures out { OnOk result (is_out self.new ≡ true) }
        ensures refused { OnErr result (coming self.new ≡ coming self.old) }
        ensures none_out { OnErr result (is_out self.new ≡ is_out self.old) }
        ensures returned { returned self.new ≡ returned self.old }
        ensures cause { OnErr result (Rose (faults self.old) (faults self.new)) }
        ensures once { OnErr result (faults self.new ≡ up (faults self.old)) }
        ensures steady { OnOk result (faults self.new ≡ faults self.old) }
        ensures never_falls { faults self.old ≤ faults self.new };

    /// Takes the connection that is out back, with its end.
    fn done(&mut self, input: Self::In, output: Self::Out, end: Ended)
        requires { is_out self.old ≡ true }
        ensures back { returned self.new ≡ and_back (returned self.old) (record { line = record { left = Self.In.left input; written = Self.Out.written output; reading = Self.In.faults input; writing = Self.Out.faults output }; end = end }) }
        ensures none_out { is_out self.new ≡ false }
        ensures coming { coming self.new ≡ coming self.old }
        ensures steady { faults self.new ≡ faults self.old };

    /// How often it has failed, up to the greatest u64. It never falls.
    fn faults(&self) -> u64
        ensures { result ≡ faults self.now };
}

/// What gives leave to take one connection more. An implementor owns what it counts: it holds no `&mut`.
pub trait More {
    /// How often it gave leave.
    ghost claims: { Self → ℕ };

    /// What it shares with others, by a name, where it shares anything.
    ghost name: { Self → List ℕ };

    /// Whether no leave is left to give.
    ghost is_over: { Self → Bool };

    /// How often it was asked and gave no leave.
    ghost refusals: { Self → ℕ };

    /// Whether one connection more may be taken; the count of claims rises by one exactly where it may, and that of refusals
    /// where it may not.
    fn more(&mut self) -> bool
        ensures counted { claims self.new ≡ (if result then claims self.old + 1 else claims self.old) }
        ensures refused { refusals self.new ≡ (if result then refusals self.old else refusals self.old + 1) }
        ensures over { result ≡ false → is_over self.new ≡ true }
        ensures same { name self.new ≡ name self.old };
}
