//! Where states come from, and edits go.
ghost use Rattle.std.specs.Prelude.{◌≡◌, IfOk};
ghost use Rattle.std.specs.Arc.{arc_value};
ghost use Rattle.std.specs.Option.{option_copied};
ghost use Rattle.content_rows.specs.Kinds.{IsMoment};
ghost use Rattle.content_state.specs.Replay.{replay};
ghost use Rattle.site_commands.specs.Right.{IsRight};
ghost use Rattle.site_house.specs.House.{HouseView, Answers, AreOwn, AreValid, Moves, Stays, KeepsAll};
ghost use Rattle.site_house.specs.Bins.{MayBeKeptIn, IsSoundIn, LooksUp, KeepsUnder, SeenStay, SoundStay};

use cache_entries::{Bin, Found, Kept, Key};
use content_state::{Ask, State};
use site_commands::{Answer, Command};
use std::alloc::{AllocError, Global};
use std::sync::Arc;

/// The committed states of a site, as one caller sees them, and what is kept of its pages. Other callers may edit and keep
/// meanwhile: what this one has seen only grows. Each edit of its pass there that came after the pass was opened is one that
/// it handed in, in that order: whatever it is asked, it tells so of itself as it is then.
pub trait House {
    /// All that contracts see of it.
    ghost sees: { Self → HouseView };

    /// The newest state: that of all edits that the caller has now seen. The state that was loaded is valid, and so is
    /// each that these edits make of it. `Err` only where memory is wanting.
    fn snapshot(&mut self, alloc: Global) -> Result<Arc<State>, AllocError>
        ensures moves { Moves (sees self.old) (sees self.new) }
        ensures own { AreOwn (sees self.new) }
        ensures stays { Stays (sees self.old) (sees self.new) }
        ensures keeps_all { KeepsAll (sees self.old) (sees self.new) }
        ensures state { IfOk result (λ s. arc_value s ≡ replay (sees self.new).base (sees self.new).seen) }
        ensures valid { AreValid (sees self.new).base (sees self.new).seen };

    /// Makes an edit: it is judged on the newest state, for the viewer whom the cookie of the request names there at this
    /// moment, in seconds since 1970, with the value that was sent to guard the forms of a session. An accepted one is
    /// kept, and then it is the last one seen; `Done` and `Refused` tell the number of the newest state. `Keeper` where the
    /// keeper of the rows failed: whether the edit is kept shows at a later one. `OutOfMemory` where memory is wanting:
    /// nothing of the edit is kept.
    fn commit(
        &mut self,
        alloc: Global,
        ask: &Ask,
        csrf: Option<&[u8]>,
        command: &Command,
        now: u64,
    ) -> Answer
        requires right { IsRight command.now }
        requires moment { IsMoment now }
        ensures moves { Moves (sees self.old) (sees self.new) }
        ensures own { AreOwn (sees self.new) }
        ensures keeps_all { KeepsAll (sees self.old) (sees self.new) }
        ensures answers { Answers result (sees self.old) (sees self.new) ask.now (option_copied csrf.entry) command.now now }
        ensures valid { AreValid (sees self.new).base (sees self.new).seen };

    /// What is kept under a key in a bin. An entry is sound over all that the caller has now seen, whichever state it was
    /// made on. `Err` only where memory is wanting.
    fn look(&mut self, alloc: Global, bin: Bin, key: &Key) -> Result<Found, AllocError>
        ensures moves { Moves (sees self.old) (sees self.new) }
        ensures own { AreOwn (sees self.new) }
        ensures stays { Stays (sees self.old) (sees self.new) }
        ensures looks { LooksUp (sees self.old) (sees self.new) bin key.now result }
        ensures sound { IfOk result (λ found. IsSoundIn (sees self.new) key.now found) };

    /// Keeps something under a key in a bin. An entry has to be sound over what the caller has seen. `Err` only where memory
    /// is wanting: it isn't kept, and that is counted.
    fn keep(&mut self, alloc: Global, bin: Bin, key: Key, kept: Kept) -> Result<(), AllocError>
        requires { MayBeKeptIn (sees self.old) key kept }
        ensures moves { Moves (sees self.old) (sees self.new) }
        ensures own { AreOwn (sees self.new) }
        ensures stays { Stays (sees self.old) (sees self.new) }
        ensures keeps { KeepsUnder (sees self.old) (sees self.new) bin key kept result };

    /// How often the keeper of the rows has failed, up to the greatest u64. It never falls.
    fn faults(&self) -> u64
        ensures count { result ≡ (sees self.now).faults }
        ensures own { AreOwn (sees self.now) };

    /// How often something wasn't kept for want of memory, up to the greatest u64. It never falls.
    fn unkept(&self) -> u64
        ensures count { result ≡ (sees self.now).unkept }
        ensures own { AreOwn (sees self.now) };
}

/// The laws of what calls do to a house: doing nothing is such a move, and two moves after each other are one.
pub fn moves_follow_one_another()
    ensures same { (house : HouseView) → Moves house house }
    ensures follow { (first : HouseView) → (second : HouseView) → (third : HouseView) → Moves first second → Moves second third → Moves first third }
{}

/// The laws that a state that a house has seen is one of those that it has seen later, and that what is sound over all that it
/// has seen stays so.
pub fn what_was_seen_stays()
    ensures states { SeenStay }
    ensures entries { SoundStay }
{}
