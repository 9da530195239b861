//! A pass at work on its site.
ghost use Rattle.std.specs.Prelude.{◌≡◌, ◌≤◌, ℕ, IfOk};
ghost use Rattle.std.specs.Arc.{arc_value};
ghost use Rattle.std.specs.Option.{option_copied};
ghost use Rattle.content_rows.specs.Kinds.{IsMoment};
ghost use Rattle.content_state.specs.Replay.{replay};
ghost use Rattle.site_commands.specs.Right.{IsRight};
ghost use Rattle.site_table.specs.Views.{IsRoom};
ghost use Rattle.site_house.specs.Bins.{unkept_by, LooksUp, KeepsUnder, MayBeKeptIn, IsSoundIn};
ghost use Rattle.site_house.specs.House.{AreOwn, AreValid, Answers, Moves, Stays, KeepsAll};
ghost use Rattle.site_turn.specs.Houses.{keepers_after, guest_of};
ghost use Rattle.site_turn.specs.Turns.{Reads, LooksFor, PutsUnder, Commits};

use crate::pass::Pass;
use cache_entries::{Bin, Found, Kept, Key};
use content_state::{Ask, State};
use site_commands::{Answer, Command};
use site_house::House;
use site_keeper::Keeper;
use site_table::Room;
use std::alloc::{AllocError, Global};
use std::sync::{Arc, Wait};

/// A pass at work on its site, as a house. Each call of the house that wants the hall is one turn of the pass, which waits until nobody else
/// has the hall.
#[derive(Drop)]
pub struct Guest<'a, R: Wait, K: Keeper> {
    rt: &'a R,
    room: &'a Room<K>,
    pub pass: &'a mut Pass,
    pub keepers: u64,
    pub unkept: u64,
    pub ghost here: { pass.now.table ≡ room.now.table_id },
    pub ghost sized: { IsRoom room.now.table_id },
}

impl<'a, R: Wait, K: Keeper> Guest<'a, R, K> {
    /// The guest of a site's room, with one of that site's passes. No edit was answered yet that the keeper failed, and
    /// everything was kept that was to be kept.
    pub fn new(rt: &'a R, room: &'a Room<K>, pass: &'a mut Pass) -> Guest<'a, R, K>
        requires room { IsRoom room.now.table_id }
        requires here { pass.old.table ≡ room.now.table_id }
        ensures pass { result.pass.now ≡ pass.old }
        ensures same_borrow { result.pass.ghost_name ≡ pass.entry.ghost_name }
        ensures keepers { result.keepers ≡ 0 }
        ensures unkept { result.unkept ≡ 0 }
        ensures own { AreOwn (guest_of result.pass.now result.pass.ghost_name result.keepers result.unkept) }
    {
        let _number = pass.number();
        Guest {
            rt,
            room,
            pass,
            keepers: 0,
            unkept: 0,
        }
    }
}

/// How often it was answered that the keeper failed, once this answer is counted, up to the greatest u64.
fn counted(keepers: u64, answer: &Answer) -> u64
    ensures { result ≡ keepers_after answer.now keepers }
{
    match answer {
        Answer::Keeper => keepers.saturating_add(1),
        Answer::Done(..) | Answer::Refused(..) | Answer::OutOfMemory => keepers,
    }
}

/// How often something wasn't kept, once this answer is counted, up to the greatest u64.
fn unkept_after(unkept: u64, answer: &Result<(), AllocError>) -> u64
    ensures is { result ≡ unkept_by answer.now unkept }
    ensures grows { unkept ≤ result }
{
    match answer {
        Ok(()) => unkept,
        Err(_) => unkept.saturating_add(1),
    }
}

impl<R: Wait, K: Keeper + Drop> House for Guest<'_, R, K> {
    ghost use Rattle.site_turn.specs.Houses.{guest_of};

    ghost sees = { λ g. guest_of g.pass.now g.pass.ghost_name g.keepers g.unkept };

    /// The newest state, as each house gives it, in one turn of the pass, in which the hall stays as it is.
    fn snapshot(&mut self, alloc: Global) -> Result<Arc<State>, AllocError>
        ensures moves { Moves (guest_of self.old.pass.now self.old.pass.ghost_name self.old.keepers self.old.unkept) (guest_of self.new.pass.now self.new.pass.ghost_name self.new.keepers self.new.unkept) }
        ensures own { AreOwn (guest_of self.new.pass.now self.new.pass.ghost_name self.new.keepers self.new.unkept) }
        ensures stays { Stays (guest_of self.old.pass.now self.old.pass.ghost_name self.old.keepers self.old.unkept) (guest_of self.new.pass.now self.new.pass.ghost_name self.new.keepers self.new.unkept) }
        ensures keeps_all { KeepsAll (guest_of self.old.pass.now self.old.pass.ghost_name self.old.keepers self.old.unkept) (guest_of self.new.pass.now self.new.pass.ghost_name self.new.keepers self.new.unkept) }
        ensures state { IfOk result (λ s. arc_value s ≡ replay (guest_of self.new.pass.now self.new.pass.ghost_name self.new.keepers self.new.unkept).base (guest_of self.new.pass.now self.new.pass.ghost_name self.new.keepers self.new.unkept).seen) }
        ensures valid { AreValid (guest_of self.new.pass.now self.new.pass.ghost_name self.new.keepers self.new.unkept).base (guest_of self.new.pass.now self.new.pass.ghost_name self.new.keepers self.new.unkept).seen }
        ensures reads { Reads self.old.pass.now.note self.new.pass.now.note }
    {
        self.pass.snapshot(self.rt, alloc, self.room)
    }

    /// Makes an edit, as each house does, in one turn of the pass, whose answer is that of the hall: the hall has the edit then or
    /// not by what it answered.
    fn commit(
        &mut self,
        alloc: Global,
        ask: &Ask,
        csrf: Option<&[u8]>,
        command: &Command,
        now: u64,
    ) -> Answer
        requires right { IsRight command.now }
        requires moment { IsMoment now }
        ensures moves { Moves (guest_of self.old.pass.now self.old.pass.ghost_name self.old.keepers self.old.unkept) (guest_of self.new.pass.now self.new.pass.ghost_name self.new.keepers self.new.unkept) }
        ensures own { AreOwn (guest_of self.new.pass.now self.new.pass.ghost_name self.new.keepers self.new.unkept) }
        ensures keeps_all { KeepsAll (guest_of self.old.pass.now self.old.pass.ghost_name self.old.keepers self.old.unkept) (guest_of self.new.pass.now self.new.pass.ghost_name self.new.keepers self.new.unkept) }
        ensures answers { Answers result (guest_of self.old.pass.now self.old.pass.ghost_name self.old.keepers self.old.unkept) (guest_of self.new.pass.now self.new.pass.ghost_name self.new.keepers self.new.unkept) ask.now (option_copied csrf.entry) command.now now }
        ensures valid { AreValid (guest_of self.new.pass.now self.new.pass.ghost_name self.new.keepers self.new.unkept).base (guest_of self.new.pass.now self.new.pass.ghost_name self.new.keepers self.new.unkept).seen }
        ensures commits { Commits result self.old.pass.now.note self.new.pass.now.note ask.now (option_copied csrf.entry) command.now now }
    {
        let answer = self
            .pass
            .commit(self.rt, alloc, self.room, ask, csrf, command, now);
        self.keepers = counted(self.keepers, &answer);
        answer
    }

    /// What is kept under a key in a bin, as each house finds it, in one turn of the pass, in which the hall is asked for that key
    /// in that bin and answers so. The tally of the pass rises by the answer, as that of the hall does.
    fn look(&mut self, alloc: Global, bin: Bin, key: &Key) -> Result<Found, AllocError>
        ensures moves { Moves (guest_of self.old.pass.now self.old.pass.ghost_name self.old.keepers self.old.unkept) (guest_of self.new.pass.now self.new.pass.ghost_name self.new.keepers self.new.unkept) }
        ensures own { AreOwn (guest_of self.new.pass.now self.new.pass.ghost_name self.new.keepers self.new.unkept) }
        ensures stays { Stays (guest_of self.old.pass.now self.old.pass.ghost_name self.old.keepers self.old.unkept) (guest_of self.new.pass.now self.new.pass.ghost_name self.new.keepers self.new.unkept) }
        ensures looks { LooksUp (guest_of self.old.pass.now self.old.pass.ghost_name self.old.keepers self.old.unkept) (guest_of self.new.pass.now self.new.pass.ghost_name self.new.keepers self.new.unkept) bin key.now result }
        ensures sound { IfOk result (λ found. IsSoundIn (guest_of self.new.pass.now self.new.pass.ghost_name self.new.keepers self.new.unkept) key.now found) }
        ensures tallies { LooksFor result bin key.now self.old.pass.now.note self.new.pass.now.note }
    {
        self.pass.look(self.rt, alloc, self.room, bin, key)
    }

    /// Keeps something under a key in a bin, as each house does, in one turn of the pass, in which the hall keeps it there or
    /// doesn't. The tally of the pass rises by the answer, as that of the hall does.
    fn keep(&mut self, alloc: Global, bin: Bin, key: Key, kept: Kept) -> Result<(), AllocError>
        requires { MayBeKeptIn (guest_of self.old.pass.now self.old.pass.ghost_name self.old.keepers self.old.unkept) key kept }
        ensures moves { Moves (guest_of self.old.pass.now self.old.pass.ghost_name self.old.keepers self.old.unkept) (guest_of self.new.pass.now self.new.pass.ghost_name self.new.keepers self.new.unkept) }
        ensures own { AreOwn (guest_of self.new.pass.now self.new.pass.ghost_name self.new.keepers self.new.unkept) }
        ensures stays { Stays (guest_of self.old.pass.now self.old.pass.ghost_name self.old.keepers self.old.unkept) (guest_of self.new.pass.now self.new.pass.ghost_name self.new.keepers self.new.unkept) }
        ensures keeps { KeepsUnder (guest_of self.old.pass.now self.old.pass.ghost_name self.old.keepers self.old.unkept) (guest_of self.new.pass.now self.new.pass.ghost_name self.new.keepers self.new.unkept) bin key kept result }
        ensures tallies { PutsUnder result bin key kept self.old.pass.now.note self.new.pass.now.note }
    {
        let answer = self.pass.keep(self.rt, alloc, self.room, bin, key, kept);
        self.unkept = unkept_after(self.unkept, &answer);
        answer
    }

    fn faults(&self) -> u64 {
        self.pass.faults()
    }

    fn unkept(&self) -> u64 {
        let _number = self.pass.number();
        self.unkept
    }
}
