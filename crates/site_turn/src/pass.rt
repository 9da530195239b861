//! One caller of a site, and its turns.
ghost use Rattle.std.specs.Prelude.{◌≡◌, [], ◌∷◌, Some, IfOk};
ghost use Rattle.std.specs.Arc.{arc_value};
ghost use Rattle.std.specs.Option.{option_copied};
ghost use Rattle.content_rows.specs.Kinds.{IsMoment};
ghost use Rattle.content_state.specs.Replay.{replay};
ghost use Rattle.site_commands.specs.Right.{IsRight};
ghost use Rattle.cache_entries.specs.Sound.{IsSoundKept, IsSoundFound};
ghost use Rattle.page_meaning.specs.Meaning.{meaning};
ghost use Rattle.site_hall.specs.Sides.{IsHallSide};
ghost use Rattle.site_table.specs.Kinds.{counts_of};
ghost use Rattle.site_table.specs.Views.{IsRoom, part_of, nothing, pass_of, pass_at, out_at};
ghost use Rattle.turn_rule.specs.Steps.{AreOwnIn, KnowsHall, bearing, with_hall, after_look};
ghost use Rattle.site_turn.specs.Turns.{IsOut, Reads, LooksFor, PutsUnder, Commits};

use crate::edit::edit;
use atomic_table::Badge;
use cache_entries::{Bin, Found, Kept, Key};
use content_state::{Ask, State};
use site_commands::{Answer, Command};
use site_keeper::Keeper;
use site_table::{
    Deed, HallHome, Place, Room, count_deed, give_desk, kept_by, looked_by, take_desk, take_hall,
};
use std::alloc::{AllocError, Global};
use std::marker::Model;
use std::mem;
use std::sync::{Arc, Wait};
use turn_rule::Note;

/// A pass to a site. It goes between threads, and holds nothing between calls. Contracts see the table that the site lies in, and
/// what the pass knows: its number, what it has seen and what it handed in.
#[derive(Drop)]
pub struct Pass {
    pub(crate) seat: Badge<Note>,
    pub(crate) number: u32,
    pub(crate) faults: u64,
}

impl Model for Pass {
    ghost use Rattle.site_table.specs.Views.{pass_of};
    ghost use Rattle.site_turn.specs.Views.{PassView, HasPass};

    ghost Value = { PassView };

    ghost view = { λ p. record { table = p.seat.table_id; note = pass_of p.seat.views } };

    ghost invariant = { λ p. HasPass p.seat.views p.number p.faults };
}

/// Takes the hall out for a pass.
fn out<K: Keeper + Drop, R: Wait>(
    rt: &R,
    room: &Room<K>,
    badge: Badge<Note>,
) -> (Place<K>, HallHome)
    requires room { (badge.table_id ≡ room.now.table_id) × IsRoom room.now.table_id }
    requires bears { badge.views ≡ bearing (pass_of badge.views) ∷ [] }
    ensures same { result.0.table_id ≡ badge.table_id }
    ensures taken { result.0.me ≡ (with_hall (Some (part_of result.1)) (bearing (pass_of badge.views)), (0, nothing) ∷ []) }
    ensures knows { KnowsHall (part_of result.1) (pass_of badge.views) }
{
    let mut seat = badge.into_seat();
    let hall = take_hall(rt, room, &mut seat);
    (seat, hall)
}

/// Gives the hall back for a pass, after a turn that did this. From then on all know what the turn did.
fn back<K: Keeper + Drop>(
    room: &Room<K>,
    mut seat: Place<K>,
    hall: HallHome,
    deed: Deed,
) -> Badge<Note>
    requires room { (seat.table_id ≡ room.now.table_id) × IsRoom room.now.table_id }
    requires out { IsOut (counts_of deed) seat.me hall }
    ensures same { result.table_id ≡ seat.table_id }
    ensures back { result.views ≡ bearing (after_look (counts_of deed) (out_at seat.me) (part_of hall) (pass_at seat.me)) ∷ [] }
    ensures knows { KnowsHall (part_of hall) (after_look (counts_of deed) (out_at seat.me) (part_of hall) (pass_at seat.me)) }
    ensures own { AreOwnIn (pass_of result.views) (pass_of result.views).seen }
    ensures is_hall { IsHallSide hall }
{
    count_deed(room, &mut seat, hall, deed);
    seat.into_badge()
}

impl Pass {
    /// The number that its edits bear. Those of them that it has seen, since the site was opened, are of the ones that it handed in, in
    /// that order.
    pub fn number(&self) -> u32
        ensures number { result ≡ self.now.note.number }
        ensures own { AreOwnIn self.now.note self.now.note.seen }
    {
        self.number
    }

    /// How often the keeper had failed when the pass made its last edit, or when it was made: a reader doesn't ask the keeper.
    pub(crate) fn faults(&self) -> u64
        ensures count { result ≡ self.now.note.faults }
        ensures own { AreOwnIn self.now.note self.now.note.seen }
    {
        self.faults
    }

    /// The newest state, in a turn that hands nothing in.
    pub(crate) fn snapshot<K: Keeper + Drop, R: Wait>(
        &mut self,
        rt: &R,
        alloc: Global,
        room: &Room<K>,
    ) -> Result<Arc<State>, AllocError>
        requires { (self.old.table ≡ room.now.table_id) × IsRoom room.now.table_id }
        ensures same { self.new.table ≡ self.old.table }
        ensures looks { Reads self.old.note self.new.note }
        ensures state { IfOk result (λ state. arc_value state ≡ replay self.new.note.opened.loaded.base self.new.note.seen) }
    {
        let badge = mem::replace(&mut self.seat, Badge::blank());
        let (seat, hall) = out(rt, room, badge);
        let state = hall.snapshot(alloc);
        self.seat = back(room, seat, hall, Deed::Nothing);
        state
    }

    /// What is kept of pages under a key in a bin, in a turn. An entry is sound over all that the pass has now seen.
    pub(crate) fn look<K: Keeper + Drop, R: Wait>(
        &mut self,
        rt: &R,
        alloc: Global,
        room: &Room<K>,
        bin: Bin,
        key: &Key,
    ) -> Result<Found, AllocError>
        requires { (self.old.table ≡ room.now.table_id) × IsRoom room.now.table_id }
        ensures same { self.new.table ≡ self.old.table }
        ensures looks { LooksFor result bin key.now self.old.note self.new.note }
        ensures sound { IfOk result (λ found. IsSoundFound meaning self.new.note.opened.loaded.base self.new.note.seen key.now found) }
    {
        let badge = mem::replace(&mut self.seat, Badge::blank());
        let (seat, mut hall) = out(rt, room, badge);
        let found = hall.look(alloc, bin, key);
        let deed = looked_by(&found);
        self.seat = back(room, seat, hall, deed);
        found
    }

    /// Keeps something of pages under a key in a bin, in a turn. An entry has to be sound over what the pass has seen.
    pub(crate) fn keep<K: Keeper + Drop, R: Wait>(
        &mut self,
        rt: &R,
        alloc: Global,
        room: &Room<K>,
        bin: Bin,
        key: Key,
        kept: Kept,
    ) -> Result<(), AllocError>
        requires room { (self.old.table ≡ room.now.table_id) × IsRoom room.now.table_id }
        requires sound { IsSoundKept meaning self.old.note.opened.loaded.base self.old.note.seen key kept }
        ensures same { self.new.table ≡ self.old.table }
        ensures looks { PutsUnder result bin key kept self.old.note self.new.note }
    {
        let badge = mem::replace(&mut self.seat, Badge::blank());
        let (seat, mut hall) = out(rt, room, badge);
        let answer = hall.keep(alloc, bin, key, kept);
        let deed = kept_by(&answer);
        self.seat = back(room, seat, hall, deed);
        answer
    }

    /// Makes an edit: the pass has the desk out from the first of its turns to the last, and the hall for a call at a time, never while the
    /// keeper writes.
    pub(crate) fn commit<K: Keeper + Drop, R: Wait>(
        &mut self,
        rt: &R,
        alloc: Global,
        room: &Room<K>,
        ask: &Ask,
        csrf: Option<&[u8]>,
        command: &Command,
        now: u64,
    ) -> Answer
        requires room { (self.old.table ≡ room.now.table_id) × IsRoom room.now.table_id }
        requires right { IsRight command.now }
        requires moment { IsMoment now }
        ensures same { self.new.table ≡ self.old.table }
        ensures commits { Commits result self.old.note self.new.note ask.now (option_copied csrf.entry) command.now now }
    {
        let badge = mem::replace(&mut self.seat, Badge::blank());
        let mut seat = badge.into_seat();
        let mut desk = take_desk(rt, room, &mut seat);
        let answer = edit(
            rt,
            alloc,
            room,
            &mut seat,
            &mut desk,
            ask,
            csrf,
            command,
            now,
            self.number,
        );
        self.faults = desk.faults();
        give_desk(room, &mut seat, desk);
        self.seat = seat.into_badge();
        answer
    }
}
