//! The table with the hall and the desk, and the founder of its passes.
ghost use Rattle.std.specs.Prelude.{◌≡◌, ◌<◌, ◌+◌, ◌^◌, [], ◌∷◌, Option, None, IfOk, IfErr};
ghost use Rattle.content_state.specs.Replay.{Begins};
ghost use Rattle.site_keeper.specs.Keeper.{Kept};
ghost use Rattle.site_hall.specs.Sides.{Stands, hall_side, desk_side, engine_of};
ghost use Rattle.site_table.specs.Views.{IsRoom};
ghost use Rattle.turn_rule.specs.Rule.{unopened};
ghost use Rattle.turn_rule.specs.Steps.{founding, new_pass, longer, seeing};
ghost use Rattle.site_turn.specs.Views.{noted};

use crate::pass::Pass;
use atomic_table::Badge;
use site_hall::Engine;
use site_keeper::Keeper;
use site_table::{
    DeskHome, Drawing, GivingDesk, GivingHall, HallHome, Meeting, Opening, Place, Room, Seating,
    SiteTable, new_table,
};
use std::alloc::Global;
use std::marker::Model;
use std::mem;
use turn_rule::Note;

/// A site whose hall and desk threads share, each by a pass of its own. Contracts see the table that it lies in, how many passes were
/// made, and the engine that it was opened with.
#[derive(Drop)]
pub struct Site<K: Keeper> {
    pub(crate) table: SiteTable<K>,
    pub(crate) founder: Badge<Note>,
    made: u32,
    faults: u64,
}

impl<K: Keeper> Model for Site<K> {
    ghost use Rattle.site_turn.specs.Views.{SiteView, HasFounder, founder_of};

    ghost Value = { SiteView };

    ghost view = { λ s. record { table = s.table.shared.table_id; founder = founder_of s.founder.views } };

    ghost invariant = { λ s. HasFounder s.table.shared.table_id s.founder.table_id s.founder.views s.made s.faults };
}

/// A hall and a desk behind pointers, which are the two sides of an engine. `Err` gives the engine back, only where memory is wanting.
fn homes_of<K: Keeper>(
    alloc: Global,
    engine: Engine<K>,
) -> Result<(HallHome, DeskHome<K>), Engine<K>>
    requires { engine.pending ≡ None }
    ensures hall { IfOk result (λ homes. homes.0 ≡ hall_side engine) }
    ensures desk { IfOk result (λ homes. homes.1 ≡ desk_side engine) }
    ensures stands { IfOk result (λ homes. Stands engine.opened homes.0 homes.1) }
    ensures back { IfErr result (λ back. back ≡ engine) }
{
    let (hall, desk) = engine.into_sides();
    match HallHome::new(alloc, hall) {
        Ok(hall) => match DeskHome::new(alloc, desk) {
            Ok(desk) => Ok((hall, desk)),
            Err(desk) => Err(Engine::of_sides(hall.into_hall(), desk)),
        },
        Err(hall) => Err(Engine::of_sides(hall, desk)),
    }
}

impl<K: Keeper + Drop> Site<K> {
    /// The site of this engine, where nothing is pending. No pass is made yet. `Err` gives the engine back, only where memory is
    /// wanting.
    pub fn new(alloc: Global, engine: Engine<K>) -> Result<Site<K>, Engine<K>>
        requires { engine.pending ≡ None }
        ensures opened { IfOk result (λ site. site.founder ≡ record { made = 0; opened = noted engine }) }
        ensures back { IfErr result (λ back. back ≡ engine) }
    {
        let (hall, desk) = homes_of(alloc, engine)?;
        match new_table(alloc) {
            Ok((table, seat)) => Ok(Site::opened(table, seat, hall, desk)),
            Err(_) => Err(Engine::of_sides(hall.into_hall(), desk.into_desk())),
        }
    }

    /// Opens the site with the hall and the desk, at the table's first seat.
    fn opened(table: SiteTable<K>, mut seat: Place<K>, hall: HallHome, desk: DeskHome<K>) -> Site<K>
        requires none { hall.pending ≡ None }
        requires stands { (told : Option Kept) × Stands told hall desk }
        requires room { (seat.table_id ≡ table.shared.table_id) × IsRoom table.shared.table_id }
        requires seat { seat.me ≡ (unopened, []) }
        ensures { (told : Option Kept) → Stands told hall desk → result.founder ≡ record { made = 0; opened = noted (engine_of told hall desk) } }
    {
        let length = hall.len() as u64;
        let faults = desk.faults();
        let tally = hall.tally();
        counts_fit(tally.looks, tally.found, tally.kept);
        let both = (Some(hall), Some(desk));
        table
            .shared
            .compare_exchange_with::<Opening>(&mut seat, 0, 0, length, &both);
        let (hall, desk) = both;
        table.shared.exchange(&mut seat, 0, (hall, None));
        table.shared.store::<GivingHall>(&mut seat, 1, 0);
        table.shared.exchange(&mut seat, 1, (None, desk));
        table.shared.store::<GivingDesk>(&mut seat, 2, 0);
        Site {
            table,
            founder: seat.into_badge(),
            made: 0,
            faults,
        }
    }
}

impl<K: Keeper> Site<K> {
    /// The room: what the threads of the site share.
    pub fn room(&self) -> &Room<K>
        ensures same { result.now.table_id ≡ self.now.table }
        ensures room { IsRoom result.now.table_id }
    {
        &self.table.shared
    }

    /// How many passes were made.
    pub fn made(&self) -> u32
        ensures { result ≡ self.now.founder.made }
    {
        self.made
    }

    /// A new pass, with the next number. It has seen what the site was opened with, and handed nothing in.
    pub fn new_pass(&mut self) -> Pass
        requires { self.old.founder.made < 4294967295 }
        ensures new { result ≡ record { table = self.old.table; note = new_pass self.old.founder } }
        ensures made { self.new ≡ record self.old { founder = record self.old.founder { made = self.old.founder.made + 1 } } }
    {
        let founder = mem::replace(&mut self.founder, Badge::blank());
        let mut seat = founder.into_seat();
        self.table.shared.load::<Drawing>(&mut seat, 0);
        let new = self.table.shared.split_seat::<Seating>(&mut seat);
        self.founder = seat.into_badge();
        let number = self.made;
        self.made += 1;
        Pass {
            seat: new.into_badge(),
            number,
            faults: self.faults,
        }
    }

    /// Two passes of this site tell each other what they have seen: both have seen the longer log then, of which what each had seen is
    /// a front.
    pub fn meet(&self, one: &mut Pass, other: &mut Pass)
        requires one { one.old.table ≡ self.now.table }
        requires other { other.old.table ≡ self.now.table }
        ensures one { one.new ≡ record one.old { note = seeing (longer one.old.note.seen other.old.note.seen) one.old.note } }
        ensures other { other.new ≡ record other.old { note = seeing (longer one.old.note.seen other.old.note.seen) other.old.note } }
        ensures begins { Begins one.old.note.seen one.new.note.seen × Begins other.old.note.seen other.new.note.seen }
    {
        let first = mem::replace(&mut one.seat, Badge::blank());
        let second = mem::replace(&mut other.seat, Badge::blank());
        let mut seat = second.into_seat();
        self.table
            .shared
            .join_seat::<Seating>(&mut seat, first.into_seat());
        self.table.shared.load::<Meeting>(&mut seat, 0);
        let new = self.table.shared.split_seat::<Seating>(&mut seat);
        one.seat = new.into_badge();
        other.seat = seat.into_badge();
    }

    /// The table, and the founder's seat.
    pub(crate) fn into_parts(self) -> (SiteTable<K>, Badge<Note>)
        ensures table { result.0.shared.table_id ≡ self.table }
        ensures room { IsRoom self.table }
        ensures seat { result.1.table_id ≡ self.table }
        ensures founds { result.1.views ≡ founding self.founder ∷ [] }
    {
        let Site {
            table,
            founder,
            made: _,
            faults: _,
        } = self;
        (table, founder)
    }
}

/// What is counted fits.
fn counts_fit(looks: u64, found: u64, kept: u64)
    ensures looks { looks < 2 ^ 64 }
    ensures found { found < 2 ^ 64 }
    ensures kept { kept < 2 ^ 64 }
{}
