//! The end of a site.
ghost use Rattle.std.specs.Prelude.{◌≡◌, ◌<◌, ℕ, IfOk, IfErr, IfSome, IfNone, true, false, []};
ghost use Rattle.site_hall.specs.Hall.{IsHall};
ghost use Rattle.turn_rule.specs.Steps.{with_passes};
ghost use Rattle.site_table.specs.Views.{IsRoom};
ghost use Rattle.site_turn.specs.Views.{noted};
ghost use Rattle.site_turn.specs.Closing.{notes_of, AreOf, has_number, IsClosed, EndsWith};

use crate::pass::Pass;
use crate::site::Site;
use site_hall::Engine;
use site_keeper::Keeper;
use site_table::{Place, Room, Seating, SiteTable, take_desk, take_hall};
use std::sync::Wait;

/// A site that wasn't closed, with the passes that were handed back: the pass with the number `missing` was made and isn't among these.
#[derive(Drop)]
pub struct Unclosed<K: Keeper> {
    pub site: Site<K>,
    pub passes: Vec<Pass>,
    pub missing: u32,
}

/// Whether one of these has this number.
fn has(passes: &[Pass], number: u32) -> bool
    ensures { result ≡ has_number number passes.now }
{
    passes.iter().any(|pass| pass.number() == number)
}

/// The least number of a pass that was made and isn't among these, where so many were made.
fn least_missing(made: u32, passes: &[Pass]) -> Option<u32>
    ensures missing { IfSome result (λ missing. (missing < made) × (has_number missing passes.now ≡ false)) }
    ensures least { IfSome result (λ missing. (number : ℕ) → number < missing → has_number number passes.now ≡ true) }
    ensures none { IfNone result ((number : ℕ) → number < made → has_number number passes.now ≡ true) }
{
    'numbers: for number in 0..made {
        if !has(passes, number) {
            return Some(number);
        }
    }
    None
}

/// Puts all passes on the seat.
fn gather<K: Keeper>(room: &Room<K>, mut seat: Place<K>, mut passes: Vec<Pass>) -> Place<K>
    requires room { (seat.table_id ≡ room.now.table_id) × IsRoom room.now.table_id }
    requires here { AreOf room.now.table_id passes.items }
    requires note { (seat.me.0.fresh ≡ false) × (seat.me.0.passes ≡ []) }
    ensures same { result.table_id ≡ seat.table_id }
    ensures gathered { result.me ≡ (with_passes (notes_of passes.items) seat.me.0, seat.me.1) }
{
    'passes: while let Some(pass) = passes.pop() {
        let Pass { seat: badge, .. } = pass;
        room.join_seat::<Seating>(&mut seat, badge.into_seat());
    }
    seat
}

/// Ends the table, whose rule tells what is true at the end.
fn end<K: Keeper + Drop>(table: SiteTable<K>, seat: Place<K>)
    requires room { (seat.table_id ≡ table.shared.table_id) × IsRoom table.shared.table_id }
    requires note { seat.me.0.fresh ≡ false }
    ensures { EndsWith seat.me.0 }
{
    let mut closed = table.close_with(seat);
    drop(closed.take(0));
    drop(closed.take(1));
    closed.free();
}

impl<K: Keeper + Drop> Site<K> {
    /// The engine, once all passes that were made are handed back, which are passes of this site. Otherwise all come back, with the
    /// least number of a pass that was made and isn't among them. It waits until nobody else has the desk or the hall.
    pub fn close<R: Wait>(self, rt: &R, passes: Vec<Pass>) -> Result<Engine<K>, Unclosed<K>>
        requires { AreOf self.table passes.items }
        ensures closed { IfOk result (λ engine. IsClosed self.founder (noted engine) (notes_of passes.items)) }
        ensures is_hall { IfOk result (λ engine. IsHall engine) }
        ensures back { IfErr result (λ left. (left.site ≡ self) × (left.passes.items ≡ passes.items)) }
        ensures missing { IfErr result (λ left. (left.missing < self.founder.made) × (has_number left.missing passes.items ≡ false)) }
        ensures least { IfErr result (λ left. (number : ℕ) → number < left.missing → has_number number passes.items ≡ true) }
    {
        match least_missing(self.made(), &passes) {
            Some(missing) => Err(Unclosed {
                site: self,
                passes,
                missing,
            }),
            None => Ok(self.closed(rt, passes)),
        }
    }

    /// The engine, with all passes on the founder's seat, which ends the table.
    fn closed<R: Wait>(self, rt: &R, passes: Vec<Pass>) -> Engine<K>
        requires here { AreOf self.table passes.items }
        requires all { (number : ℕ) → number < self.founder.made → has_number number passes.items ≡ true }
        ensures closed { IsClosed self.founder (noted result) (notes_of passes.items) }
        ensures is_hall { IsHall result }
    {
        let (table, founder) = self.into_parts();
        let mut seat = founder.into_seat();
        let desk = take_desk(rt, &table.shared, &mut seat);
        let hall = take_hall(rt, &table.shared, &mut seat);
        let seat = gather(&table.shared, seat, passes);
        end(table, seat);
        Engine::of_sides(hall.into_hall(), desk.into_desk())
    }
}
