//! A seat takes the hall and the desk out of their slots, and gives them back.
ghost use Rattle.std.specs.Prelude.{◌≡◌, ◌≢◌, [], ◌∷◌, Some, None, IfSome, IfNone, All, false};
ghost use Rattle.atomic_table.specs.Table.{rest};
ghost use Rattle.site_hall.specs.Sides.{IsHallSide};
ghost use Rattle.turn_rule.specs.Logs.{StandsFor, whole_of};
ghost use Rattle.turn_rule.specs.Steps.{zeros, bearing, with_hall, with_desk, with_faults, after_look, after_turn, after_forgetting, after_fault, front, Knows, KnowsHall, KnowsDesk, AgreesWith};
ghost use Rattle.site_table.specs.Kinds.{counts_of};
ghost use Rattle.site_table.specs.Turns.{HasCounted, HasTurned, HasForgotten, HasBack, HasDeskBack, AtDesk, turned_place, forgotten_place};
ghost use Rattle.site_table.specs.Views.{IsRoom, part_of, desk_note, nothing, part_in, pass_at, out_at, part_at};

use crate::home::{DeskHome, HallHome};
use crate::kinds::{Count, Deed, Finds, Keeps, Kind, Looks, Nothing};
use crate::rules::{
    Counting, Following, Forgetting, GivingDesk, GivingHall, Marking, Place, Room, TakingDesk,
    TakingHall, Telling,
};
use site_keeper::Keeper;
use std::hint::spin_loop;
use std::sync::Wait;

/// A gate where a seat has out what lies behind it.
const TAKEN: u64 = 1;

/// A gate where one has, and another may wait for it: only then is anybody woken when it comes back.
const AWAITED: u64 = 2;

/// How often a seat that finds a gate closed tries again before it parks. Most turns take less time than to park and to be woken.
const TRIES: u32 = 64;

/// Takes the hall out, where nobody has it, and leaves this in its gate.
fn try_hall<K: Keeper + Drop>(room: &Room<K>, seat: &mut Place<K>, gate: u64) -> Option<HallHome>
    requires gate { gate ≢ 0 }
    requires room { (seat.old.table_id ≡ room.now.table_id) × IsRoom room.now.table_id }
    requires note { seat.old.me.0.fresh ≡ false }
    ensures same { seat.new.table_id ≡ seat.old.table_id }
    ensures taken { IfSome result (λ hall. seat.new.me ≡ (with_hall (Some (part_of hall)) seat.old.me.0, (0, nothing) ∷ seat.old.me.1)) }
    ensures agrees { IfSome result (λ hall. AgreesWith (part_of hall) seat.old.me.0.desk) }
    ensures knows { IfSome result (λ hall. All (KnowsHall (part_of hall)) seat.old.me.0.passes) }
    ensures none { IfNone result (seat.new.me ≡ seat.old.me) }
{
    if room.compare_exchange::<TakingHall>(seat, 1, 0, gate) != 0 {
        return None;
    }
    let (hall, _) = room.exchange(seat, 0, (None, None));
    hall
}

/// Takes the desk out, where nobody has it, and leaves this in its gate.
fn try_desk<K: Keeper + Drop>(room: &Room<K>, seat: &mut Place<K>, gate: u64) -> Option<DeskHome<K>>
    requires gate { gate ≢ 0 }
    requires room { (seat.old.table_id ≡ room.now.table_id) × IsRoom room.now.table_id }
    requires note { seat.old.me.0.fresh ≡ false }
    ensures same { seat.new.table_id ≡ seat.old.table_id }
    ensures taken { IfSome result (λ _. seat.new.me ≡ (with_desk (Some (part_in seat.new.me.0.desk)) seat.old.me.0, (1, nothing) ∷ seat.old.me.1)) }
    ensures stands { IfSome result (λ desk. StandsFor (desk_note desk) (part_in seat.new.me.0.desk)) }
    ensures knows { IfSome result (λ _. All (KnowsDesk (part_in seat.new.me.0.desk)) seat.old.me.0.passes) }
    ensures none { IfNone result (seat.new.me ≡ seat.old.me) }
{
    if room.compare_exchange::<TakingDesk>(seat, 2, 0, gate) != 0 {
        return None;
    }
    let (_, desk) = room.exchange(seat, 1, (None, None));
    desk
}

/// Says in the hall's gate that one waits, where the hall is out.
fn mark_hall<K: Keeper>(room: &Room<K>, seat: &mut Place<K>)
    requires room { (seat.old.table_id ≡ room.now.table_id) × IsRoom room.now.table_id }
    requires note { seat.old.me.0.fresh ≡ false }
    ensures same { seat.new.table_id ≡ seat.old.table_id }
    ensures stays { seat.new.me ≡ seat.old.me }
{
    let _found = room.compare_exchange::<Marking>(seat, 1, TAKEN, AWAITED);
}

/// Says in the desk's gate that one waits, where the desk is out.
fn mark_desk<K: Keeper>(room: &Room<K>, seat: &mut Place<K>)
    requires room { (seat.old.table_id ≡ room.now.table_id) × IsRoom room.now.table_id }
    requires note { seat.old.me.0.fresh ≡ false }
    ensures same { seat.new.table_id ≡ seat.old.table_id }
    ensures stays { seat.new.me ≡ seat.old.me }
{
    let _found = room.compare_exchange::<Marking>(seat, 2, TAKEN, AWAITED);
}

/// Takes the hall out, once nobody else has it. All passes on the seat know it.
pub fn take_hall<K: Keeper + Drop, R: Wait>(rt: &R, room: &Room<K>, seat: &mut Place<K>) -> HallHome
    requires room { (seat.old.table_id ≡ room.now.table_id) × IsRoom room.now.table_id }
    requires note { seat.old.me.0.fresh ≡ false }
    ensures same { seat.new.table_id ≡ seat.old.table_id }
    ensures taken { seat.new.me ≡ (with_hall (Some (part_of result)) seat.old.me.0, (0, nothing) ∷ seat.old.me.1) }
    ensures agrees { AgreesWith (part_of result) seat.old.me.0.desk }
    ensures knows { All (KnowsHall (part_of result)) seat.old.me.0.passes }
{
    let mut gate = TAKEN;
    let mut tries = TRIES;
    'tries: for _ in rt.forever() {
        if let Some(hall) = try_hall(room, seat, gate) {
            return hall;
        }
        if tries > 0 {
            tries -= 1;
            spin_loop();
            continue;
        }
        gate = AWAITED;
        mark_hall(room, seat);
        room.park(rt, 1, AWAITED as u32);
    }
    unreachable!()
}

/// Takes the desk out, once nobody else has it. Its keeper stands for the log, and all passes on the seat know it.
pub fn take_desk<K: Keeper + Drop, R: Wait>(
    rt: &R,
    room: &Room<K>,
    seat: &mut Place<K>,
) -> DeskHome<K>
    requires room { (seat.old.table_id ≡ room.now.table_id) × IsRoom room.now.table_id }
    requires note { seat.old.me.0.fresh ≡ false }
    ensures same { seat.new.table_id ≡ seat.old.table_id }
    ensures taken { seat.new.me ≡ (with_desk (Some (part_in seat.new.me.0.desk)) seat.old.me.0, (1, nothing) ∷ seat.old.me.1) }
    ensures stands { StandsFor (desk_note result) (part_in seat.new.me.0.desk) }
    ensures knows { All (KnowsDesk (part_in seat.new.me.0.desk)) seat.old.me.0.passes }
{
    let mut gate = TAKEN;
    let mut tries = TRIES;
    'tries: for _ in rt.forever() {
        if let Some(desk) = try_desk(room, seat, gate) {
            return desk;
        }
        if tries > 0 {
            tries -= 1;
            spin_loop();
            continue;
        }
        gate = AWAITED;
        mark_desk(room, seat);
        room.park(rt, 2, AWAITED as u32);
    }
    unreachable!()
}

/// Opens the gate of the hall, which lies in its slot again, and wakes one where one waits.
fn open_gate<K: Keeper>(room: &Room<K>, seat: &mut Place<K>)
    requires room { (seat.old.table_id ≡ room.now.table_id) × IsRoom room.now.table_id }
    requires back { HasBack seat.old.me }
    ensures same { seat.new.table_id ≡ seat.old.table_id }
    ensures open { seat.new.me ≡ (with_hall None seat.old.me.0, rest seat.old.me.1) }
{
    let gate = room.swap::<GivingHall>(seat, 1, 0);
    if gate == AWAITED {
        room.wake_one(1);
    }
}

/// Gives the hall back for a pass, after a turn that left the log as it was and counted this. The pass notes the hall as the turn found it,
/// and as it left it.
fn count_back<T: Count, K: Keeper + Drop>(room: &Room<K>, seat: &mut Place<K>, hall: HallHome)
    requires room { (seat.old.table_id ≡ room.now.table_id) × IsRoom room.now.table_id }
    requires out { HasCounted T.counts seat.old.me hall }
    ensures same { seat.new.table_id ≡ seat.old.table_id }
    ensures back { seat.new.me ≡ (with_desk seat.old.me.0.desk (bearing (after_look T.counts (out_at seat.old.me) (part_of hall) (pass_at seat.old.me))), rest seat.old.me.1) }
    ensures knows { KnowsHall (part_of hall) (after_look T.counts (out_at seat.old.me) (part_of hall) (pass_at seat.old.me)) }
    ensures is_hall { IsHallSide hall }
{
    let _length = hall.len();
    room.exchange(seat, 0, (Some(hall), None));
    room.load::<Counting<T>>(seat, 0);
    open_gate(room, seat);
}

/// Gives the hall back for a pass, after a turn that left the log as it was and did this deed, which is counted.
pub fn count_deed<K: Keeper + Drop>(room: &Room<K>, seat: &mut Place<K>, hall: HallHome, deed: Deed)
    requires room { (seat.old.table_id ≡ room.now.table_id) × IsRoom room.now.table_id }
    requires out { HasCounted (counts_of deed) seat.old.me hall }
    ensures same { seat.new.table_id ≡ seat.old.table_id }
    ensures back { seat.new.me ≡ (with_desk seat.old.me.0.desk (bearing (after_look (counts_of deed) (out_at seat.old.me) (part_of hall) (pass_at seat.old.me))), rest seat.old.me.1) }
    ensures knows { KnowsHall (part_of hall) (after_look (counts_of deed) (out_at seat.old.me) (part_of hall) (pass_at seat.old.me)) }
    ensures is_hall { IsHallSide hall }
{
    match deed {
        Deed::Nothing => count_back::<Nothing, K>(room, seat, hall),
        Deed::Looked => count_back::<Looks, K>(room, seat, hall),
        Deed::Found => count_back::<Finds, K>(room, seat, hall),
        Deed::Kept => count_back::<Keeps, K>(room, seat, hall),
    }
}

/// Gives the hall back for a pass that has the desk, after a turn of the kind `T` in which the log grew by `grown` edits; the
/// table's first word follows.
pub fn follow_back<T: Kind, K: Keeper + Drop>(
    room: &Room<K>,
    seat: &mut Place<K>,
    hall: HallHome,
    grown: u64,
)
    requires room { (seat.old.table_id ≡ room.now.table_id) × IsRoom room.now.table_id }
    requires out { HasTurned T.hands seat.old.me hall grown }
    ensures same { seat.new.table_id ≡ seat.old.table_id }
    ensures back { seat.new.me ≡ turned_place T.hands (part_of hall) seat.old.me }
    ensures knows { Knows (whole_of (part_of hall) (part_at seat.old.me)) (after_turn zeros T.hands (whole_of (part_of hall) (part_at seat.old.me)) (pass_at seat.old.me)) }
{
    let _length = hall.len();
    room.exchange(seat, 0, (Some(hall), None));
    room.fetch_add::<Following<T>>(seat, 0, grown);
    open_gate(room, seat);
}

/// Gives the hall back for a pass that has the desk, after a turn in which the edit that it handed in last was forgotten.
pub fn forget_back<K: Keeper + Drop>(room: &Room<K>, seat: &mut Place<K>, hall: HallHome)
    requires room { (seat.old.table_id ≡ room.now.table_id) × IsRoom room.now.table_id }
    requires out { HasForgotten seat.old.me hall }
    ensures same { seat.new.table_id ≡ seat.old.table_id }
    ensures back { seat.new.me ≡ forgotten_place (part_of hall) seat.old.me }
    ensures knows { Knows (whole_of (part_of hall) (part_at seat.old.me)) (after_forgetting (front (pass_at seat.old.me).handed) (whole_of (part_of hall) (part_at seat.old.me)) (pass_at seat.old.me)) }
{
    room.exchange(seat, 0, (Some(hall), None));
    room.load::<Forgetting>(seat, 0);
    open_gate(room, seat);
}

/// Opens the gate of the desk, which lies in its slot again, and wakes one where one waits.
fn open_door<K: Keeper>(room: &Room<K>, seat: &mut Place<K>)
    requires room { (seat.old.table_id ≡ room.now.table_id) × IsRoom room.now.table_id }
    requires back { HasDeskBack seat.old.me }
    ensures same { seat.new.table_id ≡ seat.old.table_id }
    ensures open { seat.new.me ≡ (with_desk None seat.old.me.0, rest seat.old.me.1) }
{
    let gate = room.swap::<GivingDesk>(seat, 2, 0);
    if gate == AWAITED {
        room.wake_one(2);
    }
}

/// Gives the desk back for a pass, and tells how often its keeper has failed.
pub fn give_desk<K: Keeper + Drop>(room: &Room<K>, seat: &mut Place<K>, desk: DeskHome<K>)
    requires room { (seat.old.table_id ≡ room.now.table_id) × IsRoom room.now.table_id }
    requires at { AtDesk seat.old.me desk }
    ensures same { seat.new.table_id ≡ seat.old.table_id }
    ensures back { seat.new.me ≡ (bearing (after_fault desk.faults (part_at seat.old.me) (pass_at seat.old.me)), []) }
    ensures knows { KnowsDesk (with_faults desk.faults (part_at seat.old.me)) (after_fault desk.faults (part_at seat.old.me) (pass_at seat.old.me)) }
{
    room.exchange(seat, 1, (None, Some(desk)));
    room.load::<Telling>(seat, 0);
    open_door(room, seat);
}
