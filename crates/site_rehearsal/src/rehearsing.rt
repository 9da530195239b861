//! Rehearsals.
ghost use Rattle.std.specs.Prelude.{◌≡◌, ◌≢◌, ℕ, IfOk, IfErr, OnOk, All, Some, true};
ghost use Rattle.std.specs.Arc.{arc_value};
ghost use Rattle.std.specs.Ordering.{nat_cmp};
ghost use Rattle.std.specs.BTreeMap.{get};
ghost use Rattle.indexed_rows.specs.Rows.{AreValidRows};
ghost use Rattle.content_state.specs.SiteRules.{IsRefusal};
ghost use Rattle.site_keeper.specs.Memory.{made_of};
ghost use Rattle.site_hall.specs.Opened.{stock_in, opened_in};
ghost use Rattle.site_rehearsal.specs.Seats.{seat_or};
ghost use Rattle.site_rehearsal.specs.Rehearsed.{MayTake, IsStage, stage_of, Takes, RehearsedOn, IsOpened, RehearsesIn, Rehearses};
ghost use Rattle.site_rehearsal.specs.Counted.{AreCounted};

use crate::acting::act;
use crate::seats::Seat;
use crate::turn::{Reply, Turn};
use content_state::{Refusal, State};
use site_hall::{Engine, NoEngine, Rooms};
use site_keeper::{Keeper, MemoryKeeper, Stored};
use std::alloc::{AllocError, Global};
use std::collections::BTreeMap;
use std::sync::Arc;

/// The seat of a requester, taken out.
fn take_seat(
    base: &Arc<State>,
    seats: &mut BTreeMap<u32, Seat>,
    requester: u32,
) -> Result<Seat, AllocError>
    ensures seat { IfOk result (λ seat. seat ≡ seat_or (arc_value base.now) (get nat_cmp seats.old requester)) }
    ensures others { (n : ℕ) → n ≢ requester → get nat_cmp seats.new n ≡ get nat_cmp seats.old n }
{
    match seats.remove(&requester) {
        Some(seat) => Ok(seat),
        None => Ok(Seat {
            state: Arc::try_clone(base)?,
            built: None,
        }),
    }
}

/// A seat put back.
fn put_seat(seats: &mut BTreeMap<u32, Seat>, requester: u32, seat: Seat) -> Result<(), AllocError>
    ensures here { OnOk result (get nat_cmp seats.new requester ≡ Some seat) }
    ensures others { (n : ℕ) → n ≢ requester → get nat_cmp seats.new n ≡ get nat_cmp seats.old n }
{
    match seats.insert(requester, seat) {
        Ok(_) => Ok(()),
        Err(_) => Err(AllocError),
    }
}

/// Takes a turn of a requester over the engine, and gives the reply to it.
fn take_turn<K: Keeper>(
    alloc: Global,
    hall: &mut Engine<K>,
    base: &Arc<State>,
    seats: &mut BTreeMap<u32, Seat>,
    turn: &Turn,
) -> Result<Reply, AllocError>
    requires base { arc_value base.now ≡ hall.old.base }
    requires stage { IsStage (stage_of hall.old seats.old) }
    requires may { MayTake turn.now }
    ensures takes { IfOk result (λ reply. Takes turn.now reply (stage_of hall.old seats.old) (stage_of hall.new seats.new)) }
    ensures stage { OnOk result (IsStage (stage_of hall.new seats.new)) }
    ensures base { OnOk result (hall.new.base ≡ hall.old.base) }
{
    let mut seat = take_seat(base, seats, turn.requester)?;
    let reply = act(alloc, hall, &mut seat, turn.requester, &turn.act)?;
    put_seat(seats, turn.requester, seat)?;
    Ok(reply)
}

/// Turns, one after the other.
fn take_turns<K: Keeper>(
    alloc: Global,
    hall: &mut Engine<K>,
    turns: &[Turn],
) -> Result<Vec<Reply>, AllocError>
    requires opened { IsOpened hall.old }
    requires may { All MayTake turns.now }
    ensures { IfOk result (λ replies. RehearsedOn hall.old turns.now replies.items) }
{
    let _published = hall.len();
    let base = hall.snapshot(alloc)?;
    let mut seats = BTreeMap::new(alloc);
    let mut replies = Vec::new(alloc);
    for turn in turns {
        let reply = take_turn(alloc, hall, &base, &mut seats, turn)?;
        replies.push(reply)?;
    }
    Ok(replies)
}

/// Why there is no engine.
fn why_of<K: Drop>(none: NoEngine<K>) -> Refusal
    ensures { result ≡ none.why }
{
    let NoEngine {
        keeper: _,
        stored: _,
        why,
    } = none;
    why
}

/// The engine of a site, with a keeper in memory that never fails, and room for so many things in the bins.
fn opened(alloc: Global, base: Stored, rooms: Rooms) -> Result<Engine<MemoryKeeper>, Refusal>
    requires { AreValidRows base.rows }
    ensures opened { IfOk result (λ hall. hall ≡ opened_in (stock_in rooms) base (Some (made_of base)) 0 true) }
    ensures refused { IfErr result (λ why. IsRefusal base.rows base.head why) }
{
    let Ok(copy) = base.duplicate(alloc) else {
        return Err(Refusal::OutOfMemory);
    };
    let keeper = MemoryKeeper::new(alloc, copy, Vec::new(alloc));
    match Engine::with_rooms(alloc, keeper, base, rooms) {
        Ok(hall) => Ok(hall),
        Err(none) => Err(why_of(none)),
    }
}

/// The replies to turns of requesters over a site, one after the other: the engine of what is given is theirs alone, with a
/// keeper in memory that never fails, and bins with room for so many things; and each requester is on a state of its own, the one
/// of its last snapshot or accepted edit. What is given is refused where it is no site; and where memory is wanting, in any turn,
/// all is.
pub fn rehearse_in(
    alloc: Global,
    base: Stored,
    rooms: Rooms,
    turns: &[Turn],
) -> Result<Vec<Reply>, Refusal>
    requires rows { AreValidRows base.rows }
    requires may { All MayTake turns.now }
    ensures rehearsed { IfOk result (λ replies. RehearsesIn rooms base turns.now replies.items) }
    ensures counted { IfOk result (λ replies. AreCounted base.head replies.items) }
    ensures refused { IfErr result (λ why. IsRefusal base.rows base.head why) }
{
    let mut hall = opened(alloc, base, rooms)?;
    match take_turns(alloc, &mut hall, turns) {
        Ok(replies) => Ok(replies),
        Err(_) => Err(Refusal::OutOfMemory),
    }
}

/// The replies to turns of requesters over a site, as `rehearse_in` gives them, with the bins of the program.
pub fn rehearse(alloc: Global, base: Stored, turns: &[Turn]) -> Result<Vec<Reply>, Refusal>
    requires rows { AreValidRows base.rows }
    requires may { All MayTake turns.now }
    ensures rehearsed { IfOk result (λ replies. Rehearses base turns.now replies.items) }
    ensures counted { IfOk result (λ replies. AreCounted base.head replies.items) }
    ensures refused { IfErr result (λ why. IsRefusal base.rows base.head why) }
{
    rehearse_in(alloc, base, Rooms::of_program(), turns)
}
