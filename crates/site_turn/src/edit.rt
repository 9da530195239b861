//! The turns of an edit, by a pass at its desk: the seat has the desk out from the first to the last, and the hall for one call at a time.
//! So nobody waits for the keeper but who edits.
ghost use Rattle.std.specs.Prelude.{◌≡◌, ◌<◌, ◌^◌, ◌∷◌, ◌++◌, List, [], length, Some, None, true, false, is_some, IfOk, OnOk, IfErr, OnErr, if◌then◌else◌};
ghost use Rattle.std.specs.Arc.{arc_value};
ghost use Rattle.std.specs.Option.{option_copied};
ghost use Rattle.content_rows.specs.Kinds.{IsMoment};
ghost use Rattle.content_state.specs.Replay.{replay};
ghost use Rattle.content_state.specs.SiteRules.{IsValidState};
ghost use Rattle.content_state.specs.declared.commit.Commit.{Commit};
ghost use Rattle.site_commands.specs.Right.{IsRight};
ghost use Rattle.site_commands.specs.declared.answer.Answer.TheVariants as answer;
ghost use Rattle.site_keeper.specs.Keeping.{HasKept};
ghost use Rattle.site_hall.specs.Accepted.{IsAskedFor};
ghost use Rattle.site_hall.specs.Hall.{Settles};
ghost use Rattle.site_hall.specs.Ready.{IsReady, IsReadyAfter, LeavesPending, LeavesReady, newest_of_hall, published};
ghost use Rattle.site_hall.specs.Sides.{TellsKept, MayKeep};
ghost use Rattle.site_table.specs.Turns.{AtDesk};
ghost use Rattle.site_table.specs.Views.{IsRoom, pass_at, part_at};
ghost use Rattle.turn_rule.specs.Steps.{front};
ghost use Rattle.site_turn.specs.Edits.{engine_at, HasHanded, HandsIn, HandsNothing, handed_by, settled_engine, announced_engine, IsStoppedOn, IsEdited};

use content_state::{Ask, State};
use site_commands::{Answer, Command};
use site_hall::{Ready, Stop, judge_next};
use site_keeper::{Keeper, KeeperFault};
use site_table::{
    Deed, DeskHome, Hands, Place, Quiet, Room, count_deed, follow_back, forget_back, take_hall,
};
use std::alloc::{AllocError, Global};
use std::sync::{Arc, Wait};

/// By how many edits the log grows.
fn grown_by(kept: bool) -> u64
    ensures { result ≡ (if kept then 1 else 0) }
{
    if kept { 1 } else { 0 }
}

/// What is pending is settled, in a turn of the hall: published where the keeper has kept it, and else forgotten.
fn settle<K: Keeper + Drop, R: Wait>(
    rt: &R,
    room: &Room<K>,
    seat: &mut Place<K>,
    desk: &mut DeskHome<K>,
    kept: bool,
)
    requires room { (seat.old.table_id ≡ room.now.table_id) × IsRoom room.now.table_id }
    requires at { AtDesk seat.old.me desk.old }
    requires pending { is_some (part_at seat.old.me).pending ≡ true }
    requires exactly { TellsKept desk.old.kept desk.old.pending kept }
    ensures same { seat.new.table_id ≡ seat.old.table_id }
    ensures at { AtDesk seat.new.me desk.new }
    ensures settled { engine_at seat.new.me desk.new ≡ settled_engine kept (part_at seat.old.me).pending (engine_at seat.old.me desk.old) }
    ensures hands { HandsNothing seat.old.me seat.new.me }
{
    let mut hall = take_hall(rt, room, seat);
    hall.settle(desk, kept);
    follow_back::<Quiet, K>(room, seat, hall, grown_by(kept));
}

/// What is pending is settled, if anything is, by what the keeper tells. `Err` where the keeper failed to tell its number, or memory is
/// wanting.
fn settle_pending<K: Keeper + Drop, R: Wait>(
    rt: &R,
    alloc: Global,
    room: &Room<K>,
    seat: &mut Place<K>,
    desk: &mut DeskHome<K>,
) -> Result<(), KeeperFault>
    requires room { (seat.old.table_id ≡ room.now.table_id) × IsRoom room.now.table_id }
    requires at { AtDesk seat.old.me desk.old }
    ensures same { seat.new.table_id ≡ seat.old.table_id }
    ensures at { AtDesk seat.new.me desk.new }
    ensures settles { OnOk result (Settles (engine_at seat.old.me desk.old) (engine_at seat.new.me desk.new)) }
    ensures none { OnOk result ((part_at seat.new.me).pending ≡ None) }
    ensures leaves { IfErr result (λ fault. LeavesPending fault (engine_at seat.old.me desk.old) (engine_at seat.new.me desk.new)) }
    ensures hands { HandsNothing seat.old.me seat.new.me }
{
    if !desk.pending() {
        return Ok(());
    }
    match desk.ask(alloc) {
        Ok(kept) => {
            settle(rt, room, seat, desk, kept);
            Ok(())
        }
        Err(fault) => Err(fault),
    }
}

/// The newest state, and how many edits are published, in a turn of the hall. `Err` only where memory is wanting.
fn snapshot<K: Keeper + Drop, R: Wait>(
    rt: &R,
    alloc: Global,
    room: &Room<K>,
    seat: &mut Place<K>,
    desk: &DeskHome<K>,
) -> Result<(Arc<State>, usize), AllocError>
    requires room { (seat.old.table_id ≡ room.now.table_id) × IsRoom room.now.table_id }
    requires at { AtDesk seat.old.me desk.now }
    ensures same { seat.new.table_id ≡ seat.old.table_id }
    ensures at { AtDesk seat.new.me desk.now }
    ensures stays { part_at seat.new.me ≡ part_at seat.old.me }
    ensures hands { HandsNothing seat.old.me seat.new.me }
    ensures state { IfOk result (λ newest. arc_value newest.0 ≡ replay (part_at seat.old.me).loaded.base (part_at seat.old.me).log) }
    ensures count { IfOk result (λ newest. newest.1 ≡ length (part_at seat.old.me).log) }
    ensures valid { IfOk result (λ newest. IsValidState (arc_value newest.0)) }
    ensures small { IfOk result (λ newest. (arc_value newest.0).number < 2 ^ 63) }
{
    let hall = take_hall(rt, room, seat);
    let state = hall.snapshot(alloc);
    let count = hall.len();
    count_deed(room, seat, hall, Deed::Nothing);
    match state {
        Ok(state) => Ok((state, count)),
        Err(refused) => Err(refused),
    }
}

/// Judges an edit on the newest state, with nothing pending, and makes what it takes to keep and to publish it, while nobody waits. `Err`
/// where it is refused, or memory is wanting.
fn ready<K: Keeper + Drop, R: Wait>(
    rt: &R,
    alloc: Global,
    room: &Room<K>,
    seat: &mut Place<K>,
    desk: &DeskHome<K>,
    ask: &Ask,
    csrf: Option<&[u8]>,
    command: &Command,
    now: u64,
    pass: u32,
) -> Result<Ready, Answer>
    requires room { (seat.old.table_id ≡ room.now.table_id) × IsRoom room.now.table_id }
    requires at { AtDesk seat.old.me desk.now }
    requires none { (part_at seat.old.me).pending ≡ None }
    requires right { IsRight command.now }
    requires moment { IsMoment now }
    ensures same { seat.new.table_id ≡ seat.old.table_id }
    ensures at { AtDesk seat.new.me desk.now }
    ensures stays { part_at seat.new.me ≡ part_at seat.old.me }
    ensures hands { HandsNothing seat.old.me seat.new.me }
    ensures ready { IfOk result (λ ready. IsReady (engine_at seat.old.me desk.now) ask.now (option_copied csrf.entry) command.now now pass ready) }
    ensures stopped { IfErr result (λ answer. IsStoppedOn answer (engine_at seat.old.me desk.now) ask.now (option_copied csrf.entry) command.now now pass) }
{
    let Ok((state, count)) = snapshot(rt, alloc, room, seat, desk) else {
        return Err(Answer::OutOfMemory);
    };
    match judge_next(alloc, &state, count, ask, csrf, command, now, pass) {
        Ok(ready) => Ok(ready),
        Err(Stop::Refused(refusal)) => Err(Answer::Refused(refusal, state.number())),
        Err(Stop::Failed) => unreachable!(),
        Err(Stop::OutOfMemory) => Err(Answer::OutOfMemory),
    }
}

/// Settles what is pending, judges an edit, and makes what it takes to keep and to publish it. `Err` with what is answered then.
fn prepare<K: Keeper + Drop, R: Wait>(
    rt: &R,
    alloc: Global,
    room: &Room<K>,
    seat: &mut Place<K>,
    desk: &mut DeskHome<K>,
    ask: &Ask,
    csrf: Option<&[u8]>,
    command: &Command,
    now: u64,
    pass: u32,
) -> Result<Ready, Answer>
    requires room { (seat.old.table_id ≡ room.now.table_id) × IsRoom room.now.table_id }
    requires at { AtDesk seat.old.me desk.old }
    requires right { IsRight command.now }
    requires moment { IsMoment now }
    ensures same { seat.new.table_id ≡ seat.old.table_id }
    ensures at { AtDesk seat.new.me desk.new }
    ensures hands { HandsNothing seat.old.me seat.new.me }
    ensures ready { IfOk result (λ ready. IsReadyAfter (engine_at seat.old.me desk.old) (engine_at seat.new.me desk.new) ask.now (option_copied csrf.entry) command.now now pass ready) }
    ensures stopped { IfErr result (λ answer. IsEdited answer seat.old.me seat.new.me desk.old desk.new ask.now (option_copied csrf.entry) command.now now pass) }
{
    match settle_pending(rt, alloc, room, seat, desk) {
        Ok(()) => ready(rt, alloc, room, seat, desk, ask, csrf, command, now, pass),
        Err(KeeperFault::Failed) => Err(Answer::Keeper),
        Err(KeeperFault::OutOfMemory) => Err(Answer::OutOfMemory),
    }
}

/// An edit is announced and handed in, in a turn of the hall that takes all memory which publishing it needs. `Err` only where memory
/// is wanting: nothing changes.
fn announce<K: Keeper + Drop, R: Wait>(
    rt: &R,
    room: &Room<K>,
    seat: &mut Place<K>,
    desk: &mut DeskHome<K>,
    ready: Ready,
) -> Result<(), AllocError>
    requires room { (seat.old.table_id ≡ room.now.table_id) × IsRoom room.now.table_id }
    requires at { AtDesk seat.old.me desk.old }
    requires none { (part_at seat.old.me).pending ≡ None }
    requires asked { IsAskedFor (newest_of_hall (engine_at seat.old.me desk.old)) (length (engine_at seat.old.me desk.old).log) ready }
    requires own { ready.batch.commit.pass ≡ (pass_at seat.old.me).number }
    ensures same { seat.new.table_id ≡ seat.old.table_id }
    ensures at { AtDesk seat.new.me desk.new }
    ensures announced { OnOk result (engine_at seat.new.me desk.new ≡ announced_engine ready.batch.commit (engine_at seat.old.me desk.old)) }
    ensures may_keep { OnOk result (MayKeep desk.new) }
    ensures kept { OnOk result (HasKept (part_at seat.new.me).loaded.base (part_at seat.new.me).loaded.told desk.new.kept (part_at seat.new.me).log) }
    ensures hands { OnOk result (HandsIn (ready.batch.commit ∷ []) seat.old.me seat.new.me) }
    ensures stays { OnErr result (engine_at seat.new.me desk.new ≡ engine_at seat.old.me desk.old) }
    ensures nothing { OnErr result (HandsNothing seat.old.me seat.new.me) }
{
    let mut hall = take_hall(rt, room, seat);
    match hall.announce(desk, ready) {
        Ok(()) => {
            follow_back::<Hands, K>(room, seat, hall, 0);
            Ok(())
        }
        Err(refused) => {
            follow_back::<Quiet, K>(room, seat, hall, 0);
            Err(refused)
        }
    }
}

/// The pending edit, which the keeper has kept, is published, in a turn of the hall that takes no memory.
fn publish<K: Keeper + Drop, R: Wait>(
    rt: &R,
    room: &Room<K>,
    seat: &mut Place<K>,
    desk: &mut DeskHome<K>,
)
    requires room { (seat.old.table_id ≡ room.now.table_id) × IsRoom room.now.table_id }
    requires at { AtDesk seat.old.me desk.old }
    requires pending { is_some (part_at seat.old.me).pending ≡ true }
    requires kept { TellsKept desk.old.kept desk.old.pending true }
    ensures same { seat.new.table_id ≡ seat.old.table_id }
    ensures at { AtDesk seat.new.me desk.new }
    ensures published { engine_at seat.new.me desk.new ≡ settled_engine true (part_at seat.old.me).pending (engine_at seat.old.me desk.old) }
    ensures hands { HandsNothing seat.old.me seat.new.me }
{
    let mut hall = take_hall(rt, room, seat);
    hall.publish(desk);
    follow_back::<Quiet, K>(room, seat, hall, 1);
}

/// The pending edit, which the pass handed in last and of which the keeper has nothing, is forgotten, in a turn of the hall that takes no
/// memory: it is handed in no more.
fn forget<K: Keeper + Drop, R: Wait>(
    rt: &R,
    room: &Room<K>,
    seat: &mut Place<K>,
    desk: &mut DeskHome<K>,
)
    requires room { (seat.old.table_id ≡ room.now.table_id) × IsRoom room.now.table_id }
    requires at { AtDesk seat.old.me desk.old }
    requires last { (handed : List Commit) × (commit : Commit) × ((part_at seat.old.me).pending ≡ Some commit) × (commit.pass ≡ (pass_at seat.old.me).number) × ((pass_at seat.old.me).handed ≡ handed ++ commit ∷ []) }
    requires exactly { TellsKept desk.old.kept desk.old.pending false }
    ensures same { seat.new.table_id ≡ seat.old.table_id }
    ensures at { AtDesk seat.new.me desk.new }
    ensures forgotten { engine_at seat.new.me desk.new ≡ settled_engine false (part_at seat.old.me).pending (engine_at seat.old.me desk.old) }
    ensures hands { HasHanded (front (pass_at seat.old.me).handed) seat.old.me seat.new.me }
{
    let mut hall = take_hall(rt, room, seat);
    hall.settle(desk, false);
    forget_back(room, seat, hall);
}

/// Keeps an edit, with the desk alone, and then publishes it, for which all was made before. Where the keeper failed, the edit is
/// pending; where memory is wanting, nothing changes.
fn keep_edit<K: Keeper + Drop, R: Wait>(
    rt: &R,
    alloc: Global,
    room: &Room<K>,
    seat: &mut Place<K>,
    desk: &mut DeskHome<K>,
    ready: Ready,
) -> Result<(), KeeperFault>
    requires room { (seat.old.table_id ≡ room.now.table_id) × IsRoom room.now.table_id }
    requires at { AtDesk seat.old.me desk.old }
    requires none { (part_at seat.old.me).pending ≡ None }
    requires asked { IsAskedFor (newest_of_hall (engine_at seat.old.me desk.old)) (length (engine_at seat.old.me desk.old).log) ready }
    requires own { ready.batch.commit.pass ≡ (pass_at seat.old.me).number }
    ensures same { seat.new.table_id ≡ seat.old.table_id }
    ensures at { AtDesk seat.new.me desk.new }
    ensures published { OnOk result (engine_at seat.new.me desk.new ≡ published (engine_at seat.old.me desk.old) ready.batch) }
    ensures hands { OnOk result (HandsIn (ready.batch.commit ∷ []) seat.old.me seat.new.me) }
    ensures leaves { IfErr result (λ fault. LeavesReady fault (engine_at seat.old.me desk.old) ready.batch (engine_at seat.new.me desk.new)) }
    ensures refused { IfErr result (λ fault. HandsIn (handed_by fault ready.batch.commit) seat.old.me seat.new.me) }
{
    let Ok(()) = announce(rt, room, seat, desk, ready) else {
        return Err(KeeperFault::OutOfMemory);
    };
    match desk.keep(alloc) {
        Ok(()) => {
            publish(rt, room, seat, desk);
            Ok(())
        }
        Err(KeeperFault::Failed) => Err(KeeperFault::Failed),
        Err(KeeperFault::OutOfMemory) => {
            forget(rt, room, seat, desk);
            Err(KeeperFault::OutOfMemory)
        }
    }
}

/// What is answered to an edit once it is published: what it did, and the number of the state that it made.
fn done_of(ready: &Ready) -> Answer
    ensures { result ≡ answer.Done ready.now.done ready.now.batch.head }
{
    Answer::Done(ready.done, ready.batch.head)
}

/// Makes an edit, by a pass at its desk, whose number it bears.
pub(crate) fn edit<K: Keeper + Drop, R: Wait>(
    rt: &R,
    alloc: Global,
    room: &Room<K>,
    seat: &mut Place<K>,
    desk: &mut DeskHome<K>,
    ask: &Ask,
    csrf: Option<&[u8]>,
    command: &Command,
    now: u64,
    pass: u32,
) -> Answer
    requires room { (seat.old.table_id ≡ room.now.table_id) × IsRoom room.now.table_id }
    requires at { AtDesk seat.old.me desk.old }
    requires number { pass ≡ (pass_at seat.old.me).number }
    requires right { IsRight command.now }
    requires moment { IsMoment now }
    ensures same { seat.new.table_id ≡ seat.old.table_id }
    ensures at { AtDesk seat.new.me desk.new }
    ensures edited { IsEdited result seat.old.me seat.new.me desk.old desk.new ask.now (option_copied csrf.entry) command.now now pass }
{
    match prepare(rt, alloc, room, seat, desk, ask, csrf, command, now, pass) {
        Ok(ready) => {
            let done = done_of(&ready);
            match keep_edit(rt, alloc, room, seat, desk, ready) {
                Ok(()) => done,
                Err(KeeperFault::Failed) => Answer::Keeper,
                Err(KeeperFault::OutOfMemory) => Answer::OutOfMemory,
            }
        }
        Err(answer) => answer,
    }
}
