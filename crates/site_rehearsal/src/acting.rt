//! What each act does.
ghost use Rattle.std.specs.Prelude.{◌≡◌, ◌↔◌, ℕ, IfOk, OnOk, IsTrue};
ghost use Rattle.std.specs.Option.{option_copied};
ghost use Rattle.content_rows.specs.Kinds.{IsMoment};
ghost use Rattle.content_state.specs.Ask.{IsAsk};
ghost use Rattle.site_commands.specs.Right.{IsRight};
ghost use Rattle.site_rehearsal.specs.Seats.{IsSeat};
ghost use Rattle.site_rehearsal.specs.Acts.{Acts, IsFreshFound};
ghost use Rattle.site_rehearsal.specs.Keeping.{Goes, IsSure};
ghost use Rattle.site_rehearsal.specs.Rehearsed.{MayAct};
ghost use Rattle.site_rehearsal.specs.declared.turn.Act.TheVariants as act_is;

use crate::building::built;
use crate::keeping::keep_draft;
use crate::seats::Seat;
use crate::turn::{Act, Reply};
use cache_entries::{Bin, Found, Key};
use content_rows::Text;
use content_state::{Ask, State};
use element_entries::{Reader, is_fresh};
use render_array::Element;
use site_access::{Account, viewer_of};
use site_commands::{Answer, Command};
use site_hall::Engine;
use site_keeper::Keeper;
use std::alloc::{AllocError, Global};

/// The requester goes to the newest state.
fn snapshot<K: Keeper>(
    alloc: Global,
    hall: &mut Engine<K>,
    seat: &mut Seat,
) -> Result<Reply, AllocError>
    requires { IsSeat hall.old.base hall.old.log seat.old }
    ensures acts { (n : ℕ) → IfOk result (λ reply. Acts act_is.Snapshot reply n hall.old seat.old hall.new seat.new) }
    ensures seat { OnOk result (IsSeat hall.new.base hall.new.log seat.new) }
    ensures goes { OnOk result (Goes hall.old hall.new) }
{
    let _published = hall.len();
    seat.state = hall.snapshot(alloc)?;
    Ok(Reply::Snapshot(seat.state.number()))
}

/// Whether what was found is an entry that may be shown on a state.
fn is_fresh_found(
    alloc: Global,
    state: &State,
    ask: &Ask,
    now: u64,
    found: &Found,
) -> Result<bool, AllocError>
    ensures { IfOk result (λ fresh. IsTrue fresh ↔ IsFreshFound state.now ask.now now found.now) }
{
    match found {
        Found::Entry(entry) => {
            let viewer = viewer_of(state, ask, now);
            let account = Account::new(alloc, state, &viewer)?;
            let reader = Reader::new(state, &account, ask, now);
            is_fresh(alloc, &reader, entry)
        }
        Found::Redirect(_) | Found::Absent => Ok(false),
    }
}

/// Something is looked for.
fn look<K: Keeper>(
    alloc: Global,
    hall: &mut Engine<K>,
    seat: &mut Seat,
    bin: Bin,
    key: &Key,
    ask: &Ask,
    now: u64,
) -> Result<Reply, AllocError>
    requires { IsSeat hall.old.base hall.old.log seat.old }
    ensures acts { (n : ℕ) → IfOk result (λ reply. Acts (act_is.Look bin key.now ask.now now) reply n hall.old seat.old hall.new seat.new) }
    ensures seat { OnOk result (IsSeat hall.new.base hall.new.log seat.new) }
    ensures goes { OnOk result (Goes hall.old hall.new) }
{
    let found = hall.look(alloc, bin, key)?;
    let fresh = is_fresh_found(alloc, &seat.state, ask, now, &found)?;
    Ok(Reply::Look(found, fresh))
}

/// An element is built.
fn build<K: Keeper>(
    alloc: Global,
    hall: &mut Engine<K>,
    seat: &mut Seat,
    element: Element,
    ask: &Ask,
    now: u64,
) -> Result<Reply, AllocError>
    requires seat { IsSeat hall.old.base hall.old.log seat.old }
    requires right { IsAsk ask.now }
    ensures acts { (n : ℕ) → IfOk result (λ reply. Acts (act_is.Build element ask.now now) reply n hall.old seat.old hall.new seat.new) }
    ensures seat { OnOk result (IsSeat hall.new.base hall.new.log seat.new) }
    ensures goes { OnOk result (Goes hall.old hall.new) }
{
    let _hall = hall;
    let (draft, text) = built(alloc, &seat.state, element, ask, now)?;
    seat.built = Some(draft);
    Ok(Reply::Build(text))
}

/// What was built last is kept.
fn keep<K: Keeper>(
    alloc: Global,
    hall: &mut Engine<K>,
    seat: &mut Seat,
) -> Result<Reply, AllocError>
    requires { IsSeat hall.old.base hall.old.log seat.old }
    ensures acts { (n : ℕ) → IfOk result (λ reply. Acts act_is.Keep reply n hall.old seat.old hall.new seat.new) }
    ensures seat { OnOk result (IsSeat hall.new.base hall.new.log seat.new) }
    ensures goes { OnOk result (Goes hall.old hall.new) }
{
    match &seat.built {
        Some(draft) => {
            keep_draft(alloc, hall, draft)?;
            Ok(Reply::Keep(true))
        }
        None => Ok(Reply::Keep(false)),
    }
}

/// The value that was sent to guard the forms of a session.
fn sent(csrf: &Option<Text>) -> Option<&[u8]>
    ensures { option_copied result ≡ csrf.now }
{
    match csrf {
        Some(value) => Some(value.as_slice()),
        None => None,
    }
}

/// An edit is made; where it is accepted, the requester goes to the state that it makes.
fn commit<K: Keeper>(
    alloc: Global,
    hall: &mut Engine<K>,
    seat: &mut Seat,
    requester: u32,
    command: &Command,
    csrf: &Option<Text>,
    ask: &Ask,
    now: u64,
) -> Result<Reply, AllocError>
    requires seat { IsSeat hall.old.base hall.old.log seat.old }
    requires sure { IsSure hall.old }
    requires right { IsRight command.now }
    requires moment { IsMoment now }
    ensures acts { IfOk result (λ reply. Acts (act_is.Commit command.now csrf.now ask.now now) reply requester hall.old seat.old hall.new seat.new) }
    ensures seat { OnOk result (IsSeat hall.new.base hall.new.log seat.new) }
    ensures goes { OnOk result (Goes hall.old hall.new) }
{
    match hall.commit(alloc, ask, sent(csrf), command, now, requester) {
        Answer::Done(done, number) => {
            let newest = hall.snapshot(alloc)?;
            seat.state = newest;
            Ok(Reply::Commit(Answer::Done(done, number)))
        }
        Answer::Refused(refusal, number) => Ok(Reply::Commit(Answer::Refused(refusal, number))),
        Answer::Keeper => unreachable!(),
        Answer::OutOfMemory => Err(AllocError),
    }
}

/// An act of a requester with this seat.
pub(crate) fn act<K: Keeper>(
    alloc: Global,
    hall: &mut Engine<K>,
    seat: &mut Seat,
    requester: u32,
    act: &Act,
) -> Result<Reply, AllocError>
    requires seat { IsSeat hall.old.base hall.old.log seat.old }
    requires sure { IsSure hall.old }
    requires may { MayAct act.now }
    ensures acts { IfOk result (λ reply. Acts act.now reply requester hall.old seat.old hall.new seat.new) }
    ensures seat { OnOk result (IsSeat hall.new.base hall.new.log seat.new) }
    ensures goes { OnOk result (Goes hall.old hall.new) }
{
    match act {
        Act::Snapshot => snapshot(alloc, hall, seat),
        Act::Look { bin, key, ask, now } => look(alloc, hall, seat, *bin, key, ask, *now),
        Act::Build { element, ask, now } => { build(alloc, hall, seat, *element, ask, *now) }
        Act::Keep => keep(alloc, hall, seat),
        Act::Commit {
            command,
            csrf,
            ask,
            now,
        } => commit(alloc, hall, seat, requester, command, csrf, ask, *now),
    }
}
