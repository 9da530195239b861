//! The engine of a site.
ghost use Rattle.std.specs.Prelude.{◌≡◌, ◌≤◌, ◌<◌, ◌^◌, [], length, Option, Some, None, is_some, IfOk, OnOk, IfErr};
ghost use Rattle.std.specs.Arc.{arc_value};
ghost use Rattle.std.specs.Option.{option_copied};
ghost use Rattle.content_rows.specs.Kinds.{IsMoment};
ghost use Rattle.content_state.specs.Replay.{replay};
ghost use Rattle.indexed_rows.specs.Rows.{AreValidRows};
ghost use Rattle.content_state.specs.SiteRules.{IsRefusal, IsValidState};
ghost use Rattle.site_commands.specs.Right.{IsRight};
ghost use Rattle.site_keeper.specs.Keeper.{IfTold, Kept as KeptValue};
ghost use Rattle.site_keeper.specs.Steps.{stored_of};
ghost use Rattle.site_hall.specs.Stock.{bins_in, tally_in, AreSound};
ghost use Rattle.site_hall.specs.Hall.{IsHall, StaysSteadfast, Settles, Answers, Tells, number_of, settled_by};
ghost use Rattle.site_hall.specs.Sides.{hall_side, desk_side, engine_of, IsHallSide, Stands};
ghost use Rattle.site_hall.specs.Opened.{state_in, stock_in, opened_in, opened_with, IsBack};
ghost use Rattle.site_hall.specs.Looked.{IsSoundIn, MayBeKept, StaysBeside, LooksUp, KeepsUnder};
ghost use Rattle.site_hall.specs.Ready.{IsReady, IsReadyAfter, MayBeNext, LeavesPending, Stops, IsUnready, published, LeavesReady};

use crate::desk::Desk;
use crate::edit::Made;
use crate::hall::Hall;
use crate::judging::judge_next;
use crate::log::Log;
use crate::making::Ready;
use crate::stock::{Rooms, Stock};
use crate::stop::Stop;
use crate::tally::Tally;
use cache_entries::{Bin, Found, Kept, Key};
use content_state::{Ask, Refusal, Refused, State};
use site_commands::{Answer, Command};
use site_keeper::{Batch, Keeper, KeeperFault, Stored};
use std::alloc::{AllocError, AllocFailed, Global};
use std::marker::Model;
use std::sync::Arc;

/// The engine of a site, in the hands of one caller: its edits are judged on the newest state, kept by the keeper of the rows, and then published, one
/// after the other. Contracts see the state that was loaded, the edits that were published since, an edit that the keeper
/// failed to keep, or kept and didn't say so, and what the keeper tells.
pub struct Engine<K: Keeper> {
    log: Log,
    pending: Option<Made>,
    stock: Stock,
    keeper: K,
}

impl<K: Keeper + Drop> Drop for Engine<K> {
    fn drop(self) {
        let Engine {
            log: _,
            pending: _,
            stock: _,
            keeper: _,
        } = self;
    }
}

impl<K: Keeper> Model for Engine<K> {
    ghost use Rattle.site_hall.specs.Hall.{HallView};

    ghost Value = { HallView };

    ghost use Rattle.site_hall.specs.Within.{view_of, IsWhole};

    ghost view = { λ h. view_of h.log h.pending (K.kept h.keeper) (K.faults h.keeper) (K.steadfast h.keeper) h.stock };

    ghost invariant = { λ h. IsWhole h.log h.pending (K.kept h.keeper) (K.faults h.keeper) (K.steadfast h.keeper) h.stock };
}

/// Why there is no engine of what a keeper holds. The keeper comes back, and what was to be loaded, unless memory was wanting
/// once that was found to be a site.
#[derive(Drop)]
pub struct NoEngine<K> {
    pub keeper: K,
    pub stored: Option<Stored>,
    pub why: Refusal,
}

impl<K: Keeper> Engine<K> {
    /// The engine of what a keeper holds: rows, each of which is right by itself, counts and a number. They are refused where
    /// they are no site, and where memory is wanting, as by `State::from_rows`. No edit is published yet, and none is
    /// pending. Nothing is kept of pages yet, and the bins have the program's room.
    pub fn new(alloc: Global, keeper: K, stored: Stored) -> Result<Engine<K>, NoEngine<K>>
        requires told { IfTold (K.kept keeper) (λ held. held ≡ stored) }
        requires rows { AreValidRows stored.rows }
        ensures opened { IfOk result (λ hall. hall ≡ opened_with stored (K.kept keeper) (K.faults keeper) (K.steadfast keeper)) }
        ensures is_hall { IfOk result (λ hall. IsHall hall) }
        ensures small { IfOk result (λ _. stored.head ≤ 2 ^ 62) }
        ensures refused { IfErr result (λ none. IsRefusal stored.rows stored.head none.why) }
        ensures keeper_back { IfErr result (λ none. none.keeper ≡ keeper) }
        ensures stored_back { IfErr result (λ none. IsBack none.why none.stored stored) }
    {
        Engine::with_rooms(alloc, keeper, stored, Rooms::of_program())
    }

    /// The engine of what a keeper holds, as `new` makes it, but with bins of the given room: nothing is kept of pages yet, no
    /// edit is published, and none is pending. Refused where the rows are no site, or memory is wanting, as by `State::from_rows`.
    pub fn with_rooms(
        alloc: Global,
        keeper: K,
        stored: Stored,
        rooms: Rooms,
    ) -> Result<Engine<K>, NoEngine<K>>
        requires told { IfTold (K.kept keeper) (λ held. held ≡ stored) }
        requires rows { AreValidRows stored.rows }
        ensures opened { IfOk result (λ hall. hall ≡ opened_in (stock_in rooms) stored (K.kept keeper) (K.faults keeper) (K.steadfast keeper)) }
        ensures is_hall { IfOk result (λ hall. IsHall hall) }
        ensures small { IfOk result (λ _. stored.head ≤ 2 ^ 62) }
        ensures refused { IfErr result (λ none. IsRefusal stored.rows stored.head none.why) }
        ensures keeper_back { IfErr result (λ none. none.keeper ≡ keeper) }
        ensures stored_back { IfErr result (λ none. IsBack none.why none.stored stored) }
    {
        match Stock::new(alloc, rooms) {
            Ok(stock) => Engine::opened(alloc, keeper, stored, stock),
            Err(_) => Err(NoEngine {
                keeper,
                stored: Some(stored),
                why: Refusal::OutOfMemory,
            }),
        }
    }

    /// The engine of what a keeper holds, with what is kept of pages.
    fn opened(
        alloc: Global,
        keeper: K,
        stored: Stored,
        stock: Stock,
    ) -> Result<Engine<K>, NoEngine<K>>
        requires told { IfTold (K.kept keeper) (λ held. held ≡ stored) }
        requires rows { AreValidRows stored.rows }
        requires entries { AreSound (state_in stored) [] (bins_in stock) }
        ensures opened { IfOk result (λ hall. hall ≡ opened_in stock stored (K.kept keeper) (K.faults keeper) (K.steadfast keeper)) }
        ensures is_hall { IfOk result (λ hall. IsHall hall) }
        ensures small { IfOk result (λ _. stored.head ≤ 2 ^ 62) }
        ensures refused { IfErr result (λ none. IsRefusal stored.rows stored.head none.why) }
        ensures keeper_back { IfErr result (λ none. none.keeper ≡ keeper) }
        ensures stored_back { IfErr result (λ none. IsBack none.why none.stored stored) }
    {
        let Stored { rows, counts, head } = stored;
        let base = match State::from_rows(alloc, rows, counts, head) {
            Ok(base) => base,
            Err(Refused { rows, counts, why }) => {
                let stored = Some(Stored { rows, counts, head });
                return Err(NoEngine {
                    keeper,
                    stored,
                    why,
                });
            }
        };
        match Log::new(alloc, base) {
            Ok(log) => Ok(Engine {
                log,
                pending: None,
                stock,
                keeper,
            }),
            Err(_) => Err(NoEngine {
                keeper,
                stored: None,
                why: Refusal::OutOfMemory,
            }),
        }
    }

    /// The engine of a valid state that a keeper holds. It shares all of the state, and looks at no row of it again. No edit is
    /// published yet, and none is pending. Nothing is kept of pages yet, and the bins have the program's room. Where memory is
    /// wanting, the keeper comes back.
    pub fn over(alloc: Global, keeper: K, base: State) -> Result<Engine<K>, AllocFailed<K>>
        requires told { IfTold (K.kept keeper) (λ held. held ≡ stored_of base) }
        requires valid { IsValidState base }
        requires small { base.number ≤ 2 ^ 62 }
        ensures opened { IfOk result (λ hall. hall ≡ opened_with (stored_of base) (K.kept keeper) (K.faults keeper) (K.steadfast keeper)) }
        ensures is_hall { IfOk result (λ hall. IsHall hall) }
        ensures back { IfErr result (λ failed. failed.value ≡ keeper) }
    {
        let Ok(stock) = Stock::new(alloc, Rooms::of_program()) else {
            return Err(AllocFailed { value: keeper });
        };
        match Log::new(alloc, base) {
            Ok(log) => Ok(Engine {
                log,
                pending: None,
                stock,
                keeper,
            }),
            Err(_) => Err(AllocFailed { value: keeper }),
        }
    }

    /// The newest state: that of all edits that were published. It is valid. `Err` only where memory is wanting.
    pub fn snapshot(&self, _alloc: Global) -> Result<Arc<State>, AllocError>
        ensures { IfOk result (λ state. arc_value state ≡ replay self.now.base self.now.log) }
    {
        Arc::try_clone(self.log.newest())
    }

    /// Makes an edit, which bears the number of the caller's pass. Where an edit is pending, the keeper is first asked for
    /// its number: the pending edit is published exactly where that is the number of the state that it makes, and else
    /// forgotten. Then the edit is judged on the newest state, for the viewer whom the cookie of the request names there at
    /// this moment, in seconds since 1970, with the value that was sent to guard the forms of a session. An accepted one is
    /// kept, and then published.
    ///
    /// `Done` and `Refused` tell the number of the newest state. `Keeper` only where the keeper failed in this call: at
    /// its number nothing changes; at the edit that is pending then. `OutOfMemory` where memory is wanting: nothing of the
    /// edit is kept.
    pub fn commit(
        &mut self,
        alloc: Global,
        ask: &Ask,
        csrf: Option<&[u8]>,
        command: &Command,
        now: u64,
        pass: u32,
    ) -> Answer
        requires right { IsRight command.now }
        requires moment { IsMoment now }
        ensures answers { Answers result self.old self.new ask.now (option_copied csrf.entry) command.now now pass }
        ensures is_hall { IsHall self.new }
        ensures never_falls { self.old.faults ≤ self.new.faults }
        ensures steadfast { StaysSteadfast self.old self.new }
    {
        let (answer, _) = self.commit_and_tell(alloc, ask, csrf, command, now, pass);
        answer
    }

    /// Makes an edit as `commit` does, and tells whether it was handed to the keeper, which then didn't refuse it for want of
    /// memory: it was at `Done`, it wasn't at `Refused` and `OutOfMemory`, and at `Keeper` it was where the keeper failed at
    /// the edit.
    pub fn commit_and_tell(
        &mut self,
        alloc: Global,
        ask: &Ask,
        csrf: Option<&[u8]>,
        command: &Command,
        now: u64,
        pass: u32,
    ) -> (Answer, bool)
        requires right { IsRight command.now }
        requires moment { IsMoment now }
        ensures answers { Answers result.0 self.old self.new ask.now (option_copied csrf.entry) command.now now pass }
        ensures tells { Tells result.0 result.1 self.old self.new ask.now (option_copied csrf.entry) command.now now pass }
        ensures is_hall { IsHall self.new }
        ensures never_falls { self.old.faults ≤ self.new.faults }
        ensures steadfast { StaysSteadfast self.old self.new }
    {
        match self.prepare(alloc, ask, csrf, command, now, pass) {
            Ok(ready) => {
                let done = ready.done;
                match self.keep_edit(alloc, ready) {
                    Ok(()) => (Answer::Done(done, self.number()), true),
                    Err(KeeperFault::Failed) => (Answer::Keeper, true),
                    Err(KeeperFault::OutOfMemory) => (Answer::OutOfMemory, false),
                }
            }
            Err(Stop::Refused(refusal)) => (Answer::Refused(refusal, self.number()), false),
            Err(Stop::Failed) => (Answer::Keeper, false),
            Err(Stop::OutOfMemory) => (Answer::OutOfMemory, false),
        }
    }

    /// How often the keeper has failed, up to the greatest u64. It never falls.
    pub fn faults(&self) -> u64
        ensures { result ≡ self.now.faults }
    {
        self.keeper.faults()
    }

    /// Whether an edit is pending: the keeper failed to keep it, or kept it and didn't say so.
    pub fn pending(&self) -> bool
        ensures { result ≡ is_some self.now.pending }
    {
        self.pending.is_some()
    }

    /// What stands under a key in a bin, which then goes first there; an entry is sound over the published edits. The look is
    /// counted. `Err` only where memory is wanting, and then nothing changes.
    pub fn look(&mut self, _alloc: Global, bin: Bin, key: &Key) -> Result<Found, AllocError>
        ensures looks { LooksUp result self.old.stock self.new.stock bin key.now }
        ensures beside { StaysBeside self.old self.new }
        ensures sound { IfOk result (λ found. IsSoundIn self.new key.now found) }
        ensures is_hall { IsHall self.new }
    {
        self.stock.look(bin, key)
    }

    /// Keeps something under a key in a bin, where it goes first: in place of what stood under the same key, or, where the
    /// bin is full, of the one that wasn't used for longest. An entry has to be sound over the published edits. It is
    /// counted. Where memory is wanting nothing changes, and the key and what was to be kept come back.
    pub fn keep(
        &mut self,
        _alloc: Global,
        bin: Bin,
        key: Key,
        kept: Kept,
    ) -> Result<(), AllocFailed<(Key, Kept)>>
        requires { MayBeKept self.old key kept }
        ensures keeps { KeepsUnder result self.old.stock self.new.stock bin key kept }
        ensures beside { StaysBeside self.old self.new }
        ensures back { IfErr result (λ f. f.value ≡ (key, kept)) }
        ensures is_hall { IsHall self.new }
    {
        self.stock.keep(bin, key, kept)
    }

    /// How often something was looked for among what is kept of pages, found there, and kept.
    pub fn tally(&self) -> Tally
        ensures { result ≡ tally_in self.now.stock }
    {
        self.stock.tally()
    }

    /// The keeper, as it is.
    pub fn into_keeper(self) -> K
        ensures kept { K.kept result ≡ self.kept }
        ensures faults { K.faults result ≡ self.faults }
    {
        let Engine {
            log: _,
            pending: _,
            stock: _,
            keeper,
        } = self;
        keeper
    }

    /// The engine with another keeper, which holds what was loaded, where no edit was published and none is pending; and the
    /// keeper that it had. What is kept of pages stays.
    pub fn with_keeper<L: Keeper>(self, keeper: L) -> (Engine<L>, K)
        requires new { (self.log ≡ []) × (self.pending ≡ None) }
        requires told { IfTold (L.kept keeper) (λ held. held ≡ stored_of self.base) }
        ensures hall { result.0 ≡ opened_in self.stock (stored_of self.base) (L.kept keeper) (L.faults keeper) (L.steadfast keeper) }
        ensures is_hall { IsHall result.0 }
        ensures kept { K.kept result.1 ≡ self.kept }
        ensures faults { K.faults result.1 ≡ self.faults }
        ensures steadfast { K.steadfast result.1 ≡ self.steadfast }
    {
        let Engine {
            log,
            pending,
            stock,
            keeper: former,
        } = self;
        let engine = Engine {
            log,
            pending,
            stock,
            keeper,
        };
        (engine, former)
    }

    /// The hall and the desk, which threads may share, where no edit is pending. The desk stands for the hall's log.
    pub fn into_sides(self) -> (Hall, Desk<K>)
        requires { self.pending ≡ None }
        ensures hall { result.0 ≡ hall_side self }
        ensures desk { result.1 ≡ desk_side self }
        ensures is_hall { IsHallSide result.0 }
        ensures stands { Stands self.opened result.0 result.1 }
    {
        let Engine {
            log,
            pending,
            stock,
            keeper,
        } = self;
        (Hall::of_parts(log, pending, stock), Desk::new(keeper))
    }

    /// The engine of a hall and a desk that stands for its log. The edit that is pending in both is pending in it.
    pub fn of_sides(hall: Hall, desk: Desk<K>) -> Engine<K>
        requires { (told : Option KeptValue) × Stands told hall desk }
        ensures engine { (told : Option KeptValue) → Stands told hall desk → result ≡ engine_of told hall desk }
        ensures is_hall { IsHall result }
    {
        let (log, pending, stock) = hall.into_parts();
        Engine {
            log,
            pending,
            stock,
            keeper: desk.into_keeper(),
        }
    }

    /// The number of the newest state.
    pub(crate) fn number(&self) -> u64
        ensures { result ≡ number_of self.now }
    {
        self.log.number()
    }

    /// How many edits were published. What always holds of an engine holds.
    pub fn len(&self) -> usize
        ensures len { result ≡ length self.now.log }
        ensures is_hall { IsHall self.now }
    {
        self.log.len()
    }

    /// Settles what is pending, judges an edit, and makes what it takes to keep and to publish it.
    pub(crate) fn prepare(
        &mut self,
        alloc: Global,
        ask: &Ask,
        csrf: Option<&[u8]>,
        command: &Command,
        now: u64,
        pass: u32,
    ) -> Result<Ready, Stop>
        requires right { IsRight command.now }
        requires moment { IsMoment now }
        ensures ready { IfOk result (λ ready. IsReadyAfter self.old self.new ask.now (option_copied csrf.entry) command.now now pass ready) }
        ensures stops { IfErr result (λ stop. Stops stop self.old self.new ask.now (option_copied csrf.entry) command.now now pass) }
        ensures is_hall { IsHall self.new }
        ensures never_falls { self.old.faults ≤ self.new.faults }
        ensures steadfast { StaysSteadfast self.old self.new }
    {
        self.settle(alloc)?;
        self.ready(alloc, ask, csrf, command, now, pass)
    }

    /// Settles what is pending, if anything is. `Err` where the keeper failed to tell its number, or memory is wanting.
    fn settle(&mut self, alloc: Global) -> Result<(), KeeperFault>
        ensures settles { OnOk result (Settles self.old self.new) }
        ensures none_pending { OnOk result (self.new.pending ≡ None) }
        ensures leaves { IfErr result (λ fault. LeavesPending fault self.old self.new) }
        ensures is_hall { IsHall self.new }
        ensures never_falls { self.old.faults ≤ self.new.faults }
        ensures steadfast { StaysSteadfast self.old self.new }
    {
        if self.pending.is_none() {
            return Ok(());
        }
        let head = self.keeper.head(alloc)?;
        self.settle_by(head);
        Ok(())
    }

    /// Publishes what is pending where it makes the state of this number, and else forgets it.
    fn settle_by(&mut self, head: u64)
        requires { IfTold self.old.kept (λ held. head ≡ held.head) }
        ensures settled { self.new ≡ settled_by self.old head self.old.pending }
        ensures is_hall { IsHall self.new }
    {
        let Some(made) = self.pending.take() else {
            return;
        };
        if head != self.log.number() + 1 {
            return;
        }
        self.log.publish(made);
    }

    /// Judges an edit on the newest state, and makes what it takes to keep and to publish it.
    fn ready(
        &self,
        alloc: Global,
        ask: &Ask,
        csrf: Option<&[u8]>,
        command: &Command,
        now: u64,
        pass: u32,
    ) -> Result<Ready, Stop>
        requires right { IsRight command.now }
        requires moment { IsMoment now }
        requires none_pending { self.now.pending ≡ None }
        ensures ready { IfOk result (λ ready. IsReady self.now ask.now (option_copied csrf.entry) command.now now pass ready) }
        ensures unready { IfErr result (λ stop. IsUnready stop self.now ask.now (option_copied csrf.entry) command.now now pass) }
    {
        judge_next(
            alloc,
            self.log.newest(),
            self.log.len(),
            ask,
            csrf,
            command,
            now,
            pass,
        )
    }

    /// Keeps an edit, and then publishes it, for which all was made before. Where the keeper failed, the edit is pending; where
    /// memory is wanting, nothing changes.
    pub(crate) fn keep_edit(&mut self, alloc: Global, ready: Ready) -> Result<(), KeeperFault>
        requires { MayBeNext self.old ready }
        ensures published { OnOk result (self.new ≡ published self.old ready.batch) }
        ensures leaves { IfErr result (λ fault. LeavesReady fault self.old ready.batch self.new) }
        ensures is_hall { IsHall self.new }
        ensures never_falls { self.old.faults ≤ self.new.faults }
        ensures steadfast { StaysSteadfast self.old self.new }
    {
        self.log.reserve()?;
        let Ready {
            batch,
            done: _,
            state,
        } = ready;
        let answer = self.keeper.apply(alloc, &batch);
        let Batch { commit, .. } = batch;
        let made = Made { commit, state };
        match answer {
            Ok(()) => {
                self.log.publish(made);
                Ok(())
            }
            Err(fault) => match fault {
                KeeperFault::Failed => {
                    self.pending = Some(made);
                    Err(KeeperFault::Failed)
                }
                KeeperFault::OutOfMemory => Err(KeeperFault::OutOfMemory),
            },
        }
    }
}
