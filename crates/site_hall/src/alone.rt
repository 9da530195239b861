//! A caller that has an engine for itself.
ghost use Rattle.std.specs.Prelude.{◌≡◌, ◌≤◌, [], length, None, IfErr, OnOk};
ghost use Rattle.site_house.specs.House.{AreOwn, up};
ghost use Rattle.site_hall.specs.Ready.{MayBeNext, published};
ghost use Rattle.site_hall.specs.Alone.{IsAlone, house_of};
ghost use Rattle.site_hall.specs.Hall.{StaysSteadfast};
ghost use Rattle.site_hall.specs.Handed.{handed_in, LeavesHanded};

use crate::edit::SharedEdit;
use crate::engine::Engine;
use crate::making::Ready;
use crate::stop::Stop;
use cache_entries::{Bin, Found, Kept, Key};
use content_state::{Ask, State};
use site_commands::{Answer, Command};
use site_house::House;
use site_keeper::{Keeper, KeeperFault};
use std::alloc::{AllocError, Global};
use std::marker::Model;
use std::sync::Arc;

/// A caller that has an engine for itself, as a house: it has seen all that the engine published. Its edits bear the number 0.
/// Contracts see the engine, how many edits its log had when the caller came, the edits that the caller handed in, how often
/// it was told that the keeper failed, and how often something that it had to keep wasn't kept.
#[derive(Drop)]
pub struct Alone<K: Keeper> {
    hall: Engine<K>,
    opened: usize,
    handed: Vec<SharedEdit>,
    keepers: u64,
    unkept: u64,
}

impl<K: Keeper> Model for Alone<K> {
    ghost use Rattle.site_hall.specs.Alone.{AloneView, IsAlone};

    ghost Value = { AloneView };

    ghost view = { λ a. record { hall = a.hall; opened = a.opened; handed = a.handed.items; keepers = a.keepers; unkept = a.unkept } };

    ghost invariant = { λ a. IsAlone (record { hall = a.hall; opened = a.opened; handed = a.handed.items; keepers = a.keepers; unkept = a.unkept }) };
}

impl<K: Keeper> Alone<K> {
    /// The caller of this engine, where nothing is pending. It handed nothing in yet.
    pub fn new(alloc: Global, hall: Engine<K>) -> Alone<K>
        requires { hall.pending ≡ None }
        ensures alone { result ≡ record { hall = hall; opened = length hall.log; handed = []; keepers = 0; unkept = 0 } }
        ensures is_alone { IsAlone result }
        ensures own { AreOwn (house_of result) }
    {
        let opened = hall.len();
        Alone {
            hall,
            opened,
            handed: Vec::new(alloc),
            keepers: 0,
            unkept: 0,
        }
    }

    /// How many edits the caller handed in. What always holds of such a caller holds.
    pub fn handed(&self) -> usize
        ensures count { result ≡ length self.now.handed }
        ensures is_alone { IsAlone self.now }
    {
        self.handed.len()
    }

    /// The engine, as it is.
    pub fn into_hall(self) -> Engine<K>
        ensures hall { result ≡ self.hall }
        ensures is_alone { IsAlone self }
    {
        let Alone {
            hall,
            opened: _,
            handed: _,
            keepers: _,
            unkept: _,
        } = self;
        hall
    }

    /// Hands an edit in, which bears the number 0: keeps it, and then publishes it. Its place among those that were handed in is
    /// made before.
    fn hand_in(&mut self, alloc: Global, ready: Ready) -> Result<(), KeeperFault>
        requires next { MayBeNext self.old.hall ready }
        requires pass { ready.batch.commit.pass ≡ 0 }
        ensures published { OnOk result (self.new ≡ handed_in self.old (published self.old.hall ready.batch) ready.batch.commit) }
        ensures leaves { IfErr result (λ fault. LeavesHanded fault self.old ready.batch self.new) }
        ensures is_alone { IsAlone self.new }
        ensures never_falls { self.old.hall.faults ≤ self.new.hall.faults }
        ensures steadfast { StaysSteadfast self.old.hall self.new.hall }
    {
        self.handed.reserve(1)?;
        let commit = Arc::try_clone(&ready.batch.commit)?;
        match self.hall.keep_edit(alloc, ready) {
            Ok(()) => {
                let Ok(()) = self.handed.push(SharedEdit { commit }) else {
                    unreachable!()
                };
                Ok(())
            }
            Err(fault) => match fault {
                KeeperFault::Failed => {
                    let Ok(()) = self.handed.push(SharedEdit { commit }) else {
                        unreachable!()
                    };
                    Err(KeeperFault::Failed)
                }
                KeeperFault::OutOfMemory => Err(KeeperFault::OutOfMemory),
            },
        }
    }

    /// Counts an edit that was answered that the keeper failed.
    fn keeper_failed(&mut self) -> Answer
        ensures answer { result ≡ Answer.Keeper }
        ensures counted { self.new ≡ record self.old { keepers = up self.old.keepers } }
        ensures is_alone { IsAlone self.new }
    {
        self.keepers = self.keepers.saturating_add(1);
        Answer::Keeper
    }

    /// Counts something that wasn't kept for want of memory.
    fn not_kept(&mut self) -> AllocError
        ensures counted { self.new ≡ record self.old { unkept = up self.old.unkept } }
        ensures grows { self.old.unkept ≤ self.new.unkept }
        ensures is_alone { IsAlone self.new }
    {
        self.unkept = self.unkept.saturating_add(1);
        AllocError
    }
}

impl<K: Keeper> House for Alone<K> {
    ghost sees = { λ a. house_of a };

    fn snapshot(&mut self, alloc: Global) -> Result<Arc<State>, AllocError> {
        self.hall.snapshot(alloc)
    }

    fn commit(
        &mut self,
        alloc: Global,
        ask: &Ask,
        csrf: Option<&[u8]>,
        command: &Command,
        now: u64,
    ) -> Answer {
        match self.hall.prepare(alloc, ask, csrf, command, now, 0) {
            Ok(ready) => {
                let done = ready.done;
                match self.hand_in(alloc, ready) {
                    Ok(()) => Answer::Done(done, self.hall.number()),
                    Err(fault) => match fault {
                        KeeperFault::Failed => self.keeper_failed(),
                        KeeperFault::OutOfMemory => Answer::OutOfMemory,
                    },
                }
            }
            Err(stop) => match stop {
                Stop::Refused(refusal) => Answer::Refused(refusal, self.hall.number()),
                Stop::Failed => self.keeper_failed(),
                Stop::OutOfMemory => Answer::OutOfMemory,
            },
        }
    }

    fn look(&mut self, alloc: Global, bin: Bin, key: &Key) -> Result<Found, AllocError> {
        self.hall.look(alloc, bin, key)
    }

    fn keep(&mut self, alloc: Global, bin: Bin, key: Key, kept: Kept) -> Result<(), AllocError> {
        match self.hall.keep(alloc, bin, key, kept) {
            Ok(()) => Ok(()),
            Err(_) => Err(self.not_kept()),
        }
    }

    fn faults(&self) -> u64 {
        self.hall.faults()
    }

    fn unkept(&self) -> u64 {
        self.unkept
    }
}
