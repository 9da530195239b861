//! Where the program works: what gives it moments, words of chance, a gate, files of rows, stores and doors.
ghost use Rattle.std.specs.Prelude.{◌≡◌, ◌<◌, false, IfOk, IfErr, OnOk};
ghost use Rattle.site_places.specs.Place.{
  clock_given,
  door_given,
  entropy_given,
  next_list,
  none_given,
  rows_given,
  DoorBack,
  GivenBack,
  HasTold,
  HoldsMade,
  HoldsTold,
  IsDoorAt,
  IsNoDevice,
  IsNoneBack,
  IsNoneReached,
  KeeperBack,
  PlaceView,
};

use site_io::{Clock, Door, Entropy, Gate, Sink, Source};
use site_keeper::Keeper;
use std::alloc::AllocError;

/// Why a place opened no device.
#[derive(Clone, Copy, Debug, PartialEq, Eq)]
pub enum NoDevice {
    /// It isn't there or can't be opened, and the place's count of faults rose. The program ends with status 7 then.
    Failed,
    OutOfMemory,
}

impl From<AllocError> for NoDevice {
    ghost use Rattle.site_places.specs.declared.place.NoDevice.TheVariants.{OutOfMemory};

    ghost from_gives = { λ _ why. why ≡ OutOfMemory };

    fn from(_wanting: AllocError) -> NoDevice {
        NoDevice::OutOfMemory
    }
}

/// A place that the program works at. Its input and its output are handed to the program beside it.
pub trait Place {
    type In: Source + Drop;

    type Out: Sink + Drop;

    type Rows: Source + Drop;

    type Keeper: Keeper + Drop + Send;

    type Door: Door + Drop + Send;

    type Clock: Clock + Drop + Send;

    type Entropy: Entropy + Drop + Send;

    type Gate: Gate + Drop + Send;

    /// What it is to give, where it tells it, and how often it failed.
    ghost sees: { Self → PlaceView };

    /// Opens the file of rows of that path.
    ///
    /// The device is out then, has no fault yet, and the bytes that the place told of the file. `Failed` comes exactly where
    /// the place's own count of faults rose in this call, and always where the place told that there is no such file.
    fn rows(&mut self, path: &str) -> Result<Self::Rows, NoDevice>
        ensures told { IfOk result (λ rows. HasTold ((sees self.old).file path.now) (Self.Rows.left rows)) }
        ensures unused { IfOk result (λ rows. Self.Rows.faults rows ≡ 0) }
        ensures later { OnOk result (sees self.new ≡ rows_given (sees self.old)) }
        ensures cause { IfErr result (IsNoDevice (sees self.old) (sees self.new)) };

    /// Takes one of the devices of rows that are out back. The count of such faults rises exactly where it had failed; the
    /// program ends with status 7 then.
    fn rows_back(&mut self, rows: Self::Rows)
        requires { 0 < (sees self.old).rows_out }
        ensures { GivenBack (Self.Rows.faults rows) (sees self.old) (sees self.new) };

    /// Opens the store of that path, and makes none.
    ///
    /// The keeper has no fault yet, and holds what the place told of the store. `Failed` comes exactly where the place's
    /// own count of faults rose in this call, and always where the place told that there is no such store.
    fn keeper(&mut self, path: &str) -> Result<Self::Keeper, NoDevice>
        ensures told { IfOk result (λ keeper. HoldsTold ((sees self.old).store path.now) (Self.Keeper.kept keeper)) }
        ensures unused { IfOk result (λ keeper. Self.Keeper.faults keeper ≡ 0) }
        ensures steady { IfOk result (λ _. sees self.new ≡ sees self.old) }
        ensures cause { IfErr result (IsNoDevice (sees self.old) (sees self.new)) };

    /// Opens the store of that path, or makes one where nothing is there.
    ///
    /// The keeper has no fault yet, and holds what the place told of the store; one that is made holds no row. `Failed` comes
    /// exactly where the place's own count of faults rose in this call.
    fn keeper_or_new(&mut self, path: &str) -> Result<Self::Keeper, NoDevice>
        ensures told { IfOk result (λ keeper. HoldsMade ((sees self.old).store path.now) (Self.Keeper.kept keeper)) }
        ensures unused { IfOk result (λ keeper. Self.Keeper.faults keeper ≡ 0) }
        ensures steady { IfOk result (λ _. sees self.new ≡ sees self.old) }
        ensures cause { IfErr result (IsNoDevice (sees self.old) (sees self.new)) };

    /// Takes a keeper back, and tells then what it tells. The count of such faults rises exactly where it had failed.
    fn keeper_back(&mut self, keeper: Self::Keeper)
        ensures { KeeperBack (Self.Keeper.kept keeper) (Self.Keeper.faults keeper) (sees self.old) (sees self.new) };

    /// Opens a door at that address. The doors of one address share the connections that come there.
    ///
    /// The door has no fault yet, no connection is out or was given back, and those are to come that the place told of the
    /// next door at that address. `Failed` comes exactly where the place's own count of faults rose in this call.
    fn door(&mut self, address: &str) -> Result<Self::Door, NoDevice>
        ensures told { IfOk result (λ door. IsDoorAt (sees self.old).doors address.now (Self.Door.coming door)) }
        ensures none_back { IfOk result (λ door. IsNoneBack (Self.Door.returned door)) }
        ensures none_out { IfOk result (λ door. Self.Door.is_out door ≡ false) }
        ensures unused { IfOk result (λ door. Self.Door.faults door ≡ 0) }
        ensures later { OnOk result (sees self.new ≡ door_given address.now (sees self.old)) }
        ensures cause { IfErr result (IsNoDevice (sees self.old) (sees self.new)) };

    /// Takes one of the doors that are out back, and tells then what it tells. The count of such faults rises exactly where
    /// it had failed; the program ends with status 7 then.
    fn door_back(&mut self, door: Self::Door)
        requires { 0 < (sees self.old).doors_out }
        ensures { DoorBack (Self.Door.returned door) (Self.Door.faults door) (sees self.old) (sees self.new) };

    /// How often it failed to open a device, up to the greatest u64. It never falls.
    fn faults(&self) -> u64
        ensures { result ≡ (sees self.now).faults };

    /// How often a device of rows was given back that had failed, up to the greatest u64. It never falls.
    fn rows_faults(&self) -> u64
        ensures { result ≡ (sees self.now).rows_faults };

    /// How often a keeper was given back that had failed, up to the greatest u64. It never falls.
    fn keeper_faults(&self) -> u64
        ensures { result ≡ (sees self.now).keeper_faults };

    /// How often a door was given back that had failed, up to the greatest u64. It never falls.
    fn door_faults(&self) -> u64
        ensures { result ≡ (sees self.now).door_faults };

    /// A clock, which is to give the list that is next, and has given no moment yet.
    fn clock(&mut self) -> Self::Clock
        ensures moments { Self.Clock.moments result ≡ next_list (sees self.old).moments }
        ensures begins { Self.Clock.given result ≡ none_given (next_list (sees self.old).moments) }
        ensures later { sees self.new ≡ clock_given (sees self.old) };

    /// Entropy, which is to give the list that is next, and has given no word yet.
    fn entropy(&mut self) -> Self::Entropy
        ensures words { Self.Entropy.words result ≡ next_list (sees self.old).words }
        ensures begins { Self.Entropy.given result ≡ none_given (next_list (sees self.old).words) }
        ensures later { sees self.new ≡ entropy_given (sees self.old) };

    /// A gate, which no work has reached yet.
    fn gate(&mut self) -> Self::Gate
        ensures begins { IsNoneReached (Self.Gate.reached result) }
        ensures steady { sees self.new ≡ sees self.old };
}
