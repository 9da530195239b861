//! A place in memory, which tells what it is to give and what it is given back.
ghost use Rattle.std.specs.Prelude.{◌≡◌, ◌≤◌, ◌<◌, ◌+◌, false, IfErr, IfOk, IfSome, OnErr, OnOk, Some, is_none, length, map, option_map};
ghost use Rattle.std.specs.String.{string_bytes};
ghost use Rattle.site_io.specs.Memory.{up};
ghost use Rattle.indexed_rows.specs.Rows.{AreValidRows};
ghost use Rattle.site_places.specs.Place.{
  door_given,
  file_at,
  keeper_of,
  keeper_or_new,
  memory_view,
  new_memory,
  numbers,
  opening_fails,
  opening_passed,
  place_of,
  port_at,
  ports_left,
  rows_given,
  source_of,
  store_at,
  HasTold,
  HoldsMade,
  HoldsTold,
  IsDoorAt,
  IsNewDoor,
  IsNoDevice,
  IsNoneBack,
  IsUnopened,
};
ghost use Rattle.site_places.specs.declared.place.NoDevice.TheVariants as why;

use crate::place::{NoDevice, Place};
use content_state::Rows;
use site_io::{
    Door, ListClock, ListEntropy, MemoryDoor, MemorySink, MemorySource, OpenGate, Source,
};
use site_keeper::{Fail, Keeper, MemoryKeeper, Stored};
use std::alloc::{AllocError, Global};
use std::marker::Model;
use std::vec::IntoIter;
use tag_counts::Counts;

/// A file of a place in memory.
#[derive(Drop)]
pub struct MemoryFile {
    path: String,
    bytes: Vec<u8>,
    failing: Vec<u64>,
}

impl Model for MemoryFile {
    ghost use Rattle.std.specs.String.{string_bytes};
    ghost use Rattle.site_places.specs.Place.{File};

    ghost Value = { File };

    ghost view = { λ f. record { path = string_bytes f.path; bytes = f.bytes.items; failing = f.failing.items } };
}

impl MemoryFile {
    /// The file of a path, with its bytes. The reads whose numbers are listed, counted from 1, are to fail.
    pub fn new(path: String, bytes: Vec<u8>, failing: Vec<u64>) -> MemoryFile
        ensures { result ≡ record { path = string_bytes path; bytes = bytes.items; failing = failing.items } }
    {
        MemoryFile {
            path,
            bytes,
            failing,
        }
    }

    /// A source of its bytes, of which none is read yet.
    fn opened(&self, alloc: Global) -> Result<MemorySource, AllocError>
        ensures { IfOk result (λ s. s ≡ source_of self.now) }
    {
        let bytes = Vec::from_slice(alloc, self.bytes.as_slice())?;
        let failing = Vec::from_slice(alloc, self.failing.as_slice())?;
        Ok(MemorySource::new(bytes, PIECE).failing_at(failing))
    }
}

/// A source of a file in memory gives at most so many bytes at once.
const PIECE: usize = 4096;

/// The first file of that path.
fn file_at<'a>(files: &'a [MemoryFile], path: &str) -> Option<&'a MemoryFile>
    ensures { option_map (λ f. f.now) result ≡ file_at files.now path.now }
{
    files.iter().find(|file| file.path.as_str() == path)
}

/// A store of a place in memory. Each of its rows is right by itself.
#[derive(Drop)]
pub struct MemoryStore {
    path: String,
    stored: Stored,
    failing: Vec<Fail>,
}

impl Model for MemoryStore {
    ghost use Rattle.std.specs.String.{string_bytes};
    ghost use Rattle.indexed_rows.specs.Rows.{AreValidRows};
    ghost use Rattle.site_places.specs.Place.{Store};

    ghost Value = { Store };

    ghost view = { λ s. record { path = string_bytes s.path; stored = s.stored; failing = s.failing.items } };

    ghost invariant = { λ s. AreValidRows s.stored.rows };
}

impl MemoryStore {
    /// The store of a path, with what it holds. The calls of its keeper that are listed are to fail.
    pub fn new(path: String, stored: Stored, failing: Vec<Fail>) -> MemoryStore
        requires { AreValidRows stored.rows }
        ensures { result ≡ record { path = string_bytes path; stored = stored; failing = failing.items } }
    {
        MemoryStore {
            path,
            stored,
            failing,
        }
    }

    /// A keeper that holds what it holds, and has kept nothing yet.
    fn opened(&self, alloc: Global) -> Result<MemoryKeeper, AllocError>
        ensures { IfOk result (λ k. k ≡ keeper_of self.now) }
    {
        let stored = self.stored.duplicate(alloc)?;
        let failing = Vec::from_slice(alloc, self.failing.as_slice())?;
        Ok(MemoryKeeper::new(alloc, stored, failing))
    }
}

/// The first store of that path.
fn store_at<'a>(stores: &'a [MemoryStore], path: &str) -> Option<&'a MemoryStore>
    ensures { option_map (λ s. s.now) result ≡ store_at stores.now path.now }
{
    stores.iter().find(|store| store.path.as_str() == path)
}

/// A keeper over the first store of that path, or over one that holds nothing where there is none.
fn opened_or_new(
    alloc: Global,
    stores: &[MemoryStore],
    path: &str,
) -> Result<MemoryKeeper, AllocError>
    ensures { IfOk result (λ k. k ≡ keeper_or_new (store_at stores.now path.now)) }
{
    match store_at(stores, path) {
        Some(store) => Ok(store.opened(alloc)?),
        None => {
            let stored = Stored {
                rows: Rows::new(alloc),
                counts: Counts::new(alloc),
                head: 0,
            };
            Ok(MemoryKeeper::new(alloc, stored, Vec::new(alloc)))
        }
    }
}

/// A port of a place in memory: an address, and a door there, at which nothing happened yet.
#[derive(Drop)]
pub struct MemoryPort {
    address: String,
    door: MemoryDoor,
}

impl Model for MemoryPort {
    ghost use Rattle.std.specs.String.{string_bytes};
    ghost use Rattle.site_places.specs.Place.{Port, IsNewDoor};

    ghost Value = { Port };

    ghost view = { λ p. record { address = string_bytes p.address; door = p.door } };

    ghost invariant = { λ p. IsNewDoor p.door };
}

impl MemoryPort {
    /// The door at that address, where no connection is out or was given back, and which has not failed.
    pub fn new(address: String, door: MemoryDoor) -> MemoryPort
        requires { IsNewDoor door }
        ensures { result ≡ record { address = string_bytes address; door = door } }
    {
        MemoryPort { address, door }
    }

    /// The door.
    fn into_door(self) -> MemoryDoor
        ensures same { result ≡ self.door }
        ensures new { IsNewDoor result }
    {
        let MemoryPort { address: _, door } = self;
        door
    }
}

/// The place in the list of the first port of that address.
fn place_of(ports: &[MemoryPort], address: &str) -> Option<usize>
    ensures place { result ≡ place_of address.now ports.now }
    ensures within { IfSome result (λ index. index < length ports.now) }
{
    ports
        .iter()
        .position(|port| port.address.as_str() == address)
}

/// A place in memory: each clock gives the moments of its list, and each entropy the words of its list, its files hold
/// bytes in memory, its stores rows and counts, and its ports have doors in memory, all of which the place tells beforehand.
#[derive(Drop)]
pub struct MemoryPlace {
    moments: IntoIter<Vec<u64>>,
    words: IntoIter<Vec<u64>>,
    files: Vec<MemoryFile>,
    stores: Vec<MemoryStore>,
    ports: Vec<MemoryPort>,
    rows_out: u64,
    returned: Option<MemoryKeeper>,
    doors_back: Vec<MemoryDoor>,
    doors_out: usize,
    failing: Vec<u64>,
    opened: u64,
    faults: u64,
    rows_faults: u64,
    keeper_faults: u64,
    door_faults: u64,
    alloc: Global,
}

impl Model for MemoryPlace {
    ghost use Rattle.std.specs.Prelude.{◌+◌, ◌≤◌, length, map, vec_capacity};
    ghost use Rattle.std.specs.Vec.Iter.{into_iter_items};
    ghost use Rattle.site_places.specs.Place.{Memory, numbers};

    ghost Value = { Memory };

    ghost view = { λ p. record { moments = map numbers (into_iter_items p.moments); words = map numbers (into_iter_items p.words); files = p.files.items; stores = p.stores.items; ports = p.ports.items; rows_out = p.rows_out; returned = p.returned; doors_back = p.doors_back.items; doors_out = p.doors_out; failing = p.failing.items; opened = p.opened; faults = p.faults; rows_faults = p.rows_faults; keeper_faults = p.keeper_faults; door_faults = p.door_faults } };

    ghost invariant = { λ p. length p.doors_back.items + p.doors_out ≤ vec_capacity p.doors_back };
}

impl MemoryPlace {
    /// The place whose clocks give these moments, one list each, in order, and whose entropies give these words. Those
    /// past the last list have an empty one. It has neither files, stores nor ports, and nothing has failed yet.
    pub fn new(alloc: Global, moments: Vec<Vec<u64>>, words: Vec<Vec<u64>>) -> MemoryPlace
        ensures { result ≡ new_memory (map numbers moments.items) (map numbers words.items) }
    {
        MemoryPlace {
            moments: moments.into_iter(),
            words: words.into_iter(),
            files: Vec::new(alloc),
            stores: Vec::new(alloc),
            ports: Vec::new(alloc),
            rows_out: 0,
            returned: None,
            doors_back: Vec::new(alloc),
            doors_out: 0,
            failing: Vec::new(alloc),
            opened: 0,
            faults: 0,
            rows_faults: 0,
            keeper_faults: 0,
            door_faults: 0,
            alloc,
        }
    }

    /// The place with these files, and no others. Of two of one path the first counts.
    pub fn with_files(self, files: Vec<MemoryFile>) -> MemoryPlace
        ensures { result ≡ record self { files = files.items } }
    {
        MemoryPlace { files, ..self }
    }

    /// The place with these stores, and no others. Of two of one path the first counts.
    pub fn with_stores(self, stores: Vec<MemoryStore>) -> MemoryPlace
        ensures { result ≡ record self { stores = stores.items } }
    {
        MemoryPlace { stores, ..self }
    }

    /// The place with these ports, and no others. Of two of one address the first has the door that is given first.
    pub fn with_ports(self, ports: Vec<MemoryPort>) -> MemoryPlace
        ensures { result ≡ record self { ports = ports.items } }
    {
        MemoryPlace { ports, ..self }
    }

    /// The doors that were given back, in order.
    pub fn doors_back(&self) -> &[MemoryDoor]
        ensures { result.now ≡ self.now.doors_back }
    {
        self.doors_back.as_slice()
    }

    /// The keeper that was given back last, if one was.
    pub fn into_returned(self) -> Option<MemoryKeeper>
        ensures { result ≡ self.returned }
    {
        self.returned
    }

    /// The place where the openings with these numbers are to fail, counted from now on and from 1, up to the greatest u64.
    pub fn failing_at(self, failing: Vec<u64>) -> MemoryPlace
        ensures { result ≡ record self { failing = failing.items; opened = 0 } }
    {
        MemoryPlace {
            failing,
            opened: 0,
            ..self
        }
    }

    /// Counts a fault of the place.
    fn fault(&mut self) -> NoDevice
        ensures counted { self.new ≡ record self.old { faults = up self.old.faults } }
        ensures never_falls { self.old.faults ≤ self.new.faults }
        ensures why { result ≡ why.Failed }
    {
        self.faults = self.faults.saturating_add(1);
        NoDevice::Failed
    }
}

impl Place for MemoryPlace {
    type In = MemorySource;

    type Out = MemorySink;

    type Rows = MemorySource;

    type Keeper = MemoryKeeper;

    type Door = MemoryDoor;

    type Clock = ListClock;

    type Entropy = ListEntropy;

    type Gate = OpenGate;

    ghost sees = { memory_view };

    fn rows(&mut self, path: &str) -> Result<MemorySource, NoDevice>
        ensures told { IfOk result (λ rows. HasTold ((memory_view self.old).file path.now) (Some rows.left)) }
        ensures unused { IfOk result (λ rows. rows.calls.faults ≡ 0) }
        ensures later { OnOk result (memory_view self.new ≡ rows_given (memory_view self.old)) }
        ensures cause { IfErr result (IsNoDevice (memory_view self.old) (memory_view self.new)) }
        ensures source { IfOk result (λ rows. option_map source_of (file_at self.old.files path.now) ≡ Some rows) }
        ensures passed { OnOk result (opening_fails self.old (is_none (file_at self.old.files path.now)) ≡ false) }
        ensures given { OnOk result (self.new ≡ record (opening_passed self.old) { rows_out = self.old.rows_out + 1 }) }
        ensures unopened { IfErr result (IsUnopened (opening_fails self.old (is_none (file_at self.old.files path.now))) self.old self.new) }
    {
        self.opened = self.opened.saturating_add(1);
        if self.failing.contains(&self.opened) {
            return Err(self.fault());
        }
        let Some(file) = file_at(self.files.as_slice(), path) else {
            return Err(self.fault());
        };
        let Some(out) = self.rows_out.checked_add(1) else {
            return Err(NoDevice::OutOfMemory);
        };
        let Ok(rows) = file.opened(self.alloc) else {
            return Err(NoDevice::OutOfMemory);
        };
        self.rows_out = out;
        Ok(rows)
    }

    fn rows_back(&mut self, rows: MemorySource) {
        if rows.faults() > 0 {
            self.rows_faults = self.rows_faults.saturating_add(1);
        }
        self.rows_out -= 1;
    }

    fn keeper(&mut self, path: &str) -> Result<MemoryKeeper, NoDevice>
        ensures told { IfOk result (λ keeper. HoldsTold ((memory_view self.old).store path.now) (Some keeper.kept)) }
        ensures unused { IfOk result (λ keeper. keeper.calls.faults ≡ 0) }
        ensures steady { IfOk result (λ _. memory_view self.new ≡ memory_view self.old) }
        ensures cause { IfErr result (IsNoDevice (memory_view self.old) (memory_view self.new)) }
        ensures keeper { IfOk result (λ keeper. option_map keeper_of (store_at self.old.stores path.now) ≡ Some keeper) }
        ensures passed { OnOk result (opening_fails self.old (is_none (store_at self.old.stores path.now)) ≡ false) }
        ensures given { OnOk result (self.new ≡ opening_passed self.old) }
        ensures unopened { IfErr result (IsUnopened (opening_fails self.old (is_none (store_at self.old.stores path.now))) self.old self.new) }
    {
        self.opened = self.opened.saturating_add(1);
        if self.failing.contains(&self.opened) {
            return Err(self.fault());
        }
        let Some(store) = store_at(self.stores.as_slice(), path) else {
            return Err(self.fault());
        };
        let Ok(keeper) = store.opened(self.alloc) else {
            return Err(NoDevice::OutOfMemory);
        };
        Ok(keeper)
    }

    fn keeper_or_new(&mut self, path: &str) -> Result<MemoryKeeper, NoDevice>
        ensures told { IfOk result (λ keeper. HoldsMade ((memory_view self.old).store path.now) (Some keeper.kept)) }
        ensures unused { IfOk result (λ keeper. keeper.calls.faults ≡ 0) }
        ensures steady { IfOk result (λ _. memory_view self.new ≡ memory_view self.old) }
        ensures cause { IfErr result (IsNoDevice (memory_view self.old) (memory_view self.new)) }
        ensures keeper { IfOk result (λ keeper. keeper ≡ keeper_or_new (store_at self.old.stores path.now)) }
        ensures passed { OnOk result (opening_fails self.old false ≡ false) }
        ensures given { OnOk result (self.new ≡ opening_passed self.old) }
        ensures unopened { IfErr result (IsUnopened (opening_fails self.old false) self.old self.new) }
    {
        self.opened = self.opened.saturating_add(1);
        if self.failing.contains(&self.opened) {
            return Err(self.fault());
        }
        let Ok(keeper) = opened_or_new(self.alloc, self.stores.as_slice(), path) else {
            return Err(NoDevice::OutOfMemory);
        };
        Ok(keeper)
    }

    fn keeper_back(&mut self, keeper: MemoryKeeper) {
        if keeper.faults() > 0 {
            self.keeper_faults = self.keeper_faults.saturating_add(1);
        }
        self.returned = Some(keeper);
    }

    fn door(&mut self, address: &str) -> Result<MemoryDoor, NoDevice>
        ensures told { IfOk result (λ door. IsDoorAt (memory_view self.old).doors address.now (Some door.coming)) }
        ensures none_back { IfOk result (λ door. IsNoneBack (Some door.returned)) }
        ensures none_out { IfOk result (λ door. door.is_out ≡ false) }
        ensures unused { IfOk result (λ door. door.calls.faults ≡ 0) }
        ensures later { OnOk result (memory_view self.new ≡ door_given address.now (memory_view self.old)) }
        ensures cause { IfErr result (IsNoDevice (memory_view self.old) (memory_view self.new)) }
        ensures door { IfOk result (λ door. option_map (λ port. port.door) (port_at address.now self.old.ports) ≡ Some door) }
        ensures passed { OnOk result (opening_fails self.old (is_none (place_of address.now self.old.ports)) ≡ false) }
        ensures given { OnOk result (self.new ≡ record (opening_passed self.old) { ports = ports_left address.now self.old.ports; doors_out = self.old.doors_out + 1 }) }
        ensures unopened { IfErr result (IsUnopened (opening_fails self.old (is_none (place_of address.now self.old.ports))) self.old self.new) }
    {
        self.opened = self.opened.saturating_add(1);
        if self.failing.contains(&self.opened) {
            return Err(self.fault());
        }
        let Some(index) = place_of(self.ports.as_slice(), address) else {
            return Err(self.fault());
        };
        let Some(out) = self.doors_out.checked_add(1) else {
            return Err(NoDevice::OutOfMemory);
        };
        if self.doors_back.reserve(out).is_err() {
            return Err(NoDevice::OutOfMemory);
        }
        self.doors_out = out;
        Ok(self.ports.remove(index).into_door())
    }

    fn door_back(&mut self, door: MemoryDoor) {
        if door.faults() > 0 {
            self.door_faults = self.door_faults.saturating_add(1);
        }
        self.doors_out -= 1;
        self.doors_back.push_reserved(door);
    }

    fn faults(&self) -> u64 {
        self.faults
    }

    fn rows_faults(&self) -> u64 {
        self.rows_faults
    }

    fn keeper_faults(&self) -> u64 {
        self.keeper_faults
    }

    fn door_faults(&self) -> u64 {
        self.door_faults
    }

    fn clock(&mut self) -> ListClock {
        match self.moments.next() {
            Some(list) => ListClock::new(list),
            None => ListClock::new(Vec::new(self.alloc)),
        }
    }

    fn entropy(&mut self) -> ListEntropy {
        match self.words.next() {
            Some(list) => ListEntropy::new(list),
            None => ListEntropy::new(Vec::new(self.alloc)),
        }
    }

    fn gate(&mut self) -> OpenGate {
        OpenGate
    }
}
