//! The place of the real program.
ghost use Rattle.std.specs.Prelude.{◌≡◌, ◌≤◌, IfErr, IfOk, None, false, length};
ghost use Rattle.site_io.specs.Memory.{up};
ghost use Rattle.site_io.specs.Chance.{stream_at};
ghost use Rattle.site_places.specs.Place.{
  entropy_given,
  next_list,
  none_given,
  stream_given,
  system_view,
  IsNewSystem,
  IsNoDevice,
};
ghost use Rattle.site_places.specs.declared.place.NoDevice.TheVariants as why;

use crate::framing::HttpFraming;
use crate::place::{NoDevice, Place};
use crate::store::StoreFile;
use keeper_sqlite::{FileKeeper, NoKeeper, open_keeper, open_or_make_keeper};
use site_doors::{LobbyDoor, Share, listener_at};
use site_io::{
    Door, NoChance, OpenGate, Reading, Seed, Source, SystemClock, SystemEntropy, Writing,
};
use site_keeper::Keeper;
use std::fs::File;
use std::io;
use std::io::{BufWriter, ErrorKind, Stdin, Stdout};
use std::marker::Model;
use std::net::TcpListener;

/// The listener of an address, and what the doors of that address share so that each takes its part of the sockets.
#[derive(Drop)]
struct Listening {
    address: String,
    listener: TcpListener,
    share: Share<HttpFraming>,
}

/// The place of the real program: the system's clock, streams of chance over one seed of the system's, its files, its
/// stores in files of `sqlite`, and a gate that does nothing.
#[derive(Drop)]
pub struct SystemPlace {
    rt: HostRuntime,
    seed: Seed,
    streams: u64,
    rows_out: u64,
    listening: Option<Listening>,
    doors_out: u64,
    faults: u64,
    rows_faults: u64,
    keeper_faults: u64,
    door_faults: u64,
}

impl Model for SystemPlace {
    ghost use Rattle.site_places.specs.Place.{System};

    ghost Value = { System };

    ghost view = { λ p. record { seed = p.seed; streams = p.streams; rows_out = p.rows_out; doors_out = p.doors_out; faults = p.faults; rows_faults = p.rows_faults; keeper_faults = p.keeper_faults; door_faults = p.door_faults } };
}

impl SystemPlace {
    /// The place of this runtime, over a seed that is drawn now. Nothing has failed yet. `NoChance` comes where the
    /// system's chance can't be had, and there is no place then.
    pub fn new(rt: HostRuntime) -> Result<SystemPlace, NoChance>
        ensures new { IfOk result IsNewSystem }
        ensures seeded { IfOk result (λ place. length place.seed ≡ 32) }
    {
        let seed = Seed::draw(&rt)?;
        Ok(SystemPlace {
            rt,
            seed,
            streams: 0,
            rows_out: 0,
            listening: None,
            doors_out: 0,
            faults: 0,
            rows_faults: 0,
            keeper_faults: 0,
            door_faults: 0,
        })
    }

    /// A share of the listener of an address, which is made where no door of that address is out.
    fn share_at(&mut self, address: &str) -> io::Result<(TcpListener, Share<HttpFraming>)>
        ensures { self.new ≡ self.old }
    {
        if let Some(listening) = &self.listening {
            if listening.address.as_str() == address {
                return Ok((listening.listener.try_clone()?, listening.share.another()?));
            }
        }
        let listener = listener_at(&self.rt, address)?;
        let share = Share::new(self.rt.alloc())?;
        let theirs = (listener.try_clone()?, share.another()?);
        self.listening = Some(Listening {
            address: String::from_str(self.rt.alloc(), address)?,
            listener,
            share,
        });
        Ok(theirs)
    }

    /// A door at an address.
    fn door_at(&mut self, address: &str) -> io::Result<LobbyDoor<HostRuntime, HttpFraming>>
        ensures same { self.new ≡ self.old }
        ensures faults { IfOk result (λ door. door.faults ≡ 0) }
        ensures none_out { IfOk result (λ door. door.is_out ≡ false) }
    {
        let (listener, share) = self.share_at(address)?;
        let framing = HttpFraming::new(self.rt.alloc())?;
        LobbyDoor::new(&self.rt, self.rt.alloc(), self.rt, listener, share, framing)
    }

    /// The store of a keeper, where it was opened; what wasn't is counted, but for want of memory.
    fn store(&mut self, opened: Result<FileKeeper, NoKeeper>) -> Result<StoreFile, NoDevice>
        requires { IfOk opened (λ keeper. keeper.1 ≡ 0) }
        ensures unused { IfOk result (λ store. store ≡ 0) }
        ensures steady { IfOk result (λ _. self.new ≡ self.old) }
        ensures cause { IfErr result (IsNoDevice (system_view self.old) (system_view self.new)) }
    {
        match opened {
            Ok(keeper) => Ok(StoreFile::new(keeper)),
            Err(NoKeeper::OutOfMemory) => Err(NoDevice::OutOfMemory),
            Err(NoKeeper::Refused | NoKeeper::Shape(_)) => Err(self.fault()),
        }
    }

    /// Counts a fault of the place.
    fn fault(&mut self) -> NoDevice
        ensures counted { self.new ≡ record self.old { faults = up self.old.faults } }
        ensures never_falls { self.old.faults ≤ self.new.faults }
        ensures why { result ≡ why.Failed }
    {
        self.faults = self.faults.saturating_add(1);
        NoDevice::Failed
    }
}

impl Place for SystemPlace {
    type In = Reading<Stdin>;

    type Out = Writing<BufWriter<Stdout>>;

    type Rows = Reading<File>;

    type Keeper = StoreFile;

    type Door = LobbyDoor<HostRuntime, HttpFraming>;

    type Clock = SystemClock<HostRuntime>;

    type Entropy = SystemEntropy;

    type Gate = OpenGate;

    ghost sees = { system_view };

    fn rows(&mut self, path: &str) -> Result<Reading<File>, NoDevice> {
        let Some(out) = self.rows_out.checked_add(1) else {
            return Err(NoDevice::OutOfMemory);
        };
        match File::open(&self.rt, path) {
            Ok(file) => {
                self.rows_out = out;
                Ok(Reading::new(file))
            }
            Err(error) if error.kind() == ErrorKind::OutOfMemory => Err(NoDevice::OutOfMemory),
            Err(_) => Err(self.fault()),
        }
    }

    fn rows_back(&mut self, rows: Reading<File>) {
        if rows.faults() > 0 {
            self.rows_faults = self.rows_faults.saturating_add(1);
        }
        self.rows_out -= 1;
    }

    fn keeper(&mut self, path: &str) -> Result<StoreFile, NoDevice> {
        let opened = open_keeper(&self.rt, path);
        self.store(opened)
    }

    fn keeper_or_new(&mut self, path: &str) -> Result<StoreFile, NoDevice> {
        let opened = open_or_make_keeper(&self.rt, path);
        self.store(opened)
    }

    fn keeper_back(&mut self, keeper: StoreFile) {
        if keeper.faults() > 0 {
            self.keeper_faults = self.keeper_faults.saturating_add(1);
        }
        keeper.close();
    }

    fn door(&mut self, address: &str) -> Result<LobbyDoor<HostRuntime, HttpFraming>, NoDevice> {
        let Some(out) = self.doors_out.checked_add(1) else {
            return Err(NoDevice::OutOfMemory);
        };
        match self.door_at(address) {
            Ok(door) => {
                self.doors_out = out;
                Ok(door)
            }
            Err(error) if error.kind() == ErrorKind::OutOfMemory => Err(NoDevice::OutOfMemory),
            Err(_) => Err(self.fault()),
        }
    }

    fn door_back(&mut self, mut door: LobbyDoor<HostRuntime, HttpFraming>) {
        if door.faults() > 0 {
            self.door_faults = self.door_faults.saturating_add(1);
        }
        door.finish();
        self.doors_out -= 1;
        if self.doors_out == 0 {
            self.listening = None;
        }
    }

    fn faults(&self) -> u64 {
        self.faults
    }

    fn rows_faults(&self) -> u64 {
        self.rows_faults
    }

    fn keeper_faults(&self) -> u64 {
        self.keeper_faults
    }

    fn door_faults(&self) -> u64 {
        self.door_faults
    }

    fn clock(&mut self) -> SystemClock<HostRuntime> {
        SystemClock::new(self.rt)
    }

    fn entropy(&mut self) -> SystemEntropy
        ensures words { None ≡ next_list (system_view self.old).words }
        ensures begins { None ≡ none_given (next_list (system_view self.old).words) }
        ensures later { system_view self.new ≡ entropy_given (system_view self.old) }
        ensures stream { result ≡ stream_at self.old.seed self.old.streams }
        ensures next { self.new ≡ stream_given self.old }
    {
        let entropy = SystemEntropy::new(&self.seed, self.streams);
        self.streams = self.streams.wrapping_add(1);
        entropy
    }

    fn gate(&mut self) -> OpenGate {
        OpenGate
    }
}
