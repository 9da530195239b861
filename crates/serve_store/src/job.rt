//! The job of serving.
ghost use Rattle.std.specs.Prelude.{◌≡◌, ◌≤◌, [], length, true, false, IfOk, None};
ghost use Rattle.std.specs.Vec.{vec_capacity};
ghost use Rattle.site_hall.specs.Hall.{IsHall};
ghost use Rattle.site_jobs.specs.Ground.{IsNoSiteOf};
ghost use Rattle.site_jobs.specs.Jobs.{CountsKeeper, IsNoBase};
ghost use Rattle.serve_store.specs.Job.{to_serve, FindsNoSite, KeeperRises, OutputRises, PlaceRises, PrintsCount, ServesHall, ServesOpen, ServesStore, WorksAt};
ghost use Rattle.serve_store.specs.Stations.{AllBack, AreUnused, HasFailed};
ghost use Rattle.serve_store.specs.Texts.{listening_text, served_text};
ghost use Rattle.serve_store.specs.Warming.{IsNew};

use crate::doors::{NoStations, all_back, open_stations};
use crate::ending::ServeEnd;
use crate::opening::{Unopened, hall_of};
use crate::serving::Serving;
use crate::texts::{announce, listening_text, served_text};
use crate::warming::{Unwarmed, made_warm};
use site_hall::Engine;
use site_io::{Door, write_whole};
use site_jobs::NoJob;
use site_places::{NoDevice, Place};
use site_serve::{Served, Station, Unserved, serve_all};
use std::alloc::{AllocError, Global};
use std::sync::Wait;
use std::thread::Threads;

/// What serving needs in memory before anything is opened: what is to be printed, and an empty list with room for the stations.
#[derive(Drop)]
struct Ready<P: Place> {
    listening: Vec<u8>,
    served: Vec<u8>,
    stations: Vec<Station<P::Door, P::Clock, P::Entropy, P::Gate>>,
}

/// All that is needed. `Err` only where memory is wanting.
fn made_ready<P: Place>(alloc: Global, serving: &Serving) -> Result<Ready<P>, AllocError>
    ensures listening { IfOk result (λ ready. ready.listening.items ≡ listening_text (to_serve serving.now).address) }
    ensures served { IfOk result (λ ready. ready.served.items ≡ served_text (to_serve serving.now).limit) }
    ensures empty { IfOk result (λ ready. ready.stations.items ≡ []) }
    ensures room { IfOk result (λ ready. (to_serve serving.now).workers ≤ vec_capacity ready.stations) }
{
    Ok(Ready {
        listening: listening_text(alloc, serving.address.as_str())?,
        served: served_text(alloc, serving.limit)?,
        stations: Vec::with_capacity(alloc, serving.workers as usize)?,
    })
}

/// Gives all back once the workers have stopped, and prints how many connections they served, where none stopped for its door.
fn close<P: Place>(
    served: Served<P::Keeper, P::Door, P::Clock, P::Entropy, P::Gate>,
    closing: &[u8],
    place: &mut P,
    output: &mut P::Out,
) -> ServeEnd
    requires out { length served.stations.items ≤ (P.sees place.old).doors_out }
    requires unused { served.whole ≡ true → AreUnused served.stations.items }
    requires failed { served.whole ≡ false → HasFailed served.stations.items }
    ensures back { AllBack served.stations.items served.hall.kept served.hall.faults (P.sees place.old) (P.sees place.new) }
    ensures prints { PrintsCount served.whole closing.now result (P.Out.written output.old) (P.Out.written output.new) }
    ensures output { OutputRises result (P.Out.faults output.old) (P.Out.faults output.new) }
    ensures place { PlaceRises result (P.sees place.old) (P.sees place.new) }
    ensures keeper { KeeperRises result (P.sees place.old).keeper_faults (P.sees place.new).keeper_faults }
{
    let Served {
        hall,
        stations,
        count: _,
        whole,
    } = served;
    all_back(place, stations, hall.into_keeper());
    if !whole {
        ServeEnd::PlaceFailed
    } else if write_whole(output, closing).is_err() {
        ServeEnd::OutputFailed
    } else {
        ServeEnd::Served
    }
}

/// Serves the site of an engine at these stations, and gives all back.
fn work_stations<P: Place, R: Threads + Wait + Sync>(
    rt: &R,
    alloc: Global,
    serving: &Serving,
    hall: Engine<P::Keeper>,
    stations: Vec<Station<P::Door, P::Clock, P::Entropy, P::Gate>>,
    closing: &[u8],
    place: &mut P,
    output: &mut P::Out,
) -> ServeEnd
where
    <P::Door as Door>::In: Send,
    <P::Door as Door>::Out: Send,
    requires new { (hall.pending ≡ None) × IsHall hall }
    requires closing { closing.now ≡ served_text (to_serve serving.now).limit }
    requires stations { AreUnused stations.items }
    requires workers { length stations.items ≡ (to_serve serving.now).workers }
    requires out { length stations.items ≤ (P.sees place.old).doors_out }
    ensures does { WorksAt (to_serve serving.now) hall stations.items result
        (record { written = P.Out.written output.old; writing = P.Out.faults output.old; place = P.sees place.old })
        (record { written = P.Out.written output.new; writing = P.Out.faults output.new; place = P.sees place.new }) }
    ensures output { OutputRises result (P.Out.faults output.old) (P.Out.faults output.new) }
    ensures place { PlaceRises result (P.sees place.old) (P.sees place.new) }
    ensures keeper { KeeperRises result (P.sees place.old).keeper_faults (P.sees place.new).keeper_faults }
{
    match serve_all(rt, alloc, hall, stations, serving.limit) {
        Ok(served) => close(served, closing, place, output),
        Err(Unserved { hall, stations }) => {
            all_back(place, stations, hall.into_keeper());
            ServeEnd::OutOfMemory
        }
    }
}

/// Prints that the doors at these stations are open, renders the pages that anybody may see where that is asked for, and serves
/// the site of an engine, of which nothing was edited yet; gives all back.
fn serve_stations<P: Place, R: Threads + Wait + Sync>(
    rt: &R,
    alloc: Global,
    serving: &Serving,
    hall: Engine<P::Keeper>,
    ready: Ready<P>,
    place: &mut P,
    output: &mut P::Out,
) -> ServeEnd
where
    <P::Door as Door>::In: Send,
    <P::Door as Door>::Out: Send,
    requires new { IsNew hall }
    requires listening { ready.listening.items ≡ listening_text (to_serve serving.now).address }
    requires closing { ready.served.items ≡ served_text (to_serve serving.now).limit }
    requires stations { AreUnused ready.stations.items }
    requires workers { length ready.stations.items ≡ (to_serve serving.now).workers }
    requires out { length ready.stations.items ≤ (P.sees place.old).doors_out }
    ensures does { ServesOpen (to_serve serving.now) hall ready.stations.items result
        (record { written = P.Out.written output.old; writing = P.Out.faults output.old; place = P.sees place.old })
        (record { written = P.Out.written output.new; writing = P.Out.faults output.new; place = P.sees place.new }) }
    ensures output { OutputRises result (P.Out.faults output.old) (P.Out.faults output.new) }
    ensures place { PlaceRises result (P.sees place.old) (P.sees place.new) }
    ensures keeper { KeeperRises result (P.sees place.old).keeper_faults (P.sees place.new).keeper_faults }
{
    let Ready {
        listening,
        served: closing,
        stations,
    } = ready;
    if announce(output, &listening).is_err() {
        all_back(place, stations, hall.into_keeper());
        return ServeEnd::OutputFailed;
    }
    match made_warm(alloc, serving.warm, hall, place, output) {
        Ok(hall) => work_stations(rt, alloc, serving, hall, stations, &closing, place, output),
        Err(Unwarmed { hall, end }) => {
            all_back(place, stations, hall.into_keeper());
            end
        }
    }
}

/// Opens the stations of the workers, and serves the site of an engine at them.
fn serve_hall<P: Place, R: Threads + Wait + Sync>(
    rt: &R,
    alloc: Global,
    serving: &Serving,
    hall: Engine<P::Keeper>,
    ready: Ready<P>,
    place: &mut P,
    output: &mut P::Out,
) -> ServeEnd
where
    <P::Door as Door>::In: Send,
    <P::Door as Door>::Out: Send,
    requires new { IsNew hall }
    requires listening { ready.listening.items ≡ listening_text (to_serve serving.now).address }
    requires closing { ready.served.items ≡ served_text (to_serve serving.now).limit }
    requires empty { ready.stations.items ≡ [] }
    requires room { (to_serve serving.now).workers ≤ vec_capacity ready.stations }
    ensures does { ServesHall (to_serve serving.now) hall result
        (record { written = P.Out.written output.old; writing = P.Out.faults output.old; place = P.sees place.old })
        (record { written = P.Out.written output.new; writing = P.Out.faults output.new; place = P.sees place.new }) }
    ensures output { OutputRises result (P.Out.faults output.old) (P.Out.faults output.new) }
    ensures place { PlaceRises result (P.sees place.old) (P.sees place.new) }
    ensures keeper { KeeperRises result (P.sees place.old).keeper_faults (P.sees place.new).keeper_faults }
{
    let Ready {
        listening,
        served,
        stations,
    } = ready;
    match open_stations(place, serving.address.as_str(), serving.workers, stations) {
        Ok(stations) => {
            let ready = Ready {
                listening,
                served,
                stations,
            };
            serve_stations(rt, alloc, serving, hall, ready, place, output)
        }
        Err(NoStations { stations, why }) => {
            all_back(place, stations, hall.into_keeper());
            match why {
                NoDevice::Failed => ServeEnd::PlaceFailed,
                NoDevice::OutOfMemory => ServeEnd::OutOfMemory,
            }
        }
    }
}

/// Gives back a keeper of which no site was opened, and prints why where rows are refused.
fn refuse<P: Place>(none: Unopened<P::Keeper>, place: &mut P, output: &mut P::Out) -> ServeEnd
    requires none { IsNoBase IsNoSiteOf (P.Keeper.kept none.keeper) none.why }
    requires counts { CountsKeeper none.why 0 (P.Keeper.faults none.keeper) }
    ensures does { FindsNoSite (P.Keeper.kept none.keeper) result
        (record { written = P.Out.written output.old; writing = P.Out.faults output.old; place = P.sees place.old })
        (record { written = P.Out.written output.new; writing = P.Out.faults output.new; place = P.sees place.new }) }
    ensures output { OutputRises result (P.Out.faults output.old) (P.Out.faults output.new) }
    ensures place { PlaceRises result (P.sees place.old) (P.sees place.new) }
    ensures keeper { KeeperRises result (P.sees place.old).keeper_faults (P.sees place.new).keeper_faults }
{
    let Unopened { keeper, why } = none;
    place.keeper_back(keeper);
    match why {
        NoJob::Refused(text) => {
            let _ = write_whole(output, text.as_slice());
            ServeEnd::Refused
        }
        NoJob::Keeper => ServeEnd::KeeperFailed,
        NoJob::Input => unreachable!(),
        NoJob::OutOfMemory => ServeEnd::OutOfMemory,
    }
}

/// Serves the site that a store holds at an address: as many workers take the connections that come there as are told, each
/// one after the other, until as many were served as are told.
pub fn serve_store<P: Place, R: Threads + Wait + Sync>(
    rt: &R,
    alloc: Global,
    serving: &Serving,
    place: &mut P,
    output: &mut P::Out,
) -> ServeEnd
where
    <P::Door as Door>::In: Send,
    <P::Door as Door>::Out: Send,
    ensures does { ServesStore (to_serve serving.now) result
        (record { written = P.Out.written output.old; writing = P.Out.faults output.old; place = P.sees place.old })
        (record { written = P.Out.written output.new; writing = P.Out.faults output.new; place = P.sees place.new }) }
    ensures output { OutputRises result (P.Out.faults output.old) (P.Out.faults output.new) }
    ensures place { PlaceRises result (P.sees place.old) (P.sees place.new) }
    ensures keeper { KeeperRises result (P.sees place.old).keeper_faults (P.sees place.new).keeper_faults }
{
    let Ok(ready) = made_ready::<P>(alloc, serving) else {
        return ServeEnd::OutOfMemory;
    };
    let keeper = match place.keeper(serving.store.as_str()) {
        Ok(keeper) => keeper,
        Err(NoDevice::Failed) => return ServeEnd::PlaceFailed,
        Err(NoDevice::OutOfMemory) => return ServeEnd::OutOfMemory,
    };
    match hall_of(alloc, keeper) {
        Ok(hall) => serve_hall(rt, alloc, serving, hall, ready, place, output),
        Err(none) => refuse(none, place, output),
    }
}
