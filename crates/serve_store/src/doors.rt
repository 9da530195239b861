//! The stations of the workers, which a place gives and takes back.
ghost use Rattle.std.specs.Prelude.{◌≡◌, ◌≤◌, [], length, IfOk, IfErr, OnOk};
ghost use Rattle.std.specs.Vec.{vec_capacity};
ghost use Rattle.site_io.specs.Told.{Rose};
ghost use Rattle.site_places.specs.Place.{IsNoDevice, KeepsCounts};
ghost use Rattle.serve_store.specs.Stations.{station_given, AllBack, AreUnused, DoorsBack, HasFailed, IsStationAt, StationsGiven, StopsShort};

use site_places::{NoDevice, Place};
use site_serve::Station;

/// Why not all stations were opened. Those that were come back.
#[derive(Drop)]
pub(crate) struct NoStations<P: Place> {
    pub(crate) stations: Vec<Station<P::Door, P::Clock, P::Entropy, P::Gate>>,
    pub(crate) why: NoDevice,
}

/// A station at an address.
fn station_at<P: Place>(
    place: &mut P,
    address: &str,
) -> Result<Station<P::Door, P::Clock, P::Entropy, P::Gate>, NoDevice>
    ensures station { IfOk result (IsStationAt address.now (P.sees place.old)) }
    ensures given { OnOk result (P.sees place.new ≡ station_given address.now (P.sees place.old)) }
    ensures cause { IfErr result (IsNoDevice (P.sees place.old) (P.sees place.new)) }
{
    let door = place.door(address)?;
    Ok(Station {
        door,
        clock: place.clock(),
        entropy: place.entropy(),
        gate: place.gate(),
    })
}

/// Opens so many stations at an address, into an empty list that has the room.
pub(crate) fn open_stations<P: Place>(
    place: &mut P,
    address: &str,
    count: u64,
    mut stations: Vec<Station<P::Door, P::Clock, P::Entropy, P::Gate>>,
) -> Result<Vec<Station<P::Door, P::Clock, P::Entropy, P::Gate>>, NoStations<P>>
    requires empty { stations.items ≡ [] }
    requires room { count ≤ vec_capacity stations }
    ensures given { IfOk result (λ stations. StationsGiven address.now stations.items (P.sees place.old) (P.sees place.new)) }
    ensures count { IfOk result (λ stations. length stations.items ≡ count) }
    ensures short { IfErr result (λ none. StopsShort address.now none.stations.items none.why (P.sees place.old) (P.sees place.new)) }
{
    'stations: for opened in 0..count {
        match station_at(place, address) {
            Ok(station) => stations.push_reserved(station),
            Err(why) => return Err(NoStations { stations, why }),
        }
    }
    Ok(stations)
}

/// Gives the doors of stations back.
fn give_back<P: Place>(
    place: &mut P,
    stations: Vec<Station<P::Door, P::Clock, P::Entropy, P::Gate>>,
)
    requires { length stations.items ≤ (P.sees place.old).doors_out }
    ensures { DoorsBack stations.items (P.sees place.old) (P.sees place.new) }
{
    'stations: for station in stations {
        let Station { door, .. } = station;
        place.door_back(door);
    }
}

/// Gives the doors of stations back, and then the keeper.
pub(crate) fn all_back<P: Place>(
    place: &mut P,
    stations: Vec<Station<P::Door, P::Clock, P::Entropy, P::Gate>>,
    keeper: P::Keeper,
)
    requires { length stations.items ≤ (P.sees place.old).doors_out }
    ensures back { AllBack stations.items (P.Keeper.kept keeper) (P.Keeper.faults keeper) (P.sees place.old) (P.sees place.new) }
    ensures steady { AreUnused stations.items → KeepsCounts (P.sees place.old) (P.sees place.new) }
    ensures rose { HasFailed stations.items → Rose (P.sees place.old).door_faults (P.sees place.new).door_faults }
    ensures keepers { (P.sees place.old).keeper_faults ≤ (P.sees place.new).keeper_faults }
{
    give_back(place, stations);
    place.keeper_back(keeper);
}
