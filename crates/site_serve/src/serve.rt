//! Serving by many workers.
ghost use Rattle.std.specs.Prelude.{◌≡◌, ◌<◌, ◌≤◌, ◌^◌, [], length, All, None, true, false, IfOk, IfErr};
ghost use Rattle.std.specs.Vec.{vec_len, vec_capacity};
ghost use Rattle.site_hall.specs.Hall.{HallView, IsHall};
ghost use Rattle.site_turn.specs.Views.{noted};
ghost use Rattle.site_serve.specs.Serving.{HaveServed, GoesOn};

use crate::crew::{Member, crew_of, disband, work_of};
use crate::server::Server;
use crate::station::Station;
use site_claims::Claims;
use site_hall::Engine;
use site_http::connection_grows;
use site_io::{Clock, Door, Entropy, Gate};
use site_keeper::Keeper;
use site_turn::{Pass, Site, Worker};
use std::alloc::{AllocError, Global};
use std::sync::Wait;
use std::thread::Threads;

/// What came of workers that served: the engine, their stations, how many connections they served in all, and whether each
/// stopped only because none was left to take.
#[derive(Drop)]
pub struct Served<K: Keeper, D: Door, C: Clock, E: Entropy, G: Gate> {
    pub hall: Engine<K>,
    pub stations: Vec<Station<D, C, E, G>>,
    pub count: u64,
    pub whole: bool,
}

/// What comes back where memory was wanting, and nothing was served.
#[derive(Drop)]
pub struct Unserved<K: Keeper, D: Door, C: Clock, E: Entropy, G: Gate> {
    pub hall: Engine<K>,
    pub stations: Vec<Station<D, C, E, G>>,
}

/// The lists that a crew needs at its work, which are empty and have the room.
#[derive(Drop)]
struct Lists<'r, D: Door, C: Clock, E: Entropy, G: Gate> {
    crew: Vec<Member<D, C, E, G>>,
    workers: Vec<Worker<Server<'r, D, C, E, G>>>,
    after: Vec<Member<D, C, E, G>>,
    passes: Vec<Pass>,
    stations: Vec<Station<D, C, E, G>>,
}

impl<'r, D: Door + Drop, C: Clock + Drop, E: Entropy + Drop, G: Gate + Drop> Lists<'r, D, C, E, G> {
    /// Room for a crew of this size. `Err` only where memory is wanting.
    fn new(alloc: Global, size: usize) -> Result<Lists<'r, D, C, E, G>, AllocError>
        ensures crew { IfOk result (λ lists. (lists.crew.items ≡ []) × (vec_len lists.crew ≡ 0) × (size ≤ vec_capacity lists.crew)) }
        ensures workers { IfOk result (λ lists. (lists.workers.items ≡ []) × (vec_len lists.workers ≡ 0) × (size ≤ vec_capacity lists.workers)) }
        ensures after { IfOk result (λ lists. (lists.after.items ≡ []) × (vec_len lists.after ≡ 0) × (size ≤ vec_capacity lists.after)) }
        ensures passes { IfOk result (λ lists. (lists.passes.items ≡ []) × (vec_len lists.passes ≡ 0) × (size ≤ vec_capacity lists.passes)) }
        ensures stations { IfOk result (λ lists. (lists.stations.items ≡ []) × (vec_len lists.stations ≡ 0) × (size ≤ vec_capacity lists.stations)) }
    {
        Ok(Lists {
            crew: Vec::with_capacity(alloc, size)?,
            workers: Vec::with_capacity(alloc, size)?,
            after: Vec::with_capacity(alloc, size)?,
            passes: Vec::with_capacity(alloc, size)?,
            stations: Vec::with_capacity(alloc, size)?,
        })
    }
}

/// Serves the connections of the doors of 1 to 16 stations over one engine, where nothing is pending: a worker for each, which
/// claims one of so many numbers, at most 2^63, for each connection before it takes it. Each worker has a pass of its own to
/// the site of the engine, with the numbers from 0, and a thread of its own where one can be started. It returns once all have
/// stopped: each stops where no number is left or where its door fails, and goes on however a connection ends.
///
/// `Unserved` only where memory is wanting; then nothing was served, and the engine and the stations come back.
pub fn serve_all<
    K: Keeper + Send + Drop,
    R: Threads + Wait + Sync,
    D: Door + Send + Drop,
    C: Clock + Send + Drop,
    E: Entropy + Send + Drop,
    G: Gate + Send + Drop,
>(
    rt: &R,
    alloc: Global,
    hall: Engine<K>,
    stations: Vec<Station<D, C, E, G>>,
    limit: u64,
) -> Result<Served<K, D, C, E, G>, Unserved<K, D, C, E, G>>
where
    D::In: Send,
    D::Out: Send,
    requires settled { hall.pending ≡ None }
    requires stations { (0 < length stations.items) × (length stations.items ≤ 16) }
    requires none_out { All (λ station. station.is_out ≡ false) stations.items }
    requires limit { (0 < limit) × (limit ≤ 2 ^ 63) }
    ensures served { IfOk result (λ served. HaveServed hall served.hall stations.items served.stations.items served.count served.whole) }
    ensures is_hall { IfOk result (λ served. IsHall served.hall) }
    ensures goes_on { IfOk result (λ served. GoesOn hall served.hall (length stations.items)) }
    ensures all { IfOk result (λ served. served.whole ≡ true → served.count ≡ limit) }
    ensures fewer { IfOk result (λ served. served.whole ≡ false → served.count < limit) }
    ensures back { IfErr result (λ back. (back.hall ≡ hall) × (back.stations.items ≡ stations.items)) }
{
    let Ok(lists) = Lists::new(alloc, stations.len()) else {
        return Err(Unserved { hall, stations });
    };
    let Ok(claims) = Claims::new(alloc, limit) else {
        return Err(Unserved { hall, stations });
    };
    match Site::new(alloc, hall) {
        Ok(site) => Ok(serve_at(rt, alloc, site, claims, stations, lists)),
        Err(hall) => Err(Unserved { hall, stations }),
    }
}

/// Serves the connections of the stations' doors, as `serve_all` does, over a site, claims and lists that were just made: no pass
/// is made yet, nothing is claimed, and the lists are empty, with room for as many workers as there are stations.
fn serve_at<
    'r,
    K: Keeper + Send + Drop,
    R: Threads + Wait + Sync,
    D: Door + Send + Drop,
    C: Clock + Send + Drop,
    E: Entropy + Send + Drop,
    G: Gate + Send + Drop,
>(
    rt: &R,
    alloc: Global,
    mut site: Site<K>,
    mut claims: Claims,
    stations: Vec<Station<D, C, E, G>>,
    lists: Lists<'r, D, C, E, G>,
) -> Served<K, D, C, E, G>
where
    D::In: Send,
    D::Out: Send,
    requires site { site.founder.made ≡ 0 }
    requires claims { (claims.room ≡ 16) × (claims.claims ≡ 0) × (claims.over ≡ 0) }
    requires stations { (0 < length stations.items) × (length stations.items ≤ 16) }
    requires none_out { All (λ station. station.is_out ≡ false) stations.items }
    requires crew { (lists.crew.items ≡ []) × (vec_len lists.crew ≡ 0) × (length stations.items ≤ vec_capacity lists.crew) }
    requires workers { (lists.workers.items ≡ []) × (vec_len lists.workers ≡ 0) × (length stations.items ≤ vec_capacity lists.workers) }
    requires after { (lists.after.items ≡ []) × (vec_len lists.after ≡ 0) × (length stations.items ≤ vec_capacity lists.after) }
    requires passes { (lists.passes.items ≡ []) × (vec_len lists.passes ≡ 0) × (length stations.items ≤ vec_capacity lists.passes) }
    requires back { (lists.stations.items ≡ []) × (vec_len lists.stations ≡ 0) × (length stations.items ≤ vec_capacity lists.stations) }
    ensures served { (hall : HallView) → site.founder.opened ≡ noted hall → HaveServed hall result.hall stations.items result.stations.items result.count result.whole }
    ensures is_hall { IsHall result.hall }
    ensures goes_on { (hall : HallView) → site.founder.opened ≡ noted hall → GoesOn hall result.hall (length stations.items) }
    ensures all { result.whole ≡ true → result.count ≡ claims.limit }
    ensures fewer { result.whole ≡ false → result.count < claims.limit }
{
    connection_grows();
    let Lists {
        crew,
        workers,
        after,
        mut passes,
        stations: mut back,
    } = lists;
    let crew = crew_of(&mut site, &mut claims, stations, crew);
    let crew = work_of(rt, alloc, &site, claims.room(), crew, workers, after);
    let failed = disband(&mut claims, crew, &mut passes, &mut back);
    let claimed = claims.close();
    let Ok(hall) = site.close(rt, passes) else {
        unreachable!()
    };
    Served {
        hall,
        stations: back,
        count: claimed - failed,
        whole: failed == 0,
    }
}
