//! The crew: a worker for each station, before and after its work.
ghost use Rattle.std.specs.Prelude.{◌≡◌, ◌+◌, ◌-◌, ◌≤◌, ◌<◌, [], map, length, All, sum_by};
ghost use Rattle.std.specs.Vec.{vec_len, vec_capacity};
ghost use Rattle.site_claims.specs.Claims.{as_count};
ghost use Rattle.site_serve.specs.Working.{footing_of, members, member_of, faulted, AllServed, IsReady};

use crate::server::Server;
use crate::station::Station;
use site_claims::{ClaimRoom, Claimer, Claiming, Claims};
use site_http::Worked;
use site_io::{Clock, Door, Entropy, Gate};
use site_keeper::Keeper;
use site_turn::{Pass, Site, Worker, work_all};
use std::alloc::Global;
use std::marker::Model;
use std::sync::Wait;
use std::thread::Threads;

/// One of the crew: its station, its pass, what it claims by, and why it stopped, once it has.
#[derive(Drop)]
pub(crate) struct Member<D: Door, C: Clock, E: Entropy, G: Gate> {
    pub(crate) station: Station<D, C, E, G>,
    pub(crate) pass: Pass,
    pub(crate) claimer: Claimer,
    pub(crate) worked: Worked,
}

impl<D: Door, C: Clock, E: Entropy, G: Gate> Model for Member<D, C, E, G> {
    ghost use Rattle.site_serve.specs.Working.{Member};

    ghost Value = { Member };

    ghost view = { λ m. record { station = m.station; pass = m.pass; claimer = m.claimer; worked = m.worked } };
}

/// A crew for these stations, with new passes of the site, put into an empty list that has the room.
#[tactic(auto, using(crate::proofs::Crews::members_push))]
pub(crate) fn crew_of<
    K: Keeper,
    D: Door + Drop,
    C: Clock + Drop,
    E: Entropy + Drop,
    G: Gate + Drop,
>(
    site: &mut Site<K>,
    claims: &mut Claims,
    stations: Vec<Station<D, C, E, G>>,
    mut crew: Vec<Member<D, C, E, G>>,
) -> Vec<Member<D, C, E, G>>
    requires few { length stations.items ≤ 16 }
    requires site { site.old.founder.made ≡ 0 }
    requires claims { (claims.old.room ≡ 16) × (claims.old.claims ≡ 0) × (claims.old.over ≡ 0) }
    requires empty { (crew.items ≡ []) × (vec_len crew ≡ 0) }
    requires room { length stations.items ≤ vec_capacity crew }
    ensures crew { result.items ≡ members (footing_of site.old claims.old) 0 stations.items }
    ensures site { site.new ≡ record site.old { founder = record site.old.founder { made = length stations.items } } }
    ensures claims { claims.new ≡ record claims.old { room = 16 - length stations.items } }
{
    'stations: for station in stations {
        crew.push_reserved(Member {
            station,
            pass: site.new_pass(),
            claimer: claims.claimer(),
            worked: Worked::NoMore,
        });
    }
    crew
}

/// The workers of a crew, put into an empty list that has the room.
fn workers_of<'r, D: Door + Drop, C: Clock + Drop, E: Entropy + Drop, G: Gate + Drop>(
    room: &'r ClaimRoom,
    crew: Vec<Member<D, C, E, G>>,
    mut workers: Vec<Worker<Server<'r, D, C, E, G>>>,
) -> Vec<Worker<Server<'r, D, C, E, G>>>
    requires here { All (λ member. member.claimer.table ≡ room.now.table_id) crew.items }
    requires empty { (workers.items ≡ []) × (vec_len workers ≡ 0) }
    requires room { length crew.items ≤ vec_capacity workers }
    ensures { map member_of result.items ≡ crew.items }
{
    'crew: for member in crew {
        let Member {
            station,
            pass,
            claimer,
            worked,
        } = member;
        let more = Claiming::new(room, claimer);
        workers.push_reserved(Worker {
            pass,
            work: Server {
                station,
                more,
                worked,
            },
        });
    }
    workers
}

/// The crew of these workers, put into an empty list that has the room.
fn members_of<D: Door + Drop, C: Clock + Drop, E: Entropy + Drop, G: Gate + Drop>(
    workers: Vec<Worker<Server<'_, D, C, E, G>>>,
    mut crew: Vec<Member<D, C, E, G>>,
) -> Vec<Member<D, C, E, G>>
    requires empty { (crew.items ≡ []) × (vec_len crew ≡ 0) }
    requires room { length workers.items ≤ vec_capacity crew }
    ensures { result.items ≡ map member_of workers.entry.items }
{
    'workers: for worker in workers {
        let Worker { pass, work } = worker;
        let Server {
            station,
            more,
            worked,
        } = work;
        crew.push_reserved(Member {
            station,
            pass,
            claimer: more.into_claimer(),
            worked,
        });
    }
    crew
}

/// Does the work of a crew, whose passes are of this site, each member's in a thread where one can be started. The lists are
/// empty and have the room.
pub(crate) fn work_of<
    'r,
    K: Keeper + Send + Drop,
    R: Threads + Wait + Sync,
    D: Door + Send + Drop,
    C: Clock + Send + Drop,
    E: Entropy + Send + Drop,
    G: Gate + Send + Drop,
>(
    rt: &R,
    alloc: Global,
    site: &Site<K>,
    room: &'r ClaimRoom,
    crew: Vec<Member<D, C, E, G>>,
    workers: Vec<Worker<Server<'r, D, C, E, G>>>,
    after: Vec<Member<D, C, E, G>>,
) -> Vec<Member<D, C, E, G>>
where
    D::In: Send,
    D::Out: Send,
    requires ready { All (IsReady site.now.table room.now.table_id) crew.items }
    requires workers { (workers.items ≡ []) × (vec_len workers ≡ 0) × (length crew.items ≤ vec_capacity workers) }
    requires after { (after.items ≡ []) × (vec_len after ≡ 0) × (length crew.items ≤ vec_capacity after) }
    ensures { AllServed crew.items result.items }
{
    let mut workers = workers_of(room, crew, workers);
    work_all(rt, alloc, site, &mut workers);
    members_of(workers, after)
}

/// Takes a crew that has worked apart: what it claimed by is given back, and its passes and stations are put into empty lists
/// that have the room. How many stopped for their doors.
pub(crate) fn disband<D: Door + Drop, C: Clock + Drop, E: Entropy + Drop, G: Gate + Drop>(
    claims: &mut Claims,
    crew: Vec<Member<D, C, E, G>>,
    passes: &mut Vec<Pass>,
    stations: &mut Vec<Station<D, C, E, G>>,
) -> u64
    requires few { length crew.items ≤ 16 }
    requires here { All (λ member. member.claimer.table ≡ claims.old.table) crew.items }
    requires passes { (passes.old.items ≡ []) × (vec_len passes.old ≡ 0) × (length crew.items ≤ vec_capacity passes.old) }
    requires stations { (stations.old.items ≡ []) × (vec_len stations.old ≡ 0) × (length crew.items ≤ vec_capacity stations.old) }
    ensures passes { passes.new.items ≡ map (λ member. member.pass) crew.items }
    ensures stations { stations.new.items ≡ map (λ member. member.station) crew.items }
    ensures claims { claims.new ≡ record claims.old { claims = claims.old.claims + sum_by (λ member. member.claimer.claims) crew.items; over = claims.old.over + sum_by (λ member. as_count member.claimer.is_over) crew.items; room = claims.old.room + length crew.items } }
    ensures failed { result ≡ sum_by (λ member. faulted member.worked) crew.items }
{
    let mut failed = 0;
    'crew: for member in crew {
        let Member {
            station,
            pass,
            claimer,
            worked,
        } = member;
        claims.give_back(claimer);
        passes.push_reserved(pass);
        stations.push_reserved(station);
        if let Worked::DoorFault = worked {
            failed += 1;
        }
    }
    failed
}
