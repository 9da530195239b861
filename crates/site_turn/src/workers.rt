//! Many passes at work, each in a thread where one can be started.
ghost use Rattle.std.specs.Prelude.{◌≡◌, All};
ghost use Rattle.site_house.specs.House.{HouseView, Moves};
ghost use Rattle.site_table.specs.Views.{IsRoom};
ghost use Rattle.site_turn.specs.Working.{MayWork, HasWorked, HaveWorked};

use crate::guest::Guest;
use crate::pass::Pass;
use crate::site::Site;
use site_house::House;
use site_keeper::Keeper;
use site_table::Room;
use std::alloc::Global;
use std::sync::Wait;
use std::thread;
use std::thread::Threads;

/// What a worker does in a house that it has for itself.
pub trait Work<R> {
    /// Where it may begin, in which house.
    ghost may: { Self → HouseView → Type 0 };

    /// What comes of it: of the worker, before and after, and of the house, before and after.
    ghost does: { Self → Self → HouseView → HouseView → Type 0 };

    /// Does all of the work.
    fn work<H: House>(&mut self, rt: &R, alloc: Global, house: &mut H)
        requires { may self.old (H.sees house.old) }
        ensures moves { Moves (H.sees house.old) (H.sees house.new) }
        ensures does { does self.old self.new (H.sees house.old) (H.sees house.new) };
}

/// A worker, with its pass.
#[derive(Drop)]
pub struct Worker<W> {
    pub pass: Pass,
    pub work: W,
}

/// Does the work of a worker with a pass of the room's site.
fn work_here<K: Keeper + Drop, R: Wait, W: Work<R>>(
    rt: &R,
    alloc: Global,
    room: &Room<K>,
    worker: &mut Worker<W>,
)
    requires room { IsRoom room.now.table_id }
    requires here { worker.old.pass.table ≡ room.now.table_id }
    requires may { MayWork W.may worker.old }
    ensures { HasWorked W.does worker.old worker.new }
{
    let mut guest = Guest::new(rt, room, &mut worker.pass);
    worker.work.work(rt, alloc, &mut guest);
}

/// Does the work of all workers, whose passes are of this site, each in a thread where one can be started; the caller does what no thread
/// does. It returns once all is done.
pub fn work_all<K: Keeper + Send + Drop, R: Threads + Wait + Sync, W: Work<R> + Send>(
    rt: &R,
    alloc: Global,
    site: &Site<K>,
    workers: &mut [Worker<W>],
)
    requires here { All (λ worker. worker.pass.table ≡ site.now.table) workers.old }
    requires may { All (λ worker. MayWork W.may worker) workers.old }
    ensures here { All (λ worker. worker.pass.table ≡ site.now.table) workers.new }
    ensures worked { HaveWorked W.does workers.old workers.new }
{
    let room = site.room();
    let threads = workers.len().max(1);
    thread::for_each_mut(
        rt,
        workers,
        threads,
        &|_: usize, worker: &mut Worker<W>|
            requires { IsRoom room.now.table_id × (worker.old.pass.table ≡ room.now.table_id) × MayWork W.may worker.old }
            ensures { HasWorked W.does worker.old worker.new }
        { work_here(rt, alloc, room, worker) },
    );
}
