//! A store whose files stop at some call while an edit is kept: it is found again with the edit or without it, whole.

use crate::batches::{BEGUN, EDITED, Seen, Step, batch_of, held_by};
use crate::written::SQLITE3;
use keeper_sqlite::over;
use site_keeper::{Batch, Keeper};
use sqlite::{Alter, Connection, FileStore, Files, Options};
use sqlite_disk::{Crash, Disk, Fuse, Memory};
use std::alloc::Global;

/// A file that passes so many calls on, and then fails at each.
type Stopping = Fuse<Memory>;

/// How many calls each file passes on.
#[derive(Clone, Copy)]
struct Calls {
    log: u64,
    db: u64,
}

/// Files that never stop.
const ALL: Calls = Calls {
    log: u64::MAX,
    db: u64::MAX,
};

/// A file of runs of bytes, each at its offset, all of them synced, that passes so many calls on.
fn file_of(alloc: Global, pieces: &[(usize, &[u8])], calls: u64) -> Option<Stopping> {
    let mut file = Memory::new(alloc);
    for (at, bytes) in pieces {
        if !file.may_be_used() {
            return None;
        }
        file.write_at(*at, bytes).ok()?;
    }
    if !file.may_be_used() {
        return None;
    }
    file.sync().ok()?;
    Some(Fuse::new(file, calls))
}

/// The files of a store again, each of which passes so many calls on.
fn again(alloc: Global, files: &Files<Stopping>, calls: Calls) -> Option<Files<Stopping>> {
    Some(Files {
        log: file_of(alloc, &[(0, files.log.inner().bytes())], calls.log)?,
        db: file_of(alloc, &[(0, files.db.inner().bytes())], calls.db)?,
    })
}

/// The database in files, whose log is copied into it once it has so many frames. The files come back where it isn't opened.
fn opened<D: Disk + Drop>(
    alloc: Global,
    files: Files<D>,
    checkpoint_frames: usize,
) -> Result<Connection<FileStore<D>>, Files<D>> {
    if !files.may_be_used() {
        return Err(files);
    }
    let options = Options {
        checkpoint_frames,
        ..Options::new(1)
    };
    match Connection::open_files(alloc, files, options) {
        Ok(conn) => Ok(conn),
        Err((_, left)) => Err(left.into_files()),
    }
}

/// Keeps a batch in a database, if there is one: whether it is told to be kept, what is held then, and the store. None where
/// no keeper is opened over it, or memory is wanting.
fn used<S: Alter + Drop>(
    rt: &HostRuntime,
    conn: Connection<S>,
    batch: Option<&Batch>,
) -> Option<(bool, Option<Seen>, S)> {
    let mut keeper = over(rt, conn).ok()?;
    let kept = match batch {
        Some(batch) => keeper.apply(rt.alloc(), batch).is_ok(),
        None => false,
    };
    let seen = held_by(rt.alloc(), &mut keeper).ok();
    Some((kept, seen, keeper.into_connection().into_store()))
}

/// Keeps a batch in the database of these files, if there is one: whether it is told to be kept, what is held then, which is
/// nothing where the files aren't opened, and the files. None where no keeper is opened over them, or memory is wanting.
fn used_in<D: Disk + Drop>(
    rt: &HostRuntime,
    files: Files<D>,
    frames: usize,
    batch: Option<&Batch>,
) -> Option<(bool, Option<Seen>, Files<D>)> {
    match opened(rt.alloc(), files, frames) {
        Ok(conn) => match used(rt, conn, batch) {
            Some((kept, seen, store)) => Some((kept, seen, store.close())),
            None => None,
        },
        Err(files) => Some((false, None, files)),
    }
}

/// What `used_in` gives of files that may stop, so that one function alone is proved of what a database in such files is made of.
fn tried_in(
    rt: &HostRuntime,
    files: Files<Stopping>,
    frames: usize,
    batch: Option<&Batch>,
) -> Option<(bool, Option<Seen>, Files<Stopping>)> {
    used_in(rt, files, frames, batch)
}

/// What is found in files.
fn found_in(rt: &HostRuntime, files: Files<Stopping>) -> Option<Seen> {
    let (_, seen, files) = tried_in(rt, files, 1000, None)?;
    drop(files);
    seen
}

/// The files of a store into which the site was imported.
fn begun(rt: &HostRuntime) -> Option<Files<Stopping>> {
    let files = Files {
        log: file_of(rt.alloc(), &[], u64::MAX)?,
        db: file_of(rt.alloc(), &[], u64::MAX)?,
    };
    let import = batch_of(rt.alloc(), Step::Begin)?;
    let (_, _, files) = tried_in(rt, files, 1000, Some(&import))?;
    Some(files)
}

/// How an edit ended whose files stopped.
#[derive(Drop)]
struct Ended {
    /// Whether it was told to be kept.
    kept: bool,
    /// Whether no file stopped.
    ran: bool,
    /// What is found where all that was written is there.
    written: Option<Seen>,
    /// What is found where what was synced is there alone.
    synced: Option<Seen>,
}

/// Whether a file answers still.
fn answers(file: &mut Stopping) -> bool {
    file.may_be_used() && file.len().is_ok()
}

/// An edit whose files stop after so many calls. None where they stop before a keeper is opened over them.
fn stop_after(
    rt: &HostRuntime,
    begun: &Files<Stopping>,
    edit: &Batch,
    frames: usize,
    calls: Calls,
) -> Option<Ended> {
    let (kept, _, mut files) = tried_in(rt, again(rt.alloc(), begun, calls)?, frames, Some(edit))?;
    let ran = answers(&mut files.log) && answers(&mut files.db);
    let written = found_in(rt, again(rt.alloc(), &files, ALL)?);
    files.log.crash();
    files.db.crash();
    let synced = found_in(rt, files);
    Some(Ended {
        kept,
        ran,
        written,
        synced,
    })
}

/// Whether all of an edit is there that was told to be kept, and all or nothing of any other.
fn is_whole(kept: bool, seen: Option<Seen>) -> bool {
    seen == Some(EDITED) || (seen == Some(BEGUN) && !kept)
}

/// Which files stop, and after how many frames the log is copied into the database.
#[derive(Clone, Copy, Debug)]
struct Stop {
    log: bool,
    db: bool,
    frames: usize,
}

/// The log stops, where the edit stays in it and where it is copied into the database; the database stops; both stop.
const STOPS: [Stop; 4] = [
    Stop {
        log: true,
        db: false,
        frames: 1000,
    },
    Stop {
        log: true,
        db: false,
        frames: 1,
    },
    Stop {
        log: false,
        db: true,
        frames: 1,
    },
    Stop {
        log: true,
        db: true,
        frames: 1,
    },
];

/// How many calls each file passes on, where those that stop pass on so many.
fn calls_of(stop: Stop, count: u64) -> Calls {
    Calls {
        log: if stop.log { count } else { u64::MAX },
        db: if stop.db { count } else { u64::MAX },
    }
}

/// Whether an edit ended as it may: it is whole, both where all that was written is there and where what was synced is there
/// alone, and is told to be kept where no file stopped.
fn is_right(ended: &Ended) -> bool {
    is_whole(ended.kept, ended.written)
        && is_whole(ended.kept, ended.synced)
        && (ended.kept || !ended.ran)
}

/// Files stop after each number of calls, up to the first with which none stops. The first number with which the edit doesn't end
/// as it may, or the one after all, where files stop with each.
fn wrong_after(rt: &HostRuntime, begun: &Files<Stopping>, edit: &Batch, stop: Stop) -> Option<u64> {
    for count in 0..=400 {
        let ended = stop_after(rt, begun, edit, stop.frames, calls_of(stop, count));
        if let Some(ended) = ended {
            if !is_right(&ended) {
                return Some(count);
            }
            if ended.ran {
                return None;
            }
        }
    }
    Some(401)
}

#[test]
fn an_edit_is_kept_whole_or_not(rt: HostRuntime) {
    let begun = begun(&rt).expect(&rt, "memory");
    let edit = batch_of(rt.alloc(), Step::Edit).expect(&rt, "memory");
    for stop in &STOPS {
        let wrong = wrong_after(&rt, &begun, &edit, *stop);
        assert!(rt; wrong.is_none(), "{stop:?} {wrong:?}");
    }
}

/// What is held in the file that sqlite3 wrote.
const WRITTEN: Seen = Seen {
    rows: 1,
    next_node: 2,
    version: 0,
    tags: 1,
    sum: 5,
    head: 7,
    told: 7,
};

/// What is found in it.
fn found_in_sqlite3(rt: &HostRuntime) -> Option<Seen> {
    let files = Files {
        log: file_of(rt.alloc(), &[], u64::MAX)?,
        db: file_of(rt.alloc(), &SQLITE3, u64::MAX)?,
    };
    found_in(rt, files)
}

/// A file that sqlite3 wrote is a store.
#[test]
fn a_file_of_sqlite3_is_read(rt: HostRuntime) {
    assert!(rt; found_in_sqlite3(&rt) == Some(WRITTEN));
}
