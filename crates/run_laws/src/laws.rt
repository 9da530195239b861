//! Completeness.
ghost use Rattle.run_laws.specs.Complete.{ConnectionsComplete, WorkersComplete};
ghost use Rattle.run_laws.specs.Served.{ServersComplete};

/// The law that a connection whose input is known ends as the requests of its input do, with a reply to each of them, where
/// neither reading nor writing failed; or memory was wanting.
pub fn connections_complete()
    ensures { ConnectionsComplete }
{}

/// The law that each connection that a worker serves is given back with the end of its requests, with a reply to each of them,
/// where neither of its two ends failed; or memory was wanting.
pub fn workers_complete()
    ensures { WorkersComplete }
{}

/// The law of many workers over one engine: each connection of each of them ends as its requests do, with a reply to each, where
/// neither of its two ends failed, or memory was wanting; some worker stopped early exactly where some door failed; and that the
/// keeper failed was answered only where the engine's count of its faults rose.
pub fn servers_complete()
    ensures { ServersComplete }
{}
