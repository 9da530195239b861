//! How the job of serving ends.

/// How the job of serving ended.
#[derive(Clone, Copy, Debug, PartialEq, Eq)]
pub enum ServeEnd {
    /// As many connections as there was leave for were served, and that was printed.
    Served,
    /// What the store holds is no site, and the first fault was printed.
    Refused,
    /// The keeper failed to load what it holds, and its count of faults rose.
    KeeperFailed,
    /// The output failed, and its count of faults rose.
    OutputFailed,
    /// The store or a door wasn't opened, or a worker stopped for its door; one of the place's counts rose.
    PlaceFailed,
    /// Memory was wanting.
    OutOfMemory,
}
