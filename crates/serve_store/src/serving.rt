//! What the job of serving is told.
ghost use Rattle.std.specs.Prelude.{◌≤◌, ◌^◌};

/// What is to be served, and how.
#[derive(Drop, Debug)]
pub struct Serving {
    /// The path of the store.
    pub store: String,
    /// The address to listen at.
    pub address: String,
    /// How many workers there are: 1 to 16.
    pub workers: u64,
    /// How many connections are taken: 1 to 1,000,000, or 2^63.
    pub limit: u64,
    /// Whether the pages that anybody may see are rendered before the workers start.
    pub warm: bool,
    ghost some_worker: { 1 ≤ workers },
    ghost few_workers: { workers ≤ 16 },
    ghost some_connection: { 1 ≤ limit },
    ghost countable: { limit ≤ 2 ^ 63 },
}
