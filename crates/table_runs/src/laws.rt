//! What the jobs of the program leave in a store that tells what it holds.
ghost use Rattle.table_runs.specs.Leaves.{StoresTell};

/// The law of every job over a store: what the keeper that is given back tells, by what the place told of the store before.
pub fn stores_tell()
    ensures { StoresTell }
{}
