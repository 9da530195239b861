//! What a site reads from, writes to, and takes its moments and its chance from.
//!
//! Each device is a trait, so that the work on bytes is proved for every device. A device tells what it holds, what
//! was written to it or what it gave, as a list, or doesn't tell. Those in memory tell, those
//! over a reader or a writer tell what that tells, and those of the system don't.
#![tactic(auto)]

mod adapters;
mod chance;
mod device;
mod door;
mod ended;
mod memory;
mod memory_door;
mod retry;
mod series;
mod system;
mod whole;

pub use adapters::{Reading, Writing};
pub use chance::{NoChance, Seed, SystemEntropy};
pub use device::{Clock, Entropy, Failed, Gate, LAST_MOMENT, Point, Sink, Source};
pub use door::{Door, More};
pub use ended::Ended;
pub use memory::{MemorySink, MemorySource};
pub use memory_door::{MemoryDoor, Returned};
pub use series::{ListClock, ListEntropy};
pub use system::{OpenGate, SystemClock, moment_of};
pub use whole::write_whole;
