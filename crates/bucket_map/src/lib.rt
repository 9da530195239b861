//! A finite map that several owners share: its entries stand in 1,024 buckets, and a change copies one of them.
#![tactic(auto)]

mod bucket;
mod map;
mod steps;
mod walk;

pub use bucket::{Again, Bucket, Placed};
pub use map::BucketMap;
pub use steps::Steps;
pub use walk::Walk;
