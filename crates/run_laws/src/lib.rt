//! Laws over what connections, workers and crews of workers promise: each answer has its cause, and where nothing failed and memory
//! wasn't wanting, each request has its reply.
#![tactic(auto)]

mod laws;

pub use laws::{connections_complete, servers_complete, workers_complete};
