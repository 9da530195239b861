//! Tests of what comes in and goes out, by public calls alone: requests and heads of replies, which edit a request asks for and the
//! replies to edits, devices, doors in memory, and pieces of pages.
#![tactic(auto)]

#[cfg(test)]
mod devices;
#[cfg(test)]
mod done;
#[cfg(test)]
mod doors;
#[cfg(test)]
mod escaping;
#[cfg(test)]
mod paths;
#[cfg(test)]
mod refused;
#[cfg(test)]
mod requests;
