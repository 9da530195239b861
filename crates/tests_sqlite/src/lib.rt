//! Tests of the keeper over a database, by public calls alone.
#![tactic(auto)]

#[cfg(test)]
mod batches;
#[cfg(test)]
mod crashes;
#[cfg(test)]
mod keeping;
#[cfg(test)]
mod written;
