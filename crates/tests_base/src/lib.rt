//! Tests of what pages are made of and sites are kept in, by public calls alone: tags, counts, results, roles, grants, rows and cells,
//! edits on a state, a keeper in memory, digests of passwords, and texts of dates.
#![tactic(auto)]

#[cfg(test)]
mod counting;
#[cfg(test)]
mod dates;
#[cfg(test)]
mod edits;
#[cfg(test)]
mod granting;
#[cfg(test)]
mod keeping;
#[cfg(test)]
mod passwords;
#[cfg(test)]
mod results;
#[cfg(test)]
mod roles;
#[cfg(test)]
mod rows;
#[cfg(test)]
mod sharing;
#[cfg(test)]
mod starting;
#[cfg(test)]
mod tags;
