//! Tests of what no run of the program shows: the tags and the contexts that cover what is read of a site, what is built for a
//! page, the values of contexts, when entries are fresh, the order of bins, and what may go between threads.
#![tactic(auto)]

#[cfg(test)]
mod access;
#[cfg(test)]
mod club;
#[cfg(test)]
mod contexts;
#[cfg(test)]
mod keeping;
#[cfg(test)]
mod listings;
#[cfg(test)]
mod pages;
#[cfg(test)]
mod routes;
#[cfg(test)]
mod site;
#[cfg(test)]
mod states;
