//! Tests of halls, by public calls alone: what one keeps of pages, how many elements are built for them, and workers that share one,
//! side by side, passes that meet, and sites that are closed.
#![tactic(auto)]

#[cfg(test)]
mod closing;
#[cfg(test)]
mod counted;
#[cfg(test)]
mod counting;
#[cfg(test)]
mod failing;
#[cfg(test)]
mod keeping;
#[cfg(test)]
mod late;
#[cfg(test)]
mod pieces;
#[cfg(test)]
mod rooms;
#[cfg(test)]
mod site;
#[cfg(test)]
mod slow;
#[cfg(test)]
mod work;
#[cfg(test)]
mod workers;
