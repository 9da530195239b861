//! The nodes of a listing that one index gives, in its order.
ghost use Rattle.std.specs.Prelude.{◌≡◌, ◌≤◌, ◌+◌, ◌++◌, ◌∷◌, [], IfOk, OnOk, cond, length, map};
ghost use Rattle.std.specs.List.{filter};
ghost use Rattle.content_state.specs.Ranked.{published};
ghost use Rattle.site_lists.specs.Chosen.{passes, passes_of_type, ranks_with, ranks_typed};

use crate::chosen::{Asked, is_there};
use crate::listed::is_due;
use cacheability::Name;
use content_state::NodeReads;
use row_keys::NodeRank;
use std::alloc::{AllocError, Global};
use std::sync::ledger::Ledger;

/// The ids of all nodes that are what the listing asks for.
#[tactic(auto, using(crate::proofs::OneIndex::put_more))]
pub fn all_nodes<L: Ledger>(
    alloc: Global,
    asked: &Asked<'_>,
    reads: &mut NodeReads<L>,
) -> Result<Vec<u32>, AllocError>
    ensures ids { IfOk result (λ ids. ids.items ≡ map (λ r. r.id.0) (filter (passes asked.now.state.now.rows asked.now.listing.now asked.now.moment) (published asked.now.state.now.rows))) }
    ensures reads { reads.new ≤ reads.old + length (published asked.now.state.now.rows) }
{
    let mut ids = Vec::new(alloc);
    'keys: for rank in asked.state.published() {
        put_where(&mut ids, is_there(asked, rank, reads), rank)?;
    }
    Ok(ids)
}

/// The ids of the nodes with a term that are what the listing asks for.
#[tactic(auto, using(crate::proofs::OneIndex::put_more))]
pub fn nodes_with<L: Ledger>(
    alloc: Global,
    asked: &Asked<'_>,
    term: u32,
    reads: &mut NodeReads<L>,
) -> Result<Vec<u32>, AllocError>
    ensures ids { IfOk result (λ ids. ids.items ≡ map (λ r. r.id.0) (filter (passes asked.now.state.now.rows asked.now.listing.now asked.now.moment) (ranks_with asked.now.state.now.rows term))) }
    ensures reads { reads.new ≤ reads.old + length (ranks_with asked.now.state.now.rows term) }
{
    let mut ids = Vec::new(alloc);
    'keys: for key in asked.state.published_with(term) {
        put_where(&mut ids, is_there(asked, &key.rank, reads), &key.rank)?;
    }
    Ok(ids)
}

/// The ids of the nodes of a type that are what the listing asks for but for their type, which the index knows.
#[tactic(auto, using(crate::proofs::OneIndex::put_more))]
pub fn nodes_of<L: Ledger>(
    alloc: Global,
    asked: &Asked<'_>,
    node_type: Name,
    reads: &mut NodeReads<L>,
) -> Result<Vec<u32>, AllocError>
    ensures ids { IfOk result (λ ids. ids.items ≡ map (λ r. r.id.0) (filter (passes_of_type asked.now.state.now.rows asked.now.listing.now asked.now.moment) (ranks_typed asked.now.state.now.rows node_type))) }
    ensures reads { reads.new ≤ reads.old + length (ranks_typed asked.now.state.now.rows node_type) }
{
    let mut ids = Vec::new(alloc);
    'keys: for key in asked.state.published_of(node_type) {
        put_where(&mut ids, is_due_there(asked, &key.rank, reads), &key.rank)?;
    }
    Ok(ids)
}

/// Whether the node of a rank, which is read, is what the listing asks for, but for its term and its type.
fn is_due_there<L: Ledger>(asked: &Asked<'_>, rank: &NodeRank, reads: &mut NodeReads<L>) -> bool
    ensures there { result ≡ passes_of_type asked.now.state.now.rows asked.now.listing.now asked.now.moment rank.now }
    ensures reads { reads.new ≡ reads.old + 1 }
{
    match asked.state.node_counted(rank.id.0, reads) {
        Some(node) => is_due(asked.listing, asked.moment, node),
        None => false,
    }
}

/// Puts the id of a rank behind others, where it belongs there.
fn put_where(ids: &mut Vec<u32>, belongs: bool, rank: &NodeRank) -> Result<(), AllocError>
    ensures { OnOk result (ids.new.items ≡ cond belongs (ids.old.items ++ rank.now.id.0 ∷ []) ids.old.items) }
{
    if belongs {
        ids.push(rank.id.0)?;
    }
    Ok(())
}
