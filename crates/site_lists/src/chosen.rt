//! The nodes of a listing, sought in the least fitting index.
ghost use Rattle.std.specs.Prelude.{◌≡◌, ◌+◌, ◌≤◌, IfOk, OnOk, Some, None, cond, fold, length, map};
ghost use Rattle.std.specs.BTreeSet.{insert_key};
ghost use Rattle.std.specs.List.{filter, flat_map};
ghost use Rattle.site_lists.specs.Chosen.{passes, ranks_with, ranks_typed, ranks_among};
ghost use Rattle.site_lists.specs.Listed.{in_order, rank_cmp};

use crate::below::{is_alone, terms_within};
use crate::listed::is_fit;
use crate::one_index::{all_nodes, nodes_of, nodes_with};
use cacheability::Name;
use content_rows::Listing;
use content_state::{NodeReads, State};
use row_keys::NodeRank;
use std::alloc::{AllocError, Global};
use std::collections::BTreeSet;
use std::sync::ledger::Ledger;

/// A listing, asked for on a state at a moment.
pub struct Asked<'a> {
    pub state: &'a State,
    pub listing: &'a Listing,
    pub moment: u64,
}

impl<'a> Drop for Asked<'a> {
    fn drop(self) {
        let Asked {
            state: _,
            listing: _,
            moment: _,
        } = self;
    }
}

/// The ids of the nodes that the listing has, in their order. Nodes are read with its term or a descendant of it alone, where
/// it has one, else of its types alone, where it has any. Those that one index gives in order are not put in order again.
pub fn chosen<L: Ledger>(
    alloc: Global,
    asked: &Asked<'_>,
    reads: &mut NodeReads<L>,
) -> Result<Vec<u32>, AllocError>
    ensures ids { IfOk result (λ ids. ids.items ≡ map (λ r. r.id.0) (in_order rank_cmp (filter (passes asked.now.state.now.rows asked.now.listing.now asked.now.moment) (ranks_among asked.now.state.now.rows asked.now.listing.now.term asked.now.listing.now.types)))) }
    ensures reads { reads.new ≤ reads.old + length (ranks_among asked.now.state.now.rows asked.now.listing.now.term asked.now.listing.now.types) }
{
    match asked.listing.term {
        Some(top) => chosen_within(alloc, asked, top, reads),
        None => match asked.listing.types.as_slice() {
            [] => all_nodes(alloc, asked, reads),
            [node_type] => {
                asked.state.stands_in_order();
                nodes_of(alloc, asked, *node_type, reads)
            }
            [_, _, ..] => chosen_of(alloc, asked, reads),
        },
    }
}

/// The ids of the nodes with a term or a descendant of it.
fn chosen_within<L: Ledger>(
    alloc: Global,
    asked: &Asked<'_>,
    top: u32,
    reads: &mut NodeReads<L>,
) -> Result<Vec<u32>, AllocError>
    ensures ids { IfOk result (λ ids. ids.items ≡ map (λ r. r.id.0) (in_order rank_cmp (filter (passes asked.now.state.now.rows asked.now.listing.now asked.now.moment) (ranks_among asked.now.state.now.rows (Some top) asked.now.listing.now.types)))) }
    ensures reads { reads.new ≤ reads.old + length (ranks_among asked.now.state.now.rows (Some top) asked.now.listing.now.types) }
{
    if is_alone(asked.state, top) {
        return nodes_with(alloc, asked, top, reads);
    }
    let terms = terms_within(alloc, asked.state, top)?;
    let mut ranks = BTreeSet::new(alloc);
    add_within(&mut ranks, asked, &terms, reads)?;
    ids_of(alloc, &ranks)
}

/// The ids of the nodes of the listing's types.
fn chosen_of<L: Ledger>(
    alloc: Global,
    asked: &Asked<'_>,
    reads: &mut NodeReads<L>,
) -> Result<Vec<u32>, AllocError>
    ensures ids { IfOk result (λ ids. ids.items ≡ map (λ r. r.id.0) (in_order rank_cmp (filter (passes asked.now.state.now.rows asked.now.listing.now asked.now.moment) (flat_map (ranks_typed asked.now.state.now.rows) asked.now.listing.now.types)))) }
    ensures reads { reads.new ≤ reads.old + length (flat_map (ranks_typed asked.now.state.now.rows) asked.now.listing.now.types) }
{
    let mut ranks = BTreeSet::new(alloc);
    add_of(&mut ranks, asked, asked.listing.types.as_slice(), reads)?;
    ids_of(alloc, &ranks)
}

/// The ids of nodes by what places them.
fn ids_of(alloc: Global, ranks: &BTreeSet<NodeRank>) -> Result<Vec<u32>, AllocError>
    ensures { IfOk result (λ ids. ids.items ≡ map (λ r. r.id.0) ranks.now.keys) }
{
    let mut ids = Vec::new(alloc);
    'ranks: for rank in ranks {
        ids.push(rank.id.0)?;
    }
    Ok(ids)
}

/// Adds the node of a rank, where it is what the listing asks for.
fn add_rank<L: Ledger>(
    ranks: &mut BTreeSet<NodeRank>,
    asked: &Asked<'_>,
    rank: &NodeRank,
    reads: &mut NodeReads<L>,
) -> Result<(), AllocError>
    ensures ranks { OnOk result (ranks.new.keys ≡ cond (passes asked.now.state.now.rows asked.now.listing.now asked.now.moment rank.now) (insert_key rank_cmp ranks.old.keys rank.now) ranks.old.keys) }
    ensures reads { reads.new ≡ reads.old + 1 }
{
    if !is_there(asked, rank, reads) {
        return Ok(());
    }
    ranks.insert(*rank)?;
    Ok(())
}

/// Whether the node of a rank, which is read, is what the listing asks for, but for its term.
pub fn is_there<L: Ledger>(asked: &Asked<'_>, rank: &NodeRank, reads: &mut NodeReads<L>) -> bool
    ensures there { result ≡ passes asked.now.state.now.rows asked.now.listing.now asked.now.moment rank.now }
    ensures reads { reads.new ≡ reads.old + 1 }
{
    match asked.state.node_counted(rank.id.0, reads) {
        Some(node) => is_fit(asked.listing, asked.moment, node),
        None => false,
    }
}

/// Adds the nodes with any of some terms.
fn add_within<L: Ledger>(
    ranks: &mut BTreeSet<NodeRank>,
    asked: &Asked<'_>,
    terms: &BTreeSet<u32>,
    reads: &mut NodeReads<L>,
) -> Result<(), AllocError>
    ensures ranks { OnOk result (ranks.new.keys ≡ fold (insert_key rank_cmp) ranks.old.keys (filter (passes asked.now.state.now.rows asked.now.listing.now asked.now.moment) (flat_map (ranks_with asked.now.state.now.rows) terms.now.keys))) }
    ensures reads { reads.new ≤ reads.old + length (flat_map (ranks_with asked.now.state.now.rows) terms.now.keys) }
{
    'terms: for term in terms {
        add_with(ranks, asked, *term, reads)?;
    }
    Ok(())
}

/// Adds the nodes with a term.
#[tactic(auto, using(crate::proofs::ChosenLaws::one_more))]
fn add_with<L: Ledger>(
    ranks: &mut BTreeSet<NodeRank>,
    asked: &Asked<'_>,
    term: u32,
    reads: &mut NodeReads<L>,
) -> Result<(), AllocError>
    ensures ranks { OnOk result (ranks.new.keys ≡ fold (insert_key rank_cmp) ranks.old.keys (filter (passes asked.now.state.now.rows asked.now.listing.now asked.now.moment) (ranks_with asked.now.state.now.rows term))) }
    ensures reads { reads.new ≤ reads.old + length (ranks_with asked.now.state.now.rows term) }
{
    'keys: for key in asked.state.published_with(term) {
        add_rank(ranks, asked, &key.rank, reads)?;
    }
    Ok(())
}

/// Adds the nodes of a type.
#[tactic(auto, using(crate::proofs::ChosenLaws::one_more))]
fn add_typed<L: Ledger>(
    ranks: &mut BTreeSet<NodeRank>,
    asked: &Asked<'_>,
    node_type: Name,
    reads: &mut NodeReads<L>,
) -> Result<(), AllocError>
    ensures ranks { OnOk result (ranks.new.keys ≡ fold (insert_key rank_cmp) ranks.old.keys (filter (passes asked.now.state.now.rows asked.now.listing.now asked.now.moment) (ranks_typed asked.now.state.now.rows node_type))) }
    ensures reads { reads.new ≤ reads.old + length (ranks_typed asked.now.state.now.rows node_type) }
{
    'keys: for key in asked.state.published_of(node_type) {
        add_rank(ranks, asked, &key.rank, reads)?;
    }
    Ok(())
}

/// Adds the nodes of some types.
fn add_of<L: Ledger>(
    ranks: &mut BTreeSet<NodeRank>,
    asked: &Asked<'_>,
    types: &[Name],
    reads: &mut NodeReads<L>,
) -> Result<(), AllocError>
    ensures ranks { OnOk result (ranks.new.keys ≡ fold (insert_key rank_cmp) ranks.old.keys (filter (passes asked.now.state.now.rows asked.now.listing.now asked.now.moment) (flat_map (ranks_typed asked.now.state.now.rows) types.now))) }
    ensures reads { reads.new ≤ reads.old + length (flat_map (ranks_typed asked.now.state.now.rows) types.now) }
{
    'types: for node_type in types {
        add_typed(ranks, asked, *node_type, reads)?;
    }
    Ok(())
}
