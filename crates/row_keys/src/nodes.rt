//! The keys of published nodes.
ghost use Rattle.std.specs.Prelude.{◌≡◌, ◌++◌, OnOk, map};
ghost use Rattle.std.specs.Ordering.{nat_cmp};
ghost use Rattle.std.specs.declared.cmp.Ordering.TheVariants.{Equal};
ghost use Rattle.std.specs.Cmp.Lexicographic.{slice_cmp};
ghost use Rattle.content_rows.specs.declared.cell.Cell.TheVariants as cell;
ghost use Rattle.row_keys.specs.Keys.{node_keys, type_keys, term_keys, term_keys_of};
ghost use Rattle.row_keys.specs.Ranks.{rank_of};
ghost use Rattle.row_keys.specs.Exact.{rank_exact, type_exact, term_exact};
ghost use Rattle.row_keys.specs.Named.{nodes_named, types_named, terms_named};
ghost use Rattle.row_keys.specs.Spans.{type_behind, type_before, term_behind, term_before};

use crate::key::Key;
use crate::rank::{NodeRank, TermKey, TypeKey, node_rank};
use cacheability::Name;
use content_rows::{Cell, Row};
use shared_set::Span;
use std::alloc::AllocError;
use std::cmp::Ordering;

impl Key for NodeRank {
    ghost keys = { node_keys };

    ghost owner = { λ k. cell.Node k.id.0 };

    fn add(found: &mut Vec<NodeRank>, cell: &Cell, row: &Row) -> Result<(), AllocError> {
        if let (Cell::Node(id), Row::Node(node)) = (cell, row) {
            if node.status {
                found.push(node_rank(*id, node))?;
            }
        }
        Ok(())
    }

    ghost exact = { rank_exact };

    ghost named = { nodes_named };
}

impl Key for TypeKey {
    ghost keys = { type_keys };

    ghost owner = { λ k. cell.Node k.rank.id.0 };

    fn add(found: &mut Vec<TypeKey>, cell: &Cell, row: &Row) -> Result<(), AllocError> {
        if let (Cell::Node(id), Row::Node(node)) = (cell, row) {
            if node.status {
                found.push(TypeKey {
                    node_type: node.node_type,
                    rank: node_rank(*id, node),
                })?;
            }
        }
        Ok(())
    }

    ghost exact = { type_exact };

    ghost named = { types_named };
}

impl Key for TermKey {
    ghost keys = { term_keys };

    ghost owner = { λ k. cell.Node k.rank.id.0 };

    fn add(found: &mut Vec<TermKey>, cell: &Cell, row: &Row) -> Result<(), AllocError> {
        if let (Cell::Node(id), Row::Node(node)) = (cell, row) {
            if node.status {
                add_terms(found, node.terms.as_slice(), node_rank(*id, node))?;
            }
        }
        Ok(())
    }

    ghost exact = { term_exact };

    ghost named = { terms_named };
}

/// Adds a key for each term.
fn add_terms(found: &mut Vec<TermKey>, terms: &[u32], rank: NodeRank) -> Result<(), AllocError>
    ensures { OnOk result (found.new.items ≡ found.old.items ++ term_keys_of rank terms.now) }
{
    'terms: for term in terms {
        found.push(TermKey { term: *term, rank })?;
    }
    Ok(())
}

/// The published nodes of a type.
#[derive(Clone, Copy, Debug)]
pub struct OfType(pub Name);

impl Span<TypeKey> for OfType {
    ghost beside = { λ s k. slice_cmp nat_cmp s.0 k.node_type };

    fn beside(&self, key: &TypeKey) -> Ordering {
        self.0.cmp(&key.node_type)
    }

    ghost behind = { λ s. type_behind s.0 };

    ghost before = { λ s. type_before s.0 };
}

/// The published nodes with a term.
#[derive(Clone, Copy, Debug)]
pub struct WithTerm(pub u32);

impl Span<TermKey> for WithTerm {
    ghost beside = { λ s k. nat_cmp s.0 k.term };

    fn beside(&self, key: &TermKey) -> Ordering {
        self.0.cmp(&key.term)
    }

    ghost behind = { λ s. term_behind s.0 };

    ghost before = { λ s. term_before s.0 };
}

/// All published nodes.
#[derive(Clone, Copy, Debug)]
pub struct AllNodes;

impl Span<NodeRank> for AllNodes {
    ghost beside = { λ _ _. Equal };

    fn beside(&self, _key: &NodeRank) -> Ordering {
        Ordering::Equal
    }

    ghost behind = { λ _ _ _ _ same. same };

    ghost before = { λ _ _ _ _ same. same };
}
