//! The keys of terms.
ghost use Rattle.std.specs.Prelude.{Some};
ghost use Rattle.std.specs.Option.{option_cmp};
ghost use Rattle.std.specs.Ordering.{nat_cmp};
ghost use Rattle.std.specs.declared.cmp.Ordering.TheVariants.{Equal};
ghost use Rattle.content_rows.specs.declared.cell.Cell.TheVariants as cell;
ghost use Rattle.row_keys.specs.Keys.{parent_keys};
ghost use Rattle.row_keys.specs.Exact.{parent_exact};
ghost use Rattle.row_keys.specs.Named.{parents_named};
ghost use Rattle.row_keys.specs.Spans.{parent_behind, parent_before};

use crate::key::Key;
use crate::rank::ParentKey;
use content_rows::{Cell, Row};
use shared_set::Span;
use std::alloc::AllocError;
use std::cmp::Ordering;

impl Key for ParentKey {
    ghost keys = { parent_keys };

    ghost owner = { λ k. cell.Term k.id };

    fn add(found: &mut Vec<ParentKey>, cell: &Cell, row: &Row) -> Result<(), AllocError> {
        if let (Cell::Term(id), Row::Term(term)) = (cell, row) {
            found.push(ParentKey {
                parent: term.parent,
                id: *id,
            })?;
        }
        Ok(())
    }

    ghost exact = { parent_exact };

    ghost named = { parents_named };
}

/// The terms under a term.
#[derive(Clone, Copy, Debug)]
pub struct Under(pub u32);

impl Span<ParentKey> for Under {
    ghost beside = { λ s k. option_cmp nat_cmp (Some s.0) k.parent };

    fn beside(&self, key: &ParentKey) -> Ordering {
        Some(self.0).cmp(&key.parent)
    }

    ghost behind = { λ s. parent_behind s.0 };

    ghost before = { λ s. parent_before s.0 };
}

/// All terms.
#[derive(Clone, Copy, Debug)]
pub struct AllTerms;

impl Span<ParentKey> for AllTerms {
    ghost beside = { λ _ _. Equal };

    fn beside(&self, _key: &ParentKey) -> Ordering {
        Ordering::Equal
    }

    ghost behind = { λ _ _ _ _ same. same };

    ghost before = { λ _ _ _ _ same. same };
}
