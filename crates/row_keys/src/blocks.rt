//! The keys of placed blocks.
ghost use Rattle.std.specs.Prelude.{◌≡◌, ◌++◌, OnOk};
ghost use Rattle.std.specs.Ordering.{nat_cmp};
ghost use Rattle.content_rows.specs.declared.cell.Cell.TheVariants as cell;
ghost use Rattle.row_keys.specs.Keys.{block_keys, region_place};
ghost use Rattle.row_keys.specs.Exact.{block_exact};
ghost use Rattle.row_keys.specs.Named.{blocks_named};
ghost use Rattle.row_keys.specs.Spans.{region_behind, region_before};

use crate::key::Key;
use crate::rank::{BlockKey, BlockRank};
use content_rows::{Cell, Region, Row};
use shared_set::Span;
use std::alloc::AllocError;
use std::cmp::Ordering;

impl Key for BlockKey {
    ghost keys = { block_keys };

    ghost owner = { λ k. cell.Block k.rank.name };

    fn add(found: &mut Vec<BlockKey>, cell: &Cell, row: &Row) -> Result<(), AllocError> {
        if let (Cell::Block(name), Row::Block(block)) = (cell, row) {
            found.push(BlockKey {
                region: region_place(block.region),
                rank: BlockRank {
                    weight: block.weight,
                    name: *name,
                },
            })?;
        }
        Ok(())
    }

    ghost exact = { block_exact };

    ghost named = { blocks_named };
}

/// The place of a region among all.
pub fn region_place(region: Region) -> u8
    ensures { result ≡ region_place region }
{
    match region {
        Region::Header => 0,
        Region::Aside => 1,
        Region::Footer => 2,
    }
}

/// The blocks of a region.
#[derive(Clone, Copy, Debug)]
pub struct OfRegion(pub Region);

impl Span<BlockKey> for OfRegion {
    ghost beside = { λ s k. nat_cmp (region_place s.0) k.region };

    fn beside(&self, key: &BlockKey) -> Ordering {
        region_place(self.0).cmp(&key.region)
    }

    ghost behind = { λ s. region_behind s.0 };

    ghost before = { λ s. region_before s.0 };
}
