//! The keys of texts that no two rows may have in common.
ghost use Rattle.std.specs.Prelude.{◌≡◌, ◌++◌, OnOk};
ghost use Rattle.std.specs.Option.{option_copied};
ghost use Rattle.indexed_rows.specs.TextKeys.{digest, digested, mark_cmp, text_key, text_keys};
ghost use Rattle.indexed_rows.specs.TextLaws.{text_exact, texts_named, mark_behind, mark_before};

use crate::text_mark::{TextKey, TextMark};
use crate::unique::{Unique, text_of};
use content_rows::{Cell, Row};
use row_keys::Key;
use shared_set::Span;
use std::alloc::AllocError;
use std::cmp::Ordering;

/// Digests are below this prime.
const MODULUS: u64 = 4_294_967_291;

impl Key for TextKey {
    ghost keys = { text_keys };

    ghost owner = { λ k. k.cell };

    fn add(found: &mut Vec<TextKey>, cell: &Cell, row: &Row) -> Result<(), AllocError> {
        add_text(found, Unique::NodeUuid, cell, row)?;
        add_text(found, Unique::TermUuid, cell, row)?;
        add_text(found, Unique::UserUuid, cell, row)?;
        add_text(found, Unique::UserName, cell, row)?;
        add_text(found, Unique::Path, cell, row)?;
        add_text(found, Unique::CommentUuid, cell, row)
    }

    ghost exact = { text_exact };

    ghost named = { texts_named };
}

/// Adds the key of what a row has, where it has that.
fn add_text(
    found: &mut Vec<TextKey>,
    what: Unique,
    cell: &Cell,
    row: &Row,
) -> Result<(), AllocError>
    ensures { OnOk result (found.new.items ≡ found.old.items ++ text_key what (cell.now, row.now)) }
{
    if let Some(text) = text_of(what, row) {
        found.push(TextKey {
            mark: TextMark {
                what,
                digest: digest(text.as_slice()),
            },
            cell: *cell,
        })?;
    }
    Ok(())
}

/// The digest of a text.
pub fn digest(text: &[u8]) -> u64
    ensures { result ≡ digest text.now }
{
    let mut digest = 5_381;
    'bytes: for byte in text {
        digest = (digest * 65_599 + u64::from(*byte)) % MODULUS;
    }
    digest
}

/// The texts of one mark.
#[derive(Clone, Copy, Debug)]
pub struct OfMark(pub TextMark);

impl Span<TextKey> for OfMark {
    ghost beside = { λ s k. mark_cmp s.0 k.mark };

    fn beside(&self, key: &TextKey) -> Ordering {
        self.0.cmp(&key.mark)
    }

    ghost behind = { λ s. mark_behind s.0 };

    ghost before = { λ s. mark_before s.0 };
}
