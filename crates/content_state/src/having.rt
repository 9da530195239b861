//! The rows that have a text as what no two rows may have.
ghost use Rattle.std.specs.Prelude.{◌≡◌};
ghost use Rattle.std.specs.Option.{option_copied};
ghost use Rattle.std.specs.Iterator.{YieldsFirstBy, item_count};
ghost use Rattle.content_state.specs.FoundTexts.{found_with, row_with};
ghost use Rattle.content_state.specs.Having.{having};
ghost use Rattle.indexed_rows.specs.Rows.{entry_of, entries_left};
ghost use Rattle.indexed_rows.specs.Texts.{is_text, text_of};

use crate::state::State;
use content_rows::{Cell, Row};
use indexed_rows::{OfMark, Rows, TextKey, TextMark, Unique, digest, text_of};
use shared_set::Within;
use std::marker::Model;

/// The cells whose rows have a text as what no two rows may have, each with its row, in cell order. Contracts see it as
/// the list of those that are left.
#[derive(Drop)]
pub struct RowsWith<'a, 't> {
    keys: Within<'a, TextKey, OfMark>,
    rows: &'a Rows,
    what: Unique,
    text: &'t [u8],
}

impl<'a, 't> Model for RowsWith<'a, 't> {
    ghost use Rattle.std.specs.Prelude.{List};
    ghost use Rattle.content_rows.specs.declared.cell.Cell.{Cell as CellValue};
    ghost use Rattle.content_rows.specs.declared.row.Row.{Row as RowValue};
    ghost use Rattle.content_state.specs.FoundTexts.{found_with};

    ghost Value = { List (CellValue × RowValue) };

    ghost view = { λ i. found_with i.rows.now i.what i.text.now i.keys };
}

impl<'a, 't> Iterator for RowsWith<'a, 't> {
    type Item = (&'a Cell, &'a Row);

    ghost next_gives = { YieldsFirstBy entry_of entries_left };

    ghost remaining = { item_count entries_left };

    fn next(&mut self) -> Option<(&'a Cell, &'a Row)> {
        next_with(&mut self.keys, self.rows, self.what, self.text)
    }
}

/// The next entry whose row has the text: two texts may have one digest.
fn next_with<'a>(
    keys: &mut Within<'a, TextKey, OfMark>,
    rows: &'a Rows,
    what: Unique,
    text: &[u8],
) -> Option<(&'a Cell, &'a Row)>
    ensures { YieldsFirstBy entry_of (found_with rows.now what text.now) keys.old result keys.new }
{
    'keys: while let Some(key) = keys.next() {
        if let Some(row) = row_with(rows, key.cell, what, text) {
            return Some((&key.cell, row));
        }
    }
    None
}

/// The row of a cell, where it has the text.
fn row_with<'a>(rows: &'a Rows, cell: Cell, what: Unique, text: &[u8]) -> Option<&'a Row>
    ensures { option_copied result ≡ row_with rows.now what text.now cell }
{
    match rows.get(cell) {
        Some(row) if has_text(what, row, text) => Some(row),
        _ => None,
    }
}

/// Whether a row has the text, as what no other may have.
fn has_text(what: Unique, row: &Row, text: &[u8]) -> bool
    ensures { result ≡ is_text text.now (text_of what row.now) }
{
    match text_of(what, row) {
        Some(own) => own.as_slice() == text,
        None => false,
    }
}

impl State {
    /// The cells whose rows have the text as what no two rows may have, each with its row, in cell order, of every state,
    /// valid or not. It takes no memory.
    pub fn rows_with<'a, 't>(&'a self, what: Unique, text: &'t [u8]) -> RowsWith<'a, 't>
        ensures { result ≡ having what text.now self.now.rows }
    {
        self.stands_in_order();
        let mark = TextMark {
            what,
            digest: digest(text),
        };
        RowsWith {
            keys: self.indexes().texts.within(OfMark(mark)),
            rows: self.rows(),
            what,
            text,
        }
    }
}
