//! In which bucket a cell stands.
ghost use Rattle.std.specs.Prelude.{◌≡◌, ◌≤◌, ◌++◌, length, sum};
ghost use Rattle.std.specs.Ordering.{as_partial_cmp, eq_by_cmp};
ghost use Rattle.std.specs.Cmp.{eq_by_cmp_equiv, partial_equiv_from_equiv, partial_order_from_total};
ghost use Rattle.cell_keys.specs.Places.{cell_place};

use bucket_map::Placed;
use cacheability::Name;
use content_rows::Cell;
use std::cmp::Ordering;
use std::marker::Model;

/// A cell as the key of a map in buckets. Contracts see it as the cell.
#[derive(Clone, Copy, Debug)]
pub struct CellKey(pub Cell);

impl Model for CellKey {
    ghost use Rattle.std.specs.Prelude.{refl};
    ghost use Rattle.content_rows.specs.declared.cell.Cell.{Cell as CellValue};

    ghost Value = { CellValue };

    ghost view = { λ k. k.0 };

    ghost inverse = { λ c. record { 0 = c } };

    ghost inverse_ok = { λ k _. refl };
}

impl PartialEq for CellKey {
    ghost use Rattle.content_rows.specs.CellOrder.{cell_cmp};
    ghost use Rattle.content_rows.proofs.CellLemmas.{cell_cmp_total};

    ghost eq = { eq_by_cmp cell_cmp };

    ghost laws = { partial_equiv_from_equiv (eq_by_cmp_equiv cell_cmp_total) };

    fn eq(&self, other: &Self) -> bool {
        self.0.order(&other.0).is_eq()
    }
}

impl Eq for CellKey {
    ghost use Rattle.content_rows.proofs.CellLemmas.{cell_cmp_total};

    ghost laws = { eq_by_cmp_equiv cell_cmp_total };
}

impl PartialOrd for CellKey {
    ghost use Rattle.content_rows.specs.CellOrder.{cell_cmp};
    ghost use Rattle.content_rows.proofs.CellLemmas.{cell_cmp_total};

    ghost partial_cmp = { as_partial_cmp cell_cmp };

    ghost laws = { partial_order_from_total cell_cmp_total };

    fn partial_cmp(&self, other: &Self) -> Option<Ordering> {
        Some(self.cmp(other))
    }
}

impl Ord for CellKey {
    ghost use Rattle.std.specs.Prelude.{refl};
    ghost use Rattle.content_rows.specs.CellOrder.{cell_cmp};
    ghost use Rattle.content_rows.proofs.CellLemmas.{cell_cmp_total};

    ghost cmp = { cell_cmp };

    ghost total = { cell_cmp_total };

    ghost matches_partial_cmp = { λ a b. refl };

    ghost matches_eq = { λ a b. refl };

    fn cmp(&self, other: &Self) -> Ordering {
        self.0.order(&other.0)
    }
}

impl Placed for CellKey {
    ghost use Rattle.cell_keys.specs.Places.{cell_place, cells_within};
    ghost use Rattle.content_rows.proofs.CellLemmas.{cell_cmp_exact};

    ghost place = { cell_place };

    ghost within = { cells_within };

    ghost exact = { cell_cmp_exact };

    fn place(&self) -> usize {
        place_of(&self.0)
    }
}

/// The bucket of a cell: its number where it has one, else the sum of the bytes of its text, modulo 1,024.
fn place_of(cell: &Cell) -> usize
    ensures { result ≡ cell_place cell.now }
{
    match cell {
        Cell::User(id) | Cell::Term(id) | Cell::Node(id) | Cell::Comment(id) => {
            *id as usize % 1_024
        }
        Cell::Site => sum_of(b"site") % 1_024,
        Cell::Seq => sum_of(b"seq") % 1_024,
        Cell::NodeType(name) => sum_with(b"type:", name) % 1_024,
        Cell::Role(name) => sum_with(b"role:", name) % 1_024,
        Cell::Menu(name) => sum_with(b"menu:", name) % 1_024,
        Cell::Listing(name) => sum_with(b"listing:", name) % 1_024,
        Cell::Block(name) => sum_with(b"block:", name) % 1_024,
        Cell::Session(name) => sum_with(b"session:", name) % 1_024,
        Cell::Talk => sum_of(b"talk") % 1_024,
        Cell::Head => sum_of(b"head") % 1_024,
    }
}

/// The sum of the bytes of the word of a kind and of a name after it.
fn sum_with(kind: &[u8], name: &Name) -> usize
    requires { length kind.now ≤ 8 }
    ensures { result ≡ sum (kind.now ++ name.now) }
{
    sum_of(kind) + sum_of(name.as_bytes())
}

/// The sum of some bytes.
fn sum_of(bytes: &[u8]) -> usize
    requires { length bytes.now ≤ 64 }
    ensures same { result ≡ sum bytes.now }
    ensures small { result ≤ 16_320 }
{
    let mut total = 0;
    'bytes: for byte in bytes {
        total += usize::from(*byte);
    }
    total
}
