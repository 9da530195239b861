//! A write to a cell.

use content_rows::{Cell, Row};
use std::marker::Model;
use std::sync::Arc;

/// One cell, and the row that it gets; none removes the row. Contracts see the row, and not who shares it.
pub struct Write {
    pub cell: Cell,
    pub row: Option<Arc<Row>>,
}

impl Drop for Write {
    fn drop(self) {
        let Write { cell: _, row: _ } = self;
    }
}

impl Model for Write {
    ghost use Rattle.std.specs.Option.{option_map};
    ghost use Rattle.std.specs.Arc.{arc_value};
    ghost use Rattle.indexed_rows.specs.Write.{Write as WriteValue};

    ghost Value = { WriteValue };

    ghost view = { λ w. record { cell = w.cell; row = option_map (λ r. arc_value r) w.row } };
}
