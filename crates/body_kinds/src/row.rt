//! Bodies that are whole rows without their cells.
ghost use Rattle.std.specs.Prelude.{◌≡◌, IfOk};
ghost use Rattle.serde_json.specs.View.{view};
ghost use Rattle.json_keys.specs.Checked.{unless_faulty};
ghost use Rattle.json_keys.specs.Fault.{seen};
ghost use Rattle.row_json.specs.Whole.{whole_fault};
ghost use Rattle.body_kinds.specs.SetRows.{whole_row, config_row, settings_row};

use content_rows::{Block, Listing, Menu, NodeType, Role, Row, Site, Text};
use json_keys::{Checked, Key};
use row_json::{Kind, of_kind, whole_fault};
use row_kinds::{BLOCK, LISTING, MENU, ROLE, SITE, TYPE};
use serde_json::Value;
use site_commands::ConfigKind;
use std::alloc::{AllocError, Global};

/// A row, or what its keys break together.
fn unless_faulty(alloc: Global, row: Row) -> Result<Checked<Row>, AllocError>
    ensures { IfOk result (λ c. c ≡ unless_faulty row (whole_fault row)) }
{
    match whole_fault(&row) {
        Some((field, rule)) => {
            // by a call, since a row that ends by itself is proved kind by kind at each way out
            drop(row);
            Ok(Checked::Broken(Text::copied(alloc, field.as_bytes())?, rule))
        }
        None => Ok(Checked::Right(row)),
    }
}

/// A row of a kind, by the keys of its table.
fn whole_row<T: Kind>(
    alloc: Global,
    keys: &[Key],
    value: &Value,
) -> Result<Checked<Row>, AllocError>
    ensures { IfOk result (λ c. c ≡ whole_row T.made T.of (seen keys.now) (view value.now)) }
{
    match of_kind::<T>(alloc, keys, value)? {
        Checked::Right(row) => unless_faulty(alloc, row),
        Checked::Broken(field, rule) => Ok(Checked::Broken(field, rule)),
    }
}

/// What an object says as a row of a kind without its cell, or the first rule that it breaks: of
/// the keys that are there, in the order of their bytes; then of those that are missing; then of
/// all of them together. `Err` only where memory is wanting.
pub fn config_row(
    alloc: Global,
    kind: ConfigKind,
    value: &Value,
) -> Result<Checked<Row>, AllocError>
    ensures { IfOk result (λ c. c ≡ config_row kind (view value.now)) }
{
    match kind {
        ConfigKind::Role => whole_row::<Role>(alloc, &ROLE[1..], value),
        ConfigKind::NodeType => whole_row::<NodeType>(alloc, &TYPE[1..], value),
        ConfigKind::Block => whole_row::<Block>(alloc, &BLOCK[1..], value),
        ConfigKind::Menu => whole_row::<Menu>(alloc, &MENU[1..], value),
        ConfigKind::Listing => whole_row::<Listing>(alloc, &LISTING[1..], value),
    }
}

/// What an object says as the settings of the site, or the first rule that it breaks: of the keys that are there, in the order
/// of their bytes; then of those that are missing; then of all of them together. `Err` only where memory is wanting.
pub fn settings_row(alloc: Global, value: &Value) -> Result<Checked<Row>, AllocError>
    ensures { IfOk result (λ c. c ≡ settings_row (view value.now)) }
{
    whole_row::<Site>(alloc, &SITE[1..], value)
}
