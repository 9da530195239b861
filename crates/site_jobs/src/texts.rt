//! What is printed: of rows that are refused, and of jobs that are done.
ghost use Rattle.std.specs.Prelude.{◌≡◌, ◌++◌, IfOk};
ghost use Rattle.site_jobs.specs.Texts.{cell_fault_text, checked_text, full_text, imported_text, line_says, line_text, site_field_word, site_rule_word};

use content_rows::Cell;
use content_state::{NotASite, SiteField, SiteRule};
use site_files::LineFault;
use std::alloc::{AllocError, Global};

/// The word of a rule of sites.
fn site_rule_word(rule: SiteRule) -> &'static str
    ensures { result.now ≡ site_rule_word rule }
{
    match rule {
        SiteRule::Missing => "missing",
        SiteRule::Range => "range",
        SiteRule::Absent => "absent",
        SiteRule::Taken => "taken",
        SiteRule::Cycle => "cycle",
        SiteRule::Deep => "deep",
        SiteRule::Many => "many",
    }
}

/// The word of what breaks it.
fn site_field_word(field: SiteField) -> &'static str
    ensures { result.now ≡ site_field_word field }
{
    match field {
        SiteField::Cell => "cell",
        SiteField::Node => "node",
        SiteField::Term => "term",
        SiteField::User => "user",
        SiteField::Type => "type",
        SiteField::Uid => "uid",
        SiteField::Uuid => "uuid",
        SiteField::Name => "name",
        SiteField::Path => "path",
        SiteField::Number => "number",
        SiteField::Parent => "parent",
        SiteField::Comment => "comment",
    }
}

/// Adds what is wrong with a line.
fn add_line_says(text: &mut Vec<u8>, fault: &LineFault) -> Result<(), AllocError>
    ensures { IfOk result (λ _. text.new.items ≡ text.old.items ++ line_says fault.now) }
{
    match fault {
        LineFault::BadJson => text.extend_from_slice(b"bad-json"),
        LineFault::Rule { field, rule } => {
            text.extend_from_slice(rule.word().as_bytes())?;
            text.extend_from_slice(b" ")?;
            text.extend_from_slice(field.as_slice())
        }
    }
}

/// What is printed of a line, by its number from 1.
pub fn line_text(alloc: Global, number: u32, fault: &LineFault) -> Result<Vec<u8>, AllocError>
    ensures { IfOk result (λ text. text.items ≡ line_text number fault.now) }
{
    let digits = number.to_string(alloc)?;
    let mut text = Vec::from_slice(alloc, b"line ")?;
    text.extend_from_slice(digits.as_bytes())?;
    text.extend_from_slice(b": ")?;
    add_line_says(&mut text, fault)?;
    text.extend_from_slice(b"\n")?;
    Ok(text)
}

/// What is printed of a cell.
pub fn cell_fault_text(alloc: Global, fault: &NotASite) -> Result<Vec<u8>, AllocError>
    ensures { IfOk result (λ text. text.items ≡ cell_fault_text fault.now) }
{
    let cell = fault.cell.text(alloc)?;
    let mut text = Vec::from_slice(alloc, b"cell ")?;
    text.extend_from_slice(cell.as_slice())?;
    text.extend_from_slice(b": ")?;
    text.extend_from_slice(site_rule_word(fault.rule).as_bytes())?;
    text.extend_from_slice(b" ")?;
    text.extend_from_slice(site_field_word(fault.field).as_bytes())?;
    text.extend_from_slice(b"\n")?;
    Ok(text)
}

/// What is printed of a cell whose write would count a tag past the greatest count.
pub(crate) fn full_text(alloc: Global, cell: &Cell) -> Result<Vec<u8>, AllocError>
    ensures { IfOk result (λ text. text.items ≡ full_text cell.now) }
{
    let words = cell.text(alloc)?;
    let mut text = Vec::from_slice(alloc, b"cell ")?;
    text.extend_from_slice(words.as_slice())?;
    text.extend_from_slice(b": full number\n")?;
    Ok(text)
}

/// What is printed of an import: how many rows were read, and how many cells changed.
pub(crate) fn imported_text(alloc: Global, rows: u64, changed: u64) -> Result<Vec<u8>, AllocError>
    ensures { IfOk result (λ text. text.items ≡ imported_text rows changed) }
{
    let read = rows.to_string(alloc)?;
    let written = changed.to_string(alloc)?;
    let mut text = Vec::from_slice(alloc, b"imported ")?;
    text.extend_from_slice(read.as_bytes())?;
    text.extend_from_slice(b" changed ")?;
    text.extend_from_slice(written.as_bytes())?;
    text.extend_from_slice(b"\n")?;
    Ok(text)
}

/// What is printed of a site: its number, and how many rows it has.
pub(crate) fn checked_text(alloc: Global, number: u64, rows: u64) -> Result<Vec<u8>, AllocError>
    ensures { IfOk result (λ text. text.items ≡ checked_text number rows) }
{
    let head = number.to_string(alloc)?;
    let count = rows.to_string(alloc)?;
    let mut text = Vec::from_slice(alloc, b"site ok number ")?;
    text.extend_from_slice(head.as_bytes())?;
    text.extend_from_slice(b" rows ")?;
    text.extend_from_slice(count.as_bytes())?;
    text.extend_from_slice(b"\n")?;
    Ok(text)
}
