//! The rules that the keys of a row keep together.
ghost use Rattle.std.specs.Prelude.{◌≡◌, option_map, map};
ghost use Rattle.content_rows.specs.ValidRow.{is_clock, is_placed_text, has_name};
ghost use Rattle.row_json.specs.Whole.{differ, are_distinct, links_fault, type_fault, menu_fault, listing_fault, block_fault, whole_fault};

use content_rows::{
    Block, BlockKind, FieldRow, Link, Listing, Menu, NodeType, Row, all_reach_top,
    have_distinct_ids, have_distinct_names, have_their_parents,
};
use json_keys::Rule;

/// The first rule that the keys of a row break together, with the key that it is told of. Takes no
/// memory.
pub fn whole_fault(row: &Row) -> Option<(&'static str, Rule)>
    ensures { option_map (λ f. (f.0.now, f.1)) result ≡ whole_fault row.now }
{
    match row {
        Row::NodeType(node_type) => type_fault(node_type),
        Row::Menu(menu) => menu_fault(menu),
        Row::Listing(listing) => listing_fault(listing),
        Row::Block(block) => block_fault(block),
        _ => None,
    }
}

/// Of a content type: each field's name is there once.
fn type_fault(node_type: &NodeType) -> Option<(&'static str, Rule)>
    ensures { option_map (λ f. (f.0.now, f.1)) result ≡ type_fault node_type.now }
{
    if names_are_distinct(node_type.fields.as_slice()) {
        None
    } else {
        Some(("fields", Rule::Twice))
    }
}

/// Whether each name of a field is there once.
fn names_are_distinct(fields: &[FieldRow]) -> bool
    ensures { result ≡ are_distinct (map (λ f. f.name) fields.now) }
{
    have_distinct_names(fields)
}

/// Of a menu: what its links break together.
fn menu_fault(menu: &Menu) -> Option<(&'static str, Rule)>
    ensures { option_map (λ f. (f.0.now, f.1)) result ≡ menu_fault menu.now }
{
    match links_fault(menu.links.as_slice()) {
        Some(rule) => Some(("links", rule)),
        None => None,
    }
}

/// The first rule that links break together: each id is there once, each parent is there, none
/// leads back to itself, and none is more than nine deep.
fn links_fault(links: &[Link]) -> Option<Rule>
    ensures { result ≡ links_fault links.now }
{
    if !ids_are_distinct(links) {
        Some(Rule::Twice)
    } else if !have_their_parents(links) {
        Some(Rule::Absent)
    } else if !all_reach_top(links.len(), links) {
        Some(Rule::Cycle)
    } else if !all_reach_top(9, links) {
        Some(Rule::Deep)
    } else {
        None
    }
}

/// Whether each id of a link is there once.
fn ids_are_distinct(links: &[Link]) -> bool
    ensures { result ≡ are_distinct (map (λ l. l.id) links.now) }
{
    have_distinct_ids(links)
}

/// Of a listing: an age goes with a span, and with nothing else.
fn listing_fault(listing: &Listing) -> Option<(&'static str, Rule)>
    ensures { option_map (λ f. (f.0.now, f.1)) result ≡ listing_fault listing.now }
{
    if differ(listing.age.is_some(), listing.recent.is_some()) {
        Some(("age", Rule::Pair))
    } else {
        None
    }
}

/// Of a block: a clock alone has an age, a menu or a listing alone a name, a text alone a text.
fn block_fault(block: &Block) -> Option<(&'static str, Rule)>
    ensures { option_map (λ f. (f.0.now, f.1)) result ≡ block_fault block.now }
{
    let kind = block.kind;
    if differ(block.age.is_some(), is_clock(kind)) {
        Some(("age", Rule::Pair))
    } else if differ(block.name.is_some(), has_name(kind)) {
        Some(("name", Rule::Pair))
    } else if differ(block.text.is_some(), is_placed_text(kind)) {
        Some(("text", Rule::Pair))
    } else {
        None
    }
}

/// Whether one holds and the other does not.
fn differ(one: bool, other: bool) -> bool
    ensures { result ≡ differ one other }
{
    if one { !other } else { other }
}

/// Whether it is a block of the time.
fn is_clock(kind: BlockKind) -> bool
    ensures { result ≡ is_clock kind }
{
    match kind {
        BlockKind::Clock => true,
        _ => false,
    }
}

/// Whether it is a block of a menu or of a listing.
fn has_name(kind: BlockKind) -> bool
    ensures { result ≡ has_name kind }
{
    match kind {
        BlockKind::Menu | BlockKind::Listing => true,
        _ => false,
    }
}

/// Whether it is a block of a text of its own.
fn is_placed_text(kind: BlockKind) -> bool
    ensures { result ≡ is_placed_text kind }
{
    match kind {
        BlockKind::Text => true,
        _ => false,
    }
}
