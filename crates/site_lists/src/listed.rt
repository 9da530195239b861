//! The nodes of a listing.
ghost use Rattle.std.specs.Prelude.{◌≡◌, ◌<◌, ◌≤◌, ◌+◌, All, IfOk, IsSome, map};
ghost use Rattle.indexed_rows.specs.Rows.{node_of};
ghost use Rattle.site_lists.specs.Chosen.{is_due, published_count};
ghost use Rattle.site_lists.specs.Listed.{
  candidates as listed_ids,
  term_listing as listing_of_term,
  list_tags as tags_of_types,
  is_fit,
  is_of_types,
  is_recent,
};

use crate::chosen::{Asked, chosen};
use crate::names::is_among;
use cacheability::{Name, Tag};
use content_rows::{Items, Listing, Node, Text};
use content_state::{NodeReads, State};
use std::alloc::{AllocError, Global};
use std::marker::Brand;
use std::sync::ledger::{Blank, Ledger};

/// The ids of the nodes that a listing has at a moment, in seconds since 1970, where access to them
/// allows: published, promoted if the listing asks for it, of its types, with its term or a descendant
/// of it, and made within its span; sticky ones first, then those made later, then those of greater ids. Each node is
/// there. `Err` only where memory is wanting.
/// <https://www.drupal.org/docs/user_guide/en/views-concept.html>
pub fn candidates(
    alloc: Global,
    state: &State,
    listing: &Listing,
    moment: u64,
) -> Result<Vec<u32>, AllocError>
    ensures ids { IfOk result (λ ids. ids.items ≡ listed_ids state.now.rows listing.now moment) }
    ensures there { IfOk result (λ ids. All (λ n. IsSome (node_of state.now.rows n)) ids.items) }
{
    candidates_from::<Brand>(alloc, state, listing, moment, Blank::new(1))
}

/// What `candidates` gives, where the nodes that it reads are counted in a new count.
fn candidates_from<L: Ledger>(
    alloc: Global,
    state: &State,
    listing: &Listing,
    moment: u64,
    blank: Blank,
) -> Result<Vec<u32>, AllocError>
    requires name { blank.name ≡ L.name }
    requires parts { blank.parts ≡ L.parts }
    requires some { 0 < L.parts }
    ensures ids { IfOk result (λ ids. ids.items ≡ listed_ids state.now.rows listing.now moment) }
    ensures there { IfOk result (λ ids. All (λ n. IsSome (node_of state.now.rows n)) ids.items) }
{
    let mut reads = NodeReads::<L>::new(blank);
    candidates_counted(alloc, state, listing, moment, &mut reads)
}

/// What `candidates` gives. It reads at most as many nodes as are published with the listing's term or a descendant of it, by the
/// sum over these, where it has a term, else as are published of its types, by the sum over these, where it has any, else as
/// are published.
#[tactic(auto, using(crate::proofs::ChosenLaws::count_right))]
pub fn candidates_counted<L: Ledger>(
    alloc: Global,
    state: &State,
    listing: &Listing,
    moment: u64,
    reads: &mut NodeReads<L>,
) -> Result<Vec<u32>, AllocError>
    ensures ids { IfOk result (λ ids. ids.items ≡ listed_ids state.now.rows listing.now moment) }
    ensures there { IfOk result (λ ids. All (λ n. IsSome (node_of state.now.rows n)) ids.items) }
    ensures reads { reads.new ≤ reads.old + published_count state.now.rows listing.now.term listing.now.types }
{
    state.stands_in_order();
    let asked = Asked {
        state,
        listing,
        moment,
    };
    chosen(alloc, &asked, reads)
}

/// Whether a node is what a listing asks for at a moment, but for its term.
pub fn is_fit(listing: &Listing, moment: u64, node: &Node) -> bool
    ensures { result ≡ is_fit listing.now moment node.now }
{
    node.status
        && (!listing.promoted || node.promote)
        && is_of_types(listing.types.as_slice(), &node.node_type)
        && is_recent(listing.recent, moment, node.created)
}

/// Whether a node is what a listing asks for at a moment, but for its term and its type.
pub fn is_due(listing: &Listing, moment: u64, node: &Node) -> bool
    ensures { result ≡ is_due listing.now moment node.now }
{
    node.status
        && (!listing.promoted || node.promote)
        && is_recent(listing.recent, moment, node.created)
}

/// Whether a type is one of a listing's, which has nodes of every type where it names none.
fn is_of_types(types: &[Name], node_type: &Name) -> bool
    ensures { result ≡ is_of_types types.now node_type.now }
{
    match types {
        [] => true,
        [_, ..] => is_among(types, node_type),
    }
}

/// Whether a node was made within a span of seconds before a moment, if there is a span, and not
/// after it.
fn is_recent(span: Option<u32>, moment: u64, created: u64) -> bool
    ensures { result ≡ is_recent span moment created }
{
    match span {
        Some(span) => moment.saturating_sub(u64::from(span)) <= created && created <= moment,
        None => true,
    }
}

/// The listing of a term: the published nodes of every type with it or a descendant of it, whether
/// promoted or not. It has no title and no path.
/// <https://www.drupal.org/docs/user_guide/en/structure-taxonomy.html>
pub fn term_listing(alloc: Global, term: u32) -> Listing
    ensures { result ≡ listing_of_term term }
{
    Listing {
        age: None,
        path: None,
        promoted: false,
        recent: None,
        term: Some(term),
        title: Text::from_vec(Vec::new(alloc)),
        types: Items::none(alloc),
    }
}

/// The tags that cover what a listing chooses among: those of the lists of its types' nodes, or
/// that of all nodes where it names no type. `Err` only where memory is wanting.
/// <https://www.drupal.org/docs/drupal-apis/cache-api/cache-tags>
pub fn list_tags(alloc: Global, listing: &Listing) -> Result<Vec<Tag>, AllocError>
    ensures { IfOk result (λ tags. tags.items ≡ tags_of_types listing.now.types) }
{
    match listing.types.as_slice() {
        [] => Vec::from_slice(alloc, &[Tag::NodeList]),
        [_, ..] => tags_of(alloc, listing.types.as_slice()),
    }
}

/// The tags of the lists of these types' nodes.
fn tags_of(alloc: Global, types: &[Name]) -> Result<Vec<Tag>, AllocError>
    ensures { IfOk result (λ tags. tags.items ≡ map Tag.NodeListOf types.now) }
{
    types
        .iter()
        .map(|name| Tag::NodeListOf(*name))
        .collect(alloc)
}
