//! What is told of a page of a listing.
ghost use Rattle.std.specs.Prelude.{◌≡◌, ◌++◌, codes, IfOk, map};
ghost use Rattle.std.specs.Fmt.{decimal};
ghost use Rattle.serde_json.specs.Data.{array};
ghost use Rattle.serde_json.specs.View.{view, items_view};
ghost use Rattle.row_kinds.specs.Look.{text_data, items_data};
ghost use Rattle.json_out.specs.Told.{href_of, listed_data, shown_node, listing_json};

use crate::object::{no_keys, object_of, text_of, with_key, with_value};
use content_rows::{Node, Text};
use row_kinds::Write;
use serde_json::Value;
use std::alloc::{AllocError, Global};

/// Where a node without a path of its own stands: by its number.
fn numbered_path(alloc: Global, n: u32) -> Result<Text, AllocError>
    ensures { IfOk result (λ text. text ≡ codes "/node/" ++ decimal n) }
{
    let digits = n.to_string(alloc)?;
    let mut bytes = Vec::from_slice(alloc, b"/node/")?;
    bytes.extend_from_slice(digits.as_bytes())?;
    Ok(Text::from_vec(bytes))
}

/// Where a node stands: at its own path, or else by its number.
fn href_value(alloc: Global, n: u32, node: &Node) -> Result<Value, AllocError>
    ensures { IfOk result (λ v. view v ≡ text_data (href_of n node.now.path)) }
{
    match &node.path {
        Some(path) => path.write(alloc),
        None => numbered_path(alloc, n)?.write(alloc),
    }
}

/// What is told of a node of a listing.
fn listed_value(alloc: Global, n: u32, node: &Node) -> Result<Value, AllocError>
    ensures { IfOk result (λ v. view v ≡ listed_data (n, node.now)) }
{
    let map = no_keys(alloc);
    let map = with_value(alloc, map, "href", href_value(alloc, n, node));
    let map = with_key(alloc, map, "nid", &n);
    let map = with_key(alloc, map, "title", &node.title);
    object_of(map)
}

/// What is told of each of the nodes.
fn listed(alloc: Global, nodes: &[(u32, &Node)]) -> Result<Vec<Value>, AllocError>
    ensures { IfOk result (λ vs. items_view vs.items ≡ items_data listed_data (map shown_node nodes.now)) }
{
    let mut values = Vec::with_capacity(alloc, nodes.len())?;
    'nodes: for (n, node) in nodes {
        values.push(listed_value(alloc, *n, node)?)?;
    }
    Ok(values)
}

/// The array of what is told of each of the nodes.
fn nodes_value(alloc: Global, nodes: &[(u32, &Node)]) -> Result<Value, AllocError>
    ensures { IfOk result (λ v. view v ≡ array (items_data listed_data (map shown_node nodes.now))) }
{
    Ok(Value::Array(listed(alloc, nodes)?))
}

/// What is told of a page of a listing (RFC 8259): its nodes by their numbers, its number counted from 0, and how many pages
/// there are. `Err` only where memory is wanting.
pub fn listing_json(
    alloc: Global,
    nodes: &[(u32, &Node)],
    page: usize,
    pages: usize,
) -> Result<Vec<u8>, AllocError>
    ensures { IfOk result (λ text. text.items ≡ listing_json (map shown_node nodes.now) page pages) }
{
    let map = no_keys(alloc);
    let map = with_value(alloc, map, "nodes", nodes_value(alloc, nodes));
    let map = with_key(alloc, map, "page", &(page as u64));
    let map = with_key(alloc, map, "pages", &(pages as u64));
    text_of(alloc, map)
}
