//! What a listing has, of many nodes.

use crate::site::site_of;
use site_lists::{candidates, term_listing};
use std::alloc::{AllocError, Global};
use std::test::Fail;
use tag_counts::Counts;

/// A line for a published node, made at the second of its number, with these terms.
fn add_node(alloc: Global, lines: &mut Vec<u8>, id: u32, terms: &str) -> Result<(), AllocError> {
    let line = format!(in alloc;
        "{{\"cell\":\"node:{id}\",\"changed\":{id},\"created\":{id},\"fields\":{{}},\"grants\":[],\"path\":null,\"promote\":false,\"refs\":[],\"status\":true,\"sticky\":false,\"terms\":[{terms}],\"title\":\"T\",\"type\":\"page\",\"uid\":1,\"uuid\":\"n-{id}\",\"vid\":1}}\n"
    )?;
    lines.extend_from_slice(line.as_bytes())?;
    Ok(())
}

/// 200 published nodes, of which three have term 1.
fn lines(alloc: Global) -> Result<Vec<u8>, AllocError> {
    let mut lines = Vec::new(alloc);
    for id in 1..201 {
        let terms = if id % 80 == 5 { "1" } else { "2" };
        add_node(alloc, &mut lines, id, terms)?;
    }
    Ok(lines)
}

/// The listing of a term has its three nodes, the latest first. It reads no others, as the contract of
/// `candidates_counted` says.
#[test]
fn nodes_with_a_term(rt: HostRuntime) -> Result<(), Fail> {
    let state = site_of(rt.alloc(), lines(rt.alloc())?, Counts::new(rt.alloc()))?;
    let listing = term_listing(rt.alloc(), 1);
    let ids = candidates(rt.alloc(), &state, &listing, 1_000)?;
    assert!(rt; ids.as_slice() == [165, 85, 5].as_slice());
    Ok(())
}
