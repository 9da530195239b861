//! What a page is made of, once on the way that it is meant for.

use html_out::{Bytes, Segment, Segments, escape, flatten};
use std::alloc::{AllocError, Global};
use std::sync::Arc;

fn shared(alloc: Global, bytes: &[u8]) -> Result<Arc<Bytes>, AllocError> {
    let bytes = Bytes::new(Vec::from_slice(alloc, bytes)?);
    Ok(Arc::new(alloc, bytes)?)
}

/// `ab`, a hole 7, `c`.
fn three(alloc: Global) -> Result<Segments<u32>, AllocError> {
    let mut segments = Segments::new(alloc);
    segments.push(shared(alloc, b"ab")?)?;
    segments.push_hole(7)?;
    segments.push(shared(alloc, b"c")?)?;
    Ok(segments)
}

/// The bytes of the segments, with the last digit of the number of each hole.
fn said(alloc: Global, segments: &[Segment<u32>]) -> Result<Vec<u8>, AllocError> {
    let mut said = Vec::new(alloc);
    for segment in segments {
        match segment {
            Segment::Bytes(bytes) => said.extend_from_slice(bytes.as_slice())?,
            Segment::Hole(hole) => said.push(b'0' + (*hole % 10) as u8)?,
        }
    }
    Ok(said)
}

#[test]
fn the_five_characters(rt: HostRuntime) {
    let mut out = Vec::from_slice(rt.alloc(), b"<p>").expect(&rt, "memory");
    escape(&mut out, b"<b>'&\"").expect(&rt, "memory");
    assert!(rt; out.as_slice() == b"<p>&lt;b&gt;&#039;&amp;&quot;".as_slice());
}

#[test]
fn segments_with_a_hole(rt: HostRuntime) {
    let alloc = rt.alloc();
    let mut segments = three(alloc).expect(&rt, "memory");
    let others = three(alloc).expect(&rt, "memory");
    segments.append(&others).expect(&rt, "memory");
    assert!(rt; segments.len() == 6);
    let said = said(alloc, segments.parts()).expect(&rt, "memory");
    assert!(rt; said.as_slice() == b"ab7cab7c".as_slice());
}

#[test]
fn pieces_in_one(rt: HostRuntime) {
    let alloc = rt.alloc();
    let mut pieces = Vec::new(alloc);
    for bytes in [b"ab".as_slice(), b"".as_slice(), b"cd".as_slice()] {
        let piece = shared(alloc, bytes).expect(&rt, "memory");
        assert!(rt; pieces.push(piece).is_ok());
    }
    let flat = flatten(alloc, &pieces).expect(&rt, "memory");
    assert!(rt; flat.as_slice() == b"abcd".as_slice());
}
