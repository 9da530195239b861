//! Counts of a few tags, each looked at after each bump.

use cacheability::Tag;
use tag_counts::Counts;

const BUMPS: [(Tag, u64, u128, usize); 4] = [
    (Tag::Node(1), 1, 2, 1),
    (Tag::NodeList, 1, 3, 2),
    (Tag::Node(1), 2, 5, 2),
    (Tag::Node(2), 1, 5, 3),
];

const LOOKED_AT: [Tag; 4] = [Tag::Node(1), Tag::NodeList, Tag::Node(1), Tag::Rendered];

#[test]
fn counts_what_was_bumped(rt: HostRuntime) {
    let mut counts = Counts::new(rt.alloc());
    assert!(rt; counts.sum(&LOOKED_AT) == 0);
    for (tag, count, sum, len) in &BUMPS {
        assert!(rt; counts.bump(tag).is_ok());
        assert!(rt; counts.count(tag) == *count);
        assert!(rt; counts.sum(&LOOKED_AT) == *sum);
        assert!(rt; counts.len() == *len);
    }
    let copy = counts.duplicate(rt.alloc()).expect(&rt, "memory");
    assert!(rt; copy.count(&Tag::Node(1)) == 2);
    assert!(rt; copy.count(&Tag::User(1)) == 0);
}
