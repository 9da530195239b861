//! Texts of tags and contexts, and what two pieces of a page say together.

use crate::starting::name;
use cacheability::{Cacheability, Context, MaxAge, Name, Tag};
use std::alloc::Global;
use std::process::Abort;

#[test]
fn texts(rt: HostRuntime) {
    let page = name(&rt, b"page");
    let tags: [(Tag, &[u8]); 7] = [
        (Tag::Role(page), b"config:user.role.page"),
        (Tag::User(4_294_967_294), b"user:4294967294"),
        (Tag::Node(0), b"node:0"),
        (Tag::NodeListOf(page), b"node_list:page"),
        (Tag::Comment(10), b"comment:10"),
        (Tag::CommentList(4_294_967_294), b"comment_list:4294967294"),
        (Tag::NotFound, b"4xx-response"),
    ];
    for (tag, text) in &tags {
        let written = tag.text(rt.alloc()).expect(&rt, "memory");
        assert!(rt; written.as_slice() == *text);
    }
    let trail = Context::MenuTrail(page);
    let written = trail.text(rt.alloc()).expect(&rt, "memory");
    assert!(rt; written.as_slice() == b"route.menu_active_trails:page".as_slice());
    assert!(rt; Name::new(b"Page").is_err());
}

/// What was made from these, and is kept so long at most.
fn made_from(rt: &impl Abort, alloc: Global, tags: &[Tag], age: MaxAge) -> Cacheability {
    let mut made = Cacheability::new(alloc);
    for tag in tags {
        made.add_tag(*tag).expect(rt, "memory");
    }
    made.limit_age(age);
    made
}

#[test]
fn merged(rt: HostRuntime) {
    let alloc = rt.alloc();
    let minute = MaxAge::Seconds(60);
    let one_tags = [Tag::NodeList, Tag::Node(10)];
    let other_tags = [
        Tag::Node(9),
        Tag::Node(10),
        Tag::CommentList(1),
        Tag::Comment(2),
    ];
    let mut one = made_from(&rt, alloc, &one_tags, minute);
    let mut other = made_from(&rt, alloc, &other_tags, MaxAge::Permanent);
    assert!(rt; other.add_context(Context::Session).is_ok());
    assert!(rt; one.merge(alloc, &other).is_ok());
    let both = [
        Tag::Comment(2),
        Tag::CommentList(1),
        Tag::Node(10),
        Tag::Node(9),
        Tag::NodeList,
    ];
    assert!(rt; one.tags() == both.as_slice());
    assert!(rt; one.max_age() == minute);
    assert!(rt; one.must_placehold());
    let copy = one.duplicate(alloc).expect(&rt, "memory");
    assert!(rt; copy.equals(&one) && !copy.equals(&other));
}
