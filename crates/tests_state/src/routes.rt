//! Where the paths of a site lead, which tags cover that, and the tags of listings.

use crate::site::site;
use cacheability::{Name, Tag};
use content_state::{Entity, Route, State, route_of};
use site_lists::{list_tags, query_value};
use std::alloc::{AllocError, Global};
use std::test::Fail;

/// The front path of a site; a path on it; what it leads to, in a word, with its number; and the tags that cover that, as texts.
type Lead = (
    &'static str,
    &'static str,
    (&'static str, u32),
    &'static [&'static str],
);

/// Paths to pages.
const PATHS: [Lead; 16] = [
    ("/node", "/node/1", ("node", 1), &["node:1"]),
    ("/node", "/about", ("node", 1), &["node:1"]),
    (
        "/node",
        "/taxonomy/term/3",
        ("term", 3),
        &["taxonomy_term:3"],
    ),
    ("/node", "/user/7", ("user", 7), &["user:7"]),
    ("/node", "/user/login", ("login", 0), &[]),
    ("/node", "/node/01", ("nothing", 0), &["4xx-response"]),
    (
        "/node",
        "/node/4",
        ("nothing", 0),
        &["4xx-response", "node:4"],
    ),
    (
        "/node",
        "/taxonomy/term/4",
        ("nothing", 0),
        &["4xx-response", "taxonomy_term:4"],
    ),
    (
        "/node",
        "/user/8",
        ("nothing", 0),
        &["4xx-response", "user:8"],
    ),
    (
        "/node",
        "/taxonomy/term/03",
        ("nothing", 0),
        &["4xx-response"],
    ),
    ("/node", "/About", ("nothing", 0), &["4xx-response"]),
    ("/node", "", ("nothing", 0), &["4xx-response"]),
    (
        "/about",
        "/",
        ("node", 1),
        &["node:1", "config:system.site"],
    ),
    ("/user/login", "/", ("login", 0), &["config:system.site"]),
    (
        "/taxonomy/term/4",
        "/",
        ("nothing", 0),
        &["4xx-response", "taxonomy_term:4", "config:system.site"],
    ),
    (
        "/nowhere",
        "/",
        ("nothing", 0),
        &["4xx-response", "config:system.site"],
    ),
];

/// Paths below `/json/`, and front paths there.
const PATHS_OF_JSON: [Lead; 16] = [
    ("/node", "/json/node/1", ("node as JSON", 1), &["node:1"]),
    (
        "/node",
        "/json/term/3",
        ("term as JSON", 3),
        &["taxonomy_term:3"],
    ),
    ("/node", "/json/user/7", ("user as JSON", 7), &["user:7"]),
    (
        "/node",
        "/json/listing/frontpage",
        ("listing as JSON", 0),
        &["config:views.view.frontpage"],
    ),
    (
        "/node",
        "/json/node/4",
        ("nothing", 0),
        &["4xx-response", "node:4"],
    ),
    (
        "/node",
        "/json/term/4",
        ("nothing", 0),
        &["4xx-response", "taxonomy_term:4"],
    ),
    (
        "/node",
        "/json/user/8",
        ("nothing", 0),
        &["4xx-response", "user:8"],
    ),
    (
        "/node",
        "/json/listing/none",
        ("nothing", 0),
        &["4xx-response"],
    ),
    ("/node", "/json/node/01", ("nothing", 0), &["4xx-response"]),
    ("/node", "/json/node/1/", ("nothing", 0), &["4xx-response"]),
    ("/node", "/json/about", ("nothing", 0), &["4xx-response"]),
    ("/node", "/json/", ("nothing", 0), &["4xx-response"]),
    ("/node", "/json", ("nothing", 0), &["4xx-response"]),
    ("/node", "/jsonnode/1", ("nothing", 0), &["4xx-response"]),
    (
        "/json/node/1",
        "/",
        ("nothing", 0),
        &["4xx-response", "node:1", "config:system.site"],
    ),
    (
        "/json/listing/frontpage",
        "/",
        ("nothing", 0),
        &["4xx-response", "config:system.site"],
    ),
];

/// What a path leads to, in a word, with its number where it has one.
fn word(route: &Route) -> (&'static str, u32) {
    match route {
        Route::Node(n) => ("node", *n),
        Route::Term(t) => ("term", *t),
        Route::User(u) => ("user", *u),
        Route::Listing(_) => ("listing", 0),
        Route::Json(Entity::Node(n)) => ("node as JSON", *n),
        Route::Json(Entity::Term(t)) => ("term as JSON", *t),
        Route::Json(Entity::User(u)) => ("user as JSON", *u),
        Route::Json(Entity::Listing(_)) => ("listing as JSON", 0),
        Route::Login => ("login", 0),
        Route::Nothing => ("nothing", 0),
    }
}

/// Whether these are all tags, as texts and in their order.
fn are_written(alloc: Global, tags: &[Tag], texts: &[&str]) -> Result<bool, AllocError> {
    if tags.len() != texts.len() {
        return Ok(false);
    }
    for (tag, text) in tags.iter().zip(texts.iter()) {
        if tag.text(alloc)?.as_slice() != text.as_bytes() {
            return Ok(false);
        }
    }
    Ok(true)
}

/// Whether a path leads there on the site with this front path, and these tags cover it.
fn leads(alloc: Global, (front, path, to, tags): Lead) -> Result<bool, AllocError> {
    let state = site(alloc, front)?;
    let found = route_of(alloc, &state, path.as_bytes());
    drop(state);
    let (route, covering) = found?;
    let (kind, number) = word(&route);
    drop(route);
    Ok(kind == to.0 && number == to.1 && are_written(alloc, covering.as_slice(), tags)?)
}

/// A number that isn't there is covered by its tag, whatever it names. `/` leads to where the front path leads, and is covered
/// by its tags and that of the settings.
#[test]
fn where_paths_lead(rt: HostRuntime) {
    for lead in PATHS {
        assert!(rt; leads(rt.alloc(), lead) == Ok(true));
    }
}

/// A path below `/json/` leads to what it names, and to nothing else: a number that isn't there is covered by its tag, and a
/// name by that of what is not found. `/` leads nowhere where the front path is one of JSON.
#[test]
fn where_paths_of_json_lead(rt: HostRuntime) {
    for lead in PATHS_OF_JSON {
        assert!(rt; leads(rt.alloc(), lead) == Ok(true));
    }
}

/// Whether a listing is there, and has this tag alone.
fn is_tag_of(alloc: Global, state: &State, name: Name, tag: Tag) -> Result<bool, AllocError> {
    let Some(listing) = state.listing(name).0 else {
        return Ok(false);
    };
    let tags = list_tags(alloc, listing)?;
    Ok(tags.as_slice() == [tag].as_slice())
}

/// A listing of every type has the tag of the list of nodes, and one of some types those of their lists.
#[test]
fn tags_of_listings(rt: HostRuntime) {
    let state = site(rt.alloc(), "/node").expect(&rt, "memory");
    let page = Name::new(b"page").expect(&rt, "a name");
    let wanted: [(&[u8], Tag); 2] = [
        (b"frontpage", Tag::NodeList),
        (b"pages", Tag::NodeListOf(page)),
    ];
    for (name, tag) in wanted {
        let name = Name::new(name).expect(&rt, "a name");
        assert!(rt; is_tag_of(rt.alloc(), &state, name, tag) == Ok(true));
    }
}

#[test]
fn values_of_queries(rt: HostRuntime) -> Result<(), Fail> {
    let cases: [(&[u8], &[u8], Option<&[u8]>); 5] = [
        (b"a=1&b=%41+c&b=2", b"b", Some(b"A c")),
        (b"a=1&b=2", b"c", None),
        (b"&&c", b"c", Some(b"")),
        (b"a+b=1%2B2", b"a b", Some(b"1+2")),
        (b"", b"", None),
    ];
    for (query, name, wanted) in cases {
        let value = query_value(rt.alloc(), query, name)?;
        assert!(rt; value.as_ref().map(|value| value.as_slice()) == wanted);
    }
    Ok(())
}
