//! How many elements are built for the pages of a connection.
ghost use Rattle.std.specs.Prelude.{None};

use content_rows::Text;
use site_alone::{alone_with, starter_state};
use site_files::read_site;
use site_hall::Alone;
use site_house::House;
use site_http::serve_connection;
use site_io::{Ended, Gate, ListClock, ListEntropy, MemorySink, MemorySource, Point};
use site_keeper::MemoryKeeper;
use site_targets::targets;
use std::alloc::{AllocError, Global};
use warm_pages::warm;

// A gate that notes how many elements were built for each of the first replies.
#[derive(Drop)]
struct Noting {
    built: [u64; 8],
    replies: usize,
}

impl Gate for Noting {
    ghost reached = { λ _. None };

    fn reach(&mut self, point: Point) {
        if let Point::BeforeReply(built) = point {
            if let Some(place) = self.built.get_mut(self.replies) {
                *place = built;
                self.replies += 1;
            }
        }
    }
}

// The rows of the new site with a second node, which stands on the front page too, and a session `abc` of its first user.
const ROWS: &[u8] = b"{\"cell\":\"site\",\"front\":\"/node\",\"name\":\"Site\"}
{\"cell\":\"seq\",\"node\":3,\"term\":1,\"user\":2}
{\"cell\":\"type:page\",\"fields\":[{\"edit\":null,\"label\":\"Body\",\"name\":\"body\",\"owner\":false,\"teaser\":true,\"view\":null}],\"label\":\"Page\",\"submitted\":false}
{\"admin\":false,\"cell\":\"role:anonymous\",\"grants\":[],\"label\":\"Anonymous\",\"permissions\":[\"access content\"]}
{\"admin\":false,\"cell\":\"role:authenticated\",\"grants\":[],\"label\":\"Member\",\"permissions\":[\"access content\"]}
{\"cell\":\"user:1\",\"created\":0,\"digest\":null,\"grants\":[],\"name\":\"admin\",\"roles\":[],\"salt\":\"\",\"status\":true,\"uuid\":\"u-1\"}
{\"cell\":\"node:1\",\"changed\":100,\"created\":100,\"fields\":{\"body\":\"Hello\"},\"grants\":[],\"path\":null,\"promote\":true,\"refs\":[],\"status\":true,\"sticky\":false,\"terms\":[],\"title\":\"First\",\"type\":\"page\",\"uid\":1,\"uuid\":\"n-1\",\"vid\":1}
{\"cell\":\"node:2\",\"changed\":100,\"created\":101,\"fields\":{\"body\":\"Hi\"},\"grants\":[],\"path\":null,\"promote\":true,\"refs\":[],\"status\":true,\"sticky\":false,\"terms\":[],\"title\":\"Second\",\"type\":\"page\",\"uid\":1,\"uuid\":\"n-2\",\"vid\":1}
{\"age\":null,\"cell\":\"listing:frontpage\",\"path\":\"/node\",\"promoted\":true,\"recent\":null,\"term\":null,\"title\":\"Home\",\"types\":[]}
{\"cell\":\"session:abc\",\"expires\":4000000000,\"uid\":1}
";

// In the header of each page, who is logged in.
const GREETING: &str =
    "{\"age\":null,\"cell\":\"block:one\",\"hide\":false,\"kind\":\"greeting\",\"label\":\"\",\"name\":null,\"paths\":[],\"region\":\"header\",\"roles\":[],\"text\":null,\"weight\":0}\n";

// Aside on each page, the time, which may be shown at its own moment alone.
const CLOCK: &str =
    "{\"age\":0,\"cell\":\"block:one\",\"hide\":false,\"kind\":\"clock\",\"label\":\"\",\"name\":null,\"paths\":[],\"region\":\"aside\",\"roles\":[],\"text\":null,\"weight\":0}\n";

// Aside on each page, the time, which may be shown for a minute.
const SLOW_CLOCK: &str =
    "{\"age\":60,\"cell\":\"block:one\",\"hide\":false,\"kind\":\"clock\",\"label\":\"\",\"name\":null,\"paths\":[],\"region\":\"aside\",\"roles\":[],\"text\":null,\"weight\":0}\n";

// Listings of what is a year old at most, which may be shown for a minute, and at their own moment alone.
const RECENT: &str =
    "{\"age\":60,\"cell\":\"listing:recent\",\"path\":null,\"promoted\":false,\"recent\":31536000,\"term\":null,\"title\":\"Recent\",\"types\":[]}\n";

const RECENT_NOW: &str =
    "{\"age\":0,\"cell\":\"listing:recent\",\"path\":null,\"promoted\":false,\"recent\":31536000,\"term\":null,\"title\":\"Recent\",\"types\":[]}\n";

// Requests over a site at these moments, how many elements are built for each reply, and pieces of the replies, in order.
#[derive(Clone, Copy)]
struct Case {
    // The row of what stands on each page beside its content, if anything does.
    placed: &'static str,
    moments: &'static [u64],
    requests: &'static [&'static str],
    // None where the test isn't of that.
    built: Option<[u64; 8]>,
    pieces: &'static [&'static str],
}

// The requests, one after the other.
fn input(alloc: Global, requests: &[&str]) -> Result<Vec<u8>, AllocError> {
    let mut bytes = Vec::new(alloc);
    for request in requests {
        bytes.extend_from_slice(request.as_bytes())?;
    }
    Ok(bytes)
}

// How many elements are built for each reply of a connection over a house, and what it writes into the sink.
fn answered<H: House>(
    rt: &HostRuntime,
    alloc: Global,
    house: &mut H,
    case: &Case,
    sink: &mut MemorySink,
) -> Result<[u64; 8], AllocError> {
    let moments = Vec::from_slice(alloc, case.moments)?;
    let requests = input(alloc, case.requests)?;
    let mut source = MemorySource::new(requests, 64);
    let mut clock = ListClock::new(moments);
    let mut entropy = ListEntropy::new(Vec::new(alloc));
    let mut gate = Noting {
        built: [0; 8],
        replies: 0,
    };
    let ended = serve_connection(
        rt,
        alloc,
        house,
        &mut source,
        sink,
        &mut clock,
        &mut entropy,
        &mut gate,
    );
    if ended == Ended::Closed {
        Ok(gate.built)
    } else {
        Err(AllocError)
    }
}

// The rows of the site with one more, if any.
fn lines(alloc: Global, placed: &str) -> Result<Vec<u8>, AllocError> {
    let mut lines = Vec::from_slice(alloc, ROWS)?;
    lines.extend_from_slice(placed.as_bytes())?;
    Ok(lines)
}

// A house over such a site, for a caller that is alone.
fn house(alloc: Global, placed: &str) -> Result<Alone<MemoryKeeper>, AllocError> {
    let mut source = MemorySource::new(lines(alloc, placed)?, 4_096);
    let Ok(state) = read_site(alloc, &mut source) else {
        return Err(AllocError);
    };
    let house = alone_with(alloc, &state);
    drop(state);
    house
}

// How many elements are built for each reply of a connection over such a site, and what it writes into the sink.
fn answered_anew(
    rt: &HostRuntime,
    case: &Case,
    sink: &mut MemorySink,
) -> Result<[u64; 8], AllocError> {
    let mut house = house(rt.alloc(), case.placed)?;
    let built = answered(rt, rt.alloc(), &mut house, case, sink);
    drop(house);
    built
}

// Whether what a connection over such a site writes has the pieces, and so many elements are built for each reply as are wanted.
fn is_right(rt: &HostRuntime, case: &Case) -> Result<bool, AllocError> {
    let mut sink = MemorySink::new(rt.alloc(), 400_000)?;
    let built = answered_anew(rt, case, &mut sink)?;
    let right = match case.built {
        Some(wanted) => built == wanted,
        None => true,
    };
    Ok(right && in_order(sink.bytes(), case.pieces))
}

// Whether these pieces stand in a text, one after the other.
fn in_order(text: &[u8], pieces: &[&str]) -> bool {
    let mut from = 0;
    for piece in pieces {
        let rest = text.get(from..).unwrap_or(&[]);
        let found = rest
            .windows(piece.len().max(1))
            .position(|window| window == piece.as_bytes());
        match found {
            Some(at) => from += at + piece.len(),
            None => return false,
        }
    }
    true
}

const PAGE: &str = "GET /node/1 HTTP/1.1\r\nHost: a\r\n\r\n";

const BY_ABC: &str = "GET /node/1 HTTP/1.1\r\nHost: a\r\nCookie: SESS=abc\r\n\r\n";

// A cookie that names no session: its page is nobody's, and its reply isn't given to others.
const BY_NOBODY: &str = "GET /node/1 HTTP/1.1\r\nHost: a\r\nCookie: SESS=nobody\r\n\r\n";

const FRONT: &str = "GET /node HTTP/1.1\r\nHost: a\r\n\r\n";

const NOWHERE: &str = "GET /node/9 HTTP/1.1\r\nHost: a\r\n\r\n";

const EDIT: &str =
    "PATCH /node/1 HTTP/1.1\r\nHost: a\r\nCookie: SESS=abc\r\nX-CSRF-Token: ba7816bf8f01cfea414140de5dae2223\r\nContent-Type: application/json\r\nContent-Length: 21\r\n\r\n{\"title\":\"A\",\"vid\":1}";

// Nobody may access content any more.
const CLOSE: &str =
    "POST /config/role/anonymous HTTP/1.1\r\nHost: a\r\nCookie: SESS=abc\r\nX-CSRF-Token: ba7816bf8f01cfea414140de5dae2223\r\nContent-Type: application/json\r\nContent-Length: 64\r\n\r\n{\"admin\":false,\"grants\":[],\"label\":\"Anonymous\",\"permissions\":[]}";

const REBUILD: &str =
    "POST /cache/rebuild HTTP/1.1\r\nHost: a\r\nCookie: SESS=abc\r\nX-CSRF-Token: ba7816bf8f01cfea414140de5dae2223\r\n\r\n";

const KEPT: [Case; 9] = [
    // A page, for visitors, and for whom all is permitted.
    Case {
        placed: "",
        moments: &[1000],
        requests: &[PAGE, PAGE, BY_ABC, BY_ABC],
        built: Some([2, 0, 2, 0, 0, 0, 0, 0]),
        pieces: &[],
    },
    // A page, for visitors, and for a cookie that names nobody.
    Case {
        placed: "",
        moments: &[1000],
        requests: &[PAGE, BY_NOBODY, PAGE, BY_NOBODY],
        built: Some([2, 0, 0, 0, 0, 0, 0, 0]),
        pieces: &[],
    },
    // A page that leads nowhere.
    Case {
        placed: "",
        moments: &[1000],
        requests: &[NOWHERE, NOWHERE],
        built: Some([1, 0, 0, 0, 0, 0, 0, 0]),
        pieces: &["404 Not Found", "404 Not Found"],
    },
    // The front page with two nodes, again, and once more after an edit of the first of them.
    Case {
        placed: "",
        moments: &[1000],
        requests: &[FRONT, FRONT, EDIT, FRONT, FRONT],
        built: Some([4, 0, 0, 3, 0, 0, 0, 0]),
        pieces: &[],
    },
    // A page, again, and once more after all that is kept was let go.
    Case {
        placed: "",
        moments: &[1000],
        requests: &[PAGE, PAGE, REBUILD, PAGE, PAGE],
        built: Some([2, 0, 0, 2, 0, 0, 0, 0]),
        pieces: &[],
    },
    // What nobody may see is asked anew after an edit.
    Case {
        placed: "",
        moments: &[1000],
        requests: &[PAGE, BY_NOBODY, CLOSE, BY_NOBODY, PAGE, BY_ABC],
        built: Some([2, 0, 0, 1, 0, 2, 0, 0]),
        pieces: &[
            "200 OK",
            "200 OK",
            "{\"ok\":true}",
            "403 Forbidden",
            "403 Forbidden",
            "200 OK",
        ],
    },
    // Nobody is greeted as somebody else.
    Case {
        placed: GREETING,
        moments: &[1000],
        requests: &[PAGE, PAGE, BY_ABC, BY_ABC, PAGE],
        built: Some([3, 0, 3, 0, 0, 0, 0, 0]),
        pieces: &[
            "Content-Length: 330\r\n",
            "Content-Length: 330\r\n",
            "Content-Length: 310\r\n",
            "<p>Hello, admin</p>",
            "Content-Length: 310\r\n",
            "<p>Hello, admin</p>",
            "Content-Length: 330\r\n",
        ],
    },
    // What may be shown at its own moment alone is built for each page that is kept but for it.
    Case {
        placed: CLOCK,
        moments: &[1000, 1001, 1002],
        requests: &[PAGE, PAGE, PAGE],
        built: Some([3, 1, 1, 0, 0, 0, 0, 0]),
        pieces: &[
            "<time>1970-01-01T00:16:40Z</time>",
            "<time>1970-01-01T00:16:41Z</time>",
            "<time>1970-01-01T00:16:42Z</time>",
        ],
    },
    // A clock that went back.
    Case {
        placed: "",
        moments: &[100, 90],
        requests: &[PAGE, PAGE],
        built: Some([2, 2, 0, 0, 0, 0, 0, 0]),
        pieces: &[],
    },
];

#[test]
fn what_is_kept_is_not_built(rt: HostRuntime) {
    for case in &KEPT {
        assert!(rt; is_right(&rt, case) == Ok(true));
    }
}

const JSON: &str = "GET /json/node/1 HTTP/1.1\r\nHost: a\r\n\r\n";

const JSON_BY_ABC: &str = "GET /json/node/1 HTTP/1.1\r\nHost: a\r\nCookie: SESS=abc\r\n\r\n";

const JSON_FRONT: &str = "GET /json/listing/frontpage HTTP/1.1\r\nHost: a\r\n\r\n";

const JSON_NOWHERE: &str = "GET /json/node/9 HTTP/1.1\r\nHost: a\r\n\r\n";

const JSON_RECENT: &str = "GET /json/listing/recent HTTP/1.1\r\nHost: a\r\n\r\n";

const JSON_RECENT_BY_ABC: &str =
    "GET /json/listing/recent HTTP/1.1\r\nHost: a\r\nCookie: SESS=abc\r\n\r\n";

// What is told as JSON is one element, whatever it tells of.
const TOLD: [Case; 5] = [
    // A node, for visitors, and for whom all is permitted, and once more after an edit of it.
    Case {
        placed: "",
        moments: &[1000],
        requests: &[JSON, JSON, JSON_BY_ABC, JSON_BY_ABC, EDIT, JSON, JSON],
        built: Some([1, 0, 1, 0, 0, 1, 0, 0]),
        pieces: &["\"title\":\"First\"", "\"title\":\"A\"", "\"title\":\"A\""],
    },
    // A listing of two nodes, and what isn't there, beside their pages.
    Case {
        placed: "",
        moments: &[1000],
        requests: &[
            JSON_FRONT,
            JSON_FRONT,
            FRONT,
            JSON_NOWHERE,
            JSON_NOWHERE,
            NOWHERE,
            JSON_FRONT,
        ],
        built: Some([1, 0, 4, 1, 0, 1, 0, 0]),
        pieces: &[
            "{\"code\":\"no-target\"}",
            "{\"code\":\"no-target\"}",
            "<!DOCTYPE html>",
        ],
    },
    // A listing that may be shown for a minute.
    Case {
        placed: RECENT,
        moments: &[1000, 1060, 1061, 1062],
        requests: &[JSON_RECENT, JSON_RECENT, JSON_RECENT, JSON_RECENT],
        built: Some([1, 0, 1, 0, 0, 0, 0, 0]),
        pieces: &[],
    },
    // A listing that may be shown for a minute, asked for with a session.
    Case {
        placed: RECENT,
        moments: &[1000, 1060, 1061, 1062],
        requests: &[
            JSON_RECENT_BY_ABC,
            JSON_RECENT_BY_ABC,
            JSON_RECENT_BY_ABC,
            JSON_RECENT_BY_ABC,
        ],
        built: Some([1, 0, 1, 0, 0, 0, 0, 0]),
        pieces: &[],
    },
    // One that may be shown at its own moment alone isn't kept.
    Case {
        placed: RECENT_NOW,
        moments: &[1000, 1000, 1001],
        requests: &[JSON_RECENT, JSON_RECENT, JSON_RECENT],
        built: Some([1, 1, 1, 0, 0, 0, 0, 0]),
        pieces: &[],
    },
];

#[test]
fn what_is_told_as_json_is_kept(rt: HostRuntime) {
    for case in &TOLD {
        assert!(rt; is_right(&rt, case) == Ok(true));
    }
}

const LASTING: [Case; 2] = [
    Case {
        placed: SLOW_CLOCK,
        moments: &[1000, 1060, 1061],
        requests: &[PAGE, PAGE, PAGE],
        built: None,
        pieces: &[
            "Content-Length: 361\r\n",
            "<time>1970-01-01T00:16:40Z</time>",
            "Content-Length: 361\r\n",
            "<time>1970-01-01T00:16:40Z</time>",
            "<time>1970-01-01T00:17:41Z</time>",
        ],
    },
    // The text is kept at moment 50, and the page that it stands on at 100.
    Case {
        placed: SLOW_CLOCK,
        moments: &[50, 100, 110, 111],
        requests: &[FRONT, PAGE, PAGE, PAGE],
        built: None,
        pieces: &[
            "<time>1970-01-01T00:00:50Z</time>",
            "<time>1970-01-01T00:00:50Z</time>",
            "<time>1970-01-01T00:00:50Z</time>",
            "<time>1970-01-01T00:01:51Z</time>",
        ],
    },
];

#[test]
fn a_page_lasts_as_long_as_what_it_shows(rt: HostRuntime) {
    for case in &LASTING {
        assert!(rt; is_right(&rt, case) == Ok(true));
    }
}

// Requests to the new site at one moment, in one connection.
fn case_of(requests: &'static [&'static str]) -> Case {
    Case {
        placed: "",
        moments: &[1000],
        requests,
        built: None,
        pieces: &[],
    }
}

// How often a hall is asked for what is kept, by these requests of one connection over the site.
fn looks(rt: &HostRuntime, requests: &'static [&'static str]) -> Result<u64, AllocError> {
    let alloc = rt.alloc();
    let case = case_of(requests);
    let mut sink = MemorySink::new(alloc, 400_000)?;
    let mut house = house(alloc, case.placed)?;
    let answered = answered(rt, alloc, &mut house, &case, &mut sink).is_ok();
    let looks = house.into_hall().tally().looks;
    if answered { Ok(looks) } else { Err(AllocError) }
}

// A page is built, and then its reply is given again without a look, but to whoever sends a cookie: for that it is found by one.
#[test]
fn a_reply_is_given_again(rt: HostRuntime) {
    let once = looks(&rt, &[PAGE]).expect(&rt, "memory");
    let twice = looks(&rt, &[PAGE, PAGE]).expect(&rt, "memory");
    let by_nobody = looks(&rt, &[PAGE, PAGE, BY_NOBODY]).expect(&rt, "memory");
    let nobody_again = looks(&rt, &[PAGE, BY_NOBODY, BY_NOBODY, PAGE]).expect(&rt, "memory");
    assert!(rt; once > 0);
    assert!(rt; twice == once);
    assert!(rt; by_nobody == once.saturating_add(1));
    assert!(rt; nobody_again == once.saturating_add(2));
}

// How many pages are rendered over a house before anybody asks for them, and how many elements are built for each reply to these
// requests then.
fn warmed_over<H: House>(
    rt: &HostRuntime,
    house: &mut H,
    targets: &[Text],
    requests: &'static [&'static str],
) -> Result<(u64, [u64; 8]), AllocError> {
    let count = warm(rt.alloc(), house, targets, 1_000)?;
    let mut sink = MemorySink::new(rt.alloc(), 400_000)?;
    let built = answered(rt, rt.alloc(), house, &case_of(requests), &mut sink)?;
    Ok((count, built))
}

// The same over the new site.
fn warmed(
    rt: &HostRuntime,
    requests: &'static [&'static str],
) -> Result<(u64, [u64; 8]), AllocError> {
    let state = starter_state(rt.alloc())?;
    let targets = targets(rt.alloc(), &state);
    let house = alone_with(rt.alloc(), &state);
    drop(state);
    let targets = targets?;
    let mut house = house?;
    let warmed = warmed_over(rt, &mut house, targets.as_slice(), requests);
    drop(house);
    warmed
}

// Nothing is built for a page that was rendered first, and a page that leads nowhere isn't among these.
#[test]
fn what_was_rendered_first_is_found(rt: HostRuntime) {
    let (count, built) = warmed(&rt, &[PAGE, FRONT, NOWHERE]).expect(&rt, "memory");
    assert!(rt; count == 4);
    assert!(rt; built == [0, 0, 1, 0, 0, 0, 0, 0]);
}
