//! The site of the tests.

use content_state::State;
use site_files::read_rows;
use site_io::MemorySource;
use std::alloc::{AllocError, Global};
use tag_counts::Counts;

/// The rows but for the settings: node 1 has a path of its own and a block with a menu, node 2 refers to itself, and node 3 is
/// user 2's and not published.
const ROWS: &[u8] = b"{\"cell\":\"seq\",\"node\":4,\"term\":4,\"user\":8}
{\"cell\":\"type:page\",\"fields\":[{\"edit\":null,\"label\":\"A field\",\"name\":\"notes\",\"owner\":false,\"teaser\":false,\"view\":\"see notes\"},{\"edit\":null,\"label\":\"A field\",\"name\":\"diary\",\"owner\":true,\"teaser\":false,\"view\":null}],\"label\":\"Page\",\"submitted\":false}
{\"admin\":false,\"cell\":\"role:anonymous\",\"grants\":[],\"label\":\"Anonymous\",\"permissions\":[\"access content\"]}
{\"admin\":false,\"cell\":\"role:authenticated\",\"grants\":[],\"label\":\"Member\",\"permissions\":[\"access content\"]}
{\"cell\":\"user:1\",\"created\":0,\"digest\":null,\"grants\":[],\"name\":\"admin\",\"roles\":[],\"salt\":\"\",\"status\":true,\"uuid\":\"u-1\"}
{\"cell\":\"user:2\",\"created\":0,\"digest\":null,\"grants\":[],\"name\":\"two\",\"roles\":[],\"salt\":\"\",\"status\":true,\"uuid\":\"u-2\"}
{\"cell\":\"user:7\",\"created\":0,\"digest\":null,\"grants\":[],\"name\":\"seven\",\"roles\":[],\"salt\":\"\",\"status\":true,\"uuid\":\"u-7\"}
{\"cell\":\"term:3\",\"description\":\"\",\"name\":\"T\",\"parent\":null,\"status\":true,\"uuid\":\"t-3\"}
{\"cell\":\"node:1\",\"changed\":100,\"created\":100,\"fields\":{},\"grants\":[],\"path\":\"/about\",\"promote\":true,\"refs\":[],\"status\":true,\"sticky\":false,\"terms\":[],\"title\":\"First\",\"type\":\"page\",\"uid\":1,\"uuid\":\"n-1\",\"vid\":1}
{\"cell\":\"node:2\",\"changed\":100,\"created\":100,\"fields\":{},\"grants\":[],\"path\":null,\"promote\":false,\"refs\":[2],\"status\":true,\"sticky\":false,\"terms\":[],\"title\":\"Second\",\"type\":\"page\",\"uid\":1,\"uuid\":\"n-2\",\"vid\":1}
{\"cell\":\"node:3\",\"changed\":100,\"created\":100,\"fields\":{},\"grants\":[],\"path\":null,\"promote\":false,\"refs\":[],\"status\":false,\"sticky\":false,\"terms\":[],\"title\":\"Third\",\"type\":\"page\",\"uid\":2,\"uuid\":\"n-3\",\"vid\":1}
{\"cell\":\"menu:main\",\"label\":\"Main\",\"links\":[{\"id\":\"a\",\"parent\":null,\"path\":\"/node/1\",\"title\":\"One\",\"weight\":0}]}
{\"age\":null,\"cell\":\"listing:frontpage\",\"path\":\"/node\",\"promoted\":true,\"recent\":null,\"term\":null,\"title\":\"Home\",\"types\":[]}
{\"age\":null,\"cell\":\"listing:pages\",\"path\":\"/pages\",\"promoted\":false,\"recent\":null,\"term\":null,\"title\":\"Pages\",\"types\":[\"page\"]}
{\"age\":null,\"cell\":\"block:top\",\"hide\":false,\"kind\":\"menu\",\"label\":\"\",\"name\":\"main\",\"paths\":[\"/node/1\"],\"region\":\"header\",\"roles\":[],\"text\":null,\"weight\":0}
";

/// The site of these rows, a line each, whose tags were invalidated so often.
pub fn site_of(alloc: Global, lines: Vec<u8>, counts: Counts) -> Result<State, AllocError> {
    let mut source = MemorySource::new(lines, 4096);
    let Ok(rows) = read_rows(alloc, &mut source) else {
        return Err(AllocError);
    };
    State::new(alloc, rows, counts, 0)
}

/// The rows with this front path, a line each.
fn lines(alloc: Global, front: &str) -> Result<Vec<u8>, AllocError> {
    let settings = format!(in alloc;
        "{{\"cell\":\"site\",\"front\":\"{front}\",\"name\":\"Site\"}}\n"
    )?;
    let mut bytes = settings.into_bytes();
    bytes.extend_from_slice(ROWS)?;
    Ok(bytes)
}

/// The site with this front path.
pub fn site(alloc: Global, front: &str) -> Result<State, AllocError> {
    let lines = lines(alloc, front)?;
    site_of(alloc, lines, Counts::new(alloc))
}
