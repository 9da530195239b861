//! A new site with the members of a club.

use crate::site::site_of;
use cacheability::Name;
use content_rows::Text;
use content_state::{Ask, State, Viewer};
use std::alloc::{AllocError, Global};
use tag_counts::Counts;

pub fn name(bytes: &[u8]) -> Result<Name, AllocError> {
    Name::new(bytes).map_err(|_| AllocError)
}

/// The rows of the new site, where members may view what they own before it is published, with a member who holds number 7 of the
/// club, and a menu `main` whose link to the first node stands below another one.
const ROWS: &[u8] = b"{\"cell\":\"site\",\"front\":\"/node\",\"name\":\"Site\"}
{\"cell\":\"seq\",\"node\":2,\"term\":1,\"user\":2}
{\"cell\":\"type:page\",\"fields\":[{\"edit\":null,\"label\":\"Body\",\"name\":\"body\",\"owner\":false,\"teaser\":true,\"view\":null}],\"label\":\"Page\",\"submitted\":false}
{\"admin\":false,\"cell\":\"role:anonymous\",\"grants\":[],\"label\":\"Anonymous\",\"permissions\":[\"access content\"]}
{\"admin\":false,\"cell\":\"role:authenticated\",\"grants\":[],\"label\":\"Member\",\"permissions\":[\"view own unpublished content\",\"access content\"]}
{\"cell\":\"user:1\",\"created\":0,\"digest\":null,\"grants\":[],\"name\":\"admin\",\"roles\":[],\"salt\":\"\",\"status\":true,\"uuid\":\"u-1\"}
{\"cell\":\"user:2\",\"created\":0,\"digest\":null,\"grants\":[{\"gid\":7,\"realm\":\"club\"}],\"name\":\"two\",\"roles\":[],\"salt\":\"\",\"status\":true,\"uuid\":\"u-2\"}
{\"cell\":\"node:1\",\"changed\":100,\"created\":100,\"fields\":{\"body\":\"Hello\"},\"grants\":[],\"path\":null,\"promote\":true,\"refs\":[],\"status\":true,\"sticky\":false,\"terms\":[],\"title\":\"First\",\"type\":\"page\",\"uid\":1,\"uuid\":\"n-1\",\"vid\":1}
{\"cell\":\"menu:main\",\"label\":\"Main\",\"links\":[{\"id\":\"b\",\"parent\":\"a\",\"path\":\"/node/1\",\"title\":\"A link\",\"weight\":0},{\"id\":\"a\",\"parent\":null,\"path\":\"/node/9\",\"title\":\"A link\",\"weight\":0}]}
{\"age\":null,\"cell\":\"listing:frontpage\",\"path\":\"/node\",\"promoted\":true,\"recent\":null,\"term\":null,\"title\":\"Home\",\"types\":[]}
";

/// The site of `ROWS`, with these counts of how often its tags were invalidated.
pub fn site(alloc: Global, counts: Counts) -> Result<State, AllocError> {
    let lines = Vec::from_slice(alloc, ROWS)?;
    site_of(alloc, lines, counts)
}

/// Nobody, the administrator by the session `abc`, or the member by the session `test`.
pub fn viewer(uid: u32) -> Viewer {
    let session = match uid {
        0 => None,
        1 => Name::new(b"abc").ok(),
        _ => Name::new(b"test").ok(),
    };
    Viewer { uid, session }
}

/// A path, and the query behind it where one is given.
fn target(alloc: Global, path: &[u8], query: &[u8]) -> Result<Text, AllocError> {
    let mut target = Vec::from_slice(alloc, path)?;
    if !query.is_empty() {
        target.extend_from_slice(b"?")?;
        target.extend_from_slice(query)?;
    }
    Ok(Text::from_vec(target))
}

/// A request for a path, with a query where one is given.
pub fn asked(alloc: Global, path: &[u8], query: &[u8]) -> Result<Ask, AllocError> {
    Ok(Ask {
        target: target(alloc, path, query)?,
        path: Text::copied(alloc, path)?,
        query: Text::copied(alloc, query)?,
        cookie: None,
    })
}
