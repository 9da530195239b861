//! What connections are answered with.
ghost use Rattle.std.specs.Prelude.{IfOk};
ghost use Rattle.site_house.specs.House.{HouseView};
ghost use Rattle.site_http.specs.Recent.{AreRecent};

use crate::next::Inbox;
use crate::recent::RecentReplies;
use edit_paths::EditPaths;
use std::alloc::{AllocError, Global};

/// What is made once and serves one connection after the other: the routers of the paths of edits, what a connection reads into, and
/// the replies that were given not long ago.
pub struct Desk {
    pub paths: EditPaths,
    pub inbox: Inbox,
    pub recent: RecentReplies,
}

impl Drop for Desk {
    fn drop(self) {
        let Desk {
            paths: _,
            inbox: _,
            recent: _,
        } = self;
    }
}

impl Desk {
    /// A new desk, at which no connection was served: an empty inbox, and no replies. `Err` only where memory is wanting.
    pub fn new(alloc: Global) -> Result<Desk, AllocError>
        ensures { IfOk result (λ desk. (house : HouseView) → AreRecent house desk.recent) }
    {
        let inbox = Inbox::new(alloc)?;
        // dropped by calls: what ends by itself is proved part by part, at each way out
        let Ok(recent) = RecentReplies::new(alloc) else {
            drop(inbox);
            return Err(AllocError);
        };
        let Ok(paths) = EditPaths::new(alloc) else {
            drop(recent);
            drop(inbox);
            return Err(AllocError);
        };
        Ok(Desk {
            paths,
            inbox,
            recent,
        })
    }
}
