//! A connection of a drill, one request after the other.
ghost use Rattle.std.specs.Prelude.{◌≡◌, ◌<◌, ◌+◌, ◌-◌, ◌≤◌, ◌++◌, [], IfErr, IfOk, Some};
ghost use Rattle.site_house.specs.House.{Moves, history_of};
ghost use Rattle.site_house.specs.History.{newest};
ghost use Rattle.site_io.specs.Series.{GivesInTurn, last_moment, last_word};
ghost use Rattle.site_http.specs.Kept.{shelves_of};
ghost use Rattle.site_http.specs.Recent.{AreRecent};
ghost use Rattle.site_drill.specs.Replies.{AllAnswered};
ghost use Rattle.site_drill.specs.Steps.{TookReply, pages_with};
ghost use Rattle.site_drill.specs.Stops.{NotAnswered, StopsAt, stop_of};

use crate::replies::{bytes_from, is_wanting, shows_page};
use crate::steady::SteadySource;
use edit_paths::EditPaths;
use site_house::House;
use site_http::{Inbox, RecentReplies, serve_turn};
use site_io::{Clock, Ended, Entropy, Gate, MemorySink};
use std::alloc::{AllocError, Global};

/// How many requests a drill makes.
pub(crate) const REQUESTS: u64 = 900;

/// Why not all requests were answered.
#[derive(Clone, Copy, Debug, PartialEq, Eq)]
pub(crate) enum Stop {
    /// The bytes are no 900 requests that a connection goes on after.
    Unanswered,
    /// Memory was wanting, or room for the replies.
    OutOfMemory,
}

impl From<AllocError> for Stop {
    ghost use Rattle.std.specs.Prelude.{◌≡◌};
    ghost use Rattle.site_drill.specs.declared.served.Stop.TheVariants.{OutOfMemory};

    ghost from_gives = { λ _ stop. stop ≡ OutOfMemory };

    fn from(_wanting: AllocError) -> Stop {
        Stop::OutOfMemory
    }
}

/// Why the connection ended before all requests were answered. None is that the input ended.
fn stop_of(ended: Ended) -> Option<Stop>
    ensures { result ≡ stop_of ended }
{
    match ended {
        Ended::Closed => None,
        Ended::OutOfMemory | Ended::WriteFault => Some(Stop::OutOfMemory),
        Ended::Truncated(_) | Ended::Asked | Ended::Spent | Ended::Refused(_) | Ended::ReadFault =>
            Some(Stop::Unanswered),
    }
}

/// Answers the next request, and says whether the reply shows a page.
fn answer_next<H: House, C: Clock, E: Entropy, G: Gate>(
    alloc: Global,
    paths: &EditPaths,
    inbox: &mut Inbox,
    recent: &mut RecentReplies,
    house: &mut H,
    source: &mut SteadySource,
    sink: &mut MemorySink,
    clock: &mut C,
    entropy: &mut E,
    gate: &mut G,
    index: u64,
) -> Result<bool, Stop>
    requires within { index < REQUESTS }
    requires recent { AreRecent (H.sees house.old) recent.old }
    ensures moves { Moves (H.sees house.old) (H.sees house.new) }
    ensures recent { AreRecent (H.sees house.new) recent.new }
    ensures took { IfOk result (λ page. TookReply page
        (record { left = Some source.old; out = record { given = C.given clock.old; words = E.given entropy.old; points = G.reached gate.old; written = Some sink.old.written; handed = (H.sees house.old).handed; keepers = (H.sees house.old).keepers; kept = shelves_of (H.sees house.old) } })
        (record { left = Some source.new; out = record { given = C.given clock.new; words = E.given entropy.new; points = G.reached gate.new; written = Some sink.new.written; handed = (H.sees house.new).handed; keepers = (H.sees house.new).keepers; kept = shelves_of (H.sees house.new) } })
        (history_of (H.sees house.new)) index (newest (history_of (H.sees house.old))) inbox.old inbox.new) }
    ensures stopped { IfErr result (λ stop. StopsAt stop (1000 - index) (900 - index) (inbox.old ++ source.old)) }
    ensures moments { GivesInTurn last_moment (C.moments clock.old) (C.moments clock.new) (C.given clock.old) (C.given clock.new) }
    ensures words { GivesInTurn last_word (E.words entropy.old) (E.words entropy.new) (E.given entropy.old) (E.given entropy.new) }
{
    let from = sink.bytes().len();
    if let Some(ended) = serve_turn(
        alloc, paths, house, source, sink, clock, entropy, gate, inbox, recent, index,
    ) {
        return Err(stop_of(ended).unwrap_or(Stop::Unanswered));
    }
    let text = bytes_from(sink.bytes(), from);
    if is_wanting(text) {
        return Err(Stop::OutOfMemory);
    }
    Ok(shows_page(text))
}

/// How many replies show a page, once this one is counted.
fn pages_with(pages: u64, page: bool) -> u64
    requires { pages < 1000 }
    ensures { result ≡ pages_with pages page }
{
    if page { pages + 1 } else { pages }
}

/// Answers 900 requests, which are all that the source has, and says how many of the replies show a page.
pub(crate) fn answer_all<H: House, C: Clock, E: Entropy, G: Gate>(
    alloc: Global,
    paths: &EditPaths,
    inbox: &mut Inbox,
    recent: &mut RecentReplies,
    house: &mut H,
    source: &mut SteadySource,
    sink: &mut MemorySink,
    clock: &mut C,
    entropy: &mut E,
    gate: &mut G,
) -> Result<u64, Stop>
    requires empty { inbox.old ≡ [] }
    requires recent { AreRecent (H.sees house.old) recent.old }
    ensures moves { Moves (H.sees house.old) (H.sees house.new) }
    ensures answered { IfOk result (λ pages. AllAnswered 900 pages
        (record { left = Some source.old; out = record { given = C.given clock.old; words = E.given entropy.old; points = G.reached gate.old; written = Some sink.old.written; handed = (H.sees house.old).handed; keepers = (H.sees house.old).keepers; kept = shelves_of (H.sees house.old) } })
        (record { left = Some source.new; out = record { given = C.given clock.new; words = E.given entropy.new; points = G.reached gate.new; written = Some sink.new.written; handed = (H.sees house.new).handed; keepers = (H.sees house.new).keepers; kept = shelves_of (H.sees house.new) } })
        (history_of (H.sees house.new)) (newest (history_of (H.sees house.old)))) }
    ensures stopped { IfErr result (λ stop. NotAnswered stop source.old) }
    ensures moments { GivesInTurn last_moment (C.moments clock.old) (C.moments clock.new) (C.given clock.old) (C.given clock.new) }
{
    let mut pages = 0;
    'requests: for index in 0..REQUESTS {
        let page = answer_next(
            alloc, paths, inbox, recent, house, source, sink, clock, entropy, gate, index,
        )?;
        pages = pages_with(pages, page);
    }
    let Some(ended) = serve_turn(
        alloc, paths, house, source, sink, clock, entropy, gate, inbox, recent, REQUESTS,
    ) else {
        return Err(Stop::Unanswered);
    };
    match stop_of(ended) {
        Some(stop) => Err(stop),
        None => Ok(pages),
    }
}
