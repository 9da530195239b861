//! A connection, from its first byte to its end.
ghost use Rattle.std.specs.Prelude.{◌≡◌, ℕ, List, IfSome};
ghost use Rattle.content_state.specs.declared.commit.Commit.{Commit};
ghost use Rattle.site_house.specs.House.{Moves, history_of};
ghost use Rattle.site_io.specs.Series.{GivesInTurn, last_moment, last_word};
ghost use Rattle.site_io.specs.declared.ended.Ended.{Ended as End};
ghost use Rattle.site_house.specs.History.{History, longer, newest};
ghost use Rattle.site_http.specs.Kept.{shelves_of};
ghost use Rattle.site_http.specs.Recent.{AreRecent};
ghost use Rattle.site_http.specs.Connection.{AreAsks, Around, Connection, CountsReads, CountsWrites};

use crate::desk::Desk;
use crate::next::Inbox;
use crate::recent::RecentReplies;
use crate::turn::{LIMIT, turn};
use edit_paths::EditPaths;
use site_house::House;
use site_io::{Clock, Ended, Entropy, Gate, Sink, Source};
use std::alloc::Global;
use std::mem;

/// Answers the requests of a connection, in order, each on the state whose number its reply carries.
///
/// `Closed` and `Truncated` come where the input ended, between requests or within one; `Asked` after the reply to a
/// request that asked to close; `Spent` after the 1,000th reply; `Refused` after the reply with its code (RFC 9112,
/// sections 9.3 and 9.6); `ReadFault` and `WriteFault` exactly where the source's or the sink's count of faults rose;
/// `OutOfMemory` where memory was wanting to read a request, or for a part of a page that is sent late, of which a front was written
/// then. The runtime is lent for what waits; nothing here does.
pub fn serve_connection<R, H: House, S: Source, O: Sink, C: Clock, E: Entropy, G: Gate>(
    _rt: &R,
    alloc: Global,
    house: &mut H,
    source: &mut S,
    sink: &mut O,
    clock: &mut C,
    entropy: &mut E,
    gate: &mut G,
) -> Ended
    ensures moves { Moves (H.sees house.old) (H.sees house.new) }
    ensures connection { Connection result
        (record { left = S.left source.old; out = record { given = C.given clock.old; words = E.given entropy.old; points = G.reached gate.old; written = O.written sink.old; handed = (H.sees house.old).handed; keepers = (H.sees house.old).keepers; kept = shelves_of (H.sees house.old) } })
        (record { left = S.left source.new; out = record { given = C.given clock.new; words = E.given entropy.new; points = G.reached gate.new; written = O.written sink.new; handed = (H.sees house.new).handed; keepers = (H.sees house.new).keepers; kept = shelves_of (H.sees house.new) } })
        (history_of (H.sees house.new)) 1000 (newest (history_of (H.sees house.old))) }
    ensures moments { GivesInTurn last_moment (C.moments clock.old) (C.moments clock.new) (C.given clock.old) (C.given clock.new) }
    ensures words { GivesInTurn last_word (E.words entropy.old) (E.words entropy.new) (E.given entropy.old) (E.given entropy.new) }
    ensures reads { CountsReads result (S.faults source.old) (S.faults source.new) }
    ensures writes { CountsWrites result (O.faults sink.old) (O.faults sink.new) }
{
    let mut desk = None;
    let ended = serve_next(alloc, &mut desk, house, source, sink, clock, entropy, gate);
    drop(desk);
    ended
}

/// Serves a connection, as `serve_connection` does, with the desk that earlier connections left, if there is one: what they were
/// answered with is given again where it is the same. The desk is left for later ones.
pub fn serve_next<H: House, S: Source, O: Sink, C: Clock, E: Entropy, G: Gate>(
    alloc: Global,
    desk: &mut Option<Desk>,
    house: &mut H,
    source: &mut S,
    sink: &mut O,
    clock: &mut C,
    entropy: &mut E,
    gate: &mut G,
) -> Ended
    requires recent { IfSome desk.old (λ d. AreRecent (H.sees house.old) d.recent) }
    ensures moves { Moves (H.sees house.old) (H.sees house.new) }
    ensures recent { IfSome desk.new (λ d. AreRecent (H.sees house.new) d.recent) }
    ensures connection { Connection result
        (record { left = S.left source.old; out = record { given = C.given clock.old; words = E.given entropy.old; points = G.reached gate.old; written = O.written sink.old; handed = (H.sees house.old).handed; keepers = (H.sees house.old).keepers; kept = shelves_of (H.sees house.old) } })
        (record { left = S.left source.new; out = record { given = C.given clock.new; words = E.given entropy.new; points = G.reached gate.new; written = O.written sink.new; handed = (H.sees house.new).handed; keepers = (H.sees house.new).keepers; kept = shelves_of (H.sees house.new) } })
        (history_of (H.sees house.new)) 1000 (newest (history_of (H.sees house.old))) }
    ensures moments { GivesInTurn last_moment (C.moments clock.old) (C.moments clock.new) (C.given clock.old) (C.given clock.new) }
    ensures words { GivesInTurn last_word (E.words entropy.old) (E.words entropy.new) (E.given entropy.old) (E.given entropy.new) }
    ensures reads { CountsReads result (S.faults source.old) (S.faults source.new) }
    ensures writes { CountsWrites result (O.faults sink.old) (O.faults sink.new) }
{
    if desk.is_none() {
        let made = Desk::new(alloc).ok();
        drop(mem::replace(desk, made));
    }
    let Some(
        Desk {
            paths,
            inbox,
            recent,
        },
    ) = desk
    else {
        return Ended::OutOfMemory;
    };
    serve_at(
        alloc, paths, inbox, recent, house, source, sink, clock, entropy, gate,
    )
}

/// Serves a connection, as `serve_connection` does, with these routers, this inbox, whatever came into it before, and the replies
/// that were given not long ago.
fn serve_at<H: House, S: Source, O: Sink, C: Clock, E: Entropy, G: Gate>(
    alloc: Global,
    paths: &EditPaths,
    inbox: &mut Inbox,
    recent: &mut RecentReplies,
    house: &mut H,
    source: &mut S,
    sink: &mut O,
    clock: &mut C,
    entropy: &mut E,
    gate: &mut G,
) -> Ended
    requires recent { AreRecent (H.sees house.old) recent.old }
    ensures moves { Moves (H.sees house.old) (H.sees house.new) }
    ensures recent { AreRecent (H.sees house.new) recent.new }
    ensures connection { Connection result
        (record { left = S.left source.old; out = record { given = C.given clock.old; words = E.given entropy.old; points = G.reached gate.old; written = O.written sink.old; handed = (H.sees house.old).handed; keepers = (H.sees house.old).keepers; kept = shelves_of (H.sees house.old) } })
        (record { left = S.left source.new; out = record { given = C.given clock.new; words = E.given entropy.new; points = G.reached gate.new; written = O.written sink.new; handed = (H.sees house.new).handed; keepers = (H.sees house.new).keepers; kept = shelves_of (H.sees house.new) } })
        (history_of (H.sees house.new)) 1000 (newest (history_of (H.sees house.old))) }
    ensures moments { GivesInTurn last_moment (C.moments clock.old) (C.moments clock.new) (C.given clock.old) (C.given clock.new) }
    ensures words { GivesInTurn last_word (E.words entropy.old) (E.words entropy.new) (E.given entropy.old) (E.given entropy.new) }
    ensures reads { CountsReads result (S.faults source.old) (S.faults source.new) }
    ensures writes { CountsWrites result (O.faults sink.old) (O.faults sink.new) }
{
    inbox.clear();
    'requests: for index in 0..LIMIT {
        if let Some(ended) = turn(
            alloc, paths, house, source, sink, clock, entropy, gate, inbox, recent, index,
        ) {
            return ended;
        }
    }
    Ended::Spent
}

/// The law that a connection over a history is one over each longer history: later edits change nothing that was said.
pub fn connection_grows()
    ensures { (end : End) → (old : Around) → (new : Around) → (history : History) → (more : List Commit) → (limit : ℕ) → (low : ℕ) → Connection end old new history limit low → Connection end old new (longer history more) limit low }
{}

/// The law that what a request asks of the site is read from its target: its path and its query are the target's.
/// <https://www.rfc-editor.org/rfc/rfc3986#section-3>
#[tactic(auto, using(crate::proofs::Asks::are_asks))]
pub fn requests_are_asks()
    ensures { AreAsks }
{}
