//! One turn of a connection.
ghost use Rattle.std.specs.Prelude.{◌≡◌, ◌≤◌, ◌<◌, ℕ, List, Option, Some};
ghost use Rattle.site_house.specs.House.{Moves, history_of};
ghost use Rattle.site_io.specs.Series.{GivesInTurn, last_moment, last_word};
ghost use Rattle.site_house.specs.History.{newest};
ghost use Rattle.site_http.specs.Kept.{shelves_of};
ghost use Rattle.site_http.specs.Recent.{AreRecent};
ghost use Rattle.site_http.specs.Known.{IsKnown};
ghost use Rattle.site_http.specs.Turn.{TookKnown, Turned, TurnReads, TurnWrites};

use crate::answer::{Outcome, answer, answer_known};
use crate::known::KnownRequest;
use crate::next::{Inbox, Next, Trouble};
use crate::recent::RecentReplies;
use crate::refusal::write_refusal;
use edit_paths::EditPaths;
use site_house::House;
use site_io::{Clock, Ended, Entropy, Gate, Sink, Source};
use std::alloc::Global;

/// The number of replies that a connection gets.
pub const LIMIT: u64 = 1000;

/// Answers a known request, which was taken. None is to go on.
fn turn_known<H: House, O: Sink, C: Clock, E: Entropy, G: Gate>(
    alloc: Global,
    house: &mut H,
    sink: &mut O,
    clock: &mut C,
    entropy: &mut E,
    gate: &mut G,
    recent: &mut RecentReplies,
    known: &KnownRequest,
    index: u64,
) -> Option<Ended>
    requires within { index < LIMIT }
    requires recent { AreRecent (H.sees house.old) recent.old }
    requires known { IsKnown known.now }
    ensures moves { Moves (H.sees house.old) (H.sees house.new) }
    ensures recent { AreRecent (H.sees house.new) recent.new }
    ensures turned { (left rest : Option (List ℕ)) → (buffer others : List ℕ) → TookKnown known.now left rest buffer others → Turned result
        (record { left = left; out = record { given = C.given clock.old; words = E.given entropy.old; points = G.reached gate.old; written = O.written sink.old; handed = (H.sees house.old).handed; keepers = (H.sees house.old).keepers; kept = shelves_of (H.sees house.old) } })
        (record { left = rest; out = record { given = C.given clock.new; words = E.given entropy.new; points = G.reached gate.new; written = O.written sink.new; handed = (H.sees house.new).handed; keepers = (H.sees house.new).keepers; kept = shelves_of (H.sees house.new) } })
        (history_of (H.sees house.new)) LIMIT index (newest (history_of (H.sees house.old))) buffer others }
    ensures words { GivesInTurn last_word (E.words entropy.old) (E.words entropy.new) (E.given entropy.old) (E.given entropy.new) }
    ensures moments { GivesInTurn last_moment (C.moments clock.old) (C.moments clock.new) (C.given clock.old) (C.given clock.new) }
    ensures reads { (old new : ℕ) → new ≡ old → TurnReads result old new }
    ensures writes { TurnWrites result (O.faults sink.old) (O.faults sink.new) }
{
    let closing = index + 1 == LIMIT;
    match answer_known(
        alloc,
        house,
        sink,
        clock,
        entropy,
        gate,
        recent,
        &known.asked,
        closing,
    ) {
        Outcome::Written => None,
        Outcome::WriteFault => Some(Ended::WriteFault),
        Outcome::OutOfMemory => Some(Ended::OutOfMemory),
    }
}

/// Takes the next request of a connection and answers it, with a reply of not long ago where that is the one. `None` where the
/// connection goes on.
pub fn turn<H: House, S: Source, O: Sink, C: Clock, E: Entropy, G: Gate>(
    alloc: Global,
    paths: &EditPaths,
    house: &mut H,
    source: &mut S,
    sink: &mut O,
    clock: &mut C,
    entropy: &mut E,
    gate: &mut G,
    inbox: &mut Inbox,
    recent: &mut RecentReplies,
    index: u64,
) -> Option<Ended>
    requires within { index < LIMIT }
    requires recent { AreRecent (H.sees house.old) recent.old }
    ensures moves { Moves (H.sees house.old) (H.sees house.new) }
    ensures recent { AreRecent (H.sees house.new) recent.new }
    ensures turned { Turned result
        (record { left = S.left source.old; out = record { given = C.given clock.old; words = E.given entropy.old; points = G.reached gate.old; written = O.written sink.old; handed = (H.sees house.old).handed; keepers = (H.sees house.old).keepers; kept = shelves_of (H.sees house.old) } })
        (record { left = S.left source.new; out = record { given = C.given clock.new; words = E.given entropy.new; points = G.reached gate.new; written = O.written sink.new; handed = (H.sees house.new).handed; keepers = (H.sees house.new).keepers; kept = shelves_of (H.sees house.new) } })
        (history_of (H.sees house.new)) LIMIT index (newest (history_of (H.sees house.old))) inbox.old inbox.new }
    ensures words { GivesInTurn last_word (E.words entropy.old) (E.words entropy.new) (E.given entropy.old) (E.given entropy.new) }
    ensures moments { GivesInTurn last_moment (C.moments clock.old) (C.moments clock.new) (C.given clock.old) (C.given clock.new) }
    ensures reads { TurnReads result (S.faults source.old) (S.faults source.new) }
    ensures writes { TurnWrites result (O.faults sink.old) (O.faults sink.new) }
{
    let (request, bytes) = match inbox.next_request(alloc, source, recent) {
        Next::Request(request, bytes) => (request, bytes),
        Next::Known(known) => {
            return turn_known(
                alloc, house, sink, clock, entropy, gate, recent, &known, index,
            );
        }
        Next::Refused(code) => {
            return match write_refusal(sink, code) {
                Ok(()) => Some(Ended::Refused(code)),
                Err(_) => Some(Ended::WriteFault),
            };
        }
        Next::End(0) => return Some(Ended::Closed),
        Next::End(n) => return Some(Ended::Truncated(n as u64)),
        Next::Trouble(Trouble::ReadFault) => return Some(Ended::ReadFault),
        Next::Trouble(Trouble::OutOfMemory) => return Some(Ended::OutOfMemory),
    };
    let closes = request.closes;
    let closing = closes || index + 1 == LIMIT;
    match answer(
        alloc, paths, house, sink, clock, entropy, gate, recent, request, bytes, closing,
    ) {
        Outcome::Written => { if closes { Some(Ended::Asked) } else { None } }
        Outcome::WriteFault => Some(Ended::WriteFault),
        Outcome::OutOfMemory => Some(Ended::OutOfMemory),
    }
}
