//! One reply.
ghost use Rattle.std.specs.Prelude.{◌≡◌, ◌∷◌, ◌≤◌, [], ℕ, List, Option, IfOk, IfSome, OnOk, OnErr, is_some, false, true};
ghost use Rattle.std.specs.Arc.{arc_value};
ghost use Rattle.std.specs.Option.{option_copied};
ghost use Rattle.content_state.specs.Ask.{IsAsk};
ghost use Rattle.site_house.specs.House.{HouseView, Moves, Stays, history_of};
ghost use Rattle.site_house.specs.Bins.{IsSeenIn};
ghost use Rattle.site_io.specs.Reached.{and_point};
ghost use Rattle.site_io.specs.Series.{GivesInTurn, last_moment, last_word};
ghost use Rattle.site_io.specs.Told.{after, AddsFront, Rose};
ghost use Rattle.site_io.specs.declared.device.Point.TheVariants.{AfterSnapshot};
ghost use Rattle.edit_bodies.specs.Bodies.{sent_of};
ghost use Rattle.edit_bodies.specs.Commands.{draws};
ghost use Rattle.site_house.specs.History.{newest};
ghost use Rattle.site_http.specs.Kept.{shelves_of, Needing};
ghost use Rattle.site_http.specs.Called.{ask_of, called, called_of, ToRead};
ghost use Rattle.http_heads.specs.declared.request.Request.{Request as Sent};
ghost use Rattle.site_http.specs.Known.{IsAskedBy, IsPlain};
ghost use Rattle.site_http.specs.Recent.{given_bytes, page_bytes, AreRecent};
ghost use Rattle.site_http.specs.Reply.{Says, listed};
ghost use Rattle.site_late.specs.Sending.{ToldOnTheWay};
ghost use Rattle.site_http.specs.Turn.{bytes_of, Committed, CountsOutcome, Makes, OnSeen, Replies};

use crate::call::{Asked, Call, Reading, asked_by, asks_of};
use crate::recent::{Given, RecentReplies, RecentReply};
use crate::refusal::memory_text;
use crate::reply::reply_on;
use content_state::{Ask, State};
use edit_bodies::{Body, Words, command_of, draws};
use edit_paths::{Edit, EditPaths};
use edit_replies::{done_text, keeper_text, refused_text};
use http_heads::{Octets, Request};
use site_commands::{Answer, Command, Done};
use site_house::House;
use site_io::{Clock, Entropy, Gate, Point, Sink};
use site_late::{Sent as LateSent, WriteFault, late_reply, write_page, write_text};
use std::alloc::{AllocError, Global};
use std::sync::Arc;

/// What became of a reply.
#[derive(Clone, Copy, Debug, PartialEq, Eq)]
pub enum Outcome {
    /// All of it was written.
    Written,
    /// Writing failed. A front of it was written.
    WriteFault,
    /// Its parts are sent late, and memory was wanting for one. A front of it was written.
    OutOfMemory,
}

/// A reply that is to be written. All memory that it needs is taken: the text of an edit that was made is made as it is written,
/// and takes none.
#[derive(Drop)]
pub enum Made {
    /// The reply of a page, or of what became of an edit that was refused.
    Given(Given),
    /// What an accepted edit did, the number of the state that it made, and whether the connection closes after the reply.
    Done(Done, u64, bool),
    /// A text that is always the same.
    Fixed(&'static [u8]),
}

/// Writes a reply that changes nothing, a page in its pieces.
fn write_given<O: Sink>(sink: &mut O, given: &Given) -> Result<(), WriteFault>
    ensures whole { OnOk result (O.written sink.new ≡ after (O.written sink.old) (given_bytes given.now)) }
    ensures front { OnErr result (AddsFront (O.written sink.old) (O.written sink.new) (given_bytes given.now)) }
    ensures cause { OnErr result (Rose (O.faults sink.old) (O.faults sink.new)) }
    ensures steady { OnOk result (O.faults sink.new ≡ O.faults sink.old) }
{
    match given {
        Given::Text(text) => write_text(sink, text.as_slice()),
        Given::Page(page) => write_page(sink, page.head.as_slice(), page.body.as_slice()),
        Given::Again(reply) => write_page(
            sink,
            reply.page.head.as_slice(),
            reply.page.body.as_slice(),
        ),
    }
}

/// Writes a reply.
fn write_made<O: Sink>(sink: &mut O, made: &Made) -> Result<(), WriteFault>
    ensures whole { OnOk result (O.written sink.new ≡ after (O.written sink.old) (bytes_of made.now)) }
    ensures front { OnErr result (AddsFront (O.written sink.old) (O.written sink.new) (bytes_of made.now)) }
    ensures cause { OnErr result (Rose (O.faults sink.old) (O.faults sink.new)) }
    ensures steady { OnOk result (O.faults sink.new ≡ O.faults sink.old) }
{
    match made {
        Made::Given(given) => write_given(sink, given),
        Made::Done(done, number, closing) => {
            write_text(sink, done_text(done, *number, *closing).as_slice())
        }
        Made::Fixed(text) => write_text(sink, text),
    }
}

/// Writes a reply, and hands on what the sink holds back of it, before anything more is read.
#[tactic(auto, using(site_late::proofs::Joining::all_is_front))]
fn send<O: Sink>(sink: &mut O, made: &Made) -> Result<(), WriteFault>
    ensures whole { OnOk result (O.written sink.new ≡ after (O.written sink.old) (bytes_of made.now)) }
    ensures front { OnErr result (AddsFront (O.written sink.old) (O.written sink.new) (bytes_of made.now)) }
    ensures cause { OnErr result (Rose (O.faults sink.old) (O.faults sink.new)) }
    ensures steady { OnOk result (O.faults sink.new ≡ O.faults sink.old) }
{
    write_made(sink, made)?;
    sink.flush()?;
    Ok(())
}

/// A reply that changes nothing, and how many elements were built for it, up to the greatest u64.
#[derive(Drop)]
struct Said {
    given: Given,
    built: u64,
}

/// The reply to what was asked to read, where it was given on the same state not long ago.
fn again(
    recent: &RecentReplies,
    state: &State,
    reading: Reading,
    ask: &Ask,
    now: u64,
    closing: bool,
) -> Option<Arc<RecentReply>>
    requires { IsAsk ask.now }
    ensures { IfSome result (λ reply. (house : HouseView) → AreRecent house recent.now → IsSeenIn house state.now → Says reading state.now ask.now now closing (page_bytes (arc_value reply).page) 0 []) }
{
    match reading {
        Reading::Page if !closing => recent.find(ask, state.number(), now),
        _ => None,
    }
}

/// What is answered on the newest state, without changing it: what was answered on it not long ago, or else what is made now. Others
/// may edit while what is kept of its page is looked for.
fn read<H: House, G: Gate>(
    alloc: Global,
    house: &mut H,
    gate: &mut G,
    recent: &mut RecentReplies,
    reading: Reading,
    ask: &Ask,
    now: u64,
    closing: bool,
) -> Result<Said, AllocError>
    requires right { IsAsk ask.now }
    requires recent { AreRecent (H.sees house.old) recent.old }
    ensures moves { Moves (H.sees house.old) (H.sees house.new) }
    ensures stays { Stays (H.sees house.old) (H.sees house.new) }
    ensures says { IfOk result (λ said. Needing (H.sees house.old) (H.sees house.new) (λ needs. OnSeen (H.sees house.old) (H.sees house.new) (λ state. Says reading state ask.now now closing (given_bytes said.given) said.built needs))) }
    ensures told { OnOk result (G.reached gate.new ≡ and_point (G.reached gate.old) AfterSnapshot) }
    ensures on_the_way { OnErr result (ToldOnTheWay (G.reached gate.old) (G.reached gate.new)) }
    ensures recent { AreRecent (H.sees house.new) recent.new }
{
    let newest = house.snapshot(alloc)?;
    let state: &State = &newest;
    gate.reach(Point::AfterSnapshot);
    if let Some(reply) = again(recent, state, reading, ask, now, closing) {
        return Ok(Said {
            given: Given::Again(reply),
            built: 0,
        });
    }
    let reply = reply_on(alloc, house, recent, state, reading, ask, now, closing)?;
    let given = recent.given(alloc, ask, state.number(), now, reply.given, reply.last);
    Ok(Said {
        given,
        built: reply.built,
    })
}

/// The words of chance that an edit takes, if it takes any.
fn draw<E: Entropy>(entropy: &mut E, draws: bool) -> Option<Words>
    ensures drawn { is_some result ≡ draws }
    ensures told { E.given entropy.new ≡ after (E.given entropy.old) (listed result) }
    ensures in_turn { GivesInTurn last_word (E.words entropy.old) (E.words entropy.new) (E.given entropy.old) (E.given entropy.new) }
{
    if !draws {
        return None;
    }
    let first = entropy.word();
    let second = entropy.word();
    Some(Words { first, second })
}

/// The value that was sent to guard the forms of a session.
fn sent_value(csrf: &Option<Octets>) -> Option<&[u8]>
    ensures { option_copied result ≡ csrf.now }
{
    match csrf {
        Some(value) => Some(value.as_slice()),
        None => None,
    }
}

/// Makes an edit, and the text of what became of it.
fn edited<H: House>(
    alloc: Global,
    house: &mut H,
    ask: &Ask,
    csrf: &Option<Octets>,
    edit: &Edit,
    body: &Body,
    words: Option<Words>,
    now: u64,
    closing: bool,
) -> Made
    requires moment { now ≤ last_moment }
    requires drawn { is_some words ≡ draws edit.now (sent_of body.now) }
    ensures moves { Moves (H.sees house.old) (H.sees house.new) }
    ensures committed { Committed (H.sees house.old) (H.sees house.new) (record { edit = edit.now; sent = sent_of body.now; csrf = csrf.now }) ask.now words now closing result }
{
    let Ok(command) = command_of(alloc, edit, body, words) else {
        return Made::Fixed(memory_text(closing));
    };
    let answer = house.commit(alloc, ask, sent_value(csrf), &command, now);
    drop(command);
    match answer {
        Answer::Done(done, number) => Made::Done(done, number, closing),
        Answer::Refused(refusal, number) => {
            match refused_text(alloc, &refusal, number, closing) {
                Ok(text) => Made::Given(Given::Text(text)),
                Err(_) => Made::Fixed(memory_text(closing)),
            }
        }
        Answer::Keeper => Made::Fixed(keeper_text(closing)),
        Answer::OutOfMemory => Made::Fixed(memory_text(closing)),
    }
}

/// The text of the reply to what was asked to read. The gate is told of it.
fn reading_reply<H: House, G: Gate>(
    alloc: Global,
    house: &mut H,
    gate: &mut G,
    recent: &mut RecentReplies,
    reading: Reading,
    ask: &Ask,
    now: u64,
    closing: bool,
) -> Made
    requires moment { now ≤ last_moment }
    requires right { IsAsk ask.now }
    requires recent { AreRecent (H.sees house.old) recent.old }
    ensures moves { Moves (H.sees house.old) (H.sees house.new) }
    ensures recent { AreRecent (H.sees house.new) recent.new }
    ensures makes { (words : Option (List ℕ)) → Makes
        (record { house = H.sees house.old; words = words; points = G.reached gate.old })
        (record { house = H.sees house.new; words = words; points = G.reached gate.new })
        (ToRead reading) ask.now now closing result }
{
    match read(alloc, house, gate, recent, reading, ask, now, closing) {
        Ok(said) => {
            gate.reach(Point::BeforeReply(said.built));
            Made::Given(said.given)
        }
        Err(_) => {
            gate.reach(Point::BeforeReply(0));
            Made::Fixed(memory_text(closing))
        }
    }
}

/// The text of the reply. The gate is told of it.
fn reply_to<H: House, E: Entropy, G: Gate>(
    alloc: Global,
    house: &mut H,
    entropy: &mut E,
    gate: &mut G,
    recent: &mut RecentReplies,
    asked: &Asked,
    now: u64,
    closing: bool,
) -> Made
    requires moment { now ≤ last_moment }
    requires right { IsAsk asked.now.ask }
    requires recent { AreRecent (H.sees house.old) recent.old }
    ensures moves { Moves (H.sees house.old) (H.sees house.new) }
    ensures recent { AreRecent (H.sees house.new) recent.new }
    ensures makes { Makes
        (record { house = H.sees house.old; words = E.given entropy.old; points = G.reached gate.old })
        (record { house = H.sees house.new; words = E.given entropy.new; points = G.reached gate.new })
        (called_of asked.now.call asked.now.csrf) asked.now.ask now closing result }
    ensures words { GivesInTurn last_word (E.words entropy.old) (E.words entropy.new) (E.given entropy.old) (E.given entropy.new) }
{
    match &asked.call {
        Call::Reading(reading) => reading_reply(
            alloc, house, gate, recent, *reading, &asked.ask, now, closing,
        ),
        Call::Edit(edit, body) => {
            let words = draw(entropy, draws(edit, body));
            let made = edited(
                alloc,
                house,
                &asked.ask,
                &asked.csrf,
                edit,
                body,
                words,
                now,
                closing,
            );
            gate.reach(Point::BeforeReply(0));
            made
        }
    }
}

/// The text of the reply to a request that doesn't ask for parts sent late. The gate is told of it.
fn reply_made<H: House, E: Entropy, G: Gate>(
    alloc: Global,
    paths: &EditPaths,
    house: &mut H,
    entropy: &mut E,
    gate: &mut G,
    recent: &mut RecentReplies,
    request: Request,
    bytes: Option<Vec<u8>>,
    now: u64,
    closing: bool,
) -> Made
    requires moment { now ≤ last_moment }
    requires right { IsAsk (ask_of request) }
    requires whole { request.late ≡ false }
    requires recent { AreRecent (H.sees house.old) recent.old }
    requires plain { IfSome bytes (λ b. IsPlain b.items request) }
    ensures moves { Moves (H.sees house.old) (H.sees house.new) }
    ensures recent { AreRecent (H.sees house.new) recent.new }
    ensures makes { Makes
        (record { house = H.sees house.old; words = E.given entropy.old; points = G.reached gate.old })
        (record { house = H.sees house.new; words = E.given entropy.new; points = G.reached gate.new })
        (called request) (ask_of request) now closing result }
    ensures words { GivesInTurn last_word (E.words entropy.old) (E.words entropy.new) (E.given entropy.old) (E.given entropy.new) }
{
    match asked_by(alloc, paths, request) {
        Ok(asked) => {
            let made = reply_to(alloc, house, entropy, gate, recent, &asked, now, closing);
            recent.learn(alloc, bytes, asked);
            made
        }
        Err(_) => {
            gate.reach(Point::BeforeReply(0));
            Made::Fixed(memory_text(closing))
        }
    }
}

/// Answers a request that is known by its bytes, so that what it asks was read before.
pub fn answer_known<H: House, O: Sink, C: Clock, E: Entropy, G: Gate>(
    alloc: Global,
    house: &mut H,
    sink: &mut O,
    clock: &mut C,
    entropy: &mut E,
    gate: &mut G,
    recent: &mut RecentReplies,
    asked: &Asked,
    closing: bool,
) -> Outcome
    requires right { IsAsk asked.now.ask }
    requires recent { AreRecent (H.sees house.old) recent.old }
    ensures moves { Moves (H.sees house.old) (H.sees house.new) }
    ensures recent { AreRecent (H.sees house.new) recent.new }
    ensures replies { (request : Sent) → IsAskedBy request asked.now → Replies result
        (record { given = C.given clock.old; words = E.given entropy.old; points = G.reached gate.old; written = O.written sink.old; handed = (H.sees house.old).handed; keepers = (H.sees house.old).keepers; kept = shelves_of (H.sees house.old) })
        (record { given = C.given clock.new; words = E.given entropy.new; points = G.reached gate.new; written = O.written sink.new; handed = (H.sees house.new).handed; keepers = (H.sees house.new).keepers; kept = shelves_of (H.sees house.new) })
        (history_of (H.sees house.new)) (newest (history_of (H.sees house.old))) request closing }
    ensures moments { GivesInTurn last_moment (C.moments clock.old) (C.moments clock.new) (C.given clock.old) (C.given clock.new) }
    ensures words { GivesInTurn last_word (E.words entropy.old) (E.words entropy.new) (E.given entropy.old) (E.given entropy.new) }
    ensures cause { CountsOutcome result (O.faults sink.old) (O.faults sink.new) }
{
    let now = clock.now();
    let made = reply_to(alloc, house, entropy, gate, recent, asked, now, closing);
    match send(sink, &made) {
        Ok(()) => Outcome::Written,
        Err(WriteFault) => Outcome::WriteFault,
    }
}

/// Answers a request that asks for parts sent late. Where memory is wanting before anything was written, the reply says so.
fn answer_late<H: House, O: Sink, G: Gate>(
    alloc: Global,
    house: &mut H,
    sink: &mut O,
    gate: &mut G,
    ask: &Ask,
    now: u64,
    closing: bool,
) -> Outcome
    requires moment { now ≤ last_moment }
    requires right { IsAsk ask.now }
    ensures moves { Moves (H.sees house.old) (H.sees house.new) }
    ensures replies { (given : Option (List ℕ)) → (words : Option (List ℕ)) → (request : Sent) → request.late ≡ true → ask.now ≡ ask_of request → Replies result
        (record { given = given; words = words; points = G.reached gate.old; written = O.written sink.old; handed = (H.sees house.old).handed; keepers = (H.sees house.old).keepers; kept = shelves_of (H.sees house.old) })
        (record { given = after given (now ∷ []); words = words; points = G.reached gate.new; written = O.written sink.new; handed = (H.sees house.new).handed; keepers = (H.sees house.new).keepers; kept = shelves_of (H.sees house.new) })
        (history_of (H.sees house.new)) (newest (history_of (H.sees house.old))) request closing }
    ensures cause { CountsOutcome result (O.faults sink.old) (O.faults sink.new) }
{
    match late_reply(alloc, house, sink, gate, ask, now, closing) {
        LateSent::Written => Outcome::Written,
        LateSent::WriteFault => Outcome::WriteFault,
        LateSent::OutOfMemory => Outcome::OutOfMemory,
        LateSent::NotBegun => {
            gate.reach(Point::BeforeReply(0));
            match send(sink, &Made::Fixed(memory_text(closing))) {
                Ok(()) => Outcome::Written,
                Err(WriteFault) => Outcome::WriteFault,
            }
        }
    }
}

/// Answers a request: on the newest state, or with what becomes of the edit that it asks for.
pub fn answer<H: House, O: Sink, C: Clock, E: Entropy, G: Gate>(
    alloc: Global,
    paths: &EditPaths,
    house: &mut H,
    sink: &mut O,
    clock: &mut C,
    entropy: &mut E,
    gate: &mut G,
    recent: &mut RecentReplies,
    request: Request,
    bytes: Option<Vec<u8>>,
    closing: bool,
) -> Outcome
    requires right { IsAsk (ask_of request) }
    requires recent { AreRecent (H.sees house.old) recent.old }
    requires plain { IfSome bytes (λ b. IsPlain b.items request) }
    ensures moves { Moves (H.sees house.old) (H.sees house.new) }
    ensures recent { AreRecent (H.sees house.new) recent.new }
    ensures replies { Replies result
        (record { given = C.given clock.old; words = E.given entropy.old; points = G.reached gate.old; written = O.written sink.old; handed = (H.sees house.old).handed; keepers = (H.sees house.old).keepers; kept = shelves_of (H.sees house.old) })
        (record { given = C.given clock.new; words = E.given entropy.new; points = G.reached gate.new; written = O.written sink.new; handed = (H.sees house.new).handed; keepers = (H.sees house.new).keepers; kept = shelves_of (H.sees house.new) })
        (history_of (H.sees house.new)) (newest (history_of (H.sees house.old))) request closing }
    ensures moments { GivesInTurn last_moment (C.moments clock.old) (C.moments clock.new) (C.given clock.old) (C.given clock.new) }
    ensures words { GivesInTurn last_word (E.words entropy.old) (E.words entropy.new) (E.given entropy.old) (E.given entropy.new) }
    ensures cause { CountsOutcome result (O.faults sink.old) (O.faults sink.new) }
{
    let now = clock.now();
    if request.late {
        let (ask, _) = asks_of(request);
        return answer_late(alloc, house, sink, gate, &ask, now, closing);
    }
    let made = reply_made(
        alloc, paths, house, entropy, gate, recent, request, bytes, now, closing,
    );
    match send(sink, &made) {
        Ok(()) => Outcome::Written,
        Err(WriteFault) => Outcome::WriteFault,
    }
}
