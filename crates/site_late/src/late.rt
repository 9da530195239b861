//! Pages whose parts are sent late: what needs no part is sent first, and then each part as soon as it is made.
ghost use Rattle.std.specs.Prelude.{◌≡◌, IfOk, IsTrue, OnErr, OnOk};
ghost use Rattle.std.specs.Arc.{arc_value};
ghost use Rattle.content_state.specs.Ask.{IsAsk};
ghost use Rattle.http_heads.specs.Reply.{head_text, is_reply_status};
ghost use Rattle.site_house.specs.Bins.{IsSeenIn};
ghost use Rattle.site_house.specs.House.{Moves, Stays};
ghost use Rattle.site_io.specs.Reached.{and_point};
ghost use Rattle.site_io.specs.declared.device.Point.TheVariants.{AfterSnapshot};
ghost use Rattle.site_late.specs.Heads.{late_head, media_of};
ghost use Rattle.site_late.specs.Sending.{Sends, ToldOnTheWay};
ghost use Rattle.site_late.specs.Ready.{CountsSent, IsOpen, IsReady, SendsRest};

use crate::heads::{head_of, media_of};
use crate::parts::{Stop, send_parts};
use crate::pieces::hand_on;
use content_state::{Ask, State, Viewer};
use http_heads::{CookieOut, ReplyHead};
use late_out::body_end;
use late_pages::{Late, late_first};
use site_access::viewer_of;
use site_house::House;
use site_io::{Gate, Point, Sink};
use std::alloc::{AllocError, Global};
use std::sync::Arc;

/// What became of a late reply.
#[derive(Clone, Copy, Debug, PartialEq, Eq)]
pub enum Sent {
    /// Memory was wanting for what is sent first. Nothing was written.
    NotBegun,
    /// All was written.
    Written,
    /// Writing failed. A front was written.
    WriteFault,
    /// Memory was wanting for a part. What is sent first was written, and perhaps some parts.
    OutOfMemory,
}

/// What is sent first, with its head, and the state that all of the reply is of.
#[derive(Drop)]
struct Ready {
    newest: Arc<State>,
    viewer: Viewer,
    head: Vec<u8>,
    late: Late,
}

/// The head of a late reply, which doesn't say how long it is.
fn late_head(
    alloc: Global,
    late: &Late,
    number: u64,
    ask: &Ask,
    closing: bool,
) -> Result<Vec<u8>, AllocError>
    requires { IsTrue (is_reply_status late.now.status) }
    ensures { IfOk result (λ v. v.items ≡ head_text (late_head (media_of ask.now.path) late.now.status number closing)) }
{
    let head = ReplyHead {
        status: late.status,
        media: media_of(ask.path.as_slice()),
        length: None,
        location: None,
        cookie: CookieOut::Nothing,
        allow: false,
        state: Some(number),
        close: closing,
    };
    head_of(alloc, &head)
}

/// What is sent first of the page of a request, on the newest state. `Err` only where memory is wanting.
fn make_ready<H: House, G: Gate>(
    alloc: Global,
    house: &mut H,
    gate: &mut G,
    ask: &Ask,
    now: u64,
    closing: bool,
) -> Result<Ready, AllocError>
    requires right { IsAsk ask.now }
    ensures moves { Moves (H.sees house.old) (H.sees house.new) }
    ensures stays { Stays (H.sees house.old) (H.sees house.new) }
    ensures ready { IfOk result (λ r. IsReady (arc_value r.newest) (H.sees house.old) (H.sees house.new) ask.now now closing r) }
    ensures told { OnOk result (G.reached gate.new ≡ and_point (G.reached gate.old) AfterSnapshot) }
    ensures on_the_way { OnErr result (ToldOnTheWay (G.reached gate.old) (G.reached gate.new)) }
{
    let newest = house.snapshot(alloc)?;
    let state: &State = &newest;
    gate.reach(Point::AfterSnapshot);
    let viewer = viewer_of(state, ask, now);
    let late = late_first(alloc, house, state, &viewer, ask, now)?;
    let head = late_head(alloc, &late, state.number(), ask, closing)?;
    Ok(Ready {
        newest,
        viewer,
        head,
        late,
    })
}

/// Sends what stands in the places that were left open, and the end of the page. Where none was, nothing is left to send.
fn send_rest<H: House, O: Sink, G: Gate>(
    alloc: Global,
    house: &mut H,
    sink: &mut O,
    gate: &mut G,
    ready: &Ready,
    ask: &Ask,
    now: u64,
) -> Sent
    requires right { IsAsk ask.now }
    requires seen { IsSeenIn (H.sees house.old) (arc_value ready.now.newest) }
    requires first { IsOpen (arc_value ready.now.newest) ask.now now ready.now }
    ensures moves { Moves (H.sees house.old) (H.sees house.new) }
    ensures stays { Stays (H.sees house.old) (H.sees house.new) }
    ensures rest { SendsRest result (H.sees house.old) (H.sees house.new) (arc_value ready.now.newest) ask.now now ready.now (G.reached gate.old) (G.reached gate.new) (O.written sink.old) (O.written sink.new) }
    ensures cause { CountsSent result (O.faults sink.old) (O.faults sink.new) }
{
    let state: &State = &ready.newest;
    let holes = ready.late.holes.as_slice();
    if holes.is_empty() {
        return Sent::Written;
    }
    match send_parts(
        alloc,
        house,
        sink,
        gate,
        state,
        &ready.viewer,
        ask,
        now,
        holes,
    ) {
        Err(Stop::WriteFault) => return Sent::WriteFault,
        Err(Stop::OutOfMemory) => return Sent::OutOfMemory,
        Ok(()) => {}
    }
    match hand_on(sink, body_end(), &[]) {
        Ok(()) => Sent::Written,
        Err(_) => Sent::WriteFault,
    }
}

/// Answers a request with the page of its path, on the newest state, all of which is of that state: what needs no part is written
/// and handed on first, before anything is looked for of the parts; then each part as soon as it is made; and then the page's end.
///
/// `NotBegun` where memory was wanting for what is sent first: nothing was written. `OutOfMemory` where it was wanting later: the
/// head and what is sent first were written, and perhaps some parts. `WriteFault` exactly where the sink's count of faults rose.
/// <https://www.drupal.org/docs/8/core/modules/big-pipe/overview>
pub fn late_reply<H: House, O: Sink, G: Gate>(
    alloc: Global,
    house: &mut H,
    sink: &mut O,
    gate: &mut G,
    ask: &Ask,
    now: u64,
    closing: bool,
) -> Sent
    requires right { IsAsk ask.now }
    ensures moves { Moves (H.sees house.old) (H.sees house.new) }
    ensures stays { Stays (H.sees house.old) (H.sees house.new) }
    ensures sends { Sends result (record { house = H.sees house.old; points = G.reached gate.old; written = O.written sink.old }) (record { house = H.sees house.new; points = G.reached gate.new; written = O.written sink.new }) ask.now now closing }
    ensures cause { CountsSent result (O.faults sink.old) (O.faults sink.new) }
{
    let Ok(ready) = make_ready(alloc, house, gate, ask, now, closing) else {
        return Sent::NotBegun;
    };
    gate.reach(Point::BeforeReply(ready.late.built));
    match hand_on(sink, ready.head.as_slice(), ready.late.parts.as_slice()) {
        Ok(()) => send_rest(alloc, house, sink, gate, &ready, ask, now),
        Err(_) => Sent::WriteFault,
    }
}
