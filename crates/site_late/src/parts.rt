//! The parts of a page that are sent behind it, each as soon as it is made.
ghost use Rattle.std.specs.Prelude.{◌≡◌, ◌∷◌, [], IfOk, IfErr, OnOk, OnErr};
ghost use Rattle.content_state.specs.Ask.{IsAsk};
ghost use Rattle.content_state.specs.Viewer.{viewer_of as named_viewer};
ghost use Rattle.late_pages.specs.Late.{LatePart, PartShows, part_text};
ghost use Rattle.render_array.specs.Shown.{visit_of};
ghost use Rattle.site_house.specs.Bins.{IsSeenIn};
ghost use Rattle.site_house.specs.House.{Moves, Stays};
ghost use Rattle.site_io.specs.Told.{after, AddsFront};
ghost use Rattle.site_late.specs.Making.{MakesBegun, MakesPart};
ghost use Rattle.site_late.specs.Parts.{CountsStop, WritesAll, WritesSome, stops_short};
ghost use Rattle.site_late.specs.Sending.{reader_of};

use crate::pieces::hand_on;
use content_state::{Ask, Hole, State, Viewer};
use late_pages::{late_part, template};
use renderer::Parts;
use site_house::House;
use site_io::{Gate, Point, Sink};
use std::alloc::{AllocError, Global};

/// Why no more parts were sent.
#[derive(Clone, Copy, Debug, PartialEq, Eq)]
pub enum Stop {
    WriteFault,
    OutOfMemory,
}

/// What is sent for a place: its part, in its template.
fn made_part<H: House>(
    alloc: Global,
    house: &mut H,
    state: &State,
    viewer: &Viewer,
    ask: &Ask,
    now: u64,
    number: u64,
    hole: &Hole,
) -> Result<Parts, AllocError>
    requires viewer { viewer.now ≡ named_viewer state.now.rows ask.now.cookie now }
    requires seen { IsSeenIn (H.sees house.old) state.now }
    requires right { IsAsk ask.now }
    ensures moves { Moves (H.sees house.old) (H.sees house.new) }
    ensures stays { Stays (H.sees house.old) (H.sees house.new) }
    ensures made { OnOk result (MakesPart (reader_of state.now ask.now now) hole.now (H.sees house.old) (H.sees house.new)) }
    ensures part { IfOk result (λ text. (p : LatePart) × PartShows (visit_of state.now.rows ask.now now) hole.now p × (text ≡ part_text number p)) }
{
    let part = late_part(alloc, house, state, viewer, ask, now, hole)?;
    let text = template(alloc, number, &part)?;
    Ok(text)
}

/// Makes the part of a place, writes it, and hands it on.
fn send_part<H: House, O: Sink>(
    alloc: Global,
    house: &mut H,
    sink: &mut O,
    state: &State,
    viewer: &Viewer,
    ask: &Ask,
    now: u64,
    number: u64,
    hole: &Hole,
) -> Result<(), Stop>
    requires viewer { viewer.now ≡ named_viewer state.now.rows ask.now.cookie now }
    requires seen { IsSeenIn (H.sees house.old) state.now }
    requires right { IsAsk ask.now }
    ensures moves { Moves (H.sees house.old) (H.sees house.new) }
    ensures stays { Stays (H.sees house.old) (H.sees house.new) }
    ensures made { OnOk result (MakesPart (reader_of state.now ask.now now) hole.now (H.sees house.old) (H.sees house.new)) }
    ensures begun { IfErr result (λ why. MakesBegun (stops_short why) (reader_of state.now ask.now now) (hole.now ∷ []) 1 (H.sees house.old) (H.sees house.new)) }
    ensures whole { OnOk result ((p : LatePart) × PartShows (visit_of state.now.rows ask.now now) hole.now p × (O.written sink.new ≡ after (O.written sink.old) (part_text number p))) }
    ensures front { OnErr result ((p : LatePart) × PartShows (visit_of state.now.rows ask.now now) hole.now p × AddsFront (O.written sink.old) (O.written sink.new) (part_text number p)) }
    ensures cause { IfErr result (λ stop. CountsStop stop (O.faults sink.old) (O.faults sink.new)) }
    ensures steady { OnOk result (O.faults sink.new ≡ O.faults sink.old) }
{
    let Ok(text) = made_part(alloc, house, state, viewer, ask, now, number, hole) else {
        return Err(Stop::OutOfMemory);
    };
    match hand_on(sink, b"", text.as_slice()) {
        Ok(()) => Ok(()),
        Err(_) => Err(Stop::WriteFault),
    }
}

/// Sends what stands in these places, in their order: the gate is told before each part is made, and each is handed on before the
/// next. `Err` where a part wasn't sent whole: writing failed, or memory was wanting to make it.
pub fn send_parts<H: House, O: Sink, G: Gate>(
    alloc: Global,
    house: &mut H,
    sink: &mut O,
    gate: &mut G,
    state: &State,
    viewer: &Viewer,
    ask: &Ask,
    now: u64,
    holes: &[Hole],
) -> Result<(), Stop>
    requires viewer { viewer.now ≡ named_viewer state.now.rows ask.now.cookie now }
    requires seen { IsSeenIn (H.sees house.old) state.now }
    requires right { IsAsk ask.now }
    ensures moves { Moves (H.sees house.old) (H.sees house.new) }
    ensures stays { Stays (H.sees house.old) (H.sees house.new) }
    ensures whole { OnOk result (WritesAll (reader_of state.now ask.now now) holes.now (H.sees house.old) (H.sees house.new) (G.reached gate.old) (G.reached gate.new) (O.written sink.old) (O.written sink.new)) }
    ensures some { IfErr result (λ why. WritesSome why (reader_of state.now ask.now now) holes.now (H.sees house.old) (H.sees house.new) (G.reached gate.old) (G.reached gate.new) (O.written sink.old) (O.written sink.new)) }
    ensures cause { IfErr result (λ stop. CountsStop stop (O.faults sink.old) (O.faults sink.new)) }
    ensures steady { OnOk result (O.faults sink.new ≡ O.faults sink.old) }
{
    let mut number = 0;
    'holes: for hole in holes {
        gate.reach(Point::BeforePart);
        send_part(alloc, house, sink, state, viewer, ask, now, number, hole)?;
        number += 1;
    }
    Ok(())
}
