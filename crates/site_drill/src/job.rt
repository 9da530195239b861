//! The drill.
ghost use Rattle.std.specs.Prelude.{◌≡◌, ℕ, IfOk, IfErr};
ghost use Rattle.content_state.specs.SiteRules.{IsValidState};
ghost use Rattle.site_drill.specs.Drill.{drill_requests, moments_to, CountsOutput, Drills, IsAnswered, IsDrilled, IsNoDrill, Prints};
ghost use Rattle.site_drill.specs.Fresh.{AreFresh};
ghost use Rattle.site_drill.specs.Stops.{NotAnswered};

use crate::figures::{Figures, digest_of, drill_text};
use crate::gate::CountingGate;
use crate::served::{REQUESTS, Stop, answer_all};
use crate::steady::SteadySource;
use content_state::State;
use drill_input::{Draws, SiteRows, requests_after, site_rows};
use site_alone::{alone_with, state_over};
use site_http::Desk;
use site_io::{ListClock, ListEntropy, MemorySink, Sink, write_whole};
use std::alloc::{AllocError, Global};

/// Room for the replies of a drill, in bytes.
const ROOM: usize = 16_777_216;

/// How a drill ended.
#[derive(Clone, Copy, Debug, PartialEq, Eq)]
pub enum DrillEnd {
    /// All seven lines were printed.
    Printed,
    /// The rows that were made are no site. Nothing was printed.
    NoSite,
    /// The bytes that were made are no 900 requests that a connection goes on after. Nothing was printed.
    Unanswered,
    /// The output failed, and its count of faults rose. A front of the lines was printed.
    OutputFailed,
    /// Memory was wanting, also where a reply says so. Nothing was printed.
    OutOfMemory,
}

/// Why there is no drill.
#[derive(Clone, Copy, Debug, PartialEq, Eq)]
pub(crate) enum NoDrill {
    NoSite,
    Unanswered,
    OutOfMemory,
}

impl From<AllocError> for NoDrill {
    ghost use Rattle.site_drill.specs.declared.job.NoDrill.TheVariants.{OutOfMemory};

    ghost from_gives = { λ _ none. none ≡ OutOfMemory };

    fn from(_wanting: AllocError) -> NoDrill {
        NoDrill::OutOfMemory
    }
}

/// Why requests that were not all answered make no drill.
fn not_answered(stop: Stop) -> NoDrill
    ensures { (number : ℕ) → NotAnswered stop (drill_requests number) → IsNoDrill number result }
{
    match stop {
        Stop::Unanswered => NoDrill::Unanswered,
        Stop::OutOfMemory => NoDrill::OutOfMemory,
    }
}

/// What the requests of a drill come from, and what their replies go to.
#[derive(Drop)]
struct Devices {
    source: SteadySource,
    sink: MemorySink,
    clock: ListClock,
    entropy: ListEntropy,
    gate: CountingGate,
}

/// The moments of the requests.
fn moments(alloc: Global) -> Result<Vec<u64>, AllocError>
    ensures { IfOk result (λ moments. moments.items ≡ moments_to 900) }
{
    let mut moments = Vec::new(alloc);
    'requests: for index in 0..REQUESTS {
        moments.push(1000 + index)?;
    }
    Ok(moments)
}

/// Devices in memory that give these bytes, and the moments.
fn devices_for(alloc: Global, text: Vec<u8>) -> Result<Devices, AllocError>
    ensures { IfOk result (λ devices. AreFresh text.items devices) }
{
    let moments = moments(alloc)?;
    let sink = MemorySink::new(alloc, ROOM)?;
    Ok(Devices {
        source: SteadySource::new(text, 4096),
        sink,
        clock: ListClock::new(moments),
        entropy: ListEntropy::new(Vec::new(alloc)),
        gate: CountingGate::new(),
    })
}

/// Answers the requests over a site, and counts.
fn answer_over(alloc: Global, state: &State, text: Vec<u8>) -> Result<Figures, Stop>
    requires { IsValidState state.now }
    ensures answered { IfOk result (λ figures. IsAnswered state.now text.items figures) }
    ensures stopped { IfErr result (λ stop. NotAnswered stop text.items) }
{
    let mut devices = devices_for(alloc, text)?;
    let mut desk = Desk::new(alloc)?;
    let mut house = alone_with(alloc, state)?;
    desk.inbox.clear();
    match answer_all(
        alloc,
        &desk.paths,
        &mut desk.inbox,
        &mut desk.recent,
        &mut house,
        &mut devices.source,
        &mut devices.sink,
        &mut devices.clock,
        &mut devices.entropy,
        &mut devices.gate,
    ) {
        Ok(pages) => Ok(Figures {
            pages,
            edits: house.handed() as u64,
            built: devices.gate.built(),
            bytes: devices.sink.bytes().len() as u64,
            sha256: digest_of(devices.sink.bytes()),
        }),
        Err(stop) => Err(stop),
    }
}

/// The figures of the drill that is made from a number.
fn figures_of(alloc: Global, number: u64) -> Result<Figures, NoDrill>
    ensures drilled { IfOk result (λ figures. IsDrilled number figures) }
    ensures none { IfErr result (λ none. IsNoDrill number none) }
{
    let SiteRows { entries, draws } = site_rows(alloc, Draws::new(number))?;
    let requests = requests_after(alloc, draws, 900)?;
    let state = state_over(alloc, entries)?;
    if !state.is_valid(alloc)? {
        return Err(NoDrill::NoSite);
    }
    match answer_over(alloc, &state, requests.into_text()) {
        Ok(figures) => Ok(figures),
        Err(stop) => Err(not_answered(stop)),
    }
}

/// The lines of the drill that is made from a number.
fn lines_of(alloc: Global, number: u64) -> Result<Vec<u8>, NoDrill>
    ensures lines { IfOk result (λ text. Prints number (λ lines. text.items ≡ lines)) }
    ensures none { IfErr result (λ none. IsNoDrill number none) }
{
    let figures = figures_of(alloc, number)?;
    Ok(drill_text(alloc, number, &figures)?)
}

/// Makes a site and 900 requests from a number, answers these in memory, and prints seven lines: the number, how many requests
/// there are, how many replies show a page, how many edits were accepted, how many elements were built, how many bytes the
/// replies have, and their SHA-256. The same number gives the same lines.
///
/// `OutputFailed` comes exactly where the output's count of faults rose.
pub fn drill<O: Sink>(alloc: Global, number: u64, output: &mut O) -> DrillEnd
    ensures does { Drills number result (O.written output.old) (O.written output.new) }
    ensures cause { CountsOutput result (O.faults output.old) (O.faults output.new) }
{
    match lines_of(alloc, number) {
        Ok(text) => match write_whole(output, &text) {
            Ok(()) => DrillEnd::Printed,
            Err(_) => DrillEnd::OutputFailed,
        },
        Err(NoDrill::NoSite) => DrillEnd::NoSite,
        Err(NoDrill::Unanswered) => DrillEnd::Unanswered,
        Err(NoDrill::OutOfMemory) => DrillEnd::OutOfMemory,
    }
}
