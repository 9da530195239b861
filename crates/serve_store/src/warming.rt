//! Rendering the pages that anybody may see before the workers start.
ghost use Rattle.std.specs.Prelude.{◌≡◌, None, true, IfOk, IfErr, OnOk};
ghost use Rattle.site_hall.specs.Hall.{IsHall};
ghost use Rattle.site_targets.specs.Targets.{targets_of};
ghost use Rattle.site_places.specs.Place.{clock_given};
ghost use Rattle.serve_store.specs.Job.{OutputRises};
ghost use Rattle.serve_store.specs.Texts.{warmed_text};
ghost use Rattle.serve_store.specs.Warming.{place_then, warmed_count, written_then, AreWarm, IsFirstMoment, IsNew, IsReady, OnlyPages, StopsBy, Warmed};

use crate::ending::ServeEnd;
use crate::texts::{announce, warmed_text};
use content_rows::Text;
use content_state::State;
use site_hall::{Alone, Engine};
use site_house::House;
use site_io::Clock;
use site_keeper::{Batch, Keeper, KeeperFault, Stored};
use site_places::Place;
use site_targets::targets;
use std::alloc::{AllocError, Global};
use warm_pages::warm;

/// A keeper that holds nothing, and does nothing. It stands in for that of a store while pages are rendered.
#[derive(Drop)]
struct NoKeeper;

impl Keeper for NoKeeper {
    ghost kept = { λ _. None };

    ghost faults = { λ _. 0 };

    ghost steadfast = { λ _. true };

    fn load(&mut self, _alloc: Global) -> Result<Stored, KeeperFault> {
        Err(KeeperFault::OutOfMemory)
    }

    fn apply(&mut self, _alloc: Global, _batch: &Batch) -> Result<(), KeeperFault> {
        Err(KeeperFault::OutOfMemory)
    }

    fn head(&mut self, _alloc: Global) -> Result<u64, KeeperFault> {
        Err(KeeperFault::OutOfMemory)
    }

    fn faults(&self) -> u64 {
        0
    }
}

/// An engine whose pages were to be rendered, and how it ends where they weren't, or where that wasn't printed.
#[derive(Drop)]
pub(crate) struct Unwarmed<K: Keeper> {
    pub(crate) hall: Engine<K>,
    pub(crate) end: ServeEnd,
}

/// The targets of an engine's site that anybody may see. `Err` only where memory is wanting.
fn open_targets<K: Keeper>(alloc: Global, hall: &Engine<K>) -> Result<Vec<Text>, AllocError>
    requires { IsNew hall.now }
    ensures { IfOk result (λ targets. targets.items ≡ targets_of hall.now.base.rows) }
{
    let newest = hall.snapshot(alloc)?;
    let state: &State = &newest;
    targets(alloc, state)
}

/// How many pages were rendered, where nothing of them wasn't kept for want of memory: else memory was wanting.
fn if_kept(count: Result<u64, AllocError>, unkept: u64) -> Result<u64, AllocError>
    ensures same { OnOk result (result ≡ count) }
    ensures none { OnOk result (unkept ≡ 0) }
{
    if unkept == 0 { count } else { Err(AllocError) }
}

/// Renders the pages of the first 1,024 of these targets over an engine, for nobody's session, and answers how many those are. The
/// keeper is set aside meanwhile. `Err` only where memory is wanting, for rendering a page or for keeping something of it.
fn warm_hall<K: Keeper + Drop>(
    alloc: Global,
    hall: Engine<K>,
    targets: &[Text],
    now: u64,
) -> (Engine<K>, Result<u64, AllocError>)
    requires new { IsNew hall }
    requires targets { targets.now ≡ targets_of hall.base.rows }
    ensures pages { OnlyPages hall result.0 }
    ensures count { IfOk result.1 (λ count. count ≡ warmed_count hall) }
    ensures warm { OnOk result.1 (AreWarm now hall result.0) }
{
    let (bare, keeper) = hall.with_keeper(NoKeeper);
    let mut alone = Alone::new(alloc, bare);
    let count = warm(alloc, &mut alone, targets, now);
    let unkept = alone.unkept();
    let (warmed, _) = alone.into_hall().with_keeper(keeper);
    (warmed, if_kept(count, unkept))
}

/// Renders the pages that anybody may see at a moment, at most 1,024, and makes what is printed of that. `Err` only where memory
/// is wanting.
fn warm_site<K: Keeper + Drop>(
    alloc: Global,
    hall: Engine<K>,
    now: u64,
) -> (Engine<K>, Result<Vec<u8>, AllocError>)
    requires { IsNew hall }
    ensures pages { OnlyPages hall result.0 }
    ensures text { IfOk result.1 (λ text. text.items ≡ warmed_text (warmed_count hall)) }
    ensures warm { OnOk result.1 (AreWarm now hall result.0) }
{
    let Ok(targets) = open_targets(alloc, &hall) else {
        return (hall, Err(AllocError));
    };
    let (warmed, count) = warm_hall(alloc, hall, &targets, now);
    match count {
        Ok(count) => (warmed, warmed_text(alloc, count)),
        Err(wanting) => (warmed, Err(wanting)),
    }
}

/// Renders the pages that anybody may see, at the moment of the place's next clock, and prints how many they are.
fn warm_first<P: Place>(
    alloc: Global,
    hall: Engine<P::Keeper>,
    place: &mut P,
    output: &mut P::Out,
) -> Result<Engine<P::Keeper>, Unwarmed<P::Keeper>>
    requires { IsNew hall }
    ensures warmed { IfOk result (Warmed (P.sees place.old) hall) }
    ensures written { OnOk result (P.Out.written output.new ≡ written_then true hall (P.Out.written output.old)) }
    ensures steady { OnOk result (P.Out.faults output.new ≡ P.Out.faults output.old) }
    ensures pages { IfErr result (λ none. OnlyPages hall none.hall) }
    ensures stops { IfErr result (λ none. StopsBy none.end hall (P.Out.written output.old) (P.Out.written output.new)) }
    ensures cause { IfErr result (λ none. OutputRises none.end (P.Out.faults output.old) (P.Out.faults output.new)) }
    ensures place { P.sees place.new ≡ clock_given (P.sees place.old) }
{
    let mut clock = place.clock();
    let now = clock.now();
    let (hall, text) = warm_site(alloc, hall, now);
    let Ok(text) = text else {
        let end = ServeEnd::OutOfMemory;
        return Err(Unwarmed { hall, end });
    };
    if announce(output, &text).is_err() {
        let end = ServeEnd::OutputFailed;
        return Err(Unwarmed { hall, end });
    }
    Ok(hall)
}

/// Where that is asked for, renders the pages that anybody may see, the first 1,024 of them, and prints how many they are.
///
/// They are rendered for nobody's session at one moment, of a clock of their own. Where memory is wanting for rendering one, or for
/// keeping something of it, that is the end. Where it isn't asked for, nothing is done.
pub(crate) fn made_warm<P: Place>(
    alloc: Global,
    asked: bool,
    hall: Engine<P::Keeper>,
    place: &mut P,
    output: &mut P::Out,
) -> Result<Engine<P::Keeper>, Unwarmed<P::Keeper>>
    requires { IsNew hall }
    ensures ready { IfOk result (IsReady asked (P.sees place.old) hall) }
    ensures none_pending { IfOk result (λ warm. warm.pending ≡ None) }
    ensures is_hall { IfOk result (λ warm. IsHall warm) }
    ensures written { OnOk result (P.Out.written output.new ≡ written_then asked hall (P.Out.written output.old)) }
    ensures steady { OnOk result (P.Out.faults output.new ≡ P.Out.faults output.old) }
    ensures asked { IfErr result (λ _. asked ≡ true) }
    ensures pages { IfErr result (λ none. OnlyPages hall none.hall) }
    ensures stops { IfErr result (λ none. StopsBy none.end hall (P.Out.written output.old) (P.Out.written output.new)) }
    ensures cause { IfErr result (λ none. OutputRises none.end (P.Out.faults output.old) (P.Out.faults output.new)) }
    ensures place { P.sees place.new ≡ place_then asked (P.sees place.old) }
{
    if asked {
        warm_first(alloc, hall, place, output)
    } else {
        Ok(hall)
    }
}
