//! What is known of a hall, of a pass and of a seat. No value of these types is made: contracts alone speak of them.

use content_state::{Commit, State};
use fragment_cache::Bins;
use site_keeper::{Batch, Stored};
use std::collections::LinkedList;
use std::marker::Model;

/// What a keeper told: what it was made of, and the batches that it kept since.
pub struct Told {
    pub made_of: Stored,
    pub batches: LinkedList<Batch>,
}

impl Model for Told {
    ghost use Rattle.site_keeper.specs.Keeper.{Kept};

    ghost Value = { Kept };

    ghost view = { λ t. record { made_of = t.made_of; batches = t.batches } };
}

/// What never changes in a hall and its desk: the state that was loaded, what the keeper told then, where it tells, and
/// whether it tells that it never fails.
pub struct Loaded {
    pub base: State,
    pub told: Option<Told>,
    pub steadfast: bool,
}

/// How often a cache was asked, had an answer, and kept one.
pub struct TallyNote {
    pub looks: u64,
    pub found: u64,
    pub kept: u64,
}

/// What is known of a hall and its desk together: what was loaded, the edits that were published since, the one that is
/// pending, how often the keeper has failed, what the caches counted, and the bins.
pub struct HallNote {
    pub loaded: Loaded,
    pub log: LinkedList<Commit>,
    pub pending: Option<Commit>,
    pub faults: u64,
    pub tally: TallyNote,
    pub bins: Bins,
}

/// What is known of a hall alone: the state that was loaded, the edits that were published since, the one that is pending,
/// what its caches counted, and its bins.
pub struct HallPart {
    pub base: State,
    pub log: LinkedList<Commit>,
    pub pending: Option<Commit>,
    pub tally: TallyNote,
    pub bins: Bins,
}

/// What a seat knows that has the desk out: what was loaded, the edits that the hall has published since, the one that is
/// pending, and how often the keeper has failed.
pub struct DeskPart {
    pub loaded: Loaded,
    pub log: LinkedList<Commit>,
    pub pending: Option<Commit>,
    pub faults: u64,
}

/// What is known of a desk by itself: the batch of the edit that is pending, what the keeper tells, how often that has
/// failed, and whether it tells that it never fails.
pub struct DeskNote {
    pub pending: Option<Batch>,
    pub kept: Option<Told>,
    pub faults: u64,
    pub steadfast: bool,
}

/// What a pass knows: its number, the hall that the site was opened with, the edits that it has seen, those that it handed
/// in, how often the keeper had failed when it last had the desk, and what its own turns counted; and the hall as its last
/// turn that read, looked or kept found it, and as that left it.
pub struct PassNote {
    pub number: u32,
    pub opened: HallNote,
    pub seen: LinkedList<Commit>,
    pub handed: LinkedList<Commit>,
    pub faults: u64,
    pub tally: TallyNote,
    pub found: HallPart,
    pub left: HallPart,
}

/// What the founder of the passes knows: how many were made, and the hall that the site was opened with.
pub struct FounderNote {
    pub made: u32,
    pub opened: HallNote,
}

/// What a seat of the table knows: whether the site is yet to be opened, the hall and the desk where the seat has them out,
/// what the founder knows where the seat is the founder's, and what each pass knows that stands on it.
pub struct Note {
    pub fresh: bool,
    pub hall: Option<HallPart>,
    pub desk: Option<DeskPart>,
    pub founder: Option<FounderNote>,
    pub passes: LinkedList<PassNote>,
}
