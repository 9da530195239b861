//! The table that a hall and its desk lie in, its rule, and what each kind of step on it tells.
ghost use Rattle.std.specs.Prelude.{◌≡◌, [], ◌∷◌, IfOk};
ghost use Rattle.turn_rule.specs.Rule.{KeepsRule, unopened};
ghost use Rattle.turn_rule.specs.Steps.{spent, left_of, right_of, joined, Opens, TakesOut, TakesDesk, Marks, Looks, Follows, FollowsForgetting, TellsFaults, GivesBack, GivesDeskBack, Draws, Meets};
ghost use Rattle.site_table.specs.Views.{IsRoom, noted_in, desk_in, nothing};

use crate::home::{DeskHome, HallHome};
use crate::kinds::{Count, Kind};
use atomic_table::{Join, Play, Seat, Shared, Split, Table, TableRule};
use site_keeper::Keeper;
use std::alloc::{AllocError, Global};
use std::marker::PhantomData;
use turn_rule::Note;

/// What lies in a slot of the table. The first slot is the hall's, and the second the desk's; a table has one type of slot.
pub type Lodging<K> = (Option<HallHome>, Option<DeskHome<K>>);

/// The table of a site. Its first word is the length of the hall's log; the second is 0 where the hall lies in its slot, and the third where
/// the desk does.
pub type SiteTable<K> = Table<Lodging<K>, Note, (), TurnRule, Global>;

/// What the threads of a site share.
pub type Room<K> = Shared<Lodging<K>, Note, (), TurnRule>;

/// A seat at the table.
pub type Place<K> = Seat<Lodging<K>, Note>;

/// The rule of turns.
pub struct TurnRule;

impl<K: Keeper> TableRule<Lodging<K>, Note, ()> for TurnRule {
    ghost holds = { λ _ s. KeepsRule noted_in desk_in s };

    ghost first = { λ _. unopened };
}

/// The first step, which opens the site.
pub struct Opening;

impl<K: Keeper> Play<Lodging<K>, Note> for Opening {
    ghost then = { λ step old _ new. Opens noted_in desk_in step.said old new };
}

/// The hall goes out with a seat, where it is there.
pub(crate) struct TakingHall;

impl<K: Keeper> Play<Lodging<K>, Note> for TakingHall {
    ghost then = { λ _ old found new. TakesOut noted_in desk_in old found new };
}

/// The desk goes out with a seat, where it is there.
pub(crate) struct TakingDesk;

impl<K: Keeper> Play<Lodging<K>, Note> for TakingDesk {
    ghost then = { λ _ old found new. TakesDesk noted_in desk_in old found new };
}

/// The gate of the hall or of the desk is marked by a seat that waits.
pub(crate) struct Marking;

impl<K: Keeper> Play<Lodging<K>, Note> for Marking {
    ghost then = { λ _ old _ new. Marks old new };
}

/// A turn of this kind is counted, which left the log as it was.
pub(crate) struct Counting<T: Count> {
    kind: PhantomData<T>,
}

impl<T: Count, K: Keeper> Play<Lodging<K>, Note> for Counting<T> {
    ghost then = { λ _ old _ new. Looks noted_in desk_in T.counts old new };
}

/// The first word follows the log, after a turn of this kind by a seat that has the desk.
pub(crate) struct Following<T: Kind> {
    kind: PhantomData<T>,
}

impl<T: Kind, K: Keeper> Play<Lodging<K>, Note> for Following<T> {
    ghost then = { λ _ old _ new. Follows noted_in desk_in T.hands old new };
}

/// The edit that a pass handed in last is forgotten.
pub(crate) struct Forgetting;

impl<K: Keeper> Play<Lodging<K>, Note> for Forgetting {
    ghost then = { λ _ old _ new. FollowsForgetting noted_in desk_in old new };
}

/// How often the keeper has failed is told.
pub(crate) struct Telling;

impl<K: Keeper> Play<Lodging<K>, Note> for Telling {
    ghost then = { λ _ old _ new. TellsFaults noted_in desk_in old new };
}

/// The step by which the hall comes back into its slot.
pub struct GivingHall;

impl<K: Keeper> Play<Lodging<K>, Note> for GivingHall {
    ghost then = { λ _ old _ new. GivesBack old new };
}

/// The step by which the desk comes back into its slot.
pub struct GivingDesk;

impl<K: Keeper> Play<Lodging<K>, Note> for GivingDesk {
    ghost then = { λ _ old _ new. GivesDeskBack old new };
}

/// The step by which a new pass is drawn.
pub struct Drawing;

impl<K: Keeper> Play<Lodging<K>, Note> for Drawing {
    ghost then = { λ _ old _ new. Draws old new };
}

/// The step by which two passes meet, and tell each other what they have seen.
pub struct Meeting;

impl<K: Keeper> Play<Lodging<K>, Note> for Meeting {
    ghost then = { λ _ old _ new. Meets old new };
}

/// The steps by which the first pass of a seat gets a seat of its own, and by which a pass comes to a seat.
pub struct Seating;

impl Split<Note> for Seating {
    ghost left = { left_of };

    ghost right = { right_of };
}

impl Join<Note> for Seating {
    ghost both = { joined };

    ghost spent = { spent };
}

/// Two slots in which nothing lies. `Err` only where memory is wanting.
fn no_lodgings<K: Keeper + Drop>(alloc: Global) -> Result<Vec<Lodging<K>>, AllocError>
    ensures { IfOk result (λ lodgings. lodgings.items ≡ nothing ∷ nothing ∷ []) }
{
    let mut lodgings = Vec::new(alloc);
    lodgings.push((None, None))?;
    lodgings.push((None, None))?;
    Ok(lodgings)
}

/// A table that isn't opened yet, with its first seat. `Err` only where memory is wanting.
pub fn new_table<K: Keeper + Drop>(alloc: Global) -> Result<(SiteTable<K>, Place<K>), AllocError>
    ensures room { IfOk result (λ new. IsRoom new.0.shared.table_id) }
    ensures same { IfOk result (λ new. new.1.table_id ≡ new.0.shared.table_id) }
    ensures seat { IfOk result (λ new. new.1.me ≡ (unopened, [])) }
{
    let lodgings = no_lodgings(alloc)?;
    match Table::new(alloc, &[0, 1, 1], lodgings, &()) {
        Ok(new) => Ok(new),
        Err(_) => Err(AllocError),
    }
}
