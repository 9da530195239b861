//! Laws of what tables stand for and of the texts of tags, which the contracts of empty functions state.
ghost use Rattle.keeper_sqlite.specs.Standing.{StandForOne, NewStandForNone, BatchesStand, KeptStands, StandForWhatIsRead, NumberIsRead};
ghost use Rattle.keeper_sqlite.specs.Tags.{TagsAreReadBack};

/// Each tag is read of its text.
pub fn tags_are_read_back()
    ensures { TagsAreReadBack }
{}

/// Tables stand for one site at most.
pub fn tables_stand_for_one()
    ensures { StandForOne }
{}

/// New tables stand for a site of which nothing is held.
pub fn new_tables_stand_for_none()
    ensures { NewStandForNone }
{}

/// What a batch does to the tables is what it does to the site that they stand for, and so with one batch after the other.
pub fn batches_stand()
    ensures one { BatchesStand }
    ensures more { KeptStands }
{}

/// The tables stand for the site that is read of them, and for none where they can't be read.
pub fn tables_stand_for_what_is_read()
    ensures { StandForWhatIsRead }
{}

/// The number that is read of the tables is that of the site that they stand for.
pub fn number_is_read()
    ensures { NumberIsRead }
{}
