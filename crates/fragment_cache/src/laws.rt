//! Laws of the definitions, which the contract of an empty function states.
ghost use Rattle.fragment_cache.specs.Determined.{
  PagesAreMadeAgain,
  ElementsAreMadeAgain,
  EntriesAreMadeAgain,
  PagesAreDetermined,
  ElementsAreDetermined,
};
ghost use Rattle.fragment_cache.specs.Fresh.{StatesAgree, FreshIsShown, SoundStays};

/// What a page, an element or a kept entry of one makes on one visit, it makes on every other that agrees with it on all
/// that it needs, and there it needs no more.
/// <https://www.drupal.org/docs/drupal-apis/cache-api/cache-api>
#[tactic(auto, using(crate::proofs::Determined::pages_again, crate::proofs::Determined::elements_again, crate::proofs::Determined::entries_again))]
pub fn made_again()
    ensures pages { PagesAreMadeAgain }
    ensures elements { ElementsAreMadeAgain }
    ensures entries { EntriesAreMadeAgain }
{}

/// What a page or an element shows on one visit, it shows on every other that agrees with it on all that it depends on, as
/// long as its last moment isn't over.
/// <https://www.drupal.org/docs/drupal-apis/cache-api/cache-api>
#[tactic(auto, using(crate::proofs::Determined::pages, crate::proofs::Determined::elements))]
pub fn shown_is_determined()
    ensures pages { PagesAreDetermined }
    ensures elements { ElementsAreDetermined }
{}

/// On two states of one log, whichever is the earlier, visits agree on all that something needs where the counts of its
/// tags come to the same, its contexts have the same values, and the second visit isn't before the first.
/// <https://www.drupal.org/docs/drupal-apis/cache-api/cache-api>
pub fn states_agree()
    ensures { StatesAgree }
{}

/// An entry that is sound over a log, and fresh on a state of it, is what its key's plan shows there, also where that state
/// is earlier than the one that it was made on.
/// <https://www.drupal.org/docs/drupal-apis/cache-api/cache-api>
pub fn fresh_is_shown()
    ensures { FreshIsShown }
{}

/// An entry that is sound over a log is sound over a longer one.
pub fn sound_entries_stay()
    ensures { SoundStays }
{}
