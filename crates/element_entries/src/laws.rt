//! Laws of the definitions, which the contract of an empty function states.
ghost use Rattle.element_entries.specs.Laws.{EntriesAreMadeOn, EntriesAreFresh};

/// An entry of what was put together for a reader by a plan is made by it on the reader's state, though it leaves out contexts
/// that others make redundant; and it is fresh there, where it isn't over.
/// <https://www.drupal.org/docs/drupal-apis/render-api/cacheability-of-render-arrays>
pub fn entries_are_made_on_states()
    ensures made { EntriesAreMadeOn }
    ensures fresh { EntriesAreFresh }
{}
