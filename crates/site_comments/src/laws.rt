//! The law that what is shown of comments is what access decides, which the contract of an empty function states.
ghost use Rattle.site_comments.specs.Viewed.{ViewsAreDecided};

/// A viewer may view a comment that is there exactly where access allows it.
/// <https://www.drupal.org/docs/8/api/entity-api/access-on-entities>
pub fn views_are_decided()
    ensures { ViewsAreDecided }
{}
