//! Laws of what pages keep to themselves, which the contracts of empty functions state.
ghost use Rattle.page_secrets.specs.Alike.{NothingLeaks};
ghost use Rattle.page_secrets.specs.NodeJson.{HiddenIsUntold};
ghost use Rattle.page_secrets.specs.Passwords.{NoPasswordShows};

/// Where two states are alike for the viewer of a request, the same statuses and bodies are allowed for
/// its page on both: so a page, of HTML or of JSON, shows nothing of what access denies its viewer to view,
/// neither a node, nor a field, nor how many of them there are, nor what a comment says.
/// <https://www.drupal.org/docs/8/api/entity-api/access-on-entities>
pub fn nothing_leaks()
    ensures { NothingLeaks }
{}

/// The page of a node as JSON, for one who may view that node, has the status 200, and of the node's fields and terms it
/// tells exactly those that the viewer may view. <https://www.drupal.org/docs/8/api/entity-api/access-on-entities>
pub fn hidden_is_untold()
    ensures { HiddenIsUntold }
{}

/// Where two states are the same but for the digests and salts of users' passwords, the same statuses and
/// bodies are allowed for every page on both, of HTML or of JSON: so no page shows anything of a password,
/// to anybody.
/// <https://api.drupal.org/api/drupal/core%21lib%21Drupal%21Core%21Password%21PasswordInterface.php/interface/PasswordInterface/10>
pub fn no_password_shows()
    ensures { NoPasswordShows }
{}
