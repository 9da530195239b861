//! Whether a session is live.
ghost use Rattle.std.specs.Prelude.{◌≡◌};
ghost use Rattle.content_rows.specs.Permission.{session_live as session_live_at};

use content_rows::{Session, User};

/// Whether a session is live at a moment, in seconds since 1970: it isn't over yet, and its user,
/// whose row this is, is active. At the very second at which it ends it is over.
/// <https://api.drupal.org/api/drupal/core!lib!Drupal!Core!Session!SessionHandler.php/class/SessionHandler/10>
pub fn session_live(session: &Session, user: &User, moment: u64) -> bool
    ensures { result ≡ session_live_at session.now user.now moment }
{
    moment < session.expires && user.status
}
