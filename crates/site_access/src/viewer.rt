//! Who views.
ghost use Rattle.std.specs.Prelude.{◌≡◌, option_copied};
ghost use Rattle.content_state.specs.Viewer.{viewer_of as viewer_by_cookie, viewer_with as viewer_by_session, viewer_by as viewer_by_user, nobody as nobody_views};

use cacheability::Name;
use content_rows::{Session, User};
use content_state::{Ask, State, Viewer};
use user_roles::session_live;

/// The viewer of a request at a moment, in seconds since 1970: the user of the live session that its
/// cookie names, else nobody. A session is live where its row is there, the moment is before its end,
/// and its user's row is there and active. It takes no memory.
/// <https://api.drupal.org/api/drupal/core!lib!Drupal!Core!Session!SessionManager.php/class/SessionManager/10>
pub fn viewer_of(state: &State, ask: &Ask, moment: u64) -> Viewer
    ensures { result ≡ viewer_by_cookie state.now.rows ask.now.cookie moment }
{
    match ask.cookie {
        Some(token) => viewer_with(state, token, state.session(token), moment),
        None => nobody(),
    }
}

/// The viewer of a token's session, if there is one.
fn viewer_with(state: &State, token: Name, session: Option<&Session>, moment: u64) -> Viewer
    ensures { result ≡ viewer_by_session state.now.rows token (option_copied session.entry) moment }
{
    match session {
        Some(session) => {
            let (user, _) = state.user(session.uid);
            viewer_by(token, session, user, moment)
        }
        None => nobody(),
    }
}

/// The viewer of a token's session of this user, if there is one.
fn viewer_by(token: Name, session: &Session, user: Option<&User>, moment: u64) -> Viewer
    ensures { result ≡ viewer_by_user token session.now (option_copied user.entry) moment }
{
    match user {
        Some(user) if session_live(session, user, moment) => Viewer {
            uid: session.uid,
            session: Some(token),
        },
        _ => nobody(),
    }
}

/// The viewer without a session.
fn nobody() -> Viewer
    ensures { result ≡ nobody_views }
{
    Viewer {
        uid: 0,
        session: None,
    }
}
