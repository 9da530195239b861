//! Judging edits on the newest state of a log.
ghost use Rattle.std.specs.Prelude.{◌≡◌, ◌<◌, ◌^◌, Some, None, IfOk, IfErr, if◌then◌else◌};
ghost use Rattle.std.specs.Option.{option_copied};
ghost use Rattle.content_rows.specs.Kinds.{IsMoment};
ghost use Rattle.content_state.specs.SiteRules.{IsValidState};
ghost use Rattle.site_commands.specs.Causes.{told, where_true};
ghost use Rattle.site_commands.specs.Judged.{in_log, is_guarded, unguarded};
ghost use Rattle.site_commands.specs.Right.{IsRight};
ghost use Rattle.site_hall.specs.Accepted.{judged_at, IsReadyOn, IsUnreadyOn};

use crate::making::{Ready, made_ready};
use crate::stop::Stop;
use cacheability::Name;
use content_state::{Ask, State, Viewer};
use edit_laws::{verdicts_keep_valid, viewers_are_there};
use edit_machine::judge;
use site_access::viewer_of;
use site_commands::{Command, Refusal, Verdict};
use std::alloc::{AllocError, Global};
use user_roles::csrf_of;

/// How many edits a log can have.
const LIMIT: usize = 1_000_000;

/// Judges an edit on a state that the hall gave, in a log of so many edits, and makes all that it takes to keep and to publish it. It
/// is judged for the viewer whom the cookie of the request names there at this moment, in seconds since 1970, with the value that was
/// sent to guard the forms of a session; an accepted one bears the number of the pass. `Refused` where it is refused, `OutOfMemory`
/// where memory is wanting; `Failed` never comes.
pub fn judge_next(
    alloc: Global,
    state: &State,
    count: usize,
    ask: &Ask,
    csrf: Option<&[u8]>,
    command: &Command,
    now: u64,
    pass: u32,
) -> Result<Ready, Stop>
    requires right { IsRight command.now }
    requires moment { IsMoment now }
    requires valid { IsValidState state.now }
    requires small { state.now.number < 2 ^ 63 }
    ensures ready { IfOk result (λ ready. IsReadyOn state.now count ask.now (option_copied csrf.entry) command.now now pass ready) }
    ensures unready { IfErr result (λ stop. IsUnreadyOn stop state.now count ask.now (option_copied csrf.entry) command.now now pass) }
{
    match judged(alloc, state, count, ask, csrf, command, now, pass)? {
        Verdict::Refused(refusal) => Err(Stop::Refused(refusal)),
        Verdict::Commit(commit, done) => {
            verdicts_keep_valid();
            viewers_are_there();
            Ok(made_ready(alloc, state, commit, done)?)
        }
    }
}

/// What is to become of an edit that a request asks for, at a moment in seconds since 1970, with the value that was sent to
/// guard the forms of a session. It is refused where its viewer has a session and the value isn't that session's; then
/// for the causes of the edit itself; then where the log is as long as it can be. `Err` only where memory is wanting.
/// <https://api.drupal.org/api/drupal/core!lib!Drupal!Core!Access!CsrfTokenGenerator.php/class/CsrfTokenGenerator/10>
#[tactic(auto, unfolding(crate::specs::Accepted::judged_at))]
fn judged(
    alloc: Global,
    state: &State,
    count: usize,
    ask: &Ask,
    csrf: Option<&[u8]>,
    command: &Command,
    now: u64,
    pass: u32,
) -> Result<Verdict, AllocError>
    ensures { IfOk result (λ v. told v ≡ judged_at state.now count ask.now (option_copied csrf.entry) command.now now pass) }
{
    let viewer = viewer_of(state, ask, now);
    if !may_send(&viewer, csrf) {
        return Ok(Verdict::Refused(Refusal::Csrf));
    }
    let verdict = judge(alloc, state, &viewer, command, now, pass)?;
    Ok(in_log(count, verdict))
}

/// Whether a viewer has no session, or the value that was sent guards its forms.
fn may_send(viewer: &Viewer, csrf: Option<&[u8]>) -> bool
    ensures { (if result then None else Some Refusal.Csrf) ≡ unguarded viewer.now.session (option_copied csrf.entry) }
{
    match &viewer.session {
        Some(token) => is_guarded(token, csrf),
        None => true,
    }
}

/// Whether the value that was sent is the one that guards the forms of the session with this token.
fn is_guarded(token: &Name, csrf: Option<&[u8]>) -> bool
    ensures { result ≡ is_guarded token.now (option_copied csrf.entry) }
{
    match csrf {
        Some(sent) => sent == csrf_of(token).as_slice(),
        None => false,
    }
}

/// What is to become of an edit in a log of so many edits: an accepted one needs a place in it.
fn in_log(count: usize, verdict: Verdict) -> Verdict
    ensures { told result ≡ in_log count (told verdict) }
{
    match verdict {
        Verdict::Commit(_, _) if count >= LIMIT => Verdict::Refused(Refusal::LogFull),
        verdict => verdict,
    }
}
