//! Which targets are open to a visitor without a session.
ghost use Rattle.std.specs.Prelude.{◌≡◌, IfOk, All};
ghost use Rattle.std.specs.List.{filter};
ghost use Rattle.content_state.specs.Ask.{path_of};
ghost use Rattle.content_state.specs.Viewer.{nobody as nobody_views};
ghost use Rattle.site_access.specs.Account.{IsAccountOf};
ghost use Rattle.site_targets.specs.Open.{is_open, is_open_path};

use content_rows::Text;
use content_state::{Route, State, Viewer, route_of};
use site_access::Account;
use std::alloc::{AllocError, Global};

/// The account of a visitor without a session. `Err` only where memory is wanting.
pub fn nobody(alloc: Global, state: &State) -> Result<Account, AllocError>
    ensures { IfOk result (λ account. IsAccountOf state.now.rows nobody_views account) }
{
    let nobody = Viewer {
        uid: 0,
        session: None,
    };
    Account::new(alloc, state, &nobody)
}

/// Those of these targets that are open to a visitor without a session, whose account this is, in their order. Each is the path that it asks for.
/// `Err` only where memory is wanting.
pub fn open_among(
    alloc: Global,
    state: &State,
    account: &Account,
    candidates: Vec<Text>,
) -> Result<Vec<Text>, AllocError>
    requires account { IsAccountOf state.now.rows nobody_views account.now }
    requires plain { All (λ target. path_of target ≡ target) candidates.items }
    ensures { IfOk result (λ passed. passed.items ≡ filter (is_open state.now.rows) candidates.items) }
{
    let mut passed = Vec::new(alloc);
    'candidates: for target in candidates {
        if is_open(alloc, state, account, target.as_slice())? {
            passed.push(target)?;
        }
    }
    Ok(passed)
}

/// Whether a path gives a visitor without a session, whose account this is, a page of status 200: it leads somewhere, and
/// access to that is allowed. No page is built. `Err` only where memory is wanting.
fn is_open(alloc: Global, state: &State, account: &Account, path: &[u8]) -> Result<bool, AllocError>
    requires { IsAccountOf state.now.rows nobody_views account.now }
    ensures { IfOk result (λ passes. passes ≡ is_open_path state.now.rows path.now) }
{
    let (route, _) = route_of(alloc, state, path)?;
    if let Route::Nothing = route {
        return Ok(false);
    }
    let access = account.route_access(alloc, state, &route)?;
    Ok(access.allowed())
}
