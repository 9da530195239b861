//! The front page of a site.
ghost use Rattle.std.specs.Prelude.{◌≡◌};
ghost use Rattle.std.specs.Str.{bytes_eq};
ghost use Rattle.content_state.specs.Route.{root_path};
ghost use Rattle.content_state.specs.Context.{is_front as is_front_in};
ghost use Rattle.content_state.specs.Route.{front_path as front_in_rows};

use content_state::State;

/// Whether a path is `/`, which stands for the front page's.
#[tactic(auto, unfolding(content_state::specs::Route::root_path))]
pub fn is_root(path: &[u8]) -> bool
    ensures { result ≡ bytes_eq path.now root_path }
{
    path == b"/".as_slice()
}

/// The path of the front page.
pub fn front_path(state: &State) -> &[u8]
    ensures { result.now ≡ front_in_rows state.now.rows }
{
    match state.site() {
        (Some(site), _) => site.front.as_slice(),
        (None, _) => &[],
    }
}

/// Whether a path is that of the front page.
pub fn is_front(state: &State, path: &[u8]) -> bool
    ensures { result ≡ is_front_in state.now.rows path.now }
{
    is_root(path) || path == front_path(state)
}
