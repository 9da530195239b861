//! The targets that a visitor without a session gets.
ghost use Rattle.std.specs.Prelude.{◌≡◌, IfOk};
ghost use Rattle.indexed_rows.specs.Rows.{AreValidRows};
ghost use Rattle.site_targets.specs.Targets.{targets_of, targets_text, AreTargets};

use crate::canonical::canonical;
use crate::once::each_once;
use crate::open::{nobody, open_among};
use content_rows::Text;
use content_state::State;
use std::alloc::{AllocError, Global};

/// The canonical targets of a state that give a visitor without a session a page of status 200, in their order, each once: `/`,
/// the users, the terms, the nodes, the listings that have a path, each kind in the order of its cells, and the login
/// form. No page is built: each target costs finding its route and deciding about access. `Err` only where memory is
/// wanting.
pub fn targets(alloc: Global, state: &State) -> Result<Vec<Text>, AllocError>
    requires { AreValidRows state.now.rows }
    ensures exactly { IfOk result (λ targets. targets.items ≡ targets_of state.now.rows) }
    ensures meaning { IfOk result (λ targets. AreTargets state.now.rows targets.items) }
{
    let account = nobody(alloc, state)?;
    let canonical = canonical(alloc, state)?;
    let passed = open_among(alloc, state, &account, canonical)?;
    each_once(alloc, passed)
}

/// The text of the targets of a state: each, with a line feed after it. `Err` only where memory is wanting.
pub fn targets_text(alloc: Global, state: &State) -> Result<Vec<u8>, AllocError>
    requires { AreValidRows state.now.rows }
    ensures { IfOk result (λ text. text.items ≡ targets_text state.now) }
{
    let targets = targets(alloc, state)?;
    let mut text = Vec::new(alloc);
    'targets: for target in &targets {
        text.extend_from_slice(target.as_slice())?;
        text.push(b'\n')?;
    }
    Ok(text)
}
