//! Texts, each once.
ghost use Rattle.std.specs.Prelude.{◌≡◌, IfOk};
ghost use Rattle.site_targets.specs.Targets.{each_once};

use content_rows::Text;
use std::alloc::{AllocError, Global};
use std::collections::BTreeSet;

/// These texts in their order, each once: what stands again later is left out. `Err` only where memory is wanting.
pub fn each_once(alloc: Global, texts: Vec<Text>) -> Result<Vec<Text>, AllocError>
    ensures { IfOk result (λ once. once.items ≡ each_once texts.items) }
{
    let mut seen = BTreeSet::new(alloc);
    let mut once = Vec::new(alloc);
    'texts: for text in texts {
        if seen.insert(Text::copied(alloc, text.as_slice())?)? {
            once.push(text)?;
        }
    }
    Ok(once)
}
