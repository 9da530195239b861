//! What is printed of serving.
ghost use Rattle.std.specs.Prelude.{◌≡◌, IfOk, OnOk, OnErr};
ghost use Rattle.site_io.specs.Told.{after, AddsFront, Rose};
ghost use Rattle.serve_store.specs.Texts.{listening_text, served_text, warmed_text};

use site_io::{Failed, Sink, write_whole};
use std::alloc::{AllocError, Global};

/// Prints a text, and hands it on at once.
#[tactic(auto, using(crate::proofs::Writes::all_is_front))]
pub(crate) fn announce<O: Sink>(output: &mut O, text: &[u8]) -> Result<(), Failed>
    ensures whole { OnOk result (O.written output.new ≡ after (O.written output.old) text.now) }
    ensures front { OnErr result (AddsFront (O.written output.old) (O.written output.new) text.now) }
    ensures cause { OnErr result (Rose (O.faults output.old) (O.faults output.new)) }
    ensures steady { OnOk result (O.faults output.new ≡ O.faults output.old) }
{
    write_whole(output, text)?;
    output.flush()
}

/// What is printed once the doors at an address are open.
pub(crate) fn listening_text(alloc: Global, address: &str) -> Result<Vec<u8>, AllocError>
    ensures { IfOk result (λ text. text.items ≡ listening_text address.now) }
{
    let mut text = Vec::from_slice(alloc, b"listening ")?;
    text.extend_from_slice(address.as_bytes())?;
    text.extend_from_slice(b"\n")?;
    Ok(text)
}

/// What is printed once so many pages were rendered.
pub(crate) fn warmed_text(alloc: Global, count: u64) -> Result<Vec<u8>, AllocError>
    ensures { IfOk result (λ text. text.items ≡ warmed_text count) }
{
    let digits = count.to_string(alloc)?;
    let mut text = Vec::from_slice(alloc, b"warmed ")?;
    text.extend_from_slice(digits.as_bytes())?;
    text.extend_from_slice(b"\n")?;
    Ok(text)
}

/// What is printed once so many connections were served.
pub(crate) fn served_text(alloc: Global, count: u64) -> Result<Vec<u8>, AllocError>
    ensures { IfOk result (λ text. text.items ≡ served_text count) }
{
    let digits = count.to_string(alloc)?;
    let mut text = Vec::from_slice(alloc, b"served ")?;
    text.extend_from_slice(digits.as_bytes())?;
    text.extend_from_slice(b"\n")?;
    Ok(text)
}
