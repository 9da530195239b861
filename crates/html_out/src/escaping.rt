//! Escaped text.
ghost use Rattle.std.specs.Prelude.{
  ◌≡◌,
  ◌++◌,
  ◌∷◌,
  ◌<◌,
  ◌≤◌,
  [],
  ℕ,
  List,
  IsTrue,
  IfOk,
  OnOk,
  OnErr,
  true,
  length,
  take,
};
ghost use Rattle.std.specs.List.{list_all};
ghost use Rattle.html_out.specs.Escape.{escaped_byte, escaped, is_inert};

use std::alloc::AllocError;

/// Adds the text to `out`, escaped as Drupal's `Html::escape` does: `&`, `<`, `>`, `"` and `'` as `&amp;`, `&lt;`,
/// `&gt;`, `&quot;` and `&#039;`, each byte by itself. What is escaped already is escaped again.
///
/// `AllocError` comes only for want of memory; then `out` has the bytes that it had.
pub fn escape(out: &mut Vec<u8>, text: &[u8]) -> Result<(), AllocError>
    ensures ok { OnOk result (out.new.items ≡ out.old.items ++ escaped text.now) }
    ensures err { OnErr result (out.new.items ≡ out.old.items) }
{
    let before = out.len();
    let added = add_escaped(out, text);
    if added.is_err() {
        out.truncate(before);
    }
    added
}

/// Escaped, no text has one of `<`, `>`, `"` and `'`, so that it ends no text and no quoted attribute. This takes no
/// step: it is the law.
#[tactic(auto, using(crate::proofs::Inert::escaped_inert))]
pub fn escaped_is_inert()
    ensures { (text : List ℕ) → list_all is_inert (escaped text) ≡ true }
{}

// Adds the escaped text, or for want of memory some of it.
#[tactic(auto, using(crate::proofs::Front::front_of_more))]
fn add_escaped(out: &mut Vec<u8>, text: &[u8]) -> Result<(), AllocError>
    ensures ok { OnOk result (out.new.items ≡ out.old.items ++ escaped text.now) }
    ensures err { OnErr result (take (length out.old.items) out.new.items ≡ out.old.items) }
{
    // as much room as plain text needs, at once
    out.reserve(text.len())?;
    let mut done = 0;
    'runs: while done < text.len() {
        done += add_run(out, &text[done..])?;
    }
    Ok(())
}

// Adds the plain bytes at the front of a text and what stands for the byte behind them, or for want of memory some of
// it. Says how many bytes of the text that were.
#[tactic(auto, using(crate::proofs::Front::front_of_more))]
fn add_run(out: &mut Vec<u8>, text: &[u8]) -> Result<usize, AllocError>
    requires { 0 < length text.now }
    ensures ok { IfOk result (λ n. out.new.items ≡ out.old.items ++ escaped (take n text.now)) }
    ensures some { IfOk result (λ n. 0 < n) }
    ensures within { IfOk result (λ n. n ≤ length text.now) }
    ensures err { OnErr result (take (length out.old.items) out.new.items ≡ out.old.items) }
{
    let plain = plain_front(text);
    out.extend_from_slice(&text[..plain])?;
    if plain == text.len() {
        return Ok(plain);
    }
    add_escaped_byte(out, text[plain])?;
    Ok(plain + 1)
}

// How many bytes at the front of a text stand for themselves.
fn plain_front(text: &[u8]) -> usize
    ensures within { result ≤ length text.now }
    ensures plain { escaped (take result text.now) ≡ take result text.now }
{
    let mut n = 0;
    'bytes: while n < text.len() && is_plain(text[n]) {
        n += 1;
    }
    n
}

// Whether a byte stands for itself.
fn is_plain(byte: u8) -> bool
    ensures { IsTrue result → (escaped_byte byte ≡ byte ∷ []) }
{
    !matches!(byte, b'&' | b'<' | b'>' | b'"' | b'\'')
}

// Adds what stands for a byte.
fn add_escaped_byte(out: &mut Vec<u8>, byte: u8) -> Result<(), AllocError>
    ensures ok { OnOk result (out.new.items ≡ out.old.items ++ escaped_byte byte) }
    ensures err { OnErr result (out.new.items ≡ out.old.items) }
{
    match byte {
        b'&' => out.extend_from_slice(b"&amp;"),
        b'<' => out.extend_from_slice(b"&lt;"),
        b'>' => out.extend_from_slice(b"&gt;"),
        b'"' => out.extend_from_slice(b"&quot;"),
        b'\'' => out.extend_from_slice(b"&#039;"),
        _ => out.extend_from_slice(&[byte]),
    }
}
