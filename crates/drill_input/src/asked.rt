//! Requests, drawn.
ghost use Rattle.std.specs.Prelude.{◌≡◌, ◌≤◌, ◌+◌, ◌++◌, ◌^◌, ℕ, List, OnOk, IfOk, codes, length};
ghost use Rattle.drill_input.specs.Asked.{and_by, and_edit, and_listing_page, and_node_page, and_rebuild, and_request, asked, cookie_line, get_text, get_with, patch_text, rebuild_text, title_body, version_of};
ghost use Rattle.drill_input.specs.SiteDrawn.{numbered};

use crate::draws::Draws;
use crate::words::numbered;
use std::alloc::{AllocError, Global};
use std::marker::Model;

/// The number that stands for a viewer who isn't logged in.
const NOBODY: u32 = 10;

/// The requests so far, one after the other, the nodes that they edit, and what the next ones are drawn from.
#[derive(Drop)]
pub struct Requests {
    text: Vec<u8>,
    edited: Vec<u32>,
    draws: Draws,
}

impl Model for Requests {
    ghost use Rattle.drill_input.specs.Asked.{Asked};

    ghost Value = { Asked };

    ghost view = { λ r. record { text = r.text.items; edited = r.edited.items; seed = r.draws } };
}

/// A text with more bytes at its end. `Err` where memory is wanting, or was wanting before.
fn with_bytes(text: Result<Vec<u8>, AllocError>, bytes: &[u8]) -> Result<Vec<u8>, AllocError>
    ensures { (before : List ℕ) → IfOk text (λ t. t.items ≡ before) → IfOk result (λ t. t.items ≡ before ++ bytes.now) }
{
    let mut text = text?;
    text.extend_from_slice(bytes)?;
    Ok(text)
}

/// The line that says who asks.
fn cookie_line(alloc: Global, viewer: u32) -> Result<Vec<u8>, AllocError>
    ensures { IfOk result (λ line. line.items ≡ cookie_line viewer) }
{
    if viewer == NOBODY {
        return Ok(Vec::new(alloc));
    }
    let mut line = numbered(alloc, b"Cookie: SESS=s", viewer)?;
    line.extend_from_slice(b"\r\n")?;
    Ok(line)
}

/// A request to see what a target shows, with this line of a cookie.
fn get_with(alloc: Global, target: &[u8], cookie: &[u8]) -> Result<Vec<u8>, AllocError>
    ensures { IfOk result (λ text. text.items ≡ get_with target.now cookie.now) }
{
    let text = Vec::from_slice(alloc, b"GET ");
    let text = with_bytes(text, target);
    let text = with_bytes(text, b" HTTP/1.1\r\nHost: a\r\n");
    let text = with_bytes(text, cookie);
    with_bytes(text, b"\r\n")
}

/// A request to see what a target shows.
#[tactic(auto, unfolding(crate::specs::Asked::get_text))]
fn get_text(alloc: Global, target: &[u8], viewer: u32) -> Result<Vec<u8>, AllocError>
    ensures { IfOk result (λ text. text.items ≡ get_text target.now viewer) }
{
    let cookie = cookie_line(alloc, viewer)?;
    get_with(alloc, target, &cookie)
}

/// A request to see what a target shows that ends in a number.
fn get_numbered(alloc: Global, word: &[u8], number: u32, viewer: u32) -> Result<Vec<u8>, AllocError>
    ensures { IfOk result (λ text. text.items ≡ get_text (numbered word.now number) viewer) }
{
    let target = numbered(alloc, word, number)?;
    get_text(alloc, &target, viewer)
}

/// The body of an edit of a title.
#[tactic(auto, unfolding(crate::specs::Asked::title_body))]
fn title_body(alloc: Global, title: u32, version: u64) -> Result<Vec<u8>, AllocError>
    ensures { IfOk result (λ body. body.items ≡ title_body title version) }
{
    let digits = version.to_string(alloc)?;
    let body = numbered(alloc, b"{\"title\":\"m", title);
    let body = with_bytes(body, b"\",\"vid\":");
    let body = with_bytes(body, digits.as_bytes());
    with_bytes(body, b"}")
}

/// A request to edit a node.
#[tactic(auto, unfolding(crate::specs::Asked::patch_text, crate::specs::Asked::session_lines))]
fn patch_text(alloc: Global, node: u32, body: &[u8]) -> Result<Vec<u8>, AllocError>
    ensures { IfOk result (λ text. text.items ≡ patch_text node body.now) }
{
    let digits = body.len().to_string(alloc)?;
    let text = numbered(alloc, b"PATCH /node/", node);
    let text = with_bytes(text, b" HTTP/1.1\r\n");
    let text = with_bytes(
        text,
        b"Host: a\r\nCookie: SESS=abc\r\nX-CSRF-Token: ba7816bf8f01cfea414140de5dae2223\r\n",
    );
    let text = with_bytes(text, b"Content-Type: application/json\r\nContent-Length: ");
    let text = with_bytes(text, digits.as_bytes());
    let text = with_bytes(text, b"\r\n\r\n");
    with_bytes(text, body)
}

/// A request to rebuild the caches.
#[tactic(auto, unfolding(crate::specs::Asked::rebuild_text, crate::specs::Asked::session_lines))]
fn rebuild_text(alloc: Global) -> Result<Vec<u8>, AllocError>
    ensures { IfOk result (λ text. text.items ≡ rebuild_text) }
{
    let text = Vec::from_slice(alloc, b"POST /cache/rebuild HTTP/1.1\r\n");
    let text = with_bytes(
        text,
        b"Host: a\r\nCookie: SESS=abc\r\nX-CSRF-Token: ba7816bf8f01cfea414140de5dae2223\r\n",
    );
    with_bytes(text, b"\r\n")
}

/// The version of a node that these edits made.
fn version_of(edited: &[u32], node: u32) -> u64
    ensures { result ≡ version_of edited.now node }
{
    let mut version = 1;
    'edits: for other in edited {
        if *other == node {
            version += 1;
        }
    }
    version
}

impl Requests {
    /// No requests yet, the first of which is to be drawn from these numbers.
    #[tactic(auto, unfolding(crate::specs::Asked::asked))]
    fn new(alloc: Global, draws: Draws) -> Requests
        ensures { result ≡ asked 0 draws }
    {
        Requests {
            text: Vec::new(alloc),
            edited: Vec::new(alloc),
            draws,
        }
    }

    /// The text of the requests, one after the other.
    pub fn into_text(self) -> Vec<u8>
        ensures { result.items ≡ self.text }
    {
        self.text
    }

    /// Adds a request to see a node.
    fn add_node_page(&mut self, alloc: Global) -> Result<(), AllocError>
        ensures { OnOk result (self.new ≡ and_node_page self.old) }
    {
        let node = 1 + self.draws.draw(200);
        let viewer = 2 + self.draws.draw(9);
        let request = get_numbered(alloc, b"/node/", node, viewer)?;
        self.text.extend_from_slice(&request)?;
        Ok(())
    }

    /// Adds a request to see a page of the front page's listing.
    fn add_listing_page(&mut self, alloc: Global) -> Result<(), AllocError>
        ensures { OnOk result (self.new ≡ and_listing_page self.old) }
    {
        let page = self.draws.draw(21);
        let viewer = 2 + self.draws.draw(9);
        let request = get_numbered(alloc, b"/node?page=", page, viewer)?;
        self.text.extend_from_slice(&request)?;
        Ok(())
    }

    /// Adds a request to give a node a new title.
    fn add_edit(&mut self, alloc: Global) -> Result<(), AllocError>
        ensures { OnOk result (self.new ≡ and_edit self.old) }
    {
        let node = 1 + self.draws.draw(200);
        let title = self.draws.draw(1000);
        let body = title_body(alloc, title, version_of(&self.edited, node))?;
        let request = patch_text(alloc, node, &body)?;
        self.text.extend_from_slice(&request)?;
        self.edited.push(node)?;
        Ok(())
    }

    /// Adds a request to rebuild the caches or to see the front page.
    fn add_rebuild(&mut self, alloc: Global) -> Result<(), AllocError>
        ensures { OnOk result (self.new ≡ and_rebuild self.old) }
    {
        if self.draws.draw(4) == 0 {
            return self.text.extend_from_slice(&rebuild_text(alloc)?);
        }
        let request = get_text(alloc, b"/node", NOBODY)?;
        self.text.extend_from_slice(&request)?;
        Ok(())
    }

    /// Adds one more request.
    fn add_one(&mut self, alloc: Global) -> Result<(), AllocError>
        ensures { OnOk result (self.new ≡ and_request self.old) }
    {
        match self.draws.draw(10) {
            0..=6 => self.add_node_page(alloc),
            7 => self.add_listing_page(alloc),
            8 => self.add_edit(alloc),
            _ => self.add_rebuild(alloc),
        }
    }
}

/// The first `count` requests that are drawn. `Err` only where memory is wanting.
#[tactic(auto, using(crate::proofs::Folds::next_asked))]
pub fn requests_after(alloc: Global, draws: Draws, count: u32) -> Result<Requests, AllocError>
    ensures { IfOk result (λ requests. requests ≡ asked count draws) }
{
    let mut requests = Requests::new(alloc, draws);
    'requests: for _index in 0..count {
        requests.add_one(alloc)?;
    }
    Ok(requests)
}
